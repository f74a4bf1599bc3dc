//! The program's public calls that can answer NoMemory, made once with memory to spare: each gives what it would give, and not
//! that answer. Those of the libraries are in the crates of tests.

use sql_build::{statement, statement_to_restrict};
use sql_dialect::Dialect;
use sql_tool_document::{Document, read_document};
use sql_tool_generate::generate;
use sql_tool_read::reading_line;
use sql_tool_run::{Status, run};
use sql_tool_stream::{MemorySink, SureSource, read_all};
use std::alloc::Global;
use std::num::NonZeroUsize;
use std::test::Fail;

const DOCUMENT: &str =
    "{\"schema\":{\"tables\":[{\"name\":\"foo\",\"columns\":[{\"name\":\"id\",\"type\":\"Integer\"}]}]},\"requests\":[{\"dialect\":\"Pg\",\"query\":{\"from\":{\"table\":\"foo\"}}}]}";

const LINE: &str =
    "{\"binds\":[],\"columns\":[\"Integer\"],\"id\":1,\"safe\":true,\"sql\":\"SELECT \\\"foo\\\".\\\"id\\\" FROM \\\"foo\\\"\"}\n";

/// The summary of the first generated request.
const SUM: &str =
    "{\"accepted\":1,\"binds\":1,\"bytes\":74,\"ids\":1,\"refused\":{},\"requests\":1}\n";

/// The line for `SELECT ?`.
const TOLD: &str = "{\"placeholders\":1,\"sql\":\"SELECT ?\"}\n";

fn source(alloc: Global) -> Result<SureSource, Fail> {
    Ok(SureSource::new(Vec::from_slice(alloc, DOCUMENT.as_bytes())?))
}

fn documents(alloc: Global) -> Result<(), Fail> {
    let mut from = source(alloc)?;
    let bytes = read_all(alloc, &mut from, 1000)?;
    let document: Document = read_document(alloc, bytes.as_slice())?;
    let request = document.requests.as_slice().first().ok_or("no request")?;
    let made = statement(alloc, &document.schema, request.dialect, &request.query)?;
    let to_restrict = statement_to_restrict(
        alloc,
        &document.schema,
        request.dialect,
        &request.query,
    )?;
    let are_made = made.is_some() && to_restrict.is_some();
    drop(made);
    drop(to_restrict);
    if are_made {
        Ok(())
    } else {
        Err("no statement")?
    }
}

fn the_program(alloc: Global) -> Result<(), Fail> {
    let words = vec![in alloc; String::from_str(alloc, "build")?]?;
    let mut from = source(alloc)?;
    let mut to = MemorySink::new(alloc, 1000, NonZeroUsize::MAX, Vec::new(alloc))?;
    let status = run(alloc, words.as_slice(), &mut from, &mut to);
    if status == Status::Done && to.bytes() == LINE.as_bytes() {
        Ok(())
    } else {
        Err(status.name())?
    }
}

fn lines(alloc: Global) -> Result<(), Fail> {
    let sum = generate(alloc, 1)?;
    let told = reading_line(alloc, Dialect::Sqlite, "SELECT ?")?;
    if sum.as_str() == SUM && told.as_str() == TOLD {
        Ok(())
    } else {
        Err("other lines")?
    }
}

#[test]
fn every_call_once(rt: HostRuntime) -> Result<(), Fail> {
    let alloc = rt.alloc();
    documents(alloc)?;
    lines(alloc)?;
    the_program(alloc)
}
