//! Calls with a request that nests too deep: they answer the requests before it, and a session goes on.

use sql_test_kit::is;
use sql_tool_session::{Capacity, Command, Responder, Status, answer};
use std::alloc::{AllocError, Global};
use std::test::Fail;

/// As many levels as make a statement over one table nest one too deep.
const LEVELS: usize = 2498;

const TABLE: &str =
    r#"{"schema":{"tables":[{"name":"foo","columns":[{"name":"id","type":"Integer"}]}]},"requests":["#;

const NO_TABLE: &str = r#"{"schema":{"tables":[]},"requests":["#;

const PG: &str = r#"{"dialect":"Pg","query":{"from":{"table":"foo"}}}"#;

const PG_LINE: &str =
    "{\"binds\":[],\"columns\":[\"Integer\"],\"id\":1,\"safe\":true,\"sql\":\"SELECT \\\"foo\\\".\\\"id\\\" FROM \\\"foo\\\"\"}\n";

const SQLITE: &str = r#"{"dialect":"Sqlite","query":{"from":{"table":"foo"}}}"#;

/// The session's second request: the deep one before it is not counted.
const SQLITE_LINE: &str =
    "{\"binds\":[],\"columns\":[\"Integer\"],\"id\":2,\"safe\":true,\"sql\":\"SELECT `foo`.`id` FROM `foo`\"}\n";

const REST: &str =
    r#"{"schema":{"tables":[]},"requests":[{"dialect":"Pg","query":{"from":{"table":"foo"}}},{"dialect":"Mysql","query":{"from":{"table":"foo"}}}]}"#;

/// The session's third request, of the first one's shape, and its fourth.
const REST_LINES: &str =
    "{\"binds\":[],\"columns\":[\"Integer\"],\"id\":1,\"safe\":true,\"sql\":\"SELECT \\\"foo\\\".\\\"id\\\" FROM \\\"foo\\\"\"}\n{\"binds\":[],\"columns\":[\"Integer\"],\"id\":4,\"safe\":true,\"sql\":\"SELECT `foo`.`id` FROM `foo`\"}\n";

/// A document that begins so and has three requests: this one, one that nests too deep, and this one again.
fn around_deep(alloc: Global, start: &str, request: &str) -> Result<String, AllocError> {
    let mut document = String::from_str(alloc, start)?;
    document.push_str(request)?;
    document.push_str(r#",{"dialect":"Pg","query":{"from":{"table":"foo"},"calls":["#)?;
    for _ in 1..LEVELS {
        document.push_str("[\"nullable\"],")?;
    }
    document.push_str("[\"nullable\"]]}},")?;
    document.push_str(request)?;
    document.push_str("]}")?;
    Ok(document)
}

fn is_cut(responder: &Responder, status: Status, lines: &str) -> Result<(), Fail> {
    is(status == Status::NoMemory, status.name())?;
    is(
        responder.answer().as_slice() == lines.as_bytes(),
        "the lines before",
    )
}

fn opens(alloc: Global, responder: &mut Responder) -> Result<(), Fail> {
    let document = around_deep(alloc, TABLE, PG)?;
    let status = responder.open(alloc, Capacity::usual(), document.as_bytes());
    is_cut(responder, status, PG_LINE)
}

fn goes_on(alloc: Global, responder: &mut Responder) -> Result<(), Fail> {
    let document = around_deep(alloc, NO_TABLE, SQLITE)?;
    let status = responder.next(alloc, document.as_bytes());
    is_cut(responder, status, SQLITE_LINE)?;
    let status = responder.next(alloc, REST.as_bytes());
    is(status == Status::Done, status.name())?;
    is(
        responder.answer().as_slice() == REST_LINES.as_bytes(),
        "the lines of the rest",
    )
}

fn asks(alloc: Global, responder: &mut Responder) -> Result<(), Fail> {
    let document = around_deep(alloc, TABLE, PG)?;
    let status = responder.ask(alloc, Command::Build, document.as_bytes());
    is_cut(responder, status, PG_LINE)
}

fn all_calls(alloc: Global, responder: &mut Responder) -> Result<(), Fail> {
    opens(alloc, responder)?;
    asks(alloc, responder)?;
    goes_on(alloc, responder)
}

#[test]
fn sessions_answer_before_a_deep_request(rt: HostRuntime) -> Result<(), Fail> {
    let mut responder = Responder::new(rt.alloc());
    let told = all_calls(rt.alloc(), &mut responder);
    drop(responder);
    told
}

#[test]
fn commands_answer_before_a_deep_request(rt: HostRuntime) -> Result<(), Fail> {
    let alloc = rt.alloc();
    let document = around_deep(alloc, TABLE, PG)?;
    let reply = answer(alloc, Command::Build, document.as_bytes());
    is(reply.status == Status::NoMemory, reply.status.name())?;
    is(
        reply.lines.as_slice() == PG_LINE.as_bytes(),
        "the lines before",
    )
}
