//! Tests of the answers to requests, generated ones among them.

use crate::examples::{FILTER, FILTERED};
use sql_dialect::Dialect;
use sql_key::QueryId;
use sql_node::Statement;
use sql_schema::Schema;
use sql_test_kit::is;
use sql_tool_build::{
    NamedRequest, Names, StatementCache, compile_cached_for, refusal_line, request_id,
    request_line, statement_line,
};
use sql_tool_document::{Document, Request, read_document, read_schema};
use sql_tool_series::{Form, Named, series_schema};
use std::alloc::Global;
use std::collections::BTreeMap;
use std::num::NonZeroUsize;
use std::test::Fail;

const BY_ID: &str =
    "SELECT \"users\".\"id\", \"users\".\"name\" FROM \"users\" WHERE (\"users\".\"id\" = $1)";

const BY_ID_LINE: &str =
    "{\"binds\":[[\"Integer\",7]],\"columns\":[\"Integer\",\"Text\"],\"id\":1,\"safe\":true,\"sql\":\"SELECT \\\"users\\\".\\\"id\\\", \\\"users\\\".\\\"name\\\" FROM \\\"users\\\" WHERE (\\\"users\\\".\\\"id\\\" = $1)\"}\n";

pub(crate) fn every_call(alloc: Global) -> Result<(), Fail> {
    let refused = refusal_line(alloc, "EmptyList")?;
    is(
        refused.as_str() == "{\"refused\":\"EmptyList\"}\n",
        "a refusal",
    )?;
    let schema = read_schema(alloc, FILTER.as_bytes())?;
    is(!schema.tables().is_empty(), "a schema")?;
    of_document(alloc)?;
    let statement = by_id(alloc)?;
    let told = of_statement(alloc, &statement);
    drop(statement);
    told
}

/// The generated statement of the user 7.
fn by_id(alloc: Global) -> Result<Statement, Fail> {
    let named = Named::new(alloc)?;
    Ok(named.statement(alloc, Form::ById, Dialect::Pg, 7)?)
}

fn of_document(alloc: Global) -> Result<(), Fail> {
    let Document { schema, requests } = read_document(alloc, FILTER.as_bytes())?;
    let told = match requests.as_slice().first() {
        Some(request) => of_request(alloc, schema, request),
        None => is(false, "a request"),
    };
    drop(requests);
    told
}

/// The second time the cache has the answer.
fn of_request(alloc: Global, schema: Schema, request: &Request) -> Result<(), Fail> {
    let mut cache = StatementCache::new(alloc, schema, NonZeroUsize::MIN)?;
    let mut seen: BTreeMap<NamedRequest, u64> = BTreeMap::new(alloc);
    let line = request_line(alloc, &mut cache, &mut seen, 1, request)?;
    is(line.as_str() == FILTERED, "the line")?;
    let again = request_line(alloc, &mut cache, &mut seen, 2, request)?;
    is(again.as_str() == FILTERED, "the same line")?;
    is(cache.hits() == 1, "a kept answer")
}

fn of_statement(alloc: Global, statement: &Statement) -> Result<(), Fail> {
    let mut cache = StatementCache::new(alloc, series_schema(alloc)?, NonZeroUsize::MIN)?;
    is_compiled(alloc, &mut cache, statement)?;
    let mut seen: BTreeMap<NamedRequest, u64> = BTreeMap::new(alloc);
    let names = Names::Asked;
    let line = statement_line(
        alloc,
        &mut cache,
        &mut seen,
        1,
        Dialect::Pg,
        names,
        statement,
    )?;
    is(line.as_str() == BY_ID_LINE, "a statement's line")?;
    is(cache.hits() == 1, "an answer that was kept")?;
    let key = statement.query_id(alloc)?;
    let id = request_id(&mut seen, Dialect::Pg, key, 2)?;
    is(id == Some(1), "the number of the first request")
}

fn is_compiled(
    alloc: Global,
    cache: &mut StatementCache,
    statement: &Statement,
) -> Result<(), Fail> {
    let built = compile_cached_for(alloc, Dialect::Pg, Names::Asked, cache, statement)?;
    is(built.sql.as_str() == BY_ID, "the text")
}
