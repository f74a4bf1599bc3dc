//! Raw queries and the line that shows a part.

use sql_dialect::{Backend, Pg, QueryBuilder};
use sql_pass::ToSql;
use sql_raw::{BoxedSqlQuery, Empty, SqlQuery, debug_query, sql_query};
use sql_test_kit::{reads, writes};
use std::alloc::{AllocError, Global};
use std::test::Fail;

pub fn every_call(alloc: Global) -> Result<(), Fail> {
    writes(alloc, Empty, "")?;
    writes(alloc, SqlQuery::sql(raw(alloc)?, " + 1")?, "SELECT $1 + 1")?;
    writes(alloc, raw(alloc)?.bind(1i32.bound(alloc)?), "SELECT $1")?;
    let boxed = BoxedSqlQuery::sql(raw(alloc)?.into_boxed::<Pg>(alloc), " + 1")?;
    let boxed = BoxedSqlQuery::bind(boxed, 1i32.bound(alloc)?)?;
    writes(alloc, boxed, "SELECT $1 + 1")?;
    shown(alloc)
}

fn raw(alloc: Global) -> Result<SqlQuery, AllocError> {
    Ok(sql_query(String::from_str(alloc, "SELECT $1")?))
}

fn shown(alloc: Global) -> Result<(), Fail> {
    let line = debug_query(alloc, &Pg, &raw(alloc)?)?;
    reads(format!(in alloc; "{line}")?, "SELECT $1 -- binds: []")
}
