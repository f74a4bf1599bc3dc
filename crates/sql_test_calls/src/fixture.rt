//! Nodes over the schema that the tests share.

use sql_expr::{Expr, SelectStatement, value};
use sql_select::{AsQuery, QueryDsl};
use sql_test_kit::{beside, column, table};
use std::alloc::Global;
use std::test::Fail;

/// `"users"."id"`.
pub fn id(alloc: Global) -> Result<Expr, Fail> {
    Ok(Expr::Column(column(alloc, "users", "id")?))
}

/// `$1`.
pub fn one(alloc: Global) -> Result<Expr, Fail> {
    Ok(value(alloc, &1i32)?.ok_or("a list")?)
}

/// `SELECT "users"."id", "users"."name" FROM "users"`.
pub fn all(alloc: Global) -> Result<SelectStatement, Fail> {
    Ok(table(alloc, "users")?.as_query(alloc)?)
}

/// `SELECT "users"."id" FROM "users"`.
pub fn ids(alloc: Global) -> Result<SelectStatement, Fail> {
    let (all, id) = beside(all(alloc)?, id(alloc))?;
    Ok(all.select(id))
}
