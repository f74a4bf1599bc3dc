//! The text of an expression that stands alone.

use super::fixture::{id, one};
use sql_expr::{Expr, ExpressionMethods, not};
use sql_test_kit::{beside, column, gives};
use std::alloc::Global;
use std::test::Fail;

/// `NOT (("users"."name" IS NULL))`.
fn has_name(alloc: Global) -> Result<Expr, Fail> {
    let name = Expr::Column(column(alloc, "users", "name")?);
    Ok(not(alloc, name.is_null(alloc)?)?)
}

#[test]
fn brackets_around_each_operation(rt: HostRuntime) -> Result<(), Fail> {
    let alloc = rt.alloc();
    let (left, right) = beside(id(alloc)?, one(alloc))?;
    let (is_one, has_name) = beside(left.eq(alloc, right)?, has_name(alloc))?;
    gives(
        alloc,
        is_one.and(alloc, has_name),
        r#"(("users"."id" = $1) AND NOT (("users"."name" IS NULL)))"#,
    )
}
