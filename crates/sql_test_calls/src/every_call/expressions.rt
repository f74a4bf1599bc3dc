//! The calls that make expressions.

use crate::fixture::{id, ids, one};
use sql_expr::{Expr, ExpressionMethods, InValues, count, exists, not, value};
use sql_pass::Value;
use sql_schema::SqlList;
use sql_select::Query;
use sql_test_kit::{INTEGER, beside, gives, writes};
use std::alloc::Global;
use std::test::Fail;

pub fn every_call(alloc: Global) -> Result<(), Fail> {
    comparisons(alloc)?;
    tests(alloc)?;
    memberships(alloc)?;
    calls(alloc)
}

fn operands(alloc: Global) -> Result<(Expr, Expr), Fail> {
    beside(id(alloc)?, one(alloc))
}

fn comparisons(alloc: Global) -> Result<(), Fail> {
    let (left, right) = operands(alloc)?;
    gives(alloc, left.eq(alloc, right), "(\"users\".\"id\" = $1)")?;
    let (left, right) = operands(alloc)?;
    gives(alloc, left.ne(alloc, right), "(\"users\".\"id\" != $1)")?;
    let (left, right) = operands(alloc)?;
    gives(alloc, left.gt(alloc, right), "(\"users\".\"id\" > $1)")?;
    let (left, right) = operands(alloc)?;
    gives(alloc, left.ge(alloc, right), "(\"users\".\"id\" >= $1)")?;
    let (left, right) = operands(alloc)?;
    gives(alloc, left.lt(alloc, right), "(\"users\".\"id\" < $1)")?;
    let (left, right) = operands(alloc)?;
    gives(alloc, left.le(alloc, right), "(\"users\".\"id\" <= $1)")
}

fn tests(alloc: Global) -> Result<(), Fail> {
    let (left, right) = operands(alloc)?;
    gives(alloc, left.and(alloc, right), "(\"users\".\"id\" AND $1)")?;
    let (left, right) = operands(alloc)?;
    gives(alloc, left.or(alloc, right), "(\"users\".\"id\" OR $1)")?;
    gives(
        alloc,
        id(alloc)?.is_null(alloc),
        "(\"users\".\"id\" IS NULL)",
    )?;
    gives(
        alloc,
        id(alloc)?.is_not_null(alloc),
        "(\"users\".\"id\" IS NOT NULL)",
    )?;
    gives(alloc, id(alloc)?.nullable(alloc), "\"users\".\"id\"")
}

/// The list of the value 1.
fn among(alloc: Global) -> Result<InValues, Fail> {
    let values = vec![in alloc; Value::Integer(1)]?;
    Ok(InValues::List(INTEGER, SqlList::from(values)))
}

fn memberships(alloc: Global) -> Result<(), Fail> {
    let (sought, values) = beside(id(alloc)?, among(alloc))?;
    gives(
        alloc,
        sought.eq_any(alloc, values),
        "(\"users\".\"id\" = ANY($1))",
    )?;
    let (sought, values) = beside(id(alloc)?, among(alloc))?;
    gives(
        alloc,
        sought.ne_all(alloc, values),
        "(\"users\".\"id\" != ALL($1))",
    )
}

fn calls(alloc: Global) -> Result<(), Fail> {
    gives(alloc, not(alloc, id(alloc)?), "NOT (\"users\".\"id\")")?;
    gives(alloc, count(alloc, id(alloc)?), "COUNT(\"users\".\"id\")")?;
    let of_value: Option<Expr> = value(alloc, &"a")?;
    writes(alloc, of_value, "$1")?;
    gives(
        alloc,
        exists(alloc, ids(alloc)?.into_statement()),
        "EXISTS (SELECT \"users\".\"id\" FROM \"users\")",
    )
}
