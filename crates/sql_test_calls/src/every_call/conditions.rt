//! The calls that add to a condition.

use crate::fixture::{id, one};
use sql_expr::{Expr, WhereAnd, WhereClause, WhereOr};
use sql_test_kit::{beside, writes};
use std::alloc::Global;
use std::test::Fail;

pub fn every_call(alloc: Global) -> Result<(), Fail> {
    let (left, right) = operands(alloc)?;
    let both = WhereClause::WhereClause(left).and(alloc, right)?;
    writes(alloc, both, " WHERE (\"users\".\"id\" AND $1)")?;
    let (left, right) = operands(alloc)?;
    let either = WhereClause::WhereClause(left).or(alloc, right)?;
    writes(alloc, either, " WHERE (\"users\".\"id\" OR $1)")
}

fn operands(alloc: Global) -> Result<(Expr, Expr), Fail> {
    beside(id(alloc)?, one(alloc))
}
