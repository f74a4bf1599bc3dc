//! The public calls of the guard that can answer NoMemory, each made once with memory to spare.

use crate::fixture::{all_posts, owned};
use crate::policed::policies;
use sql_expr::{Expr, Statement};
use sql_guard::{Policy, count_predicates, restrict, restrict_all};
use sql_schema::Table;
use sql_select::Query;
use sql_test_kit::{beside, gives, is, table};
use std::alloc::Global;
use std::test::Fail;

fn is_restricted(
    alloc: Global,
    statement: Statement,
    predicate: Expr,
    posts: &Table,
) -> Result<(), Fail> {
    let restricted = restrict(alloc, &statement, posts, &predicate);
    drop(statement);
    drop(predicate);
    gives(
        alloc,
        restricted,
        "SELECT \"posts\".\"id\", \"posts\".\"user_id\" FROM \"posts\" WHERE (\"posts\".\"user_id\" = $1)",
    )
}

fn is_guarded(alloc: Global, statement: Statement, policies: Vec<Policy>) -> Result<(), Fail> {
    let guarded = restrict_all(alloc, &statement, &policies);
    drop(statement);
    gives(
        alloc,
        guarded,
        "SELECT \"posts\".\"id\", \"posts\".\"user_id\" FROM \"posts\" WHERE (\"posts\".\"user_id\" = $1)",
    )
}

fn is_counted(alloc: Global, statement: Statement, policies: Vec<Policy>) -> Result<(), Fail> {
    let count = count_predicates(alloc, &policies, &statement);
    drop(statement);
    drop(policies);
    is(count? == 1, "one predicate")
}

#[test]
fn every_call_once(rt: HostRuntime) -> Result<(), Fail> {
    let alloc = rt.alloc();
    let posts = table(alloc, "posts")?;
    let (statement, owned) = beside(all_posts(alloc)?.into_statement(), owned(alloc))?;
    is_restricted(alloc, statement, owned, &posts)?;
    let (statement, guards) = beside(all_posts(alloc)?.into_statement(), policies(alloc))?;
    is_guarded(alloc, statement, guards)?;
    let (statement, guards) = beside(all_posts(alloc)?.into_statement(), policies(alloc))?;
    is_counted(alloc, statement, guards)
}
