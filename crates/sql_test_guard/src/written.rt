//! Where predicates stand.

use crate::fixture::{aliased, all_posts, inner_joined, left_joined, restricts};
use sql_expr::Statement;
use sql_select::{CombineDsl, Query};
use sql_test_calls::fixture::ids;
use sql_test_kit::{beside, schema};
use std::alloc::Global;
use std::test::Fail;

#[test]
fn right_of_a_left_join_in_on(rt: HostRuntime) -> Result<(), Fail> {
    let alloc = rt.alloc();
    let schema = schema(alloc)?;
    restricts(
        alloc,
        left_joined(alloc, &schema),
        "SELECT \"users\".\"id\" FROM (\"users\" LEFT OUTER JOIN \"posts\" ON ((\"posts\".\"user_id\" = \"users\".\"id\") AND (\"posts\".\"user_id\" = $1)))",
    )
}

#[test]
fn of_an_inner_join_in_where(rt: HostRuntime) -> Result<(), Fail> {
    let alloc = rt.alloc();
    let schema = schema(alloc)?;
    restricts(
        alloc,
        inner_joined(alloc, &schema),
        "SELECT \"users\".\"id\" FROM (\"users\" INNER JOIN \"posts\" ON (\"posts\".\"user_id\" = \"users\".\"id\")) WHERE (\"posts\".\"user_id\" = $1)",
    )
}

#[test]
fn of_an_alias_by_its_fields(rt: HostRuntime) -> Result<(), Fail> {
    let alloc = rt.alloc();
    restricts(
        alloc,
        aliased(alloc),
        "SELECT \"p\".\"id\", \"p\".\"user_id\" FROM \"posts\" AS \"p\" WHERE (\"p\".\"user_id\" = $1)",
    )
}

#[test]
fn of_another_table_nowhere(rt: HostRuntime) -> Result<(), Fail> {
    let alloc = rt.alloc();
    let users = ids(alloc)?.into_statement();
    restricts(alloc, Ok(users), "SELECT \"users\".\"id\" FROM \"users\"")
}

/// All posts, twice.
fn both(alloc: Global) -> Result<Statement, Fail> {
    let (left, right) = beside(all_posts(alloc)?, all_posts(alloc))?;
    let both = left.union_all(alloc, right.into_statement())?;
    Ok(both.into_statement())
}

#[test]
fn in_both_sides_of_a_combination(rt: HostRuntime) -> Result<(), Fail> {
    let alloc = rt.alloc();
    restricts(
        alloc,
        both(alloc),
        "(SELECT \"posts\".\"id\", \"posts\".\"user_id\" FROM \"posts\" WHERE (\"posts\".\"user_id\" = $1)) UNION ALL (SELECT \"posts\".\"id\", \"posts\".\"user_id\" FROM \"posts\" WHERE (\"posts\".\"user_id\" = $2))",
    )
}
