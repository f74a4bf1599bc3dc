//! Statements guarded by policies: where predicates stand at each depth, and what is refused.

use crate::fixture::{all_posts, left_joined, owned};
use sql_expr::{Expr, ExpressionMethods, Statement, count_star, exists};
use sql_guard::{Policy, RestrictError, restrict_all};
use sql_select::{Query, QueryDsl};
use sql_test_calls::fixture::ids;
use sql_test_kit::{beside, gives, is, schema, table};
use std::alloc::Global;
use std::test::Fail;

/// All users.
fn shared(alloc: Global) -> Result<Policy, Fail> {
    let table = table(alloc, "users")?;
    Ok(Policy {
        table,
        predicate: None,
    })
}

/// The posts for which it is true.
fn of_posts(alloc: Global, predicate: Result<Expr, Fail>) -> Result<Policy, Fail> {
    let (predicate, table) = beside(predicate?, table(alloc, "posts"))?;
    Ok(Policy {
        table,
        predicate: Some(predicate),
    })
}

/// All users, and one user's posts.
pub(crate) fn policies(alloc: Global) -> Result<Vec<Policy>, Fail> {
    let mut all = Vec::new(alloc);
    all.push(shared(alloc)?)?;
    all.push(of_posts(alloc, owned(alloc))?)?;
    Ok(all)
}

/// Fails with the guarded statement's text for PostgreSQL, where it is another.
fn guards(
    alloc: Global,
    given: Result<(Statement, Vec<Policy>), Fail>,
    wanted: &str,
) -> Result<(), Fail> {
    let (statement, policies) = given?;
    let guarded = restrict_all(alloc, &statement, &policies);
    drop(statement);
    gives(alloc, guarded, wanted)
}

/// Fails where another refusal is answered, or none.
fn closes(
    alloc: Global,
    given: Result<(Statement, Vec<Policy>), Fail>,
    wanted: RestrictError,
) -> Result<(), Fail> {
    let (statement, policies) = given?;
    let guarded = restrict_all(alloc, &statement, &policies);
    drop(statement);
    match guarded {
        Ok(statement) => {
            drop(statement);
            Err("guarded")?
        }
        Err(error) => is(error == wanted, "another refusal"),
    }
}

/// Users of whom a post exists.
fn with_posts(alloc: Global) -> Result<Statement, Fail> {
    let (users, posts) = beside(ids(alloc)?, all_posts(alloc))?;
    let (users, exists) = beside(users, exists(alloc, posts.into_statement()))?;
    Ok(users.filter(alloc, exists)?.into_statement())
}

fn counted(alloc: Global) -> Result<Statement, Fail> {
    let counted = all_posts(alloc)?.select(count_star());
    Ok(counted.into_statement())
}

#[test]
fn in_a_subselect(rt: HostRuntime) -> Result<(), Fail> {
    let alloc = rt.alloc();
    guards(
        alloc,
        beside(with_posts(alloc)?, policies(alloc)),
        "SELECT \"users\".\"id\" FROM \"users\" WHERE EXISTS (SELECT \"posts\".\"id\", \"posts\".\"user_id\" FROM \"posts\" WHERE (\"posts\".\"user_id\" = $1))",
    )
}

#[test]
fn under_a_count(rt: HostRuntime) -> Result<(), Fail> {
    let alloc = rt.alloc();
    guards(
        alloc,
        beside(counted(alloc)?, policies(alloc)),
        "SELECT COUNT(*) FROM \"posts\" WHERE (\"posts\".\"user_id\" = $1)",
    )
}

#[test]
fn right_of_a_left_join(rt: HostRuntime) -> Result<(), Fail> {
    let alloc = rt.alloc();
    let schema = schema(alloc)?;
    guards(
        alloc,
        beside(left_joined(alloc, &schema)?, policies(alloc)),
        "SELECT \"users\".\"id\" FROM (\"users\" LEFT OUTER JOIN \"posts\" ON ((\"posts\".\"user_id\" = \"users\".\"id\") AND (\"posts\".\"user_id\" = $1)))",
    )
}

/// Two policies of posts.
fn twice(alloc: Global) -> Result<Vec<Policy>, Fail> {
    let mut all = policies(alloc)?;
    all.push(of_posts(alloc, owned(alloc))?)?;
    Ok(all)
}

#[test]
fn each_of_two(rt: HostRuntime) -> Result<(), Fail> {
    let alloc = rt.alloc();
    guards(
        alloc,
        beside(counted(alloc)?, twice(alloc)),
        "SELECT COUNT(*) FROM \"posts\" WHERE ((\"posts\".\"user_id\" = $1) AND (\"posts\".\"user_id\" = $2))",
    )
}

/// `(NOT ("posts"."user_id" = $1) IS NULL)`.
fn misread(alloc: Global) -> Result<Expr, Fail> {
    let not = Expr::Not(Box::new(alloc, owned(alloc)?)?);
    Ok(not.is_null(alloc)?)
}

fn misread_policies(alloc: Global) -> Result<Vec<Policy>, Fail> {
    let mut all = Vec::new(alloc);
    all.push(of_posts(alloc, misread(alloc))?)?;
    Ok(all)
}

fn users_alone(alloc: Global) -> Result<Vec<Policy>, Fail> {
    let mut all = Vec::new(alloc);
    all.push(shared(alloc)?)?;
    Ok(all)
}

#[test]
fn closed_where_nothing_is_said(rt: HostRuntime) -> Result<(), Fail> {
    let alloc = rt.alloc();
    let lacks = RestrictError::LacksPolicy;
    closes(alloc, beside(counted(alloc)?, users_alone(alloc)), lacks)?;
    closes(alloc, beside(with_posts(alloc)?, users_alone(alloc)), lacks)
}

#[test]
fn a_not_as_an_operand(rt: HostRuntime) -> Result<(), Fail> {
    let alloc = rt.alloc();
    let bad = RestrictError::BadPredicate;
    closes(alloc, beside(counted(alloc)?, misread_policies(alloc)), bad)
}
