//! Each refusal, and its name.

use crate::fixture::{all_posts, owned, posts, refuses};
use sql_expr::{Expr, ExpressionMethods, Statement, count_star};
use sql_guard::RestrictError;
use sql_select::{Query, QueryDsl};
use sql_test_calls::fixture::{id, one};
use sql_test_kit::{beside, column, is, schema};
use std::alloc::Global;
use std::test::Fail;

fn posts_of(alloc: Global) -> Result<Statement, Fail> {
    Ok(all_posts(alloc)?.into_statement())
}

/// `("users"."id" = $1)`.
fn of_a_user(alloc: Global) -> Result<Expr, Fail> {
    let (id, one) = beside(id(alloc)?, one(alloc))?;
    Ok(id.eq(alloc, one)?)
}

/// `"posts"."id"`.
fn no_condition(alloc: Global) -> Result<Expr, Fail> {
    Ok(Expr::Column(column(alloc, "posts", "id")?))
}

#[test]
fn predicates(rt: HostRuntime) -> Result<(), Fail> {
    let alloc = rt.alloc();
    let bad = RestrictError::BadPredicate;
    refuses(alloc, beside(posts_of(alloc)?, of_a_user(alloc)), bad)?;
    refuses(alloc, beside(posts_of(alloc)?, no_condition(alloc)), bad)?;
    refuses(alloc, beside(counted(alloc)?, no_condition(alloc)), bad)
}

/// `SELECT COUNT(*) FROM "posts"`.
fn counted(alloc: Global) -> Result<Statement, Fail> {
    let counted = all_posts(alloc)?.select(count_star());
    Ok(counted.into_statement())
}

/// `SELECT "posts"."id" FROM "posts" GROUP BY "posts"."id"`.
fn grouped(alloc: Global) -> Result<Statement, Fail> {
    let (all, id) = beside(all_posts(alloc)?, no_condition(alloc))?;
    let (all, again) = beside(all.select(id), no_condition(alloc))?;
    let grouped = all.group_by(again);
    Ok(grouped.into_statement())
}

#[test]
fn kinds(rt: HostRuntime) -> Result<(), Fail> {
    let alloc = rt.alloc();
    let beyond = RestrictError::OutOfKind;
    refuses(alloc, beside(counted(alloc)?, owned(alloc)), beyond)?;
    refuses(alloc, beside(grouped(alloc)?, owned(alloc)), beyond)
}

/// Posts inner join posts: no relation is declared between them, so the join has no ON.
fn unrelated(alloc: Global) -> Result<Statement, Fail> {
    let schema = schema(alloc)?;
    let (all, posts) = beside(all_posts(alloc)?, posts(alloc))?;
    let joined = all.inner_join(alloc, &schema, posts)?;
    Ok(joined.into_statement())
}

#[test]
fn relations(rt: HostRuntime) -> Result<(), Fail> {
    let alloc = rt.alloc();
    let asked = beside(unrelated(alloc)?, owned(alloc));
    refuses(alloc, asked, RestrictError::NoRelation)
}

#[test]
fn messages_are_names(rt: HostRuntime) -> Result<(), Fail> {
    let alloc = rt.alloc();
    let message = RestrictError::NoRelation.to_string(alloc)?;
    is(message.as_str() == "NoRelation", "a name")
}
