//! Groups and counts, rows without their like, and orders with pages.

use super::blog::{Blog, show};
use crate::failure::Failure;
use hardieflax::{
    AsExpression, AsQuery, ExpressionMethods, Query, QueryDsl, Statement, count, count_star, list,
    order_by,
};
use std::alloc::Global;

pub fn groups(rt: &HostRuntime, blog: &Blog) -> Result<(), Failure> {
    let alloc = rt.alloc();
    show(rt, blog, "count", how_many(alloc, blog)?)?;
    show(rt, blog, "group by", posts_of_each(alloc, blog)?)?;
    show(rt, blog, "having", writers(alloc, blog)?)?;
    show(rt, blog, "distinct", names(alloc, blog)?)?;
    show(rt, blog, "distinct on", newest_of_each(alloc, blog)?)?;
    show(rt, blog, "page", page(alloc, blog)?)
}

/// How many users there are.
fn how_many(alloc: Global, blog: &Blog) -> Result<Statement, Failure> {
    Ok(
        blog.table("users")?
            .as_query(alloc)?
            .count()
            .into_statement(),
    )
}

/// Each author, with how many posts there are.
fn posts_of_each(alloc: Global, blog: &Blog) -> Result<Statement, Failure> {
    let user_id = blog.column(alloc, "posts", "user_id")?;
    let posts = blog.column(alloc, "posts", "id")?;
    let query = blog
        .table("posts")?
        .as_query(alloc)?
        .group_by(user_id.try_clone(alloc)?.as_expression(alloc)?)
        .select(list(alloc, (user_id, count(alloc, posts)?))?);
    Ok(query.into_statement())
}

/// Authors of more than two posts.
fn writers(alloc: Global, blog: &Blog) -> Result<Statement, Failure> {
    let user_id = blog.column(alloc, "posts", "user_id")?;
    let query = blog
        .table("posts")?
        .as_query(alloc)?
        .group_by(user_id.try_clone(alloc)?.as_expression(alloc)?)
        .having(count_star().gt(alloc, 2i64)?)
        .select(user_id.as_expression(alloc)?);
    Ok(query.into_statement())
}

/// The names of users, each once.
fn names(alloc: Global, blog: &Blog) -> Result<Statement, Failure> {
    let name = blog.column(alloc, "users", "name")?.as_expression(alloc)?;
    let users = blog.table("users")?.as_query(alloc)?;
    Ok(users.select(name).distinct().into_statement())
}

/// The newest post of each author. PostgreSQL alone has DISTINCT ON, and wants the order to begin with it.
fn newest_of_each(alloc: Global, blog: &Blog) -> Result<Statement, Failure> {
    let user_id = blog.column(alloc, "posts", "user_id")?;
    let id = blog.column(alloc, "posts", "id")?;
    let query = blog
        .table("posts")?
        .as_query(alloc)?
        .distinct_on(user_id.try_clone(alloc)?.as_expression(alloc)?)
        .order(order_by(alloc, (user_id, id.desc()))?);
    Ok(query.into_statement())
}

/// The third page of ten users by their names, those of one name by their numbers.
fn page(alloc: Global, blog: &Blog) -> Result<Statement, Failure> {
    let (id, name) = (
        blog.column(alloc, "users", "id")?,
        blog.column(alloc, "users", "name")?,
    );
    let query = blog
        .table("users")?
        .as_query(alloc)?
        .order(order_by(alloc, name.desc())?)
        .then_order_by(alloc, order_by(alloc, id)?)?
        .limit(10)
        .offset(20);
    Ok(query.into_statement())
}
