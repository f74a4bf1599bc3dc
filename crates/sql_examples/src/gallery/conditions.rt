//! Conditions: on values, on NULL, on lists, and on other statements.

use super::blog::{Blog, show};
use crate::failure::Failure;
use hardieflax::{
    AsExpression, AsQuery, ExpressionMethods, Query, QueryDsl, Statement, count_star, exists, not,
    order_by,
};
use std::alloc::Global;

pub fn conditions(rt: &HostRuntime, blog: &Blog) -> Result<(), Failure> {
    let alloc = rt.alloc();
    show(rt, blog, "and", tests(alloc, blog)?)?;
    show(rt, blog, "or", either_name(alloc, blog)?)?;
    show(rt, blog, "not null", reachable(alloc, blog)?)?;
    show(rt, blog, "list", some(alloc, blog)?)?;
    show(rt, blog, "subselect", authors(alloc, blog)?)?;
    show(rt, blog, "exists", with_posts(alloc, blog)?)?;
    show(rt, blog, "single value", of_the_newest(alloc, blog)?)?;
    show(rt, blog, "key", by_key(alloc, blog)?)
}

/// Two conditions in one.
fn tests(alloc: Global, blog: &Blog) -> Result<Statement, Failure> {
    let sean = blog.column(alloc, "users", "name")?.eq(alloc, "Sean")?;
    let early = blog.column(alloc, "users", "id")?.le(alloc, 100)?;
    let users = blog.table("users")?.as_query(alloc)?;
    Ok(
        users
            .filter(alloc, sean.and(alloc, early)?)?
            .into_statement(),
    )
}

/// `filter` adds a condition by AND, `or_filter` by OR.
fn either_name(alloc: Global, blog: &Blog) -> Result<Statement, Failure> {
    let name = blog.column(alloc, "users", "name")?;
    let query = blog
        .table("users")?
        .as_query(alloc)?
        .filter(alloc, name.try_clone(alloc)?.eq(alloc, "Sean")?)?
        .or_filter(alloc, name.eq(alloc, "Tess")?)?;
    Ok(query.into_statement())
}

/// Users with an address, which is not one that is left empty.
fn reachable(alloc: Global, blog: &Blog) -> Result<Statement, Failure> {
    let email = blog.column(alloc, "users", "email")?;
    let empty = email
        .try_clone(alloc)?
        .eq(alloc, "".as_expression(alloc)?.nullable(alloc)?)?;
    let query = blog
        .table("users")?
        .as_query(alloc)?
        .filter(alloc, email.is_not_null(alloc)?)?
        .filter(alloc, not(alloc, empty)?)?;
    Ok(query.into_statement())
}

/// Users of these numbers.
fn some(alloc: Global, blog: &Blog) -> Result<Statement, Failure> {
    let id = blog.column(alloc, "users", "id")?;
    let users = blog.table("users")?.as_query(alloc)?;
    let among = id.eq_any(alloc, [1, 2, 3].as_slice())?;
    Ok(users.filter(alloc, among)?.into_statement())
}

/// Users who wrote what has this title.
fn authors(alloc: Global, blog: &Blog) -> Result<Statement, Failure> {
    let user_id = blog
        .column(alloc, "posts", "user_id")?
        .as_expression(alloc)?;
    let titled = blog.column(alloc, "posts", "title")?.eq(alloc, "Trees")?;
    let wrote = blog
        .table("posts")?
        .as_query(alloc)?
        .filter(alloc, titled)?
        .select(user_id);
    let author = blog.column(alloc, "users", "id")?.eq_any(alloc, wrote)?;
    let users = blog.table("users")?.as_query(alloc)?;
    Ok(users.filter(alloc, author)?.into_statement())
}

/// Users for whom there is a post. The subselect names the table of the query round it.
fn with_posts(alloc: Global, blog: &Blog) -> Result<Statement, Failure> {
    let id = blog.column(alloc, "users", "id")?;
    let own = blog.column(alloc, "posts", "user_id")?.eq(alloc, id)?;
    let posts = blog.table("posts")?.as_query(alloc)?.filter(alloc, own)?;
    let users = blog.table("users")?.as_query(alloc)?;
    Ok(
        users
            .filter(alloc, exists(alloc, posts.into_statement())?)?
            .into_statement(),
    )
}

/// Comments of the newest post: a statement that gives a single value, which may be NULL, since there may be no row.
fn of_the_newest(alloc: Global, blog: &Blog) -> Result<Statement, Failure> {
    let id = blog.column(alloc, "posts", "id")?;
    let newest = blog
        .table("posts")?
        .as_query(alloc)?
        .select(id.try_clone(alloc)?.as_expression(alloc)?)
        .order(order_by(alloc, id.desc())?);
    let of_newest = blog
        .column(alloc, "comments", "post_id")?
        .nullable(alloc)?
        .eq(alloc, newest.single_value(alloc)?)?;
    let comments = blog.table("comments")?.as_query(alloc)?;
    Ok(comments.filter(alloc, of_newest)?.into_statement())
}

/// How many users have this key: none, or one.
fn by_key(alloc: Global, blog: &Blog) -> Result<Statement, Failure> {
    let key = vec![in alloc; 7.as_expression(alloc)?]?;
    let users = blog.table("users")?.as_query(alloc)?;
    Ok(
        users
            .find(alloc, key)?
            .select(count_star())
            .into_statement(),
    )
}
