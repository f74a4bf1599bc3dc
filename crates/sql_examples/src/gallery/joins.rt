//! Joins: on a relation that the schema declares, or on a condition; aliases.

use super::blog::{Blog, show};
use crate::failure::Failure;
use hardieflax::{
    Alias, AliasFields, AsExpression, AsQuery, ExpressionMethods, JoinOnDsl, NewAlias, Query,
    QueryDsl, Statement, list, order_by,
};
use std::alloc::Global;

pub fn joins(rt: &HostRuntime, blog: &Blog) -> Result<(), Failure> {
    let alloc = rt.alloc();
    show(rt, blog, "inner join", titled(alloc, blog)?)?;
    show(rt, blog, "left join", with_or_without_posts(alloc, blog)?)?;
    show(rt, blog, "two joins", commented(alloc, blog)?)?;
    show(rt, blog, "join on", on_condition(alloc, blog)?)?;
    show(rt, blog, "alias", namesakes(alloc, blog)?)
}

/// The query of diesel's guide.
fn titled(alloc: Global, blog: &Blog) -> Result<Statement, Failure> {
    let (users, posts) = (blog.table("users")?, blog.table("posts")?);
    let (id, name) = (
        blog.column(alloc, "users", "id")?,
        blog.column(alloc, "users", "name")?,
    );
    let title = blog.column(alloc, "posts", "title")?;
    let query = users
        .as_query(alloc)?
        .inner_join(alloc, &blog.schema, posts.try_clone(alloc)?)?
        .filter(alloc, title.try_clone(alloc)?.eq(alloc, "x")?)?
        .select(list(alloc, (name, title))?)
        .order(order_by(alloc, id)?)
        .limit(5);
    Ok(query.into_statement())
}

/// All users. Columns of the right side of a left join have to be nullable.
fn with_or_without_posts(alloc: Global, blog: &Blog) -> Result<Statement, Failure> {
    let posts = blog.table("posts")?.try_clone(alloc)?;
    let name = blog.column(alloc, "users", "name")?;
    let title = blog.column(alloc, "posts", "title")?.nullable(alloc)?;
    let users = blog.table("users")?.as_query(alloc)?;
    let joined = users.left_join(alloc, &blog.schema, posts)?;
    Ok(joined.select(list(alloc, (name, title))?).into_statement())
}

/// Users with their posts and the comments on those. The second join is on the relation of posts and comments, which has to be
/// given, since the leftmost table of the left side is users.
fn commented(alloc: Global, blog: &Blog) -> Result<Statement, Failure> {
    let posts = blog.table("posts")?.try_clone(alloc)?;
    let comments = blog.table("comments")?.try_clone(alloc)?;
    let of_post = blog
        .column(alloc, "comments", "post_id")?
        .eq(alloc, blog.column(alloc, "posts", "id")?)?;
    let text = blog.column(alloc, "comments", "text")?;
    let name = blog.column(alloc, "users", "name")?;
    let query = blog
        .table("users")?
        .as_query(alloc)?
        .inner_join(alloc, &blog.schema, posts)?
        .inner_join(alloc, &blog.schema, comments.on(of_post))?
        .select(list(alloc, (name, text))?);
    Ok(query.into_statement())
}

/// Users, and posts whose title is their name.
fn on_condition(alloc: Global, blog: &Blog) -> Result<Statement, Failure> {
    let name = blog.column(alloc, "users", "name")?;
    let named = blog.column(alloc, "posts", "title")?.eq(alloc, &name)?;
    let posts = blog.table("posts")?.try_clone(alloc)?;
    let users = blog.table("users")?.as_query(alloc)?;
    let joined = users.inner_join(alloc, &blog.schema, posts.on(named))?;
    Ok(joined.select(name.as_expression(alloc)?).into_statement())
}

/// Users of one name: the table, and an alias of it.
fn namesakes(alloc: Global, blog: &Blog) -> Result<Statement, Failure> {
    let users = blog.table("users")?;
    let (id, name) = (
        blog.column(alloc, "users", "id")?,
        blog.column(alloc, "users", "name")?,
    );
    let other = Alias::new(String::from_str(alloc, "other")?, users.try_clone(alloc)?);
    let other_id = other.field(alloc, &id)?;
    let same_name = other.field(alloc, &name)?.eq(alloc, name)?;
    let query = users
        .as_query(alloc)?
        .inner_join(alloc, &blog.schema, other.on(same_name))?
        .filter(alloc, other_id.try_clone(alloc)?.gt(alloc, &id)?)?
        .select(list(alloc, (id, other_id))?);
    Ok(query.into_statement())
}
