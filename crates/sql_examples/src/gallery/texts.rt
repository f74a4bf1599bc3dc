//! Texts: raw queries, the reader, the audit; and statements for one tenant.

use super::blog::{Blog, show};
use crate::failure::Failure;
use hardieflax::{
    AsQuery, Dialect, Expr, ExpressionMethods, Pg, Policy, Query, QueryDsl, Statement, ToSql,
    audit, debug_query, list, placeholders, read, restrict, restrict_all, sql_query, write,
};
use std::alloc::Global;

pub fn texts(rt: &HostRuntime, blog: &Blog) -> Result<(), Failure> {
    raw(rt)?;
    reader(rt)?;
    report(rt, blog)?;
    tenants(rt, blog)
}

/// SQL by hand, with values for the placeholders that stand in it. Nothing checks it.
fn raw(rt: &HostRuntime) -> Result<(), Failure> {
    let alloc = rt.alloc();
    let text = String::from_str(alloc, "SELECT now() - interval '1 day' * $1")?;
    let query = sql_query(text).bind(7i32.bound(alloc)?);
    let line = debug_query(alloc, &Pg, &query).map_err(Failure::Shown)?;
    println!(rt; "raw: {line}")?;
    Ok(())
}

/// A text of the grammar is read as one tree, and written from it.
fn reader(rt: &HostRuntime) -> Result<(), Failure> {
    let alloc = rt.alloc();
    let text = r#"SELECT   "users"."id" FROM "users" WHERE ("users"."name"=$1)"#;
    match read(alloc, Dialect::Pg, text) {
        Ok(tree) => {
            let written = write(alloc, Dialect::Pg, &tree)?;
            println!(rt; "read: {} placeholder in {written}", placeholders(&tree))?;
        }
        Err(error) => println!(rt; "read: {error}")?,
    }
    Ok(())
}

/// The tables and columns that a text uses.
fn report(rt: &HostRuntime, blog: &Blog) -> Result<(), Failure> {
    let text = r#"SELECT "u"."name" FROM "users" AS "u" WHERE ("u"."id" = $1)"#;
    match audit(rt.alloc(), Dialect::Pg, &blog.schema, text) {
        Ok(report) => {
            for table in report.tables.as_slice() {
                println!(rt; "audit: table {}", table.as_str())?;
            }
            for found in report.uses.as_slice() {
                println!(rt; "audit: column {}", found.column.as_str())?;
            }
        }
        Err(error) => println!(rt; "audit: {error}")?,
    }
    Ok(())
}

/// The posts of user 7.
fn own(alloc: Global, blog: &Blog) -> Result<Expr, Failure> {
    Ok(blog.column(alloc, "posts", "user_id")?.eq(alloc, 7)?)
}

/// All users, with their posts.
fn users_and_posts(alloc: Global, blog: &Blog) -> Result<Statement, Failure> {
    let posts = blog.table("posts")?.try_clone(alloc)?;
    let users = blog.table("users")?.as_query(alloc)?;
    let name = blog.column(alloc, "users", "name")?;
    let title = blog.column(alloc, "posts", "title")?;
    let joined = users.inner_join(alloc, &blog.schema, posts)?;
    Ok(joined.select(list(alloc, (name, title))?).into_statement())
}

/// The statement as user 7 may see it: by a predicate on one table, or by a policy for each table.
fn tenants(rt: &HostRuntime, blog: &Blog) -> Result<(), Failure> {
    let alloc = rt.alloc();
    let statement = users_and_posts(alloc, blog)?;
    let posts = blog.table("posts")?;
    let restricted = restrict(alloc, &statement, posts, &own(alloc, blog)?);
    show(rt, blog, "restricted", restricted?)?;
    let policies = vec![in alloc;
        Policy {
            table: posts.try_clone(alloc)?,
            predicate: Some(own(alloc, blog)?)
        },
        Policy {
            table: blog.table("users")?.try_clone(alloc)?,
            predicate: None
        },
    ]?;
    let guarded = restrict_all(alloc, &statement, policies.as_slice());
    show(rt, blog, "guarded", guarded?)
}
