//! Statements over users and posts, restricted to one user's posts.

use sql_expr::{
    Alias, Expr, ExpressionMethods, JoinRhs, SelectStatement, Source, Statement, TableSource,
};
use sql_guard::{RestrictError, restrict};
use sql_schema::{Schema, Table};
use sql_select::{AsQuery, Query, QueryDsl};
use sql_source::NewTableSource;
use sql_test_calls::fixture::{ids, one};
use sql_test_kit::{beside, column, gives, is, table, text};
use std::alloc::Global;
use std::test::Fail;

/// `("posts"."user_id" = $1)`.
pub(crate) fn owned(alloc: Global) -> Result<Expr, Fail> {
    let (one, user_id) = beside(one(alloc)?, column(alloc, "posts", "user_id"))?;
    Ok(Expr::Column(user_id).eq(alloc, one)?)
}

/// `"posts"`.
pub(crate) fn posts(alloc: Global) -> Result<JoinRhs, Fail> {
    let posts = TableSource::new(table(alloc, "posts")?);
    Ok(JoinRhs::Source(Source::Table(posts)))
}

/// `SELECT "posts"."id", "posts"."user_id" FROM "posts"`.
pub(crate) fn all_posts(alloc: Global) -> Result<SelectStatement, Fail> {
    Ok(table(alloc, "posts")?.as_query(alloc)?)
}

/// `SELECT "p"."id", "p"."user_id" FROM "posts" AS "p"`.
pub(crate) fn aliased(alloc: Global) -> Result<Statement, Fail> {
    let alias = Alias {
        name: text(alloc, "p")?,
        table: table(alloc, "posts")?,
    };
    let all: SelectStatement = alias.as_query(alloc)?;
    Ok(all.into_statement())
}

/// Users left join posts.
pub(crate) fn left_joined(alloc: Global, schema: &Schema) -> Result<Statement, Fail> {
    let (users, posts) = beside(ids(alloc)?, posts(alloc))?;
    let joined = users.left_join(alloc, schema, posts)?;
    Ok(joined.into_statement())
}

/// Users inner join posts.
pub(crate) fn inner_joined(alloc: Global, schema: &Schema) -> Result<Statement, Fail> {
    let (users, posts) = beside(ids(alloc)?, posts(alloc))?;
    let joined = users.inner_join(alloc, schema, posts)?;
    Ok(joined.into_statement())
}

/// Returns the answer of `restrict` for the statement, with posts and this predicate.
pub(crate) fn restricted_by(
    alloc: Global,
    statement: Statement,
    predicate: Expr,
    posts: Table,
) -> Result<Statement, RestrictError> {
    let restricted = restrict(alloc, &statement, &posts, &predicate);
    drop(statement);
    drop(predicate);
    restricted
}

/// Fails with the restricted statement's text for PostgreSQL, where it is another.
pub(crate) fn restricts(
    alloc: Global,
    statement: Result<Statement, Fail>,
    wanted: &str,
) -> Result<(), Fail> {
    let (statement, owned) = beside(statement?, owned(alloc))?;
    let (statement, posts) = beside(statement, table(alloc, "posts"))?;
    gives(alloc, restricted_by(alloc, statement, owned, posts), wanted)
}

/// Fails where another refusal of the statement and the predicate is answered, or none.
pub(crate) fn refuses(
    alloc: Global,
    asked: Result<(Statement, Expr), Fail>,
    wanted: RestrictError,
) -> Result<(), Fail> {
    let (statement, predicate) = asked?;
    let (statement, posts) = beside(statement, table(alloc, "posts"))?;
    match restricted_by(alloc, statement, predicate, posts) {
        Ok(statement) => {
            drop(statement);
            Err("restricted")?
        }
        Err(error) => is(error == wanted, "another refusal"),
    }
}
