#![tactic(auto, using(sql_pass::proofs::Walking::walking))]

ghost use Rattle.std.specs.Prelude.{◌≡◌, [], ◌++◌, IfOk, string_bytes};
ghost use Rattle.sql_raw.specs.Boxed.{appended, boxed_query, boxed_values};
ghost use Rattle.sql_raw.specs.Raw.{bind_pieces, bound_query, bound_value, inner_part, query_text, sql_pieces};

use crate::boxed::BoxedSqlQuery;
use sql_dialect::{Backend, NoMemory};
use sql_pass::{AstPass, Bound, PassError, QueryFragment};
use std::alloc::Global;

/// Nothing: the inner part of a raw query that has none.
#[derive(Debug, Clone, Copy, PartialEq, Eq)]
pub struct Empty;

/// Writes nothing.
impl<DB: Backend> QueryFragment<DB> for Empty {
    ghost pieces = { λ _. [] };

    fn walk_ast(&self, _pass: &mut AstPass<DB>) -> Result<(), PassError> {
        Ok(())
    }
}

/// SQL that is written by hand, after an inner part: `SELECT 1`.
#[derive(Debug, Drop)]
pub struct SqlQuery<Inner = Empty> {
    inner: Inner,
    query: String,
}

/// A query, and a value for a placeholder that stands in its text. Nothing checks that it does, nor the value's type.
#[derive(Debug, Drop)]
pub struct UncheckedBind<Q> {
    query: Q,
    value: Bound,
}

/// A raw query: `sql_query("SELECT name FROM users WHERE id = $1")`.
///
/// The text is written as it is, so it holds its placeholders as the dialect has them: `$1` on PostgreSQL, `?` on MySQL and
/// SQLite, `@p1` on Bracket. Their values follow by `bind`, in order. It is never safe to cache.
pub fn sql_query(query: String) -> SqlQuery
    ensures { query_text result ≡ string_bytes query }
{
    SqlQuery {
        inner: Empty,
        query,
    }
}

impl<Inner: Drop> SqlQuery<Inner> {
    /// Binds a value to the next placeholder in the text.
    pub fn bind(self, value: Bound) -> UncheckedBind<SqlQuery<Inner>>
        ensures query { bound_query result ≡ self }
        ensures value { bound_value result ≡ value }
    {
        UncheckedBind::new(self, value)
    }

    /// The same query in a form that takes more text and values without a new type: `SELECT 1` boxed, ` + $1` appended.
    pub fn into_boxed<DB: Backend>(self, alloc: Global) -> BoxedSqlQuery<DB, SqlQuery<Inner>>
        ensures query { boxed_query result ≡ self }
        ensures text { appended result ≡ [] }
        ensures values { boxed_values result ≡ [] }
    {
        BoxedSqlQuery::new(alloc, self)
    }

    /// Appends to the text, as it is: `SELECT 1` and ` + 2` are `SELECT 1 + 2`.
    pub fn sql(self, sql: &str) -> Result<SqlQuery<Inner>, NoMemory>
        ensures text { IfOk result (λ q. query_text q ≡ query_text self ++ sql.now) }
        ensures inner { IfOk result (λ q. inner_part q ≡ inner_part self) }
    {
        let mut query = self.query;
        query.push_str(sql)?;
        Ok(SqlQuery {
            inner: self.inner,
            query,
        })
    }
}

impl<Q: Drop> UncheckedBind<Q> {
    /// The query, and a value for the next placeholder in its text.
    pub fn new(query: Q, value: Bound) -> UncheckedBind<Q>
        ensures query { bound_query result ≡ query }
        ensures value { bound_value result ≡ value }
    {
        UncheckedBind { query, value }
    }

    /// Binds one more value.
    pub fn bind(self, value: Bound) -> UncheckedBind<UncheckedBind<Q>>
        ensures query { bound_query result ≡ self }
        ensures value { bound_value result ≡ value }
    {
        UncheckedBind::new(self, value)
    }

    /// The same query in a form that takes more text and values without a new type.
    pub fn into_boxed<DB: Backend>(self, alloc: Global) -> BoxedSqlQuery<DB, UncheckedBind<Q>>
        ensures query { boxed_query result ≡ self }
        ensures text { appended result ≡ [] }
        ensures values { boxed_values result ≡ [] }
    {
        BoxedSqlQuery::new(alloc, self)
    }

    /// More text after the query, as it is: of `SELECT $1` with a value and ` + $2`, `SELECT $1 + $2`.
    pub fn sql(self, sql: String) -> SqlQuery<UncheckedBind<Q>>
        ensures text { query_text result ≡ string_bytes sql }
        ensures inner { inner_part result ≡ self }
    {
        SqlQuery {
            inner: self,
            query: sql,
        }
    }
}

/// The inner part, and the text after it.
impl<DB: Backend, Inner: QueryFragment<DB>> QueryFragment<DB> for SqlQuery<Inner> {
    ghost pieces = { sql_pieces Inner.pieces };

    fn walk_ast(&self, pass: &mut AstPass<DB>) -> Result<(), PassError> {
        pass.unsafe_to_cache_prepared();
        self.inner.walk_ast(pass)?;
        pass.push_sql(self.query.as_str())
    }
}

/// The query, and a value whose placeholder stands in its text: the counters of PostgreSQL and Bracket rise.
impl<DB: Backend, Q: QueryFragment<DB>> QueryFragment<DB> for UncheckedBind<Q> {
    ghost pieces = { bind_pieces Q.pieces };

    fn walk_ast(&self, pass: &mut AstPass<DB>) -> Result<(), PassError> {
        self.query.walk_ast(pass)?;
        pass.push_bind_param_value_only(self.value.view())
    }
}
