#![tactic(auto, using(sql_pass::proofs::Walking::walking))]

ghost use Rattle.std.specs.Prelude.{◌≡◌, [], ◌∷◌, ◌++◌, IfOk};
ghost use Rattle.sql_pass.specs.Held.{held};
ghost use Rattle.sql_pass.specs.Pieces.{one, ValueOnly};
ghost use Rattle.sql_pass.specs.Walks.{Walks};
ghost use Rattle.sql_raw.specs.Boxed.{appended, boxed_pieces, boxed_query, boxed_values, values_only};

use sql_dialect::{Backend, NoMemory};
use sql_pass::{AstPass, Bound, PassError, QueryFragment};
use std::alloc::Global;
use std::fmt;
use std::marker::PhantomData;

/// A raw query of one backend that takes more text and more values, and stays of one type: `SELECT 1` with ` + $1` and 5.
///
/// The text is the query's and then all that was appended; the values are the query's and then all that were bound.
#[derive(Drop)]
pub struct BoxedSqlQuery<DB, Q> {
    query: Q,
    sql: String,
    binds: Vec<Bound>,
    backend: PhantomData<DB>,
}

impl<DB, Q> fmt::Debug for BoxedSqlQuery<DB, Q> {
    fn fmt<W: fmt::Write>(&self, f: &mut fmt::Formatter<W>) -> fmt::Result {
        f.write_str("BoxedSqlQuery { .. }")
    }
}

impl<DB: Backend, Q: Drop> BoxedSqlQuery<DB, Q> {
    pub(crate) fn new(alloc: Global, query: Q) -> BoxedSqlQuery<DB, Q>
        ensures query { boxed_query result ≡ query }
        ensures text { appended result ≡ [] }
        ensures values { boxed_values result ≡ [] }
    {
        BoxedSqlQuery {
            query,
            sql: String::new(alloc),
            binds: Vec::new(alloc),
            backend: PhantomData,
        }
    }

    /// Binds a value to the next placeholder in the text.
    pub fn bind(self, value: Bound) -> Result<BoxedSqlQuery<DB, Q>, NoMemory>
        ensures query { IfOk result (λ q. boxed_query q ≡ boxed_query self) }
        ensures text { IfOk result (λ q. appended q ≡ appended self) }
        ensures values { IfOk result (λ q. boxed_values q ≡ boxed_values self ++ value ∷ []) }
    {
        let mut boxed = self;
        boxed.binds.push(value)?;
        Ok(boxed)
    }

    /// Appends to the text, as it is.
    pub fn sql(self, sql: &str) -> Result<BoxedSqlQuery<DB, Q>, NoMemory>
        ensures query { IfOk result (λ q. boxed_query q ≡ boxed_query self) }
        ensures text { IfOk result (λ q. appended q ≡ appended self ++ sql.now) }
        ensures values { IfOk result (λ q. boxed_values q ≡ boxed_values self) }
    {
        let mut boxed = self;
        boxed.sql.push_str(sql)?;
        Ok(boxed)
    }
}

fn walk_value<DB: Backend>(value: &Bound, pass: &mut AstPass<DB>) -> Result<(), PassError>
    ensures { Walks DB.speaks (held DB.QueryBuilder.text DB.QueryBuilder.count pass.old)
        (one (ValueOnly value.now)) result
        (held DB.QueryBuilder.text DB.QueryBuilder.count pass.new) }
{
    pass.push_bind_param_value_only(value.view())
}

/// Pushes values whose placeholders stand in the text.
fn walk_values<DB: Backend>(values: &[Bound], pass: &mut AstPass<DB>) -> Result<(), PassError>
    ensures { Walks DB.speaks (held DB.QueryBuilder.text DB.QueryBuilder.count pass.old)
        (values_only values.now) result (held DB.QueryBuilder.text DB.QueryBuilder.count pass.new) }
{
    for value in values {
        walk_value(value, pass)?;
    }
    Ok(())
}

/// The query, the text that was appended, and the values that were bound.
impl<DB: Backend, Q: QueryFragment<DB>> QueryFragment<DB> for BoxedSqlQuery<DB, Q> {
    ghost pieces = { boxed_pieces Q.pieces };

    fn walk_ast(&self, pass: &mut AstPass<DB>) -> Result<(), PassError> {
        pass.unsafe_to_cache_prepared();
        self.query.walk_ast(pass)?;
        pass.push_sql(self.sql.as_str())?;
        walk_values(self.binds.as_slice(), pass)
    }
}
