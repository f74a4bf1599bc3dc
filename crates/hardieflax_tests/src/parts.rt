//! A part of one's own, and the calls on parts, values, dialects and raw queries.
#![tactic(auto, using(hardieflax::proofs::Walking::walking))]

ghost use Rattle.std.specs.Prelude.{◌≡◌, ◌++◌, IfOk, OnOk, codes, string_bytes};
ghost use Rattle.hardieflax.specs.Bounds.{bound_of, type_of};
ghost use Rattle.hardieflax.specs.Bytes.{bytes_of};
ghost use Rattle.hardieflax.specs.Collected.{with_bind};
ghost use Rattle.hardieflax.specs.Combinator.TheVariants.{Except};
ghost use Rattle.hardieflax.specs.Debug.{debug_line};
ghost use Rattle.hardieflax.specs.DuplicateRule.TheVariants.{All};
ghost use Rattle.hardieflax.specs.Held.{held};
ghost use Rattle.hardieflax.specs.Parts.{side_open};
ghost use Rattle.hardieflax.specs.Paths.{dotted};
ghost use Rattle.hardieflax.specs.Pieces.{Ident, Text, one, text_of, values_of};
ghost use Rattle.hardieflax.specs.Raw.{query_text};
ghost use Rattle.hardieflax.specs.Shown.{shown_line};
ghost use Rattle.hardieflax.specs.Supports.{combines};
ghost use Rattle.hardieflax.specs.Walks.{Walks};
ghost use Rattle.hardieflax.specs.Written.{quoted};

use hardieflax::{
    AstPass, Backend, BindCollector, Bound, BoundRef, CollectError, Combinator, DebugQuery,
    Dialect, DuplicateRule, MiddleFragment, NoMemory, PassError, QueryBuilder, QueryFragment,
    SqlDialect, SqlQuery, debug_binds, debug_query, push_dotted, push_side_open, quote_name,
    sql_query,
};
use std::alloc::Global;

/// A function of a schema over a query: `"app"."total"(`, and in SQLite `"app"."total"SELECT * FROM (`.
#[derive(Debug, Drop)]
pub struct Total<T>(pub T);

impl<DB: Backend, T: QueryFragment<DB>> QueryFragment<DB> for Total<T> {
    ghost pieces = { λ t. one (Ident (codes "app")) ++ (dotted (codes "total")
        ++ (one (Text (side_open DB.speaks)) ++ T.pieces t.0)) };

    fn walk_ast(&self, pass: &mut AstPass<DB>) -> Result<(), PassError> {
        pass.push_identifier("app")?;
        push_dotted("total", pass)?;
        push_side_open(pass)?;
        self.0.walk_ast(pass)
    }
}

/// Pushes what stands between two parts.
pub fn push_middle<DB: Backend, M: MiddleFragment<DB>>(
    middle: &M,
    pass: &mut AstPass<DB>,
) -> Result<(), PassError>
    ensures { Walks DB.speaks (held DB.QueryBuilder.text DB.QueryBuilder.count pass.old)
        (M.middle middle.now) result (held DB.QueryBuilder.text DB.QueryBuilder.count pass.new) }
{
    middle.push_sql(pass)
}

/// The line that shows a part.
pub fn shown<DB: Backend, T: QueryFragment<DB>>(
    alloc: Global,
    backend: &DB,
    part: &T,
) -> Result<DebugQuery, PassError>
    ensures { IfOk result (λ q. shown_line q
        ≡ debug_line (text_of DB.speaks 0 (T.pieces part.now)) (values_of (T.pieces part.now))) }
{
    debug_query(alloc, backend, part)
}

/// The values of a part.
pub fn values<DB: Backend, T: QueryFragment<DB>>(
    alloc: Global,
    backend: &DB,
    part: &T,
) -> Result<Vec<Bound>, NoMemory>
    ensures { IfOk result (λ v. v.items ≡ values_of (T.pieces part.now)) }
{
    debug_binds(alloc, backend, part)
}

/// A query that is given whole.
pub fn raw(query: String) -> SqlQuery
    ensures { query_text result ≡ string_bytes query }
{
    sql_query(query)
}

/// Appends a value to those that are collected.
pub fn collect<C: BindCollector>(collector: &mut C, bound: BoundRef<'_>) -> Result<(), CollectError>
    ensures { OnOk result (C.holds collector.new
        ≡ with_bind (C.holds collector.old) (type_of (bound_of bound.entry))
        (bytes_of C.dialect (bound_of bound.entry))) }
{
    collector.push_bound_value(bound)
}

/// A name between the quotes of a dialect.
pub fn name(alloc: Global, dialect: Dialect, name: &str) -> Result<String, NoMemory>
    ensures { IfOk result (λ s. string_bytes s ≡ quoted dialect name.now) }
{
    quote_name(alloc, dialect, name)
}

/// Pushes a name between the quotes of a builder's dialect.
pub fn push_name<B: QueryBuilder>(builder: &mut B, name: &str) -> Result<(), NoMemory>
    ensures { OnOk result (B.text builder.new ≡ B.text builder.old ++ quoted B.dialect name.now) }
{
    builder.push_identifier(name)
}

/// Whether a dialect has `EXCEPT ALL`.
pub fn has_except_all<D: SqlDialect>(dialect: &D) -> bool
    ensures { result ≡ combines D.answers_as Except All }
{
    dialect.supports(Combinator::Except, DuplicateRule::All)
}
