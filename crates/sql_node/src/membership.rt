//! Whether an expression is one of some values, or of the rows of a statement.
#![tactic(auto, using(sql_pass::proofs::Walking::walking))]

ghost use Rattle.std.specs.Prelude.{◌≡◌, ◌++◌, Ok, map, true, false, codes};
ghost use Rattle.sql_dialect.specs.Syntax.{array};
ghost use Rattle.sql_pass.specs.Commas.{next_of};
ghost use Rattle.sql_pass.specs.Held.{held};
ghost use Rattle.sql_pass.specs.Pieces.{one, Text, Bind, Unsafe};
ghost use Rattle.sql_pass.specs.Walks.{Walks};
ghost use Rattle.sql_pass.specs.declared.value.Bound.TheVariants.{Value as OneValue, List as ManyValues};
ghost use Rattle.sql_leaf.specs.Words.{among_sql};
ghost use Rattle.sql_node.specs.Pieces.{around, expr_pieces, values_pieces, one_by_one, among_pieces};
ghost use Rattle.sql_node.specs.View.{expr_tree};

use crate::Expr;
use crate::expr::walk_around;
use sql_dialect::{ArrayComparison, Backend, Dialect};
use sql_leaf::{CLOSE_BOTH, COMMA, OPEN, among_text, constant_text};
use sql_pass::{AstPass, BoundRef, PassError, QueryFragment, Value};
use sql_schema::{SqlList, SqlType};

/// Binds the value. Whatever it is, its text is a placeholder.
pub(crate) fn walk_value<DB: Backend>(
    ty: SqlType,
    value: &Value,
    pass: &mut AstPass<DB>,
) -> Result<(), PassError>
    ensures { Walks DB.speaks (held DB.QueryBuilder.text DB.QueryBuilder.count pass.old)
        (one (Bind (OneValue ty value.now))) result
        (held DB.QueryBuilder.text DB.QueryBuilder.count pass.new) }
{
    pass.push_bind_param(BoundRef::Value(ty, value))
}

fn walk_next_value<DB: Backend>(
    first: bool,
    ty: SqlType,
    value: &Value,
    pass: &mut AstPass<DB>,
) -> Result<(), PassError>
    ensures { Walks DB.speaks (held DB.QueryBuilder.text DB.QueryBuilder.count pass.old)
        (next_of first (one (Bind (OneValue ty value.now)))) result
        (held DB.QueryBuilder.text DB.QueryBuilder.count pass.new) }
{
    if !first {
        pass.push_sql(COMMA)?;
    }
    walk_value(ty, value, pass)
}

/// Says that the text changes with the number of values.
pub(crate) fn mark_varying_length<DB: Backend>(pass: &mut AstPass<DB>)
    ensures { Walks DB.speaks (held DB.QueryBuilder.text DB.QueryBuilder.count pass.old)
        (one Unsafe) (Ok tt) (held DB.QueryBuilder.text DB.QueryBuilder.count pass.new) }
{
    pass.unsafe_to_cache_prepared();
}

pub(crate) fn walk_values<DB: Backend>(
    ty: SqlType,
    values: &[Value],
    pass: &mut AstPass<DB>,
) -> Result<(), PassError>
    ensures { Walks DB.speaks (held DB.QueryBuilder.text DB.QueryBuilder.count pass.old)
        (values_pieces ty values.now) result
        (held DB.QueryBuilder.text DB.QueryBuilder.count pass.new) }
{
    let mut first = true;
    for value in values {
        walk_next_value(first, ty, value, pass)?;
        first = false;
    }
    Ok(())
}

pub(crate) fn walk_bound_list<DB: Backend>(
    ty: SqlType,
    values: &[Value],
    pass: &mut AstPass<DB>,
) -> Result<(), PassError>
    ensures { Walks DB.speaks (held DB.QueryBuilder.text DB.QueryBuilder.count pass.old)
        (one (Bind (ManyValues ty values.now))) result
        (held DB.QueryBuilder.text DB.QueryBuilder.count pass.new) }
{
    pass.push_bind_param(BoundRef::List(ty, values))
}

/// How the dialect compares with the values of a list.
pub(crate) fn comparison_of<DB: Backend>(pass: &AstPass<DB>) -> ArrayComparison
    ensures { result ≡ array DB.speaks }
{
    match pass.backend().dialect() {
        Dialect::Pg => ArrayComparison::PgStyleArrayComparison,
        Dialect::Mysql | Dialect::Sqlite | Dialect::Bracket => {
            ArrayComparison::AnsiSqlArrayComparison
        }
    }
}

/// Pushes what is sought, up to the bracket that opens before what it is looked for in.
#[cycle(walk)]
pub(crate) fn walk_sought<DB: Backend>(
    negated: bool,
    a: &Expr,
    pass: &mut AstPass<DB>,
) -> Result<(), PassError>
    ensures { Walks DB.speaks (held DB.QueryBuilder.text DB.QueryBuilder.count pass.old)
        (around (codes "(") (expr_pieces DB.speaks (expr_tree a.now)) (among_sql DB.speaks negated))
        result (held DB.QueryBuilder.text DB.QueryBuilder.count pass.new) }
{
    let word = among_text(comparison_of(pass), negated);
    walk_around(OPEN, a, word, pass)
}

/// Pushes `(x = ANY($1))`, or `(x IN (?, ?))` with each value by itself.
#[cycle(walk)]
pub(crate) fn walk_among_values<DB: Backend>(
    negated: bool,
    a: &Expr,
    ty: SqlType,
    values: &SqlList<Value>,
    pass: &mut AstPass<DB>,
) -> Result<(), PassError>
    ensures { Walks DB.speaks (held DB.QueryBuilder.text DB.QueryBuilder.count pass.old)
        (among_pieces DB.speaks negated (expr_pieces DB.speaks (expr_tree a.now)) ty values.now)
        result (held DB.QueryBuilder.text DB.QueryBuilder.count pass.new) }
{
    match comparison_of(pass) {
        ArrayComparison::PgStyleArrayComparison => {
            walk_sought(negated, a, pass)?;
            walk_bound_list(ty, values.as_slice(), pass)?;
            pass.push_sql(CLOSE_BOTH)
        }
        ArrayComparison::AnsiSqlArrayComparison => {
            walk_one_by_one(negated, a, ty, values.as_slice(), pass)
        }
    }
}

#[cycle(walk)]
fn walk_one_by_one<DB: Backend>(
    negated: bool,
    a: &Expr,
    ty: SqlType,
    values: &[Value],
    pass: &mut AstPass<DB>,
) -> Result<(), PassError>
    ensures { Walks DB.speaks (held DB.QueryBuilder.text DB.QueryBuilder.count pass.old)
        (one_by_one DB.speaks negated (expr_pieces DB.speaks (expr_tree a.now)) ty values.now)
        result (held DB.QueryBuilder.text DB.QueryBuilder.count pass.new) }
{
    mark_varying_length(pass);
    if values.is_empty() {
        return pass.push_sql(constant_text(negated));
    }
    walk_sought(negated, a, pass)?;
    walk_values(ty, values, pass)?;
    pass.push_sql(CLOSE_BOTH)?;
    Ok(())
}
