ghost use Rattle.std.specs.Prelude.{◌≡◌, IfOk, None, Some, option_map};
ghost use Rattle.sql_expr.specs.Joining.{side_tree};
ghost use Rattle.sql_node.specs.Tree.{from as from_source};
ghost use Rattle.sql_node.specs.View.{expr_tree, select_statement_tree, source_tree, statement_tree};
ghost use Rattle.sql_select.specs.Clauses.{changed, only};
ghost use Rattle.sql_source.specs.Joins.{alone, joined_by};
ghost use Rattle.sql_build.specs.Built.{side_of};
ghost use Rattle.sql_build.specs.Named.{both};
ghost use Rattle.sql_build.specs.inside.Replaced.{begun};

use sql_expr::{
    Expr, FromClause, JoinKind, JoinRhs, OnClauseWrapper, SelectStatement, Source, Statement,
    count_star,
};
use sql_schema::{NoMemory, Schema};
use sql_select::{AsQuery, Query as _, select};
use sql_source::JoinDsl;
use std::alloc::Global;

/// The right side of a join on the condition that a relation gives.
pub(crate) fn related(source: Option<Source>) -> Option<JoinRhs>
    ensures { option_map side_tree result
        ≡ both side_of (option_map source_tree source) (Some None) }
{
    match source {
        None => None,
        Some(source) => Some(JoinRhs::Source(source)),
    }
}

/// The right side of a join with its condition.
pub(crate) fn conditioned(source: Option<Source>, on: Option<Expr>) -> Option<JoinRhs>
    ensures { option_map side_tree result
        ≡ both side_of (option_map source_tree source) (option_map Some (option_map expr_tree on)) }
{
    let source = source?;
    let on = on?;
    Some(JoinRhs::On(OnClauseWrapper { source, on }))
}

fn joined_source(
    alloc: Global,
    schema: &Schema,
    kind: JoinKind,
    left: Source,
    right: JoinRhs,
) -> Result<Source, NoMemory>
    ensures { IfOk result (λ s. source_tree s
        ≡ (joined_by schema.now kind (alone (source_tree left)) (side_tree right)).source) }
{
    match kind {
        JoinKind::Inner => left.inner_join(alloc, schema, right),
        JoinKind::LeftOuter => left.left_outer_join(alloc, schema, right),
    }
}

/// `("users" INNER JOIN "posts" ON ..)`.
pub(crate) fn joined(
    alloc: Global,
    schema: &Schema,
    kind: JoinKind,
    left: Option<Source>,
    right: Option<JoinRhs>,
) -> Result<Option<Source>, NoMemory>
    ensures { IfOk result (λ o. option_map source_tree o
        ≡ both (λ left right. (joined_by schema.now kind (alone left) right).source)
        (option_map source_tree left) (option_map side_tree right)) }
{
    let Some(left) = left else {
        return Ok(None);
    };
    let Some(right) = right else {
        return Ok(None);
    };
    Ok(Some(joined_source(alloc, schema, kind, left, right)?))
}

/// A statement that reads this source.
#[tactic(auto, using(sql_node::proofs::Trees::opens_select_statement, sql_node::proofs::Trees::opens_from_clause))]
fn reading(mut statement: SelectStatement, source: Source) -> SelectStatement
    ensures { select_statement_tree result
        ≡ changed (λ c. record c { source = from_source (source_tree source) })
        (select_statement_tree statement) }
{
    statement.from = FromClause::FromClause(source);
    statement
}

/// `SELECT .. FROM "users"`: of all columns, or where another selection is to stand in its place, of none of them.
fn begin(alloc: Global, source: Source, replaced: bool) -> Result<SelectStatement, NoMemory>
    ensures { IfOk result (λ s. select_statement_tree s ≡ begun replaced (source_tree source)) }
{
    if replaced {
        return Ok(reading(select(count_star()), source));
    }
    source.as_query(alloc)
}

/// `SELECT .. FROM "users"`. The selection of all columns is not made where it is replaced later.
#[tactic(auto, using(sql_node::proofs::Trees::opens_statement))]
pub(crate) fn from(
    alloc: Global,
    source: Option<Source>,
    replaced: bool,
) -> Result<Option<Statement>, NoMemory>
    ensures { IfOk result (λ o. option_map statement_tree o
        ≡ option_map (begun replaced) (option_map source_tree source)) }
{
    match source {
        None => Ok(None),
        Some(source) => Ok(Some(begin(alloc, source, replaced)?.into_statement())),
    }
}

/// `SELECT ..`.
#[tactic(auto, using(sql_node::proofs::Trees::opens_statement))]
pub(crate) fn selecting(selection: Option<Expr>) -> Option<Statement>
    ensures { option_map statement_tree result ≡ option_map only (option_map expr_tree selection) }
{
    match selection {
        None => None,
        Some(selection) => Some(select(selection).into_statement()),
    }
}
