//! The parts that nodes over at most three children stand for.
#![tactic(auto)]

ghost use Rattle.std.specs.Prelude.{◌≡◌, IfOk, Some, option_map};
ghost use Rattle.sql_node.specs.Tree as t;
ghost use Rattle.sql_node.specs.View.{among_of, expr_tree, in_values_tree, maybe_of, source_tree, statement_tree};
ghost use Rattle.sql_flat.specs.inside.Parts.{among_in, expr_of, expr_part, on_of, over_among, over_expr, over_few, over_sides, over_source, over_sources, over_statement, over_two, positions_of, source_of, statement_of, statement_part};
ghost use Rattle.sql_flat_back.specs.inside.Stacks.{part_of};

use crate::part::Part;
use sql_flat::{Combining, FlatKind};
use sql_leaf::{AliasedField, Comparison, JoinKind, Logic, PositionalItem, Unary};
use sql_node::{CombinationClause, Expr, InValues, Join, JoinOn, OrderItem, Source, Statement};
use sql_schema::{Column, NoMemory, SqlList, SqlText};
use std::alloc::Global;

#[tactic(auto, using(sql_node::proofs::Trees::opens_expr))]
fn column_part(alloc: Global, alias: &Option<SqlText>, column: &Column) -> Result<Part, NoMemory>
    ensures { IfOk result (λ p. part_of p ≡ expr_part
        (t.column (record { alias = alias.now; table = column.now.table }) column.now.decl)) }
{
    let column = column.try_clone(alloc)?;
    match alias {
        None => Ok(Part::Expr(Expr::Column(column))),
        Some(alias) => {
            let alias = alias.try_clone(alloc)?;
            Ok(Part::Expr(Expr::Field(AliasedField { alias, column })))
        }
    }
}

#[tactic(auto, using(sql_node::proofs::Trees::opens_expr))]
fn unary(alloc: Global, operator: Unary, a: Expr) -> Result<Expr, NoMemory>
    ensures { IfOk result (λ e. expr_tree e ≡ t.unary operator (expr_tree a)) }
{
    let a = Box::new(alloc, a)?;
    match operator {
        Unary::Not => Ok(Expr::Not(a)),
        Unary::IsNull => Ok(Expr::IsNull(a)),
        Unary::IsNotNull => Ok(Expr::IsNotNull(a)),
    }
}

#[tactic(auto, using(sql_node::proofs::Trees::opens_expr, sql_node::proofs::Trees::opens_order_item))]
fn part_over_expr(alloc: Global, kind: &FlatKind, a: Expr) -> Result<Part, NoMemory>
    ensures { IfOk result (λ p. part_of p ≡ over_expr kind.now (Some (expr_tree a))) }
{
    match kind {
        FlatKind::Nullable => Ok(Part::Expr(Expr::Nullable(Box::new(alloc, a)?))),
        FlatKind::Unary(operator) => Ok(Part::Expr(unary(alloc, *operator, a)?)),
        FlatKind::Count => Ok(Part::Expr(Expr::Count(Box::new(alloc, a)?))),
        FlatKind::On => Ok(Part::On(a)),
        FlatKind::DistinctOn => Ok(Part::DistinctOn(a)),
        FlatKind::Where => Ok(Part::Where(a)),
        FlatKind::GroupBy => Ok(Part::GroupBy(a)),
        FlatKind::Having => Ok(Part::Having(a)),
        FlatKind::Item(direction) => Ok(Part::Item(OrderItem {
            expr: a,
            direction: *direction,
        })),
        _ => Ok(Part::Unfit),
    }
}

/// Returns the part that a node over one expression stands for.
fn part_over_one(alloc: Global, kind: &FlatKind, one: Part) -> Result<Part, NoMemory>
    ensures { IfOk result (λ p. part_of p ≡ over_expr kind.now (expr_of (part_of one))) }
{
    match one.expr() {
        None => Ok(Part::Unfit),
        Some(a) => part_over_expr(alloc, kind, a),
    }
}

#[tactic(auto, using(sql_node::proofs::Trees::opens_expr))]
fn compared(alloc: Global, by: Comparison, a: Expr, b: Expr) -> Result<Expr, NoMemory>
    ensures { IfOk result (λ e. expr_tree e ≡ t.compared by (expr_tree a) (expr_tree b)) }
{
    let a = Box::new(alloc, a)?;
    let b = Box::new(alloc, b)?;
    match by {
        Comparison::Eq => Ok(Expr::Eq(a, b)),
        Comparison::Ne => Ok(Expr::Ne(a, b)),
        Comparison::Gt => Ok(Expr::Gt(a, b)),
        Comparison::Ge => Ok(Expr::Ge(a, b)),
        Comparison::Lt => Ok(Expr::Lt(a, b)),
        Comparison::Le => Ok(Expr::Le(a, b)),
    }
}

fn compared_part(alloc: Global, by: Comparison, one: Part, two: Part) -> Result<Part, NoMemory>
    ensures { IfOk result (λ p. part_of p ≡ over_two (t.compared by)
        (expr_of (part_of one)) (expr_of (part_of two))) }
{
    let Some(a) = one.expr() else {
        return Ok(Part::Unfit);
    };
    let Some(b) = two.expr() else {
        return Ok(Part::Unfit);
    };
    Ok(Part::Expr(compared(alloc, by, a, b)?))
}

#[tactic(auto, using(sql_node::proofs::Trees::opens_expr))]
fn joined(alloc: Global, by: Logic, a: Expr, b: Expr) -> Result<Expr, NoMemory>
    ensures { IfOk result (λ e. expr_tree e ≡ t.joined by (expr_tree a) (expr_tree b)) }
{
    let a = Box::new(alloc, a)?;
    let b = Box::new(alloc, b)?;
    match by {
        Logic::And => Ok(Expr::And(a, b)),
        Logic::Or => Ok(Expr::Or(a, b)),
    }
}

fn joined_part(alloc: Global, by: Logic, one: Part, two: Part) -> Result<Part, NoMemory>
    ensures { IfOk result (λ p. part_of p ≡ over_two (t.joined by)
        (expr_of (part_of one)) (expr_of (part_of two))) }
{
    let Some(a) = one.expr() else {
        return Ok(Part::Unfit);
    };
    let Some(b) = two.expr() else {
        return Ok(Part::Unfit);
    };
    Ok(Part::Expr(joined(alloc, by, a, b)?))
}

#[tactic(auto, using(sql_node::proofs::Trees::opens_expr))]
fn exists_part(one: Part) -> Part
    ensures { part_of result
        ≡ over_statement (λ s. expr_part (t.exists s)) (statement_of (part_of one)) }
{
    match one.statement() {
        None => Part::Unfit,
        Some(query) => Part::Expr(Expr::Exists(query)),
    }
}

#[tactic(auto, using(sql_node::proofs::Trees::opens_expr))]
fn single_part(one: Part) -> Part
    ensures { part_of result
        ≡ over_statement (λ s. expr_part (t.single s)) (statement_of (part_of one)) }
{
    match one.statement() {
        None => Part::Unfit,
        Some(query) => Part::Expr(Expr::Subselect(query)),
    }
}

#[tactic(auto, using(sql_node::proofs::Trees::opens_expr))]
fn among(alloc: Global, negated: bool, a: Expr, values: InValues) -> Result<Expr, NoMemory>
    ensures { IfOk result (λ e. expr_tree e
        ≡ among_of negated (expr_tree a) (in_values_tree values)) }
{
    let a = Box::new(alloc, a)?;
    if negated {
        Ok(Expr::NeAll(a, values))
    } else {
        Ok(Expr::EqAny(a, values))
    }
}

fn among_part(alloc: Global, negated: bool, one: Part, two: Part) -> Result<Part, NoMemory>
    ensures { IfOk result (λ p. part_of p
        ≡ over_among negated (expr_of (part_of one)) (among_in (part_of two))) }
{
    let Some(a) = one.expr() else {
        return Ok(Part::Unfit);
    };
    let Some(values) = two.in_values() else {
        return Ok(Part::Unfit);
    };
    Ok(Part::Expr(among(alloc, negated, a, values)?))
}

#[tactic(auto, using(sql_node::proofs::Trees::opens_source, sql_node::proofs::Trees::opens_join, sql_node::proofs::Trees::opens_join_on))]
fn join(
    alloc: Global,
    kind: JoinKind,
    left: Source,
    right: Source,
    on: Option<Expr>,
) -> Result<Source, NoMemory>
    ensures { IfOk result (λ s. source_tree s ≡ t.join kind (source_tree left)
        (source_tree right) (maybe_of (option_map expr_tree on))) }
{
    let join = Join { left, right, kind };
    Ok(Source::Join(Box::new(alloc, JoinOn { join, on })?))
}

fn join_part(
    alloc: Global,
    kind: JoinKind,
    one: Part,
    two: Part,
    three: Part,
) -> Result<Part, NoMemory>
    ensures { IfOk result (λ p. part_of p ≡ over_sources kind (source_of (part_of one))
        (source_of (part_of two)) (on_of (part_of three))) }
{
    let Some(left) = one.source() else {
        return Ok(Part::Unfit);
    };
    let Some(right) = two.source() else {
        return Ok(Part::Unfit);
    };
    Ok(Part::Source(join(alloc, kind, left, right, three.on())?))
}

fn from_part(one: Part) -> Part
    ensures { part_of result ≡ over_source (source_of (part_of one)) }
{
    match one.source() {
        None => Part::Unfit,
        Some(source) => Part::From(source),
    }
}

#[tactic(auto, using(sql_node::proofs::Trees::opens_statement, sql_node::proofs::Trees::opens_combination_clause))]
fn combination(
    combining: Combining,
    source: Box<Statement>,
    rhs: Box<Statement>,
    order: Option<SqlList<PositionalItem>>,
) -> Statement
    ensures { statement_tree result ≡ t.combination combining.combinator combining.duplicates
        (statement_tree source.value) (statement_tree rhs.value) order combining.rows }
{
    Statement::Combination(CombinationClause {
        combinator: combining.combinator,
        duplicate_rule: combining.duplicates,
        source,
        rhs,
        order,
        limit_offset: combining.rows,
    })
}

fn combination_part(
    alloc: Global,
    combining: Combining,
    one: Part,
    two: Part,
    three: Part,
) -> Result<Part, NoMemory>
    ensures { IfOk result (λ p. part_of p ≡ over_sides combining (statement_of (part_of one))
        (statement_of (part_of two)) (positions_of (part_of three))) }
{
    let Some(left) = one.statement() else {
        return Ok(Part::Unfit);
    };
    let Some(right) = two.statement() else {
        return Ok(Part::Unfit);
    };
    let both = combination(combining, left, right, three.positions());
    Ok(Part::Statement(Box::new(alloc, both)?))
}

fn side_part(one: Part) -> Part
    ensures { part_of result ≡ over_statement statement_part (statement_of (part_of one)) }
{
    match one.statement() {
        None => Part::Unfit,
        Some(side) => Part::Statement(side),
    }
}

/// Returns the part that a node of that kind stands for, over these children.
#[tactic(auto, using(sql_node::proofs::Trees::opens_expr, sql_node::proofs::Trees::opens_source))]
pub(crate) fn part_over_few(
    alloc: Global,
    kind: &FlatKind,
    one: Part,
    two: Part,
    three: Part,
) -> Result<Part, NoMemory>
    ensures { IfOk result (λ p. part_of p
        ≡ over_few kind.now (part_of one) (part_of two) (part_of three)) }
{
    match kind {
        FlatKind::Column(alias, column) => column_part(alloc, alias, column),
        FlatKind::Value(ty, value) => Ok(Part::Expr(Expr::Value(*ty, value.try_clone(alloc)?))),
        FlatKind::CountStar => Ok(Part::Expr(Expr::CountStar)),
        FlatKind::Compared(by) => compared_part(alloc, *by, one, two),
        FlatKind::Joined(by) => joined_part(alloc, *by, one, two),
        FlatKind::Exists => Ok(exists_part(one)),
        FlatKind::Single => Ok(single_part(one)),
        FlatKind::Among(negated, _) => among_part(alloc, *negated, one, two),
        FlatKind::Element(_, value) => Ok(Part::Element(value.try_clone(alloc)?)),
        FlatKind::Table(source) => Ok(Part::Source(Source::Table(source.try_clone(alloc)?))),
        FlatKind::Alias(alias) => Ok(Part::Source(Source::Alias(alias.try_clone(alloc)?))),
        FlatKind::Join(by, _) => join_part(alloc, *by, one, two, three),
        FlatKind::From => Ok(from_part(one)),
        FlatKind::Combination(both) => combination_part(alloc, *both, one, two, three),
        FlatKind::Side => Ok(side_part(one)),
        FlatKind::Position(item) => Ok(Part::Position(*item)),
        FlatKind::List | FlatKind::Nullable | FlatKind::Unary(_) => part_over_one(alloc, kind, one),
        FlatKind::Count | FlatKind::Values(_) | FlatKind::On => part_over_one(alloc, kind, one),
        FlatKind::DistinctOn | FlatKind::Where => part_over_one(alloc, kind, one),
        FlatKind::GroupBy | FlatKind::Having => part_over_one(alloc, kind, one),
        FlatKind::OrderBy | FlatKind::Item(_) => part_over_one(alloc, kind, one),
        FlatKind::Select(_) | FlatKind::Positions => part_over_one(alloc, kind, one),
    }
}
