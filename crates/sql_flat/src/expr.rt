//! The nodes of expressions.
#![tactic(auto, using(sql_flat_law::proofs::Adding::adding))]

ghost use Rattle.std.specs.Prelude.{◌≡◌, IfOk, OnOk, map};
ghost use Rattle.sql_leaf.specs.declared.alias.AliasedField.{AliasedField};
ghost use Rattle.sql_node.specs.View.{column_of, expr_tree, exprs_of, field_of, in_values_tree, statement_tree};
ghost use Rattle.sql_flat_law.specs.Building.{Adds, Finishes, Opens};
ghost use Rattle.sql_flat_law.specs.Rose.{leaf, node, one, roses_of};
ghost use Rattle.sql_flat.specs.Flat.{expr_rose, exprs_roses, flat_node, rose};
ghost use Rattle.sql_flat.specs.declared.kind.FlatKind.TheVariants as K;
ghost use Rattle.sql_flat.specs.inside.Among.{among_rose, looks_in_list};

use crate::building::{close, open, push_leaf};
use crate::statement::push_statement;
use crate::{FlatKind, FlatNode};
use sql_leaf::{AliasedField, Comparison, Logic, Unary};
use sql_node::{Expr, InValues, Statement};
use sql_pass::Value;
use sql_schema::{Column, NoMemory, SqlType};
use std::alloc::Global;

fn push_column(alloc: Global, column: &Column, nodes: &mut Vec<FlatNode>) -> Result<(), NoMemory>
    ensures { OnOk result
        (Adds flat_node nodes.old.items (one (expr_rose (column_of column.now)))
        nodes.new.items) }
{
    let column = column.try_clone(alloc)?;
    push_leaf(nodes, FlatKind::Column(None, column))
}

fn push_field(
    alloc: Global,
    field: &AliasedField,
    nodes: &mut Vec<FlatNode>,
) -> Result<(), NoMemory>
    ensures { OnOk result
        (Adds flat_node nodes.old.items (one (expr_rose (field_of field.now))) nodes.new.items) }
{
    let alias = field.alias.try_clone(alloc)?;
    let column = field.column.try_clone(alloc)?;
    push_leaf(nodes, FlatKind::Column(Some(alias), column))
}

fn push_value(
    alloc: Global,
    ty: SqlType,
    value: &Value,
    nodes: &mut Vec<FlatNode>,
) -> Result<(), NoMemory>
    ensures { OnOk result
        (Adds flat_node nodes.old.items (one (leaf (K.Value ty value.now))) nodes.new.items) }
{
    let value = value.try_clone(alloc)?;
    push_leaf(nodes, FlatKind::Value(ty, value))
}

fn push_element(
    alloc: Global,
    ty: SqlType,
    value: &Value,
    nodes: &mut Vec<FlatNode>,
) -> Result<(), NoMemory>
    ensures { OnOk result
        (Adds flat_node nodes.old.items (one (leaf (K.Element ty value.now))) nodes.new.items) }
{
    let value = value.try_clone(alloc)?;
    push_leaf(nodes, FlatKind::Element(ty, value))
}

fn push_elements(
    alloc: Global,
    ty: SqlType,
    values: &[Value],
    nodes: &mut Vec<FlatNode>,
) -> Result<(), NoMemory>
    ensures { OnOk result
        (Adds flat_node nodes.old.items (roses_of (λ v. leaf (K.Element ty v)) values.now)
        nodes.new.items) }
{
    for value in values {
        push_element(alloc, ty, value, nodes)?;
    }
    Ok(())
}

fn push_values(
    alloc: Global,
    ty: SqlType,
    values: &[Value],
    nodes: &mut Vec<FlatNode>,
) -> Result<(), NoMemory>
    ensures { OnOk result
        (Adds flat_node nodes.old.items
        (one (node (K.Values ty) (roses_of (λ v. leaf (K.Element ty v)) values.now)))
        nodes.new.items) }
{
    let at = open(nodes, FlatKind::Values(ty))?;
    push_elements(alloc, ty, values, nodes)?;
    close(nodes, at);
    Ok(())
}

/// Pushes a node over one expression.
#[cycle(walk)]
pub(crate) fn push_over(
    alloc: Global,
    kind: FlatKind,
    a: &Expr,
    nodes: &mut Vec<FlatNode>,
) -> Result<(), NoMemory>
    ensures { OnOk result
        (Adds flat_node nodes.old.items (one (node kind (one (expr_rose (expr_tree a.now)))))
        nodes.new.items) }
{
    let at = open(nodes, kind)?;
    push_expr(alloc, a, nodes)?;
    close(nodes, at);
    Ok(())
}

/// Pushes a node over the expression and a second part, which the caller pushes next; returns the node's index.
#[cycle(walk)]
fn push_first(
    alloc: Global,
    kind: FlatKind,
    a: &Expr,
    nodes: &mut Vec<FlatNode>,
) -> Result<usize, NoMemory>
    ensures { IfOk result (λ at. Opens flat_node nodes.old.items kind
        (one (expr_rose (expr_tree a.now))) at nodes.new.items) }
{
    let at = open(nodes, kind)?;
    push_expr(alloc, a, nodes)?;
    Ok(at)
}

/// Pushes the last expression under the node at that index.
#[cycle(walk)]
fn push_last(alloc: Global, at: usize, b: &Expr, nodes: &mut Vec<FlatNode>) -> Result<(), NoMemory>
    ensures { OnOk result
        (Finishes flat_node nodes.old.items at (one (expr_rose (expr_tree b.now)))
        nodes.new.items) }
{
    push_expr(alloc, b, nodes)?;
    close(nodes, at);
    Ok(())
}

/// Pushes a node over a statement.
#[cycle(walk)]
pub(crate) fn push_over_query(
    alloc: Global,
    kind: FlatKind,
    query: &Statement,
    nodes: &mut Vec<FlatNode>,
) -> Result<(), NoMemory>
    ensures { OnOk result
        (Adds flat_node nodes.old.items (one (node kind (one (rose (statement_tree query.now)))))
        nodes.new.items) }
{
    let at = open(nodes, kind)?;
    push_statement(alloc, query, nodes)?;
    close(nodes, at);
    Ok(())
}

#[tactic(auto, using(sql_node::proofs::Trees::opens_in_values))]
fn is_list(among: &InValues) -> bool
    ensures { result ≡ looks_in_list (in_values_tree among.now) }
{
    match among {
        InValues::List(_, _) => true,
        InValues::Query(_) => false,
    }
}

/// Pushes what a membership looks in.
#[tactic(auto, using(sql_flat_law::proofs::Adding::adding, sql_node::proofs::Trees::opens_in_values))]
#[cycle(walk)]
fn push_sought(alloc: Global, among: &InValues, nodes: &mut Vec<FlatNode>) -> Result<(), NoMemory>
    ensures { OnOk result
        (Adds flat_node nodes.old.items (one (among_rose (in_values_tree among.now)))
        nodes.new.items) }
{
    match among {
        InValues::List(ty, values) => push_values(alloc, *ty, values.as_slice(), nodes),
        InValues::Query(query) => push_statement(alloc, query, nodes),
    }
}

/// Pushes what a membership looks in as the last part under the node at that index.
#[cycle(walk)]
fn push_among(
    alloc: Global,
    at: usize,
    among: &InValues,
    nodes: &mut Vec<FlatNode>,
) -> Result<(), NoMemory>
    ensures { OnOk result
        (Finishes flat_node nodes.old.items at (one (among_rose (in_values_tree among.now)))
        nodes.new.items) }
{
    push_sought(alloc, among, nodes)?;
    close(nodes, at);
    Ok(())
}

#[cycle(walk)]
fn push_exprs(alloc: Global, exprs: &[Expr], nodes: &mut Vec<FlatNode>) -> Result<(), NoMemory>
    ensures { OnOk result
        (Adds flat_node nodes.old.items (exprs_roses (exprs_of (map expr_tree exprs.now)))
        nodes.new.items) }
{
    for expr in exprs {
        push_expr(alloc, expr, nodes)?;
    }
    Ok(())
}

#[cycle(walk)]
fn push_list(alloc: Global, exprs: &[Expr], nodes: &mut Vec<FlatNode>) -> Result<(), NoMemory>
    ensures { OnOk result
        (Adds flat_node nodes.old.items
        (one (node K.List (exprs_roses (exprs_of (map expr_tree exprs.now)))))
        nodes.new.items) }
{
    let at = open(nodes, FlatKind::List)?;
    push_exprs(alloc, exprs, nodes)?;
    close(nodes, at);
    Ok(())
}

/// Pushes an expression.
#[tactic(auto, using(sql_flat_law::proofs::Adding::adding, sql_node::proofs::Trees::opens_expr, crate::proofs::Among::opens_among))]
#[cycle(walk)]
pub(crate) fn push_expr(
    alloc: Global,
    expr: &Expr,
    nodes: &mut Vec<FlatNode>,
) -> Result<(), NoMemory>
    ensures { OnOk result
        (Adds flat_node nodes.old.items (one (expr_rose (expr_tree expr.now))) nodes.new.items) }
{
    match expr {
        Expr::Column(column) => push_column(alloc, column, nodes),
        Expr::Field(field) => push_field(alloc, field, nodes),
        Expr::Value(ty, value) => push_value(alloc, *ty, value, nodes),
        Expr::List(exprs) => push_list(alloc, exprs.as_slice(), nodes),
        Expr::CountStar => push_leaf(nodes, FlatKind::CountStar),
        Expr::Nullable(a) => push_over(alloc, FlatKind::Nullable, a, nodes),
        Expr::Not(a) => push_over(alloc, FlatKind::Unary(Unary::Not), a, nodes),
        Expr::IsNull(a) => push_over(alloc, FlatKind::Unary(Unary::IsNull), a, nodes),
        Expr::IsNotNull(a) => push_over(alloc, FlatKind::Unary(Unary::IsNotNull), a, nodes),
        Expr::Count(a) => push_over(alloc, FlatKind::Count, a, nodes),
        Expr::Eq(a, b) => {
            let at = push_first(alloc, FlatKind::Compared(Comparison::Eq), a, nodes)?;
            push_last(alloc, at, b, nodes)
        }
        Expr::Ne(a, b) => {
            let at = push_first(alloc, FlatKind::Compared(Comparison::Ne), a, nodes)?;
            push_last(alloc, at, b, nodes)
        }
        Expr::Gt(a, b) => {
            let at = push_first(alloc, FlatKind::Compared(Comparison::Gt), a, nodes)?;
            push_last(alloc, at, b, nodes)
        }
        Expr::Ge(a, b) => {
            let at = push_first(alloc, FlatKind::Compared(Comparison::Ge), a, nodes)?;
            push_last(alloc, at, b, nodes)
        }
        Expr::Lt(a, b) => {
            let at = push_first(alloc, FlatKind::Compared(Comparison::Lt), a, nodes)?;
            push_last(alloc, at, b, nodes)
        }
        Expr::Le(a, b) => {
            let at = push_first(alloc, FlatKind::Compared(Comparison::Le), a, nodes)?;
            push_last(alloc, at, b, nodes)
        }
        Expr::And(a, b) => {
            let at = push_first(alloc, FlatKind::Joined(Logic::And), a, nodes)?;
            push_last(alloc, at, b, nodes)
        }
        Expr::Or(a, b) => {
            let at = push_first(alloc, FlatKind::Joined(Logic::Or), a, nodes)?;
            push_last(alloc, at, b, nodes)
        }
        Expr::Exists(query) => push_over_query(alloc, FlatKind::Exists, query, nodes),
        Expr::Subselect(query) => push_over_query(alloc, FlatKind::Single, query, nodes),
        Expr::EqAny(a, among) => {
            let kind = FlatKind::Among(false, is_list(among));
            let at = push_first(alloc, kind, a, nodes)?;
            push_among(alloc, at, among, nodes)
        }
        Expr::NeAll(a, among) => {
            let kind = FlatKind::Among(true, is_list(among));
            let at = push_first(alloc, kind, a, nodes)?;
            push_among(alloc, at, among, nodes)
        }
    }
}
