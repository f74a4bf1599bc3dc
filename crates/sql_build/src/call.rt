//! Calls on a statement of any form. None where the statement's form lacks the call.
//!
//! None is inlined into the builder, which would then clear the places of all calls' values for each one.
//!
//! A statement is dropped by a call of `drop`: where it is dropped in place, the checker takes each form of a clause with each
//! of all others, which takes minutes.
#![tactic(auto, using(crate::proofs::Standing::standing))]

ghost use Rattle.std.specs.Prelude.{◌≡◌, IfOk, Some, map, option_map};
ghost use Rattle.sql_expr.specs.Joining.{side_tree};
ghost use Rattle.sql_node.specs.View.{expr_tree, items_of, order_item_tree, statement_tree};
ghost use Rattle.sql_select.specs.Changes.{boxed_for, combined, limited, offset_by, ordered, ordered_by_places, ordered_then};
ghost use Rattle.sql_select.specs.Finding.{found};
ghost use Rattle.sql_select.specs.Joins.{joined};
ghost use Rattle.sql_build_syntax.specs.Forms.{clause_stands, combines, is_unboxed, plain_stands, selects};
ghost use Rattle.sql_build.specs.Made.{clause_made, form_of, plain_made};
ghost use Rattle.sql_build.specs.Named.{only_where};

use crate::combination::combined_with;
use crate::{boxed, select};
use sql_build_syntax::{ClauseCall, PlainCall};
use sql_dialect::{Combinator, Dialect, DuplicateRule};
use sql_expr::{Expr, JoinKind, JoinRhs, OrderItem, PositionalItem, Statement};
use sql_schema::{NoMemory, Schema};
use sql_select::{PositionalOrderDsl, Query as _, QueryDsl};
use std::alloc::Global;

#[inline(never)]
pub(crate) fn plain(
    alloc: Global,
    call: PlainCall,
    statement: Statement,
) -> Result<Option<Statement>, NoMemory>
    ensures { IfOk result (λ o. option_map statement_tree o
        ≡ only_where (Some (plain_made call (statement_tree statement)))
        (plain_stands (form_of (statement_tree statement)) call)) }
{
    match statement {
        Statement::Select(it) => {
            let it = select::plain(alloc, call, it)?;
            Ok(Some(it.into_statement()))
        }
        Statement::Boxed(it) => match boxed::plain(alloc, call, it)? {
            None => Ok(None),
            Some(it) => Ok(Some(it.into_statement())),
        },
        Statement::Combination(_) => Ok(None),
    }
}

fn clause_with(
    alloc: Global,
    call: ClauseCall,
    expr: Expr,
    statement: Statement,
) -> Result<Option<Statement>, NoMemory>
    ensures { IfOk result (λ o. option_map statement_tree o
        ≡ only_where (Some (clause_made call (expr_tree expr) (statement_tree statement)))
        (clause_stands (form_of (statement_tree statement)) call)) }
{
    match statement {
        Statement::Select(it) => {
            let it = select::clause(alloc, call, expr, it)?;
            Ok(Some(it.into_statement()))
        }
        Statement::Boxed(it) => match boxed::clause(alloc, call, expr, it)? {
            None => Ok(None),
            Some(it) => Ok(Some(it.into_statement())),
        },
        Statement::Combination(_) => Ok(None),
    }
}

#[inline(never)]
pub(crate) fn clause(
    alloc: Global,
    call: ClauseCall,
    expr: Option<Expr>,
    statement: Statement,
) -> Result<Option<Statement>, NoMemory>
    ensures { IfOk result (λ o. option_map statement_tree o
        ≡ only_where
        (option_map (λ e. clause_made call e (statement_tree statement))
        (option_map expr_tree expr))
        (clause_stands (form_of (statement_tree statement)) call)) }
{
    match expr {
        None => Ok(None),
        Some(expr) => clause_with(alloc, call, expr, statement),
    }
}

fn join_with(
    alloc: Global,
    schema: &Schema,
    kind: JoinKind,
    right: JoinRhs,
    statement: Statement,
) -> Result<Option<Statement>, NoMemory>
    ensures { IfOk result (λ o. option_map statement_tree o
        ≡ only_where (Some (joined schema.now kind (side_tree right) (statement_tree statement)))
        (selects (form_of (statement_tree statement)))) }
{
    match statement {
        Statement::Select(it) => {
            let it = it.join_with_implicit_on_clause(alloc, schema, right, kind)?;
            Ok(Some(it.into_statement()))
        }
        Statement::Boxed(it) => {
            let it = it.join_with_implicit_on_clause(alloc, schema, right, kind)?;
            Ok(Some(it.into_statement()))
        }
        Statement::Combination(_) => Ok(None),
    }
}

#[inline(never)]
pub(crate) fn join(
    alloc: Global,
    schema: &Schema,
    kind: JoinKind,
    right: Option<JoinRhs>,
    statement: Statement,
) -> Result<Option<Statement>, NoMemory>
    ensures { IfOk result (λ o. option_map statement_tree o
        ≡ only_where
        (option_map (λ side. joined schema.now kind side (statement_tree statement))
        (option_map side_tree right))
        (selects (form_of (statement_tree statement)))) }
{
    match right {
        None => Ok(None),
        Some(right) => join_with(alloc, schema, kind, right, statement),
    }
}

fn find_with(
    alloc: Global,
    key: Vec<Expr>,
    statement: Statement,
) -> Result<Option<Statement>, NoMemory>
    ensures { IfOk result (λ o. option_map statement_tree o
        ≡ only_where (Some (found (map expr_tree key.items) (statement_tree statement)))
        (is_unboxed (form_of (statement_tree statement)))) }
{
    match statement {
        Statement::Select(it) => {
            let it = it.find(alloc, key)?;
            Ok(Some(it.into_statement()))
        }
        Statement::Boxed(it) => {
            drop(it);
            Ok(None)
        }
        Statement::Combination(_) => Ok(None),
    }
}

#[inline(never)]
pub(crate) fn find(
    alloc: Global,
    key: Option<Vec<Expr>>,
    statement: Statement,
) -> Result<Option<Statement>, NoMemory>
    ensures { IfOk result (λ o. option_map statement_tree o
        ≡ only_where
        (option_map (λ all. found all (statement_tree statement))
        (option_map (λ v. map expr_tree v.items) key))
        (is_unboxed (form_of (statement_tree statement)))) }
{
    match key {
        None => Ok(None),
        Some(key) => find_with(alloc, key, statement),
    }
}

fn order_with(items: Vec<OrderItem>, statement: Statement) -> Option<Statement>
    ensures { option_map statement_tree result
        ≡ only_where
        (Some (ordered (items_of (map order_item_tree items.items)) (statement_tree statement)))
        (selects (form_of (statement_tree statement))) }
{
    match statement {
        Statement::Select(it) => Some(it.order(items).into_statement()),
        Statement::Boxed(it) => Some(it.order(items).into_statement()),
        Statement::Combination(_) => None,
    }
}

#[inline(never)]
pub(crate) fn order(items: Option<Vec<OrderItem>>, statement: Statement) -> Option<Statement>
    ensures { option_map statement_tree result
        ≡ only_where
        (option_map (λ all. ordered (items_of all) (statement_tree statement))
        (option_map (λ v. map order_item_tree v.items) items))
        (selects (form_of (statement_tree statement))) }
{
    match items {
        None => None,
        Some(items) => order_with(items, statement),
    }
}

fn then_order_by_with(
    alloc: Global,
    items: Vec<OrderItem>,
    statement: Statement,
) -> Result<Option<Statement>, NoMemory>
    ensures { IfOk result (λ o. option_map statement_tree o
        ≡ only_where
        (Some (ordered_then (items_of (map order_item_tree items.items))
        (statement_tree statement)))
        (selects (form_of (statement_tree statement)))) }
{
    match statement {
        Statement::Select(it) => {
            let it = it.then_order_by(alloc, items)?;
            Ok(Some(it.into_statement()))
        }
        Statement::Boxed(it) => {
            let it = it.then_order_by(alloc, items)?;
            Ok(Some(it.into_statement()))
        }
        Statement::Combination(_) => Ok(None),
    }
}

#[inline(never)]
pub(crate) fn then_order_by(
    alloc: Global,
    items: Option<Vec<OrderItem>>,
    statement: Statement,
) -> Result<Option<Statement>, NoMemory>
    ensures { IfOk result (λ o. option_map statement_tree o
        ≡ only_where
        (option_map (λ all. ordered_then (items_of all) (statement_tree statement))
        (option_map (λ v. map order_item_tree v.items) items))
        (selects (form_of (statement_tree statement)))) }
{
    match items {
        None => Ok(None),
        Some(items) => then_order_by_with(alloc, items, statement),
    }
}

#[inline(never)]
pub(crate) fn limit(limit: i64, statement: Statement) -> Statement
    ensures { statement_tree result ≡ limited limit (statement_tree statement) }
{
    match statement {
        Statement::Select(it) => it.limit(limit).into_statement(),
        Statement::Boxed(it) => it.limit(limit).into_statement(),
        Statement::Combination(it) => it.limit(limit).into_statement(),
    }
}

#[inline(never)]
pub(crate) fn offset(offset: i64, statement: Statement) -> Statement
    ensures { statement_tree result ≡ offset_by offset (statement_tree statement) }
{
    match statement {
        Statement::Select(it) => it.offset(offset).into_statement(),
        Statement::Boxed(it) => it.offset(offset).into_statement(),
        Statement::Combination(it) => it.offset(offset).into_statement(),
    }
}

#[inline(never)]
pub(crate) fn into_boxed(dialect: Dialect, statement: Statement) -> Option<Statement>
    ensures { option_map statement_tree result
        ≡ only_where (Some (boxed_for dialect (statement_tree statement)))
        (is_unboxed (form_of (statement_tree statement))) }
{
    match statement {
        Statement::Select(it) => Some(select::boxed(dialect, it).into_statement()),
        Statement::Boxed(it) => {
            drop(it);
            None
        }
        Statement::Combination(_) => None,
    }
}

fn combine_with(
    alloc: Global,
    combinator: Combinator,
    rule: DuplicateRule,
    right: Statement,
    statement: Statement,
) -> Result<Statement, NoMemory>
    ensures { IfOk result (λ s. statement_tree s
        ≡ combined combinator rule (statement_tree statement) (statement_tree right)) }
{
    match statement {
        Statement::Select(it) => combined_with(alloc, combinator, rule, it, right),
        Statement::Boxed(it) => combined_with(alloc, combinator, rule, it, right),
        Statement::Combination(it) => combined_with(alloc, combinator, rule, it, right),
    }
}

#[inline(never)]
pub(crate) fn combine(
    alloc: Global,
    combinator: Combinator,
    rule: DuplicateRule,
    right: Option<Statement>,
    statement: Statement,
) -> Result<Option<Statement>, NoMemory>
    ensures { IfOk result (λ o. option_map statement_tree o
        ≡ option_map (λ other. combined combinator rule (statement_tree statement) other)
        (option_map statement_tree right)) }
{
    match right {
        None => Ok(None),
        Some(right) => {
            let statement = combine_with(alloc, combinator, rule, right, statement)?;
            Ok(Some(statement))
        }
    }
}

#[inline(never)]
pub(crate) fn positional_order_by(
    alloc: Global,
    places: &[PositionalItem],
    statement: Statement,
) -> Result<Option<Statement>, NoMemory>
    ensures { IfOk result (λ o. option_map statement_tree o
        ≡ only_where (Some (ordered_by_places places.now (statement_tree statement)))
        (combines (form_of (statement_tree statement)))) }
{
    match statement {
        Statement::Combination(it) => {
            let places = Vec::from_slice(alloc, places)?;
            Ok(Some(it.positional_order_by(places).into_statement()))
        }
        Statement::Select(it) => {
            drop(it);
            Ok(None)
        }
        Statement::Boxed(it) => {
            drop(it);
            Ok(None)
        }
    }
}
