//! The nodes of whole statements.
#![tactic(auto, using(sql_flat_law::proofs::Adding::adding))]

ghost use Rattle.std.specs.Prelude.{◌≡◌, OnOk};
ghost use Rattle.sql_node.specs.View.{boxed_select_statement_tree, combination_clause_tree, distinct_clause_tree, select_clause_tree, select_statement_tree, statement_tree};
ghost use Rattle.sql_flat_law.specs.Building.{Adds};
ghost use Rattle.sql_flat_law.specs.Rose.{leaf, one, roses_of};
ghost use Rattle.sql_flat.specs.Flat.{flat_node, positions_roses, rose, uniqueness};
ghost use Rattle.sql_flat.specs.declared.kind.FlatKind.TheVariants as K;

use crate::building::{close, open, push_leaf};
use crate::clause::{
    is_default, push_distinct, push_from, push_group_by, push_having, push_order, push_selection,
    push_where, uniqueness_of,
};
use crate::expr::push_over_query;
use crate::{Combining, FlatKind, FlatNode, Form, Selecting};
use sql_leaf::{LimitOffsetClause, Marks, PositionalItem};
use sql_node::{
    BoxedSelectStatement, CombinationClause, DistinctClause, SelectClause, SelectStatement,
    Statement,
};
use sql_schema::{NoMemory, SqlList};
use std::alloc::Global;

fn selecting(
    select: &SelectClause,
    distinct: &DistinctClause,
    rows: LimitOffsetClause,
    form: Form,
    marks: Marks,
) -> Selecting
    ensures { result ≡ record {
      default = (select_clause_tree select.now).0;
      unique = uniqueness (distinct_clause_tree distinct.now);
      rows = rows;
      form = form;
      marks = marks;
    } }
{
    Selecting {
        default: is_default(select),
        unique: uniqueness_of(distinct),
        rows,
        form,
        marks,
    }
}

/// `push_boxed` changes with it.
#[tactic(auto, using(sql_flat_law::proofs::Adding::adding, sql_node::proofs::Trees::opens_select_statement))]
#[cycle(walk)]
fn push_select(
    alloc: Global,
    statement: &SelectStatement,
    nodes: &mut Vec<FlatNode>,
) -> Result<(), NoMemory>
    ensures { OnOk result
        (Adds flat_node nodes.old.items (one (rose (select_statement_tree statement.now)))
        nodes.new.items) }
{
    let kind = selecting(
        &statement.select,
        &statement.distinct,
        statement.limit_offset,
        Form::Unboxed(statement.locking),
        statement.marks,
    );
    let at = open(nodes, FlatKind::Select(kind))?;
    push_distinct(alloc, &statement.distinct, nodes)?;
    push_selection(alloc, &statement.select, nodes)?;
    push_from(alloc, &statement.from, nodes)?;
    push_where(alloc, &statement.where_clause, nodes)?;
    push_group_by(alloc, &statement.group_by, nodes)?;
    push_having(alloc, &statement.having, nodes)?;
    push_order(alloc, &statement.order, nodes)?;
    close(nodes, at);
    Ok(())
}

/// `push_select` changes with it.
#[tactic(auto, using(sql_flat_law::proofs::Adding::adding, sql_node::proofs::Trees::opens_boxed_select_statement))]
#[cycle(walk)]
fn push_boxed(
    alloc: Global,
    statement: &BoxedSelectStatement,
    nodes: &mut Vec<FlatNode>,
) -> Result<(), NoMemory>
    ensures { OnOk result
        (Adds flat_node nodes.old.items (one (rose (boxed_select_statement_tree statement.now)))
        nodes.new.items) }
{
    let kind = selecting(
        &statement.select,
        &statement.distinct,
        statement.limit_offset,
        Form::Boxed(statement.dialect, statement.nullable),
        statement.marks,
    );
    let at = open(nodes, FlatKind::Select(kind))?;
    push_distinct(alloc, &statement.distinct, nodes)?;
    push_selection(alloc, &statement.select, nodes)?;
    push_from(alloc, &statement.from, nodes)?;
    push_where(alloc, &statement.where_clause, nodes)?;
    push_group_by(alloc, &statement.group_by, nodes)?;
    push_having(alloc, &statement.having, nodes)?;
    push_order(alloc, &statement.order, nodes)?;
    close(nodes, at);
    Ok(())
}

fn push_positions(items: &[PositionalItem], nodes: &mut Vec<FlatNode>) -> Result<(), NoMemory>
    ensures { OnOk result
        (Adds flat_node nodes.old.items (roses_of (λ p. leaf (K.Position p)) items.now)
        nodes.new.items) }
{
    for item in items {
        push_leaf(nodes, FlatKind::Position(*item))?;
    }
    Ok(())
}

fn push_positional_order(
    order: &Option<SqlList<PositionalItem>>,
    nodes: &mut Vec<FlatNode>,
) -> Result<(), NoMemory>
    ensures { OnOk result
        (Adds flat_node nodes.old.items (positions_roses order.now) nodes.new.items) }
{
    match order {
        None => Ok(()),
        Some(items) => {
            let at = open(nodes, FlatKind::Positions)?;
            push_positions(items.as_slice(), nodes)?;
            close(nodes, at);
            Ok(())
        }
    }
}

#[tactic(auto, using(sql_flat_law::proofs::Adding::adding, sql_node::proofs::Trees::opens_combination_clause))]
#[cycle(walk)]
fn push_combination(
    alloc: Global,
    clause: &CombinationClause,
    nodes: &mut Vec<FlatNode>,
) -> Result<(), NoMemory>
    ensures { OnOk result
        (Adds flat_node nodes.old.items (one (rose (combination_clause_tree clause.now)))
        nodes.new.items) }
{
    let kind = FlatKind::Combination(Combining {
        combinator: clause.combinator,
        duplicates: clause.duplicate_rule,
        rows: clause.limit_offset,
    });
    let at = open(nodes, kind)?;
    push_over_query(alloc, FlatKind::Side, &clause.source, nodes)?;
    push_over_query(alloc, FlatKind::Side, &clause.rhs, nodes)?;
    push_positional_order(&clause.order, nodes)?;
    close(nodes, at);
    Ok(())
}

/// Pushes a statement.
#[tactic(auto, using(sql_node::proofs::Trees::opens_statement))]
#[cycle(walk)]
pub(crate) fn push_statement(
    alloc: Global,
    statement: &Statement,
    nodes: &mut Vec<FlatNode>,
) -> Result<(), NoMemory>
    ensures { OnOk result
        (Adds flat_node nodes.old.items (one (rose (statement_tree statement.now)))
        nodes.new.items) }
{
    match statement {
        Statement::Select(select) => push_select(alloc, select, nodes),
        Statement::Boxed(select) => push_boxed(alloc, select, nodes),
        Statement::Combination(both) => push_combination(alloc, both, nodes),
    }
}
