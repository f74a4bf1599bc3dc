//! The nodes of clauses. A clause that a statement lacks has none.
#![tactic(auto, using(sql_flat_law::proofs::Adding::adding))]

ghost use Rattle.std.specs.Prelude.{◌≡◌, OnOk, map};
ghost use Rattle.sql_node.specs.View.{distinct_clause_tree, from_clause_tree, group_by_clause_tree, having_clause_tree, items_of, order_clause_tree, order_item_tree, select_clause_tree, source_tree, where_clause_tree};
ghost use Rattle.sql_flat_law.specs.Building.{Adds};
ghost use Rattle.sql_flat_law.specs.Rose.{node, none, one};
ghost use Rattle.sql_flat.specs.Flat.{distinct_roses, expr_rose, flat_node, from_roses, items_roses, maybe_roses, order_roses, source_rose, uniqueness};
ghost use Rattle.sql_flat.specs.declared.kind.FlatKind.TheVariants as K;
ghost use Rattle.sql_flat.specs.inside.Items.{item_rose};

use crate::building::{close, open};
use crate::expr::{push_expr, push_over};
use crate::source::push_source;
use crate::{FlatKind, FlatNode, Uniqueness};
use sql_node::{
    DistinctClause, FromClause, GroupByClause, HavingClause, OrderClause, OrderItem, SelectClause,
    Source, WhereClause,
};
use sql_schema::NoMemory;
use std::alloc::Global;

/// Whether the selection is the default one.
#[tactic(auto, using(sql_node::proofs::Trees::opens_select_clause))]
pub(crate) fn is_default(select: &SelectClause) -> bool
    ensures { result ≡ (select_clause_tree select.now).0 }
{
    match select {
        SelectClause::DefaultSelectClause(_) => true,
        SelectClause::SelectClause(_) => false,
    }
}

#[tactic(auto, using(sql_node::proofs::Trees::opens_distinct_clause))]
pub(crate) fn uniqueness_of(clause: &DistinctClause) -> Uniqueness
    ensures { result ≡ uniqueness (distinct_clause_tree clause.now) }
{
    match clause {
        DistinctClause::NoDistinctClause => Uniqueness::Every,
        DistinctClause::DistinctClause => Uniqueness::Distinct,
        DistinctClause::DistinctOnClause(_) => Uniqueness::DistinctOn,
    }
}

#[tactic(auto, using(sql_flat_law::proofs::Adding::adding, sql_node::proofs::Trees::opens_distinct_clause))]
#[cycle(walk)]
pub(crate) fn push_distinct(
    alloc: Global,
    clause: &DistinctClause,
    nodes: &mut Vec<FlatNode>,
) -> Result<(), NoMemory>
    ensures { OnOk result
        (Adds flat_node nodes.old.items (distinct_roses (distinct_clause_tree clause.now) none)
        nodes.new.items) }
{
    match clause {
        DistinctClause::NoDistinctClause => Ok(()),
        DistinctClause::DistinctClause => Ok(()),
        DistinctClause::DistinctOnClause(exprs) => {
            push_over(alloc, FlatKind::DistinctOn, exprs, nodes)
        }
    }
}

#[tactic(auto, using(sql_node::proofs::Trees::opens_select_clause))]
#[cycle(walk)]
pub(crate) fn push_selection(
    alloc: Global,
    clause: &SelectClause,
    nodes: &mut Vec<FlatNode>,
) -> Result<(), NoMemory>
    ensures { OnOk result
        (Adds flat_node nodes.old.items (one (expr_rose (select_clause_tree clause.now).1))
        nodes.new.items) }
{
    match clause {
        SelectClause::DefaultSelectClause(selection) => push_expr(alloc, selection, nodes),
        SelectClause::SelectClause(selection) => push_expr(alloc, selection, nodes),
    }
}

#[cycle(walk)]
fn push_from_node(alloc: Global, source: &Source, nodes: &mut Vec<FlatNode>) -> Result<(), NoMemory>
    ensures { OnOk result
        (Adds flat_node nodes.old.items
        (one (node K.From (one (source_rose (source_tree source.now))))) nodes.new.items) }
{
    let at = open(nodes, FlatKind::From)?;
    push_source(alloc, source, nodes)?;
    close(nodes, at);
    Ok(())
}

#[tactic(auto, using(sql_flat_law::proofs::Adding::adding, sql_node::proofs::Trees::opens_from_clause))]
#[cycle(walk)]
pub(crate) fn push_from(
    alloc: Global,
    clause: &FromClause,
    nodes: &mut Vec<FlatNode>,
) -> Result<(), NoMemory>
    ensures { OnOk result
        (Adds flat_node nodes.old.items (from_roses (from_clause_tree clause.now) none)
        nodes.new.items) }
{
    match clause {
        FromClause::NoFromClause => Ok(()),
        FromClause::FromClause(source) => push_from_node(alloc, source, nodes),
    }
}

#[tactic(auto, using(sql_flat_law::proofs::Adding::adding, sql_node::proofs::Trees::opens_where_clause))]
#[cycle(walk)]
pub(crate) fn push_where(
    alloc: Global,
    clause: &WhereClause,
    nodes: &mut Vec<FlatNode>,
) -> Result<(), NoMemory>
    ensures { OnOk result
        (Adds flat_node nodes.old.items (maybe_roses K.Where (where_clause_tree clause.now) none)
        nodes.new.items) }
{
    match clause {
        WhereClause::NoWhereClause => Ok(()),
        WhereClause::WhereClause(condition) => {
            push_over(alloc, FlatKind::Where, condition, nodes)
        }
    }
}

#[tactic(auto, using(sql_flat_law::proofs::Adding::adding, sql_node::proofs::Trees::opens_group_by_clause))]
#[cycle(walk)]
pub(crate) fn push_group_by(
    alloc: Global,
    clause: &GroupByClause,
    nodes: &mut Vec<FlatNode>,
) -> Result<(), NoMemory>
    ensures { OnOk result
        (Adds flat_node nodes.old.items
        (maybe_roses K.GroupBy (group_by_clause_tree clause.now) none) nodes.new.items) }
{
    match clause {
        GroupByClause::NoGroupByClause => Ok(()),
        GroupByClause::GroupByClause(exprs) => push_over(alloc, FlatKind::GroupBy, exprs, nodes),
    }
}

#[tactic(auto, using(sql_flat_law::proofs::Adding::adding, sql_node::proofs::Trees::opens_having_clause))]
#[cycle(walk)]
pub(crate) fn push_having(
    alloc: Global,
    clause: &HavingClause,
    nodes: &mut Vec<FlatNode>,
) -> Result<(), NoMemory>
    ensures { OnOk result
        (Adds flat_node nodes.old.items (maybe_roses K.Having (having_clause_tree clause.now) none)
        nodes.new.items) }
{
    match clause {
        HavingClause::NoHavingClause => Ok(()),
        HavingClause::HavingClause(condition) => {
            push_over(alloc, FlatKind::Having, condition, nodes)
        }
    }
}

#[tactic(auto, using(sql_node::proofs::Trees::opens_order_item))]
#[cycle(walk)]
fn push_item(alloc: Global, item: &OrderItem, nodes: &mut Vec<FlatNode>) -> Result<(), NoMemory>
    ensures { OnOk result
        (Adds flat_node nodes.old.items (one (item_rose (order_item_tree item.now)))
        nodes.new.items) }
{
    push_over(alloc, FlatKind::Item(item.direction), &item.expr, nodes)
}

#[cycle(walk)]
fn push_items(alloc: Global, items: &[OrderItem], nodes: &mut Vec<FlatNode>) -> Result<(), NoMemory>
    ensures { OnOk result
        (Adds flat_node nodes.old.items (items_roses (items_of (map order_item_tree items.now)))
        nodes.new.items) }
{
    for item in items {
        push_item(alloc, item, nodes)?;
    }
    Ok(())
}

#[tactic(auto, using(sql_flat_law::proofs::Adding::adding, sql_node::proofs::Trees::opens_order_clause))]
#[cycle(walk)]
pub(crate) fn push_order(
    alloc: Global,
    clause: &OrderClause,
    nodes: &mut Vec<FlatNode>,
) -> Result<(), NoMemory>
    ensures { OnOk result
        (Adds flat_node nodes.old.items (order_roses (order_clause_tree clause.now))
        nodes.new.items) }
{
    match clause {
        OrderClause::NoOrderClause => Ok(()),
        OrderClause::OrderClause(items) => {
            let at = open(nodes, FlatKind::OrderBy)?;
            push_items(alloc, items.as_slice(), nodes)?;
            close(nodes, at);
            Ok(())
        }
    }
}
