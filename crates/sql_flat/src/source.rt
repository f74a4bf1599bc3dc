//! The nodes of sources.
#![tactic(auto, using(sql_flat_law::proofs::Adding::adding))]

ghost use Rattle.std.specs.Prelude.{◌≡◌, OnOk, None};
ghost use Rattle.std.specs.Option.{option_map};
ghost use Rattle.sql_node.specs.Tree.{of_alias, of_table};
ghost use Rattle.sql_node.specs.View.{expr_tree, join_on_tree, maybe_of, source_tree};
ghost use Rattle.sql_flat_law.specs.Building.{Adds};
ghost use Rattle.sql_flat_law.specs.Rose.{none, one};
ghost use Rattle.sql_flat.specs.Flat.{flat_node, has_on, maybe_roses, source_rose};
ghost use Rattle.sql_flat.specs.declared.kind.FlatKind.TheVariants as K;

use crate::building::{close, open, push_leaf};
use crate::expr::push_over;
use crate::{FlatKind, FlatNode};
use sql_leaf::{Alias, JoinKind, TableSource};
use sql_node::{Expr, JoinOn, Source};
use sql_schema::NoMemory;
use std::alloc::Global;

fn push_table(
    alloc: Global,
    source: &TableSource,
    nodes: &mut Vec<FlatNode>,
) -> Result<(), NoMemory>
    ensures { OnOk result
        (Adds flat_node nodes.old.items
        (one (source_rose (of_table source.now.table source.now.only source.now.sample)))
        nodes.new.items) }
{
    let source = source.try_clone(alloc)?;
    push_leaf(nodes, FlatKind::Table(source))
}

fn push_alias(alloc: Global, alias: &Alias, nodes: &mut Vec<FlatNode>) -> Result<(), NoMemory>
    ensures { OnOk result
        (Adds flat_node nodes.old.items
        (one (source_rose (of_alias alias.now.name alias.now.table))) nodes.new.items) }
{
    let alias = alias.try_clone(alloc)?;
    push_leaf(nodes, FlatKind::Alias(alias))
}

#[cycle(walk)]
fn push_on(alloc: Global, on: &Option<Expr>, nodes: &mut Vec<FlatNode>) -> Result<(), NoMemory>
    ensures { OnOk result
        (Adds flat_node nodes.old.items
        (maybe_roses K.On (maybe_of (option_map expr_tree on.now)) none) nodes.new.items) }
{
    match on {
        None => Ok(()),
        Some(on) => push_over(alloc, FlatKind::On, on, nodes),
    }
}

fn join_kind(kind: JoinKind, on: &Option<Expr>) -> FlatKind
    ensures { result ≡ K.Join kind (has_on (maybe_of (option_map expr_tree on.now))) }
{
    match on {
        None => FlatKind::Join(kind, false),
        Some(_) => FlatKind::Join(kind, true),
    }
}

#[tactic(auto, using(sql_flat_law::proofs::Adding::adding, sql_node::proofs::Trees::opens_join_on, sql_node::proofs::Trees::opens_join))]
#[cycle(walk)]
fn push_join(alloc: Global, join: &JoinOn, nodes: &mut Vec<FlatNode>) -> Result<(), NoMemory>
    ensures { OnOk result
        (Adds flat_node nodes.old.items (one (source_rose (join_on_tree join.now)))
        nodes.new.items) }
{
    let at = open(nodes, join_kind(join.join.kind, &join.on))?;
    push_source(alloc, &join.join.left, nodes)?;
    push_source(alloc, &join.join.right, nodes)?;
    push_on(alloc, &join.on, nodes)?;
    close(nodes, at);
    Ok(())
}

/// Pushes a source.
#[tactic(auto, using(sql_node::proofs::Trees::opens_source))]
#[cycle(walk)]
pub(crate) fn push_source(
    alloc: Global,
    source: &Source,
    nodes: &mut Vec<FlatNode>,
) -> Result<(), NoMemory>
    ensures { OnOk result
        (Adds flat_node nodes.old.items (one (source_rose (source_tree source.now)))
        nodes.new.items) }
{
    match source {
        Source::Table(source) => push_table(alloc, source, nodes),
        Source::Alias(alias) => push_alias(alloc, alias, nodes),
        Source::Join(join) => push_join(alloc, join, nodes),
    }
}
