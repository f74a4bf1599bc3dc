//! The origins that clauses see, found by one loop from the first node to the last (`names`, where an example is). `nest` is the stack
//! of the nodes that are open, the innermost last (`sql_flat_law`).
#![tactic(auto, using(crate::proofs::Opening::opening))]

ghost use Rattle.std.specs.Prelude.{◌≡◌, ◌<◌, ◌+◌, ◌++◌, IfOk, OnOk, map, option_map};
ghost use Rattle.sql_flat_law.specs.Opened.{still_open};
ghost use Rattle.sql_origin.specs.Borrowed.{origin_of};
ghost use Rattle.sql_rules_check.specs.inside.Views.{is_passed as kind_is_passed, keeps as kind_keeps, leaf_at, widened as widened_view, within as views_within};
ghost use Rattle.sql_rules_check.specs.inside.Walks.{around as around_of, entered_at, leaves_from, opens, option_list, views_of};

use crate::walk::{Passing, Walk};
use sql_flat::{FlatKind, FlatNode, Form};
use sql_flat_law::Opened;
use sql_origin::Origin;
use sql_schema::NoMemory;
use std::alloc::Global;

/// The origins that the clauses within a node see, and those that the condition of the innermost select statement sees.
#[derive(Drop)]
pub(crate) struct Known<'s> {
    pub(crate) clause: Vec<Origin<'s>>,
    pub(crate) condition: Vec<Origin<'s>>,
}

fn leaf(kind: &FlatKind) -> Option<Origin<'_>>
    ensures { option_list (option_map origin_of result) ≡ leaf_at kind.now }
{
    match kind {
        FlatKind::Table(source) => Some(Origin::of_table(&source.table)),
        FlatKind::Alias(alias) => Some(Origin::of_alias(alias)),
        _ => None,
    }
}

/// Over what is no source.
struct Sources;

impl Passing for Sources {
    ghost passed = { kind_is_passed };

    fn is_passed(kind: &FlatKind) -> bool {
        match kind {
            FlatKind::Join(_, _) | FlatKind::From => false,
            _ => true,
        }
    }
}

fn add_leaf<'s>(kind: &'s FlatKind, all: &mut Vec<Origin<'s>>) -> Result<(), NoMemory>
    ensures { OnOk result
        (map origin_of all.new.items ≡ map origin_of all.old.items ++ leaf_at kind.now) }
{
    match leaf(kind) {
        None => Ok(()),
        Some(origin) => {
            all.push(origin)?;
            Ok(())
        }
    }
}

/// The leaves from one index to another.
fn leaves<'s>(
    alloc: Global,
    nodes: &'s [FlatNode],
    from: usize,
    end: usize,
) -> Result<Vec<Origin<'s>>, NoMemory>
    ensures { IfOk result (λ v. map origin_of v.items ≡ leaves_from end from nodes.now) }
{
    let mut all = Vec::new(alloc);
    for (_, node) in Walk::<Sources>::new(nodes, from, end) {
        add_leaf(&node.kind, &mut all)?;
    }
    Ok(all)
}

fn copied<'s>(alloc: Global, view: &[Origin<'s>]) -> Result<Vec<Origin<'s>>, NoMemory>
    ensures { IfOk result (λ v. map origin_of v.items ≡ map origin_of view.now) }
{
    let mut all = Vec::new(alloc);
    all.extend_from_slice(view)?;
    Ok(all)
}

/// Returns the origins that the condition of a select statement sees.
fn widened<'s>(
    alloc: Global,
    form: Form,
    own: &[Origin<'s>],
    outer: &[Origin<'s>],
) -> Result<Vec<Origin<'s>>, NoMemory>
    ensures { IfOk result (λ v. map origin_of v.items
        ≡ widened_view form (map origin_of own.now) (map origin_of outer.now)) }
{
    let mut all = copied(alloc, own)?;
    match form {
        Form::Boxed(_, _) => Ok(all),
        Form::Unboxed(_) => {
            if own.is_empty() {
                return Ok(all);
            }
            all.extend_from_slice(outer)?;
            Ok(all)
        }
    }
}

fn known_in_select<'s>(
    alloc: Global,
    form: Form,
    own: Vec<Origin<'s>>,
    outer: &[Origin<'s>],
) -> Result<Known<'s>, NoMemory>
    ensures clause { IfOk result (λ k. (views_of k).clause ≡ map origin_of own.entry.items) }
    ensures condition { IfOk result (λ k. (views_of k).condition
        ≡ widened_view form (map origin_of own.entry.items) (map origin_of outer.now)) }
{
    let condition = widened(alloc, form, own.as_slice(), outer)?;
    Ok(Known {
        clause: own,
        condition,
    })
}

fn twice<'s>(alloc: Global, view: &[Origin<'s>]) -> Result<Known<'s>, NoMemory>
    ensures { IfOk result (λ k. views_of k
        ≡ record { clause = map origin_of view.now; condition = map origin_of view.now }) }
{
    let clause = copied(alloc, view)?;
    let condition = copied(alloc, view)?;
    Ok(Known { clause, condition })
}

/// Returns what is known within the node at that index, from what is known around it.
fn known_within<'s>(
    alloc: Global,
    nodes: &'s [FlatNode],
    index: usize,
    node: &'s FlatNode,
    known: &Known<'s>,
) -> Result<Known<'s>, NoMemory>
    requires { index < 18446744073709551615 }
    ensures { IfOk result (λ k. views_of k
        ≡ views_within (views_of known.now) node.now.kind
        (leaves_from node.now.end (index + 1) nodes.now)) }
{
    match &node.kind {
        FlatKind::Select(select) => {
            let own = leaves(alloc, nodes, index + 1, node.end)?;
            known_in_select(alloc, select.form, own, known.clause.as_slice())
        }
        FlatKind::Join(_, _) => {
            let own = leaves(alloc, nodes, index + 1, node.end)?;
            twice(alloc, own.as_slice())
        }
        FlatKind::Where => twice(alloc, known.condition.as_slice()),
        _ => {
            let clause = copied(alloc, known.clause.as_slice())?;
            let condition = copied(alloc, known.condition.as_slice())?;
            Ok(Known { clause, condition })
        }
    }
}

fn keeps(kind: &FlatKind) -> bool
    ensures { result ≡ kind_keeps kind.now }
{
    match kind {
        FlatKind::Select(_) => false,
        FlatKind::Join(_, _) => false,
        FlatKind::Where => false,
        _ => true,
    }
}

/// Closes the nodes that end before the index.
pub(crate) fn close(nest: &mut Vec<Opened<Known<'_>>>, index: usize)
    ensures { opens nest.new.items ≡ still_open index (opens nest.old.items) }
{
    sql_flat_law::close(nest, index);
}

/// Returns what is known within the node at that index, where these nodes are open.
fn known_at<'s>(
    alloc: Global,
    nodes: &'s [FlatNode],
    index: usize,
    node: &'s FlatNode,
    nest: &[Opened<Known<'s>>],
) -> Result<Known<'s>, NoMemory>
    requires { index < 18446744073709551615 }
    ensures { IfOk result (λ k. views_of k
        ≡ views_within (around_of (opens nest.now)) node.now.kind
        (leaves_from node.now.end (index + 1) nodes.now)) }
{
    match nest.last() {
        None => {
            let outer = Known {
                clause: Vec::new(alloc),
                condition: Vec::new(alloc),
            };
            known_within(alloc, nodes, index, node, &outer)
        }
        Some(inner) => known_within(alloc, nodes, index, node, &inner.known),
    }
}

/// Opens the node at that index, where what is known within it is another than around it.
pub(crate) fn enter<'s>(
    alloc: Global,
    nodes: &'s [FlatNode],
    index: usize,
    node: &'s FlatNode,
    nest: &mut Vec<Opened<Known<'s>>>,
) -> Result<(), NoMemory>
    requires { index < 18446744073709551615 }
    ensures { OnOk result (opens nest.new.items
        ≡ entered_at (kind_keeps node.now.kind) node.now.end
        (views_within (around_of (opens nest.old.items)) node.now.kind
        (leaves_from node.now.end (index + 1) nodes.now))
        (opens nest.old.items)) }
{
    if keeps(&node.kind) {
        return Ok(());
    }
    let known = known_at(alloc, nodes, index, node, nest.as_slice())?;
    nest.push(Opened {
        end: node.end,
        known,
    })?;
    Ok(())
}
