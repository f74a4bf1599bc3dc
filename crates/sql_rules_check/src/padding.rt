//! Selected columns of sources whose rows an outer join may lack, by one loop from the last node to the first.
//!
//! Of `SELECT "posts"."id" FROM ("users" LEFT OUTER JOIN "posts" ON ..)` the stack (`sql_flat_law`) from the top on, with
//! `posts?` for a leaf whose rows may be lacking:
//!
//! ```text
//! 6  On                   -
//! 5  Table "posts"        posts, -
//! 4  Table "users"        users, posts, -
//! 3  Join left outer      users posts?
//! 2  From                 users posts?
//! 1  Column "posts"."id"  the column, users posts?
//! 0  Select               finds that the column's row may be lacking
//! ```
#![tactic(auto, using(sql_flat_law::proofs::Finishing::finished_push))]

ghost use Rattle.std.specs.Prelude.{◌≡◌, ◌<◌, ◌++◌, [], ◌∷◌, ◌&&◌, IfOk, OnOk, MatchOption, length, map};
ghost use Rattle.std.specs.Bool.{Decides};
ghost use Rattle.std.specs.List.{list_any};
ghost use Rattle.sql_schema.specs.Declarations.{Declarations};
ghost use Rattle.sql_dialect.specs.declared.backend.Dialect.{Dialect};
ghost use Rattle.sql_node.specs.Tree.{Statement};
ghost use Rattle.sql_origin.specs.Borrowed.{origin_of};
ghost use Rattle.sql_origin.specs.Origins.{same_origin};
ghost use Rattle.sql_rules.specs.Rules.{Broken};
ghost use Rattle.sql_rules.specs.declared.rule.Rule.TheVariants as rule;
ghost use Rattle.sql_flat.specs.Flat.{flat_of};
ghost use Rattle.sql_rules_check.specs.inside.Padding.{all_bare, all_leaves, any_lacking as any_lacks, bare_held, first_held, has_left_join, holding, is_lacking as lacking, is_left_join, lacks_nullable, lacks_row as row_lacks, none_held, one_bare as origin_held, one_leaf as leaf_held, other_held, stands_twice as twice, under as under_join};
ghost use Rattle.sql_rules_check.specs.inside.PaddingStacks.{any_lacking_from, held_of, leaf_of, parted, parts_of};

use crate::names::origin_under;
use sql_flat::{Flat, FlatKind, FlatNode};
use sql_flat_law::Finished;
use sql_leaf::JoinKind;
use sql_origin::Origin;
use sql_schema::NoMemory;
use std::alloc::Global;

/// A leaf of a source, and whether an outer join may lack its rows.
#[derive(Clone, Copy)]
pub(crate) struct Padded<'s> {
    pub(crate) origin: Origin<'s>,
    pub(crate) padded: bool,
}

/// The leaves of a source, and what columns under no nullable are columns of.
#[derive(Drop)]
pub(crate) struct Held<'s> {
    pub(crate) leaves: Vec<Padded<'s>>,
    pub(crate) bare: Vec<Origin<'s>>,
}

/// Takes what the next tree on the stack holds, where it begins before the end.
fn take<'s>(parts: &mut Vec<Finished<Held<'s>>>, end: usize) -> Option<Held<'s>>
    ensures { MatchOption result
        ((parts.new.items ≡ parts.old.items)
        × (parted end parts.old.items ≡ ([], parts_of parts.old.items)))
        (λ h. (length parts.new.items < length parts.old.items)
        × (parted end parts.old.items
        ≡ (held_of h ∷ (parted end parts.new.items).0, (parted end parts.new.items).1))) }
{
    sql_flat_law::take(parts, end)
}

/// The same, and nothing where there is no tree.
fn next<'s>(alloc: Global, parts: &mut Vec<Finished<Held<'s>>>, end: usize) -> Held<'s>
    ensures held { held_of result ≡ first_held (parted end parts.old.items).0 }
    ensures left { parted end parts.new.items
        ≡ (other_held (parted end parts.old.items).0, (parted end parts.old.items).1) }
{
    match take(parts, end) {
        None => Held {
            leaves: Vec::new(alloc),
            bare: Vec::new(alloc),
        },
        Some(held) => held,
    }
}

/// Takes all that begin before the end.
fn leave(parts: &mut Vec<Finished<Held<'_>>>, end: usize)
    ensures { parts_of parts.new.items ≡ (parted end parts.old.items).1 }
{
    sql_flat_law::leave(parts, end);
}

fn add<'s>(held: &Held<'s>, all: &mut Held<'s>) -> Result<(), NoMemory>
    ensures leaves { OnOk result
        ((held_of all.new).leaves ≡ (held_of all.old).leaves ++ (held_of held.now).leaves) }
    ensures bare { OnOk result
        ((held_of all.new).bare ≡ (held_of all.old).bare ++ (held_of held.now).bare) }
{
    all.leaves.extend_from_slice(held.leaves.as_slice())?;
    all.bare.extend_from_slice(held.bare.as_slice())?;
    Ok(())
}

/// Takes all, and gives what they hold together. What the first holds is not copied.
fn gather<'s>(
    alloc: Global,
    parts: &mut Vec<Finished<Held<'s>>>,
    end: usize,
) -> Result<Held<'s>, NoMemory>
    ensures leaves { IfOk result (λ h. (held_of h).leaves
        ≡ all_leaves (parted end parts.old.items).0) }
    ensures bare { IfOk result (λ h. (held_of h).bare ≡ all_bare (parted end parts.old.items).0) }
    ensures left { OnOk result
        ((parted end parts.new.items).1 ≡ (parted end parts.old.items).1) }
{
    let mut all = next(alloc, parts, end);
    while let Some(held) = take(parts, end) {
        add(&held, &mut all)?;
    }
    Ok(all)
}

fn under(kind: JoinKind, leaf: Padded<'_>) -> Padded<'_>
    ensures { leaf_of result ≡ under_join kind (leaf_of leaf.entry) }
{
    match kind {
        JoinKind::Inner => leaf,
        JoinKind::LeftOuter => Padded {
            origin: leaf.origin,
            padded: true,
        },
    }
}

/// Adds the leaves of the right side of a join.
fn add_under<'s>(
    kind: JoinKind,
    leaves: &[Padded<'s>],
    all: &mut Vec<Padded<'s>>,
) -> Result<(), NoMemory>
    ensures { OnOk result (map leaf_of all.new.items
        ≡ map leaf_of all.old.items ++ map (under_join kind) (map leaf_of leaves.now)) }
{
    for leaf in leaves {
        all.push(under(kind, *leaf))?;
    }
    Ok(())
}

fn empty<'s>(alloc: Global) -> Held<'s>
    ensures { held_of result ≡ none_held }
{
    Held {
        leaves: Vec::new(alloc),
        bare: Vec::new(alloc),
    }
}

fn one_leaf<'s>(alloc: Global, origin: Origin<'s>) -> Result<Held<'s>, NoMemory>
    ensures { IfOk result (λ h. held_of h ≡ leaf_held (origin_of origin.entry)) }
{
    let mut held = empty(alloc);
    let padded = false;
    held.leaves.push(Padded { origin, padded })?;
    Ok(held)
}

fn one_bare<'s>(alloc: Global, origin: Origin<'s>) -> Result<Held<'s>, NoMemory>
    ensures { IfOk result (λ h. held_of h ≡ origin_held (origin_of origin.entry)) }
{
    let mut held = empty(alloc);
    held.bare.push(origin)?;
    Ok(held)
}

fn all_held_bare<'s>(
    alloc: Global,
    parts: &mut Vec<Finished<Held<'s>>>,
    end: usize,
) -> Result<Held<'s>, NoMemory>
    ensures held { IfOk result (λ h. held_of h ≡ bare_held (parted end parts.old.items).0) }
    ensures left { OnOk result
        ((parted end parts.new.items).1 ≡ (parted end parts.old.items).1) }
{
    let Held { leaves: _, bare } = gather(alloc, parts, end)?;
    let leaves = Vec::new(alloc);
    Ok(Held { leaves, bare })
}

/// The leaves of both sides.
fn joined<'s>(
    alloc: Global,
    kind: JoinKind,
    parts: &mut Vec<Finished<Held<'s>>>,
    end: usize,
) -> Result<Held<'s>, NoMemory>
    ensures held { IfOk result (λ h. held_of h ≡ record {
      leaves = (first_held (parted end parts.old.items).0).leaves
          ++ map (under_join kind)
          (first_held (other_held (parted end parts.old.items).0)).leaves;
      bare = [];
    }) }
    ensures left { OnOk result
        ((parted end parts.new.items).1 ≡ (parted end parts.old.items).1) }
{
    let Held {
        mut leaves,
        bare: _,
    } = next(alloc, parts, end);
    let right = next(alloc, parts, end);
    add_under(kind, right.leaves.as_slice(), &mut leaves)?;
    let bare = Vec::new(alloc);
    Ok(Held { leaves, bare })
}

fn from<'s>(alloc: Global, parts: &mut Vec<Finished<Held<'s>>>, end: usize) -> Held<'s>
    ensures held { held_of result ≡ record {
      leaves = (first_held (parted end parts.old.items).0).leaves;
      bare = [];
    } }
    ensures left { (parted end parts.new.items).1 ≡ (parted end parts.old.items).1 }
{
    let Held { leaves, bare: _ } = next(alloc, parts, end);
    let bare = Vec::new(alloc);
    Held { leaves, bare }
}

/// Returns what a node of that kind holds, over its children on the stack, which begin before its end.
fn held_at<'s>(
    alloc: Global,
    kind: &'s FlatKind,
    parts: &mut Vec<Finished<Held<'s>>>,
    end: usize,
) -> Result<Held<'s>, NoMemory>
    ensures held { IfOk result (λ h. held_of h
        ≡ holding kind.now (parted end parts.old.items).0) }
    ensures left { OnOk result
        ((parted end parts.new.items).1 ≡ (parted end parts.old.items).1) }
{
    match kind {
        FlatKind::Column(alias, column) => one_bare(alloc, origin_under(alias, column)),
        FlatKind::List | FlatKind::Unary(_) | FlatKind::Count => all_held_bare(alloc, parts, end),
        FlatKind::Compared(_) | FlatKind::Joined(_) | FlatKind::Among(_, _) => {
            all_held_bare(alloc, parts, end)
        }
        FlatKind::DistinctOn => all_held_bare(alloc, parts, end),
        FlatKind::Table(source) => one_leaf(alloc, Origin::of_table(&source.table)),
        FlatKind::Alias(alias) => one_leaf(alloc, Origin::of_alias(alias)),
        FlatKind::Join(kind, _) => joined(alloc, *kind, parts, end),
        FlatKind::From => Ok(from(alloc, parts, end)),
        FlatKind::Value(_, _) | FlatKind::CountStar | FlatKind::Nullable => Ok(empty(alloc)),
        FlatKind::Exists | FlatKind::Single | FlatKind::Values(_) => Ok(empty(alloc)),
        FlatKind::Element(_, _) | FlatKind::On | FlatKind::Where => Ok(empty(alloc)),
        FlatKind::GroupBy | FlatKind::Having | FlatKind::OrderBy => Ok(empty(alloc)),
        FlatKind::Item(_) | FlatKind::Select(_) | FlatKind::Combination(_) => Ok(empty(alloc)),
        FlatKind::Side | FlatKind::Positions | FlatKind::Position(_) => Ok(empty(alloc)),
    }
}

/// Whether an outer join may lack the rows of a leaf of that origin.
fn is_lacking(leaves: &[Padded<'_>], origin: Origin<'_>) -> bool
    ensures { result ≡ lacking (map leaf_of leaves.now) (origin_of origin.entry) }
{
    for leaf in leaves {
        if leaf.origin.is_same(origin) && leaf.padded {
            return true;
        }
    }
    false
}

fn any_both(leaf: Origin<'_>, leaves: &[Padded<'_>], origin: Origin<'_>) -> bool
    ensures { result ≡ list_any
        (λ b. same_origin (origin_of leaf.entry) (origin_of origin.entry)
        && same_origin b (origin_of origin.entry)) (map (λ l. origin_of l.origin) leaves.now) }
{
    for other in leaves {
        if leaf.is_same(origin) && other.origin.is_same(origin) {
            return true;
        }
    }
    false
}

fn stands_twice(leaves: &[Padded<'_>], origin: Origin<'_>) -> bool
    ensures { result ≡ twice (map (λ l. origin_of l.origin) leaves.now) (origin_of origin.entry) }
{
    for (i, leaf) in leaves.iter().enumerate() {
        if any_both(leaf.origin, &leaves[i + 1..], origin) {
            return true;
        }
    }
    false
}

fn lacks_row(leaves: &[Padded<'_>], origin: Origin<'_>) -> bool
    ensures { result ≡ row_lacks (map leaf_of leaves.now) (origin_of origin.entry) }
{
    is_lacking(leaves, origin) && !stands_twice(leaves, origin)
}

fn any_lacking(leaves: &[Padded<'_>], bare: &[Origin<'_>]) -> bool
    ensures { result ≡ any_lacks (map leaf_of leaves.now) (map origin_of bare.now) }
{
    for origin in bare {
        if lacks_row(leaves, *origin) {
            return true;
        }
    }
    false
}

/// The same, and whether it is a select statement that lacks a nullable.
fn judged_at<'s>(
    alloc: Global,
    kind: &'s FlatKind,
    parts: &mut Vec<Finished<Held<'s>>>,
    end: usize,
) -> Result<(Held<'s>, bool), NoMemory>
    ensures held { IfOk result (λ f. held_of f.0
        ≡ holding kind.now (parted end parts.old.items).0) }
    ensures lacks { IfOk result (λ f. f.1
        ≡ lacks_nullable kind.now (parted end parts.old.items).0) }
    ensures left { OnOk result
        ((parted end parts.new.items).1 ≡ (parted end parts.old.items).1) }
{
    match kind {
        FlatKind::Select(_) => {
            let all = gather(alloc, parts, end)?;
            let lacks = any_lacking(all.leaves.as_slice(), all.bare.as_slice());
            Ok((empty(alloc), lacks))
        }
        _ => Ok((held_at(alloc, kind, parts, end)?, false)),
    }
}

/// Puts what a node holds in the place of what its children hold. Whether it lacks a nullable.
fn put<'s>(
    alloc: Global,
    index: usize,
    node: &'s FlatNode,
    parts: &mut Vec<Finished<Held<'s>>>,
) -> Result<bool, NoMemory>
    ensures parts { OnOk result (parts_of parts.new.items
        ≡ (index, holding node.now.kind (parted node.now.end parts.old.items).0)
        ∷ (parted node.now.end parts.old.items).1) }
    ensures lacks { IfOk result (λ b. b
        ≡ lacks_nullable node.now.kind (parted node.now.end parts.old.items).0) }
{
    let (held, lacks) = judged_at(alloc, &node.kind, parts, node.end)?;
    leave(parts, node.end);
    parts.push(Finished {
        start: index,
        value: held,
    })?;
    Ok(lacks)
}

fn find_lacking(alloc: Global, nodes: &[FlatNode]) -> Result<bool, NoMemory>
    ensures { IfOk result (λ b. b ≡ any_lacking_from 0 nodes.now) }
{
    let mut parts = Vec::new(alloc);
    let mut lacks = false;
    let mut index = nodes.len();
    while index > 0 {
        index -= 1;
        let found = put(alloc, index, &nodes[index], &mut parts)?;
        lacks = found || lacks;
    }
    Ok(lacks)
}

fn is_left(kind: &FlatKind) -> bool
    ensures { result ≡ is_left_join kind.now }
{
    match kind {
        FlatKind::Join(JoinKind::LeftOuter, _) => true,
        _ => false,
    }
}

/// Whether a node is a left outer join.
fn any_left(nodes: &[FlatNode]) -> bool
    ensures { result ≡ has_left_join nodes.now }
{
    nodes.iter().any(|node| is_left(&node.kind))
}

#[tactic(auto, using(crate::proofs::WholeRows::whole))]
/// The same, without the stack where no node is a left outer join: then no row is lacking.
fn find_any(alloc: Global, nodes: &[FlatNode]) -> Result<bool, NoMemory>
    ensures { IfOk result (λ b. b ≡ any_lacking_from 0 nodes.now) }
{
    if any_left(nodes) {
        find_lacking(alloc, nodes)
    } else {
        Ok(false)
    }
}

/// Whether a select statement in the statement whose flat list this is selects a column under no nullable whose row an
/// outer join may lack: `SELECT "posts"."id" FROM ("users" LEFT OUTER JOIN "posts" ON ..)`. Where no join is a left
/// outer join the answer is no, which takes no memory. Otherwise there is a second pass over the nodes. Fails only for
/// memory.
pub(crate) fn lacks_flat_nullable(alloc: Global, flat: &Flat) -> Result<bool, NoMemory>
    ensures { (s : Statement) → flat.now ≡ flat_of s → (schema : Declarations) (d : Dialect)
        → IfOk result (λ b. Decides b (Broken rule.NeedsNullable schema d s)) }
{
    find_any(alloc, flat.nodes())
}
