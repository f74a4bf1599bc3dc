//! The rules on names and on what clauses see, by one loop from the first node to the last, with a stack of the open nodes
//! within which something else is known than around them: select statements, joins and conditions (`scope`).
//!
//! Of the list that `sql_flat` shows, what is known at each node, of its clauses and of its condition:
//!
//! ```text
//! 0  Select                opened: its clauses see users, its condition too
//! 1  Column "users"."id"   seen by users
//! 2  From, 3  Table        as around
//! 4  Where                 opened: sees what the condition sees
//! 5  Compared, 6  Column   seen by users
//! ```
#![tactic(auto, using(crate::proofs::Opening::opening))]

ghost use Rattle.std.specs.Prelude.{◌≡◌, IfOk, [], false, map};
ghost use Rattle.std.specs.Bool.{Decides};
ghost use Rattle.std.specs.List.{list_any};
ghost use Rattle.sql_dialect.specs.declared.backend.Dialect.{Dialect};
ghost use Rattle.sql_node.specs.Tree.{Statement};
ghost use Rattle.sql_origin.specs.Borrowed.{origin_of};
ghost use Rattle.sql_rules.specs.Rules.{Broken};
ghost use Rattle.sql_rules.specs.declared.rule.Rule.TheVariants as rule;
ghost use Rattle.sql_flat.specs.Flat.{flat_of};
ghost use Rattle.sql_rules_check.specs.inside.Sites.{is_alike as alike_by, is_ambiguous, is_apart, is_clashing, is_out as kind_is_out, is_unknown, of_select, site_out, site_select};
ghost use Rattle.sql_rules_check.specs.inside.Tables.{named_alike};
ghost use Rattle.sql_rules_check.specs.inside.Walks.{around as around_of, opens, walked};
ghost use Rattle.sql_rules_check.specs.declared.names.Names.TheVariants as name;

use crate::kinds::{any_lacks_on, any_unknown_name};
use crate::leaves::{any_ambiguous, any_apart, any_clash};
use crate::scope::{Known, close, enter};
use crate::tables::names_differ;
use sql_flat::{Flat, FlatKind, FlatNode};
use sql_flat_law::Opened;
use sql_origin::Origin;
use sql_schema::{Column, NoMemory, Schema, SqlText};
use std::alloc::Global;

/// Whether the names of a statement are looked up in a schema, or known to be the schema's.
#[derive(Debug, Clone, Copy, PartialEq, Eq)]
pub enum Names {
    /// Each is looked up: the whole declaration of a column's table is compared with the schema's.
    Asked,
    /// All are the schema's, as those of a statement that was built over it. None is looked up.
    Known,
}

/// Which rules on names and on what clauses see are broken.
#[derive(Debug, Clone, Copy, PartialEq, Eq)]
pub(crate) struct Scoped {
    pub unknown_name: bool,
    pub no_relation: bool,
    pub ambiguous: bool,
    pub not_together: bool,
    pub name_clash: bool,
    pub not_in_scope: bool,
}

/// Which leaves may not stand beside each other.
#[derive(Debug, Clone, Copy, PartialEq, Eq)]
struct Pairs {
    ambiguous: bool,
    apart: bool,
    clashing: bool,
}

/// Whether both have one alias, or none, and tables of one name.
fn are_named_alike(one: Origin<'_>, other: Origin<'_>) -> bool
    ensures { result ≡ named_alike (origin_of one.entry) (origin_of other.entry) }
{
    one.alias == other.alias && one.table.name() == other.table.name()
}

/// Whether both are one, by their whole declarations or by names alone.
fn are_alike(whole: bool, one: Origin<'_>, other: Origin<'_>) -> bool
    ensures { result ≡ alike_by whole (origin_of one.entry) (origin_of other.entry) }
{
    if whole {
        one.is_same(other)
    } else {
        are_named_alike(one, other)
    }
}

fn is_seen(whole: bool, view: &[Origin<'_>], origin: Origin<'_>) -> bool
    ensures { result
        ≡ list_any (λ l. alike_by whole l (origin_of origin.entry)) (map origin_of view.now) }
{
    for leaf in view {
        if are_alike(whole, *leaf, origin) {
            return true;
        }
    }
    false
}

pub(crate) fn origin_under<'s>(alias: &'s Option<SqlText>, column: &'s Column) -> Origin<'s>
    ensures { origin_of result ≡ record { alias = alias.now; table = column.now.table } }
{
    let table = column.table();
    match alias {
        None => Origin { alias: None, table },
        Some(alias) => Origin {
            alias: Some(alias.as_str()),
            table,
        },
    }
}

/// Whether it is a column that is out of scope.
fn is_out(whole: bool, view: &[Origin<'_>], kind: &FlatKind) -> bool
    ensures { result ≡ kind_is_out whole (map origin_of view.now) kind.now }
{
    match kind {
        FlatKind::Column(alias, column) => !is_seen(whole, view, origin_under(alias, column)),
        _ => false,
    }
}

/// The same, where these nodes are open.
fn is_out_within(whole: bool, nest: &[Opened<Known<'_>>], kind: &FlatKind) -> bool
    ensures { result ≡ kind_is_out whole (around_of (opens nest.now)).clause kind.now }
{
    match nest.last() {
        None => is_out(whole, &[], kind),
        Some(inner) => is_out(whole, inner.known.clause.as_slice(), kind),
    }
}

/// Which two of the leaves may not stand beside each other, where there may be two.
fn meeting_each(alloc: Global, schema: &Schema, leaves: &[Origin<'_>]) -> Result<Pairs, NoMemory>
    ensures ambiguous { IfOk result (λ p. p.ambiguous ≡ is_ambiguous (map origin_of leaves.now)) }
    ensures apart { IfOk result (λ p. p.apart ≡ is_apart schema.now (map origin_of leaves.now)) }
    ensures clashing { IfOk result (λ p. p.clashing ≡ is_clashing (map origin_of leaves.now)) }
{
    let ambiguous = any_ambiguous(alloc, leaves)?;
    let apart = any_apart(alloc, schema, leaves)?;
    let clashing = any_clash(alloc, leaves)?;
    Ok(Pairs {
        ambiguous,
        apart,
        clashing,
    })
}

fn no_pair() -> Pairs
    ensures { result ≡ record { ambiguous = false; apart = false; clashing = false } }
{
    Pairs {
        ambiguous: false,
        apart: false,
        clashing: false,
    }
}

/// The same. One leaf alone is not looked at, which takes no memory.
fn meeting(alloc: Global, schema: &Schema, leaves: &[Origin<'_>]) -> Result<Pairs, NoMemory>
    ensures ambiguous { IfOk result (λ p. p.ambiguous ≡ is_ambiguous (map origin_of leaves.now)) }
    ensures apart { IfOk result (λ p. p.apart ≡ is_apart schema.now (map origin_of leaves.now)) }
    ensures clashing { IfOk result (λ p. p.clashing ≡ is_clashing (map origin_of leaves.now)) }
{
    match leaves {
        [] => Ok(no_pair()),
        [_] => Ok(no_pair()),
        [_, _, ..] => meeting_each(alloc, schema, leaves),
    }
}

/// Those of a select statement, where these nodes are open and it is the innermost.
fn meeting_within(
    alloc: Global,
    schema: &Schema,
    nest: &[Opened<Known<'_>>],
    kind: &FlatKind,
) -> Result<Pairs, NoMemory>
    ensures ambiguous { IfOk result (λ p. p.ambiguous
        ≡ of_select is_ambiguous kind.now (around_of (opens nest.now))) }
    ensures apart { IfOk result (λ p. p.apart
        ≡ of_select (is_apart schema.now) kind.now (around_of (opens nest.now))) }
    ensures clashing { IfOk result (λ p. p.clashing
        ≡ of_select is_clashing kind.now (around_of (opens nest.now))) }
{
    match kind {
        FlatKind::Select(_) => match nest.last() {
            None => meeting(alloc, schema, &[]),
            Some(inner) => meeting(alloc, schema, inner.known.condition.as_slice()),
        },
        _ => Ok(no_pair()),
    }
}

/// Whether a column is out of scope, and which leaves may not stand beside each other.
fn find(
    alloc: Global,
    whole: bool,
    schema: &Schema,
    nodes: &[FlatNode],
) -> Result<(bool, Pairs), NoMemory>
    ensures scope { IfOk result (λ f. f.0 ≡ list_any (site_out whole) (walked [] 0 nodes.now)) }
    ensures ambiguous { IfOk result (λ f. f.1.ambiguous
        ≡ list_any (site_select is_ambiguous) (walked [] 0 nodes.now)) }
    ensures apart { IfOk result (λ f. f.1.apart
        ≡ list_any (site_select (is_apart schema.now)) (walked [] 0 nodes.now)) }
    ensures clashing { IfOk result (λ f. f.1.clashing
        ≡ list_any (site_select is_clashing) (walked [] 0 nodes.now)) }
{
    let mut nest = Vec::new(alloc);
    let mut out = false;
    let mut ambiguous = false;
    let mut apart = false;
    let mut clashing = false;
    for (index, node) in nodes.iter().enumerate() {
        close(&mut nest, index);
        out = out || is_out_within(whole, nest.as_slice(), &node.kind);
        enter(alloc, nodes, index, node, &mut nest)?;
        let found = meeting_within(alloc, schema, nest.as_slice(), &node.kind)?;
        ambiguous = ambiguous || found.ambiguous;
        apart = apart || found.apart;
        clashing = clashing || found.clashing;
    }
    Ok((
        out,
        Pairs {
            ambiguous,
            apart,
            clashing,
        },
    ))
}

/// Whether a name is not the schema's.
fn lacks_name(schema: &Schema, names: Names, nodes: &[FlatNode]) -> bool
    requires { names ≡ name.Known → list_any (λ x. is_unknown schema.now x.kind) nodes.now ≡ false }
    ensures { result ≡ list_any (λ x. is_unknown schema.now x.kind) nodes.now }
{
    match names {
        Names::Asked => any_unknown_name(schema, nodes),
        Names::Known => false,
    }
}

/// Which rules on names and on what clauses see are broken by the statement whose flat list this is:
/// `SELECT "users"."id" FROM "posts"` breaks `NotInScope`. Where its names are known to be the schema's, none is looked
/// up, and names tell which columns are out of scope. Otherwise whole declarations are compared once a name is unknown.
/// One pass over the nodes. Fails only for memory.
pub(crate) fn names_of_flat(
    alloc: Global,
    names: Names,
    schema: &Schema,
    flat: &Flat,
) -> Result<Scoped, NoMemory>
    requires { names ≡ name.Known → (s : Statement) → flat.now ≡ flat_of s → (d : Dialect)
        → ¬ Broken rule.UnknownName schema.now d s }
    ensures unknown_name { (s : Statement) → flat.now ≡ flat_of s → (d : Dialect)
        → IfOk result (λ f. Decides f.unknown_name (Broken rule.UnknownName schema.now d s)) }
    ensures no_relation { (s : Statement) → flat.now ≡ flat_of s → (d : Dialect)
        → IfOk result (λ f. Decides f.no_relation (Broken rule.NoRelation schema.now d s)) }
    ensures ambiguous { (s : Statement) → flat.now ≡ flat_of s → (d : Dialect)
        → IfOk result (λ f. Decides f.ambiguous (Broken rule.Ambiguous schema.now d s)) }
    ensures not_together { (s : Statement) → flat.now ≡ flat_of s → (d : Dialect)
        → IfOk result (λ f. Decides f.not_together (Broken rule.NotTogether schema.now d s)) }
    ensures name_clash { (s : Statement) → flat.now ≡ flat_of s → (d : Dialect)
        → IfOk result (λ f. Decides f.name_clash (Broken rule.NameClash schema.now d s)) }
    ensures not_in_scope { (s : Statement) → flat.now ≡ flat_of s → (d : Dialect)
        → IfOk result (λ f. Decides f.not_in_scope (Broken rule.NotInScope schema.now d s)) }
{
    let nodes = flat.nodes();
    names_differ(schema);
    let unknown_name = lacks_name(schema, names, nodes);
    let (not_in_scope, pairs) = find(alloc, unknown_name, schema, nodes)?;
    Ok(Scoped {
        unknown_name,
        no_relation: any_lacks_on(nodes),
        ambiguous: pairs.ambiguous,
        not_together: pairs.apart,
        name_clash: pairs.clashing,
        not_in_scope,
    })
}
