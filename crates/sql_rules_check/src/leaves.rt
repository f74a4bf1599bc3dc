//! Leaves that may not stand beside each other.
#![tactic(auto)]

ghost use Rattle.std.specs.Prelude.{◌≡◌, IfOk, IsTrue, map, option_map};
ghost use Rattle.std.specs.Bool.{Decides};
ghost use Rattle.sql_schema.specs.Refusals.{any_two};
ghost use Rattle.sql_origin.specs.Borrowed.{origin_of};
ghost use Rattle.sql_rules.specs.Lists.{AnyPair};
ghost use Rattle.sql_rules.specs.Rules.{Clash as clash, MayNotMeet};
ghost use Rattle.sql_rules_check.specs.inside.Ends.{front_under, last_under, leaf_ends, leaves_clash, path_ends, tables_part};
ghost use Rattle.sql_rules_check.specs.inside.Tables.{Cover, Holds, last_alike, named_alike};

use crate::pair::{PairTest, any_pair};
use crate::tables::is_one_table;
use sql_origin::Origin;
use sql_schema::{NoMemory, Schema, Table, TableNotEqual};
use std::alloc::Global;
use std::collections::{BTreeMap, BTreeSet};

/// That two leaves are one.
#[derive(Drop)]
pub(crate) struct Ambiguous;

impl PairTest for Ambiguous {
    ghost holds = { λ t a b. a ≡ b };

    fn test(&self, left: Origin<'_>, right: Origin<'_>) -> bool {
        left.is_same(right)
    }
}

/// An alias, where it is one, and the name by which Rust code looks up the table.
fn leaf_names(origin: Origin<'_>) -> (Option<&str>, &str)
    ensures alias { option_map (λ a. a.now) result.0 ≡ (origin_of origin.entry).alias }
    ensures table { result.1.now ≡ (origin_of origin.entry).table.name }
{
    (origin.alias, origin.table.name())
}

/// Whether two leaves have one alias, or none, and tables of one name.
fn any_named_alike(alloc: Global, leaves: &[Origin<'_>]) -> Result<bool, NoMemory>
    ensures { IfOk result (λ b. b
        ≡ any_two (λ a b. named_alike (origin_of a) (origin_of b)) leaves.now) }
{
    let mut names = BTreeSet::new(alloc);
    for leaf in leaves {
        let is_new = names.insert(leaf_names(*leaf))?;
        if !is_new {
            return Ok(true);
        }
    }
    Ok(false)
}

/// Whether two leaves are one. Whole tables are compared only where two leaves have the same names.
pub(crate) fn any_ambiguous(alloc: Global, leaves: &[Origin<'_>]) -> Result<bool, NoMemory>
    ensures { IfOk result (λ b. Decides b (AnyPair (λ a b. a ≡ b) (map origin_of leaves.now))) }
{
    let alike = any_named_alike(alloc, leaves)?;
    Ok(alike && any_pair(&Ambiguous, leaves))
}

/// That two tables may not stand in one statement.
#[derive(Drop)]
pub(crate) struct NotTogether<'a> {
    pub schema: &'a Schema,
}

fn are_apart(schema: &Schema, one: &Table, other: &Table) -> bool
    ensures { result ≡ tables_part schema.now one.now other.now }
{
    !is_one_table(one, other) && !schema.allowed_together(one, other)
}

impl PairTest for NotTogether<'_> {
    ghost holds = { λ t a b. MayNotMeet t.schema.now a b };

    fn test(&self, left: Origin<'_>, right: Origin<'_>) -> bool {
        are_apart(self.schema, left.table, right.table)
    }
}

/// Whether the table is that of its name in the map.
fn is_held(tables: &BTreeMap<&str, &Table>, table: &Table) -> bool
    ensures { IsTrue result → Holds tables.now table.now }
{
    match tables.get(table.name()) {
        None => false,
        Some(found) => is_one_table(*found, table),
    }
}

/// One leaf of each table. Those that come after it are left out.
fn one_of_each_table<'s>(alloc: Global, leaves: &[Origin<'s>]) -> Result<Vec<Origin<'s>>, NoMemory>
    ensures all { IfOk result (λ v. Cover (map origin_of v.items) (map origin_of leaves.now)) }
    ensures among { IfOk result (λ v. Cover (map origin_of leaves.now) (map origin_of v.items)) }
{
    let mut tables = BTreeMap::new(alloc);
    let mut kept = Vec::new(alloc);
    for leaf in leaves {
        let held = is_held(&tables, leaf.table);
        if !held {
            tables.insert(leaf.table.name(), leaf.table)?;
            kept.push(*leaf)?;
        }
    }
    Ok(kept)
}

/// Whether two tables of leaves may not stand in one statement. Each table is looked at once.
pub(crate) fn any_apart(
    alloc: Global,
    schema: &Schema,
    leaves: &[Origin<'_>],
) -> Result<bool, NoMemory>
    ensures { IfOk result (λ b. Decides b
        (AnyPair (MayNotMeet schema.now) (map origin_of leaves.now))) }
{
    let kept = one_of_each_table(alloc, leaves)?;
    Ok(any_pair(&NotTogether { schema }, kept.as_slice()))
}

/// The names by which the rest of a statement knows a leaf: a schema, where there is one, and a name.
fn exposed(origin: Origin<'_>) -> (Option<&str>, &str)
    ensures front { option_map (λ s. s.now) result.0
        ≡ front_under (origin_of origin.entry).alias (origin_of origin.entry).table }
    ensures last { result.1.now
        ≡ last_under (origin_of origin.entry).alias (origin_of origin.entry).table }
{
    match origin.alias {
        None => origin.table.path(),
        Some(alias) => (None, alias),
    }
}

/// Whether a path is the end of another.
fn ends(schema: Option<&str>, name: &str, other_schema: Option<&str>, other_name: &str) -> bool
    ensures { result
        ≡ path_ends (option_map (λ s. s.now) schema.entry) name.now
        (option_map (λ s. s.now) other_schema.entry) other_name.now }
{
    match schema {
        None => name == other_name,
        Some(schema) => match other_schema {
            None => false,
            Some(other_schema) => schema == other_schema && name == other_name,
        },
    }
}

/// Whether what is exposed of the one is the end of what is exposed of the other.
fn is_end(one: Origin<'_>, other: Origin<'_>) -> bool
    ensures { result ≡ leaf_ends (origin_of one.entry) (origin_of other.entry) }
{
    let (schema, name) = exposed(one);
    let (other_schema, other_name) = exposed(other);
    ends(schema, name, other_schema, other_name)
}

fn are_clashing(left: Origin<'_>, right: Origin<'_>) -> bool
    ensures { result ≡ leaves_clash (origin_of left.entry) (origin_of right.entry) }
{
    !left.is_same(right) && (is_end(left, right) || is_end(right, left))
}

/// That one leaf can be named as another.
#[derive(Drop)]
pub(crate) struct NameClash;

impl PairTest for NameClash {
    ghost holds = { λ t a b. clash a b };

    fn test(&self, left: Origin<'_>, right: Origin<'_>) -> bool {
        are_clashing(left, right)
    }
}

/// Whether the last names by which two leaves are known are one.
fn any_last_alike(alloc: Global, leaves: &[Origin<'_>]) -> Result<bool, NoMemory>
    ensures { IfOk result (λ b. b
        ≡ any_two (λ a b. last_alike (origin_of a) (origin_of b)) leaves.now) }
{
    let mut names = BTreeSet::new(alloc);
    for leaf in leaves {
        let (_schema, name) = exposed(*leaf);
        let is_new = names.insert(name)?;
        if !is_new {
            return Ok(true);
        }
    }
    Ok(false)
}

/// Whether one leaf can be named as another. Pairs are compared only where two leaves have the same last name.
pub(crate) fn any_clash(alloc: Global, leaves: &[Origin<'_>]) -> Result<bool, NoMemory>
    ensures { IfOk result (λ b. Decides b (AnyPair clash (map origin_of leaves.now))) }
{
    let alike = any_last_alike(alloc, leaves)?;
    Ok(alike && any_pair(&NameClash, leaves))
}
