//! The order of keys by names.
ghost use Rattle.std.specs.Prelude.{◌≡◌};
ghost use Rattle.std.specs.Option.{option_cmp};
ghost use Rattle.std.specs.Ordering.{as_partial_cmp, eq_by_cmp, ordering_then};
ghost use Rattle.std.specs.Cmp.{eq_by_cmp_equiv, partial_equiv_from_equiv, partial_order_from_total};
ghost use Rattle.std.specs.Cmp.Rules.{comparing};
ghost use Rattle.std.proofs.Common.{rules};
ghost use Rattle.sql_key_names.specs.inside.Named.{alias_cmp, column_cmp, key_cmp, key_hash, keys_total, kind_cmp, node_cmp, source_cmp, text_cmp};
ghost use Rattle.sql_key_names.specs.inside.Hashed.{same_hash};

use crate::NamedKey;
use sql_flat::{FlatKind, FlatNode};
use sql_leaf::{Alias, TableSource};
use sql_schema::{Column, SqlText};
use std::cmp::Ordering;
use std::hash::{Hash, Hasher};

fn cmp_columns(one: &Column, other: &Column) -> Ordering
    ensures { result ≡ column_cmp one.now other.now }
{
    one.table()
        .name()
        .cmp(other.table().name())
        .then_with(|| one.name().cmp(other.name()))
}

/// Of columns under aliases, or under their tables' own names.
fn cmp_paths(
    alias: &Option<SqlText>,
    column: &Column,
    other_alias: &Option<SqlText>,
    other_column: &Column,
) -> Ordering
    ensures { result
        ≡ ordering_then (option_cmp text_cmp alias.now other_alias.now)
        (column_cmp column.now other_column.now) }
{
    alias
        .cmp(other_alias)
        .then_with(|| cmp_columns(column, other_column))
}

fn cmp_sources(one: &TableSource, other: &TableSource) -> Ordering
    ensures { result ≡ source_cmp one.now other.now }
{
    one.only
        .cmp(&other.only)
        .then_with(|| one.sample.cmp(&other.sample))
        .then_with(|| one.table.name().cmp(other.table.name()))
}

fn cmp_aliases(one: &Alias, other: &Alias) -> Ordering
    ensures { result ≡ alias_cmp one.now other.now }
{
    one.name
        .cmp(&other.name)
        .then_with(|| one.table.name().cmp(other.table.name()))
}

/// By names, where both are columns, tables or aliases.
fn cmp_kinds(one: &FlatKind, other: &FlatKind) -> Ordering
    ensures { result ≡ kind_cmp one.now other.now }
{
    match one {
        FlatKind::Column(alias, column) => match other {
            FlatKind::Column(other_alias, other_column) => {
                cmp_paths(alias, column, other_alias, other_column)
            }
            _ => one.cmp(other),
        },
        FlatKind::Table(source) => match other {
            FlatKind::Table(other_source) => cmp_sources(source, other_source),
            _ => one.cmp(other),
        },
        FlatKind::Alias(alias) => match other {
            FlatKind::Alias(other_alias) => cmp_aliases(alias, other_alias),
            _ => one.cmp(other),
        },
        _ => one.cmp(other),
    }
}

fn cmp_nodes(one: &FlatNode, other: &FlatNode) -> Ordering
    ensures { result ≡ node_cmp one.now other.now }
{
    cmp_kinds(&one.kind, &other.kind).then_with(|| one.end.cmp(&other.end))
}

fn cmp_keys(one: &[FlatNode], other: &[FlatNode]) -> Ordering
    ensures { result ≡ key_cmp one.now other.now }
{
    let mut rest = other;
    for node in one {
        let Some((first, behind)) = rest.split_first() else {
            return Ordering::Greater;
        };
        let order = cmp_nodes(node, first);
        if order != Ordering::Equal {
            return order;
        }
        rest = behind;
    }
    if rest.is_empty() {
        Ordering::Equal
    } else {
        Ordering::Less
    }
}

impl PartialEq for NamedKey {
    ghost eq = { eq_by_cmp key_cmp };

    ghost laws = { partial_equiv_from_equiv (eq_by_cmp_equiv keys_total) };

    fn eq(&self, other: &NamedKey) -> bool {
        self.cmp(other) == Ordering::Equal
    }
}

impl Eq for NamedKey {
    ghost laws = { eq_by_cmp_equiv keys_total };
}

impl Ord for NamedKey {
    ghost cmp = { key_cmp };

    ghost total = { keys_total };

    ghost matches_partial_cmp = { Prim.search (comparing, rules) };

    ghost matches_eq = { Prim.search (comparing, rules) };

    fn cmp(&self, other: &NamedKey) -> Ordering {
        cmp_keys(self.nodes(), other.nodes())
    }
}

impl PartialOrd for NamedKey {
    ghost partial_cmp = { as_partial_cmp key_cmp };

    ghost laws = { partial_order_from_total keys_total };

    fn partial_cmp(&self, other: &NamedKey) -> Option<Ordering> {
        Some(self.cmp(other))
    }
}

impl Hash for NamedKey {
    ghost hash_input = { key_hash };

    ghost respects_eq = { same_hash };

    fn hash<H: Hasher>(&self, state: &mut H) {
        self.key.hash(state);
    }
}
