//! Tests of one node without what is around it: names that the schema lacks, joins that lack a condition.
#![tactic(auto)]

ghost use Rattle.std.specs.Prelude.{◌≡◌};
ghost use Rattle.std.specs.List.{list_any};
ghost use Rattle.sql_rules_check.specs.inside.Sites.{is_declared as table_declared, is_unknown as kind_is_unknown, lacks_on as kind_lacks_on};

use crate::tables::{is_table, is_unknown};
use sql_flat::{FlatKind, FlatNode};
use sql_schema::{Schema, Table};

fn is_declared(schema: &Schema, table: &Table) -> bool
    ensures { result ≡ table_declared schema.now table.now }
{
    is_table(schema, table)
}

/// Whether a column or a table is not one that the schema declares.
fn is_unknown_name(schema: &Schema, kind: &FlatKind) -> bool
    ensures { result ≡ kind_is_unknown schema.now kind.now }
{
    match kind {
        FlatKind::Column(_, column) => is_unknown(schema, column),
        FlatKind::Table(source) => !is_declared(schema, &source.table),
        FlatKind::Alias(alias) => !is_declared(schema, &alias.table),
        _ => false,
    }
}

/// Whether one of the nodes has a column or a table that is not one that the schema declares. Whole declarations are compared.
pub fn any_unknown_name(schema: &Schema, nodes: &[FlatNode]) -> bool
    ensures { result ≡ list_any (λ x. kind_is_unknown schema.now x.kind) nodes.now }
{
    nodes.iter().any(|node| is_unknown_name(schema, &node.kind))
}

/// Whether a join has no condition.
fn lacks_on(kind: &FlatKind) -> bool
    ensures { result ≡ kind_lacks_on kind.now }
{
    match kind {
        FlatKind::Join(_, on) => !*on,
        _ => false,
    }
}

/// Whether one of the nodes is a join that has no condition.
pub fn any_lacks_on(nodes: &[FlatNode]) -> bool
    ensures { result ≡ list_any (λ x. kind_lacks_on x.kind) nodes.now }
{
    nodes.iter().any(|node| lacks_on(&node.kind))
}
