#![tactic(auto, using(sql_node::proofs::Trees::opens_expr, sql_node::proofs::Trees::opens_source, sql_node::proofs::Trees::opens_join_on, sql_node::proofs::Trees::opens_join, crate::proofs::JoinLaws::joins))]

ghost use Rattle.std.specs.Prelude.{◌≡◌, IfOk, Some, option_map};
ghost use Rattle.sql_node.specs.Tree as tree;
ghost use Rattle.sql_node.specs.View.{expr_tree, source_tree};
ghost use Rattle.sql_leaf.specs.declared.operator.Comparison.TheVariants as by;
ghost use Rattle.sql_source.specs.Joins.{equal_by, implicit_on as implicit, is_declared as stands_in, key_column as key_of, refers_from as goes, related_on as on_of, relation as related};
ghost use Rattle.sql_origin.specs.Leaves.{leaves, leftmost as first_leaf};
ghost use Rattle.sql_origin.specs.Borrowed.{origin_of};
ghost use Rattle.sql_origin.specs.Origins.{column_under};

use sql_expr::ExpressionMethods;
use sql_node::{Expr, Source};
use sql_origin::{Origin, same_table};
use sql_schema::{Column, JoinableDecl, NoMemory, Schema, Table};
use std::alloc::Global;

fn is_declared(schema: &Schema, table: &Table) -> bool
    ensures { result ≡ stands_in schema.now table.now }
{
    match schema.table(table.name()) {
        None => false,
        Some(declared) => same_table(table, declared),
    }
}

fn refers_from(child: &Table, parent: &Table, joinable: &JoinableDecl) -> bool
    ensures { result ≡ goes child.now parent.now joinable.now }
{
    joinable.child.as_str() == child.name() && joinable.parent.as_str() == parent.name()
}

fn relation<'s>(schema: &'s Schema, one: &Table, other: &Table) -> Option<&'s JoinableDecl>
    ensures { option_map (λ j. j.now) result ≡ related schema.now one.now other.now }
{
    schema.relation(one.name(), other.name())
}

/// The column of a key that has one alone.
fn key_column(alloc: Global, table: &Table) -> Result<Option<Column>, NoMemory>
    ensures { IfOk result (λ c. c ≡ key_of table.now) }
{
    match table.primary_key() {
        [name] => table.column(alloc, name.as_str()),
        _ => Ok(None),
    }
}

/// Both columns equal, under nullable.
fn equal(
    alloc: Global,
    child: Origin,
    key: Column,
    parent: Origin,
    id: Column,
) -> Result<Expr, NoMemory>
    ensures { IfOk result (λ e. expr_tree e
        ≡ tree.compared by.Eq (tree.nullable (column_under (origin_of child.entry).alias key))
        (tree.nullable (column_under (origin_of parent.entry).alias id))) }
{
    let key = child.column(alloc, key)?.nullable(alloc)?;
    let id = parent.column(alloc, id)?.nullable(alloc)?;
    key.eq(alloc, id)
}

/// `child.key = parent.key`, with both sides under nullable.
fn equal_keys(
    alloc: Global,
    child: Origin,
    key: &str,
    parent: Origin,
) -> Result<Option<Expr>, NoMemory>
    ensures { IfOk result (λ o. option_map expr_tree o
        ≡ equal_by key.now (origin_of child.entry) (origin_of parent.entry)) }
{
    let Some(key) = child.table.column(alloc, key)? else {
        return Ok(None);
    };
    let Some(id) = key_column(alloc, parent.table)? else {
        return Ok(None);
    };
    Ok(Some(equal(alloc, child, key, parent, id)?))
}

/// The condition on which two leaves are joined.
fn related_on(
    alloc: Global,
    schema: &Schema,
    left: Origin,
    right: Origin,
) -> Result<Option<Expr>, NoMemory>
    ensures { IfOk result (λ o. option_map expr_tree o
        ≡ on_of schema.now (origin_of left.entry) (origin_of right.entry)) }
{
    if !is_declared(schema, left.table) || !is_declared(schema, right.table) {
        return Ok(None);
    }
    match relation(schema, left.table, right.table) {
        None => Ok(None),
        Some(joinable) => {
            let key = joinable.key.as_str();
            if refers_from(left.table, right.table, joinable) {
                equal_keys(alloc, left, key, right)
            } else {
                equal_keys(alloc, right, key, left)
            }
        }
    }
}

fn leftmost(source: &Source) -> Origin<'_>
    ensures { first_leaf (leaves (source_tree source.now)) ≡ Some (origin_of result) }
{
    match source {
        Source::Table(table) => Origin::of_table(&table.table),
        Source::Alias(alias) => Origin::of_alias(alias),
        Source::Join(join) => leftmost(&join.join.left),
    }
}

/// The condition of the relation between the leftmost leaves, where there is one.
pub(crate) fn implicit_on(
    alloc: Global,
    schema: &Schema,
    left: &Source,
    right: &Source,
) -> Result<Option<Expr>, NoMemory>
    ensures { IfOk result (λ o. option_map expr_tree o
        ≡ implicit schema.now (source_tree left.now) (source_tree right.now)) }
{
    related_on(alloc, schema, leftmost(left), leftmost(right))
}
