#![tactic(auto, using(sql_node::proofs::Trees::opens_expr, sql_node::proofs::Trees::opens_source))]

ghost use Rattle.std.specs.Prelude.{◌≡◌, IfOk, option_map};
ghost use Rattle.sql_node.specs.View.{expr_tree, source_tree};
ghost use Rattle.sql_build.specs.Named.{column_called, named_alias, named_column, named_field, named_table};

use sql_build_syntax::{AliasName, ColumnName, FieldName, TableName};
use sql_expr::{Alias, AliasedField, Expr, Source, TableSource};
use sql_schema::{Column, NoMemory, Schema, SqlText};
use std::alloc::Global;

#[tactic(auto, unfolding(crate::specs::Named::column_called))]
fn look_up_column(
    alloc: Global,
    schema: &Schema,
    table: &SqlText,
    column: &SqlText,
) -> Result<Option<Column>, NoMemory>
    ensures { IfOk result (λ o. o ≡ column_called schema.now.tables table.now column.now) }
{
    match schema.table(table.as_str()) {
        None => Ok(None),
        Some(table) => table.column(alloc, column.as_str()),
    }
}

/// `"users"."id"`.
pub(crate) fn column(
    alloc: Global,
    schema: &Schema,
    name: &ColumnName,
) -> Result<Option<Expr>, NoMemory>
    ensures { IfOk result (λ o. option_map expr_tree o ≡ named_column schema.now.tables name.now) }
{
    match look_up_column(alloc, schema, &name.table, &name.column)? {
        None => Ok(None),
        Some(column) => Ok(Some(Expr::Column(column))),
    }
}

/// `"u2"."id"`.
pub(crate) fn field(
    alloc: Global,
    schema: &Schema,
    name: &FieldName,
) -> Result<Option<Expr>, NoMemory>
    ensures { IfOk result (λ o. option_map expr_tree o ≡ named_field schema.now.tables name.now) }
{
    match look_up_column(alloc, schema, &name.table, &name.column)? {
        None => Ok(None),
        Some(column) => {
            let alias = name.alias.try_clone(alloc)?;
            Ok(Some(Expr::Field(AliasedField { alias, column })))
        }
    }
}

/// `"users"`.
pub(crate) fn table(
    alloc: Global,
    schema: &Schema,
    name: &TableName,
) -> Result<Option<Source>, NoMemory>
    ensures { IfOk result (λ o. option_map source_tree o ≡ named_table schema.now.tables name.now) }
{
    match schema.table(name.table.as_str()) {
        None => Ok(None),
        Some(table) => {
            let table = table.try_clone(alloc)?;
            Ok(Some(Source::Table(TableSource {
                table,
                only: name.only,
                sample: name.sample,
            })))
        }
    }
}

/// `"users" AS "u2"`.
pub(crate) fn alias(
    alloc: Global,
    schema: &Schema,
    name: &AliasName,
) -> Result<Option<Source>, NoMemory>
    ensures { IfOk result (λ o. option_map source_tree o ≡ named_alias schema.now.tables name.now) }
{
    match schema.table(name.of.as_str()) {
        None => Ok(None),
        Some(table) => {
            let table = table.try_clone(alloc)?;
            let name = name.alias.try_clone(alloc)?;
            Ok(Some(Source::Alias(Alias { name, table })))
        }
    }
}
