//! Tables and columns that the schema declares.
#![tactic(auto)]

ghost use Rattle.std.specs.Prelude.{◌≡◌, false};
ghost use Rattle.std.specs.Bool.{Decides};
ghost use Rattle.sql_schema.specs.Equality.{same_table};
ghost use Rattle.sql_schema.specs.Refusals.{any_two, tables_clash};
ghost use Rattle.sql_rules.specs.Rules.{IsColumn, IsTable};

use sql_origin::Origin;
use sql_schema::{Column, Schema, Table};

pub(crate) fn is_one_table(one: &Table, other: &Table) -> bool
    ensures { result ≡ same_table one.now other.now }
{
    Origin::of_table(one).is_same(Origin::of_table(other))
}

/// The tables of a schema have different names, since no refusal holds of it.
pub(crate) fn names_differ(schema: &Schema)
    ensures { any_two tables_clash schema.now.tables ≡ false }
{
    let _tables = schema.tables();
}

/// Whether the schema declares the table. The declared table of its name alone is compared with it.
pub(crate) fn is_table(schema: &Schema, table: &Table) -> bool
    ensures { Decides result (IsTable schema.now table.now) }
{
    names_differ(schema);
    match schema.table(table.name()) {
        None => false,
        Some(declared) => is_one_table(declared, table),
    }
}

/// Every column is one of its table's, so what is left to ask is whether the table is the schema's.
pub(crate) fn is_unknown(schema: &Schema, column: &Column) -> bool
    ensures { Decides result
        (¬ (IsTable schema.now column.now.table × IsColumn column.now.table column.now.decl)) }
{
    !is_table(schema, column.table())
}
