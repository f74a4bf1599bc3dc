ghost use Rattle.std.specs.Prelude.{◌≡◌, IfOk, option_map};
ghost use Rattle.std.specs.Option.{option_to_list};
ghost use Rattle.sql_audit_resolution.specs.Meant as meant;
ghost use Rattle.sql_audit_resolution.specs.declared.column_use.Meaning.TheVariants.{Nothing};

use crate::column_use::{ColumnUse, Meaning};
use crate::leaf::{Leaf, Level};
use crate::path::{column_of, copied, table_at};
use sql_schema::{NoMemory, Schema, SqlText, Table};
use std::alloc::Global;

fn column_at(
    alloc: Global,
    leaf: usize,
    table: Option<&Table>,
    sql_name: &str,
) -> Result<Option<ColumnUse>, NoMemory>
    ensures { IfOk result
        (λ u. u ≡ meant.column_at leaf (option_map (λ t. t.now) table.entry) sql_name.now) }
{
    let Some(table) = table else {
        return Ok(None);
    };
    let Some(column) = column_of(table, sql_name) else {
        return Ok(None);
    };
    let table = copied(alloc, table.name())?;
    let column = column.name.try_clone(alloc)?;
    Ok(Some(ColumnUse {
        table,
        column,
        leaf,
    }))
}

/// The column that a path names in a leaf, if it names any.
fn named(
    alloc: Global,
    schema: &Schema,
    path: &[SqlText],
    leaf: &Leaf,
) -> Result<Option<ColumnUse>, NoMemory>
    ensures { IfOk result (λ u. u ≡ meant.named schema.now.tables path.now leaf.now) }
{
    match path {
        [] => Ok(None),
        [sql_name, front @ ..] => {
            if leaf.exposed().starts_with(front) {
                let table = table_at(schema, leaf.table());
                column_at(alloc, leaf.number(), table, sql_name.as_str())
            } else {
                Ok(None)
            }
        }
    }
}

fn meaning_of(found: Option<ColumnUse>) -> Meaning
    ensures { result ≡ meant.one_of (option_to_list found) Nothing }
{
    match found {
        None => Meaning::Nothing,
        Some(column) => Meaning::Column(column),
    }
}

/// The one column that a path names in a level.
fn meaning_in(
    alloc: Global,
    schema: &Schema,
    path: &[SqlText],
    leaves: &[Leaf],
) -> Result<Meaning, NoMemory>
    ensures { IfOk result (λ m. m
        ≡ meant.one_of (meant.named_in schema.now.tables path.now leaves.now) Nothing) }
{
    let mut first: Option<ColumnUse> = None;
    for leaf in leaves {
        let found = named(alloc, schema, path, leaf)?;
        match found {
            None => {}
            Some(column) => {
                if first.is_some() {
                    return Ok(Meaning::Several);
                }
                first = Some(column);
            }
        }
    }
    Ok(meaning_of(first))
}

/// Returns the meaning of a path, where these levels are sought in order.
pub(crate) fn sought(
    alloc: Global,
    schema: &Schema,
    path: &[SqlText],
    levels: &[Level],
) -> Result<Meaning, NoMemory>
    ensures { IfOk result (λ m. m ≡ meant.sought schema.now.tables path.now levels.now) }
{
    for level in levels {
        let meaning = meaning_in(alloc, schema, path, level.leaves())?;
        match meaning {
            Meaning::Nothing => {}
            Meaning::Several => return Ok(Meaning::Several),
            Meaning::Column(column) => return Ok(Meaning::Column(column)),
        }
    }
    Ok(Meaning::Nothing)
}
