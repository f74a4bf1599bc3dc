//! All names of a table in one text, which two tables share only where they share each name.
#![tactic(auto)]

ghost use Rattle.std.specs.Prelude.{◌≡◌, ◌∷◌, [], ◌+◌, ◌<◌, ◌++◌, IfOk, OnOk, string_bytes};
ghost use Rattle.sql_schema.specs.inside.Spelled.{columns_text, keys_text, schema_text, spelled, table_text};

use crate::{ColumnDecl, NoMemory, SqlText, TableDecl};
use std::alloc::Global;

fn letter(number: u8) -> &'static str
    requires { number < 16 }
    ensures { result.now ≡ (65 + number) ∷ [] }
{
    match number {
        0 => "A",
        1 => "B",
        2 => "C",
        3 => "D",
        4 => "E",
        5 => "F",
        6 => "G",
        7 => "H",
        8 => "I",
        9 => "J",
        10 => "K",
        11 => "L",
        12 => "M",
        13 => "N",
        14 => "O",
        _ => "P",
    }
}

/// Two letters for each byte, and a full stop.
fn push_text(text: &str, all: &mut String) -> Result<(), NoMemory>
    ensures { OnOk result (string_bytes all.new ≡ string_bytes all.old ++ spelled text.now) }
{
    for byte in text.as_bytes() {
        all.push_str(letter(*byte / 16))?;
        all.push_str(letter(*byte % 16))?;
    }
    all.push_str(".")?;
    Ok(())
}

fn push_schema(schema: &Option<SqlText>, all: &mut String) -> Result<(), NoMemory>
    ensures { OnOk result (string_bytes all.new ≡ string_bytes all.old ++ schema_text schema.now) }
{
    match schema {
        None => {
            all.push_str("-")?;
            Ok(())
        }
        Some(schema) => {
            all.push_str("+")?;
            push_text(schema.as_str(), all)
        }
    }
}

fn push_columns(columns: &[ColumnDecl], all: &mut String) -> Result<(), NoMemory>
    ensures { OnOk result (string_bytes all.new ≡ string_bytes all.old ++ columns_text columns.now) }
{
    for column in columns {
        all.push_str(",")?;
        push_text(column.name.as_str(), all)?;
        push_text(column.sql_name.as_str(), all)?;
    }
    all.push_str(";")?;
    Ok(())
}

fn push_keys(keys: &[SqlText], all: &mut String) -> Result<(), NoMemory>
    ensures { OnOk result (string_bytes all.new ≡ string_bytes all.old ++ keys_text keys.now) }
{
    for key in keys {
        all.push_str(",")?;
        push_text(key.as_str(), all)?;
    }
    all.push_str(";")?;
    Ok(())
}

/// The names of a table, of its columns and of its primary key.
pub(crate) fn spell(alloc: Global, table: &TableDecl) -> Result<String, NoMemory>
    ensures { IfOk result (λ s. string_bytes s ≡ table_text table.now) }
{
    let mut all = String::new(alloc);
    push_text(table.name.as_str(), &mut all)?;
    push_schema(&table.schema, &mut all)?;
    push_text(table.sql_name.as_str(), &mut all)?;
    push_columns(table.columns.as_slice(), &mut all)?;
    push_keys(table.primary_key.as_slice(), &mut all)?;
    Ok(all)
}
