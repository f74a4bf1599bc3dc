ghost use Rattle.std.specs.Prelude.{◌≡◌, [], ◌∷◌, ◌++◌, map, string_bytes, IfOk, OnOk, find, option_map};
ghost use Rattle.std.specs.Cmp.Lexicographic.{pointwise};
ghost use Rattle.std.specs.Str.{bytes_eq};
ghost use Rattle.sql_audit_resolution.specs.Leaves.{backwards};
ghost use Rattle.sql_audit_resolution.specs.Meant as meant;

use sql_read_tree::Names;
use sql_schema::{ColumnDecl, NoMemory, Schema, SqlText, Table};
use std::alloc::Global;

/// A name in memory of its own.
pub(crate) fn copied(alloc: Global, name: &str) -> Result<SqlText, NoMemory>
    ensures { IfOk result (λ t. t ≡ name.now) }
{
    let text = String::from_str(alloc, name)?;
    Ok(SqlText::from(text))
}

/// Appends copies of these names.
fn push_copies(alloc: Global, out: &mut Vec<SqlText>, names: &[String]) -> Result<(), NoMemory>
    ensures { OnOk result (out.new.items ≡ out.old.items ++ map string_bytes names.now) }
{
    for name in names {
        out.push(copied(alloc, name.as_str())?)?;
    }
    Ok(())
}

/// The names of a path, from the last to the first.
pub(crate) fn names_backwards(alloc: Global, names: &Names) -> Result<Vec<SqlText>, NoMemory>
    ensures { IfOk result (λ v. v.items ≡ backwards names.now.first names.now.more) }
{
    let (last, before) = names.from_last();
    let mut path = Vec::new(alloc);
    path.push(copied(alloc, last)?)?;
    push_copies(alloc, &mut path, before)?;
    Ok(path)
}

fn is_name(name: &str, path: &[SqlText]) -> bool
    ensures { result ≡ pointwise bytes_eq (name.now ∷ []) path.now }
{
    match path {
        [last] => name == last.as_str(),
        _ => false,
    }
}

fn is_name_in(schema: &str, name: &str, path: &[SqlText]) -> bool
    ensures { result ≡ pointwise bytes_eq (name.now ∷ (schema.now ∷ [])) path.now }
{
    match path {
        [last, first] => name == last.as_str() && schema == first.as_str(),
        _ => false,
    }
}

/// Whether the path is the table's.
fn is_at(table: &Table, path: &[SqlText]) -> bool
    ensures { result ≡ pointwise bytes_eq (meant.path_of_table table.now) path.now }
{
    let (schema, name) = table.path();
    match schema {
        None => is_name(name, path),
        Some(schema) => is_name_in(schema, name, path),
    }
}

/// The table that has this path.
pub(crate) fn table_at<'a>(schema: &'a Schema, path: &[SqlText]) -> Option<&'a Table>
    ensures { option_map (λ t. t.now) result ≡ meant.table_at schema.now.tables path.now }
{
    schema.tables().iter().find(|table| is_at(table, path))
}

/// The column of that SQL name.
pub(crate) fn column_of<'a>(table: &'a Table, sql_name: &str) -> Option<&'a ColumnDecl>
    ensures { option_map (λ c. c.now) result
        ≡ find (λ c. bytes_eq c.sql_name sql_name.now) table.now.columns }
{
    table
        .columns()
        .iter()
        .find(|column| column.sql_name.as_str() == sql_name)
}
