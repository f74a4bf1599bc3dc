ghost use Rattle.std.specs.Prelude.{◌≡◌, ℕ, List, not, Bool, ◌||◌, option_map, IfOk};
ghost use Rattle.std.specs.List.{list_any};
ghost use Rattle.sql_schema.specs.inside.NameSets.{has_name};
ghost use Rattle.sql_schema.specs.Refusals.{any_two, relate_alike, has_column as column_stands, has_table as table_stands, lacks_key as key_lacking, lacks_columns as columns_lacking, lacks_table as table_lacking, is_bad_joinable as bad, single_column, bases_agree as agree, refers as referring, has_duplicate_table as table_doubled, has_duplicate_column as column_doubled, names_unknown_table as table_unknown};
ghost use Rattle.sql_schema.specs.inside.Split.{tables_refusal, relations_refusal};

use crate::tables::Tables;
use crate::{ColumnDecl, JoinableDecl, NoMemory, SchemaError, SqlText, Table, TableDecl};
use std::alloc::Global;
use std::collections::BTreeSet;

/// A schema and a name in SQL, which are of one table alone.
type TablePath<'d> = (Option<&'d str>, &'d str);

fn path(table: &TableDecl) -> TablePath<'_>
    ensures schema { option_map (λ s. s.now) result.0 ≡ table.now.schema }
    ensures name { result.1.now ≡ table.now.sql_name }
{
    let schema = match &table.schema {
        None => None,
        Some(schema) => Some(schema.as_str()),
    };
    (schema, table.sql_name.as_str())
}

/// Two tables have one name, or one schema and SQL name.
fn has_duplicate_table(alloc: Global, tables: &[TableDecl]) -> Result<bool, NoMemory>
    ensures { IfOk result (λ b. b ≡ table_doubled tables.now) }
{
    let mut names = BTreeSet::new(alloc);
    let mut paths = BTreeSet::new(alloc);
    for table in tables {
        let is_new = names.insert(table.name.as_str())?;
        let has_new_path = paths.insert(path(table))?;
        if !(is_new && has_new_path) {
            return Ok(true);
        }
    }
    Ok(false)
}

/// Two columns of the table have one name, or one SQL name.
fn has_duplicate_column(alloc: Global, table: &TableDecl) -> Result<bool, NoMemory>
    ensures { IfOk result (λ b. b ≡ column_doubled table.now) }
{
    let mut names = BTreeSet::new(alloc);
    let mut sql_names = BTreeSet::new(alloc);
    for column in table.columns.as_slice() {
        let is_new = names.insert(column.name.as_str())?;
        let is_new_in_sql = sql_names.insert(column.sql_name.as_str())?;
        if !(is_new && is_new_in_sql) {
            return Ok(true);
        }
    }
    Ok(false)
}

/// Two relations are of the same two tables, in one direction or both.
fn has_repeated_relation(alloc: Global, joinables: &[JoinableDecl]) -> Result<bool, NoMemory>
    ensures { IfOk result (λ b. b ≡ any_two relate_alike joinables.now) }
{
    let mut related = BTreeSet::new(alloc);
    for joinable in joinables {
        let child = joinable.child.as_str();
        let parent = joinable.parent.as_str();
        let is_new_reversed = !related.contains(&(parent, child));
        let is_new = related.insert((child, parent))?;
        if !(is_new_reversed && is_new) {
            return Ok(true);
        }
    }
    Ok(false)
}

/// The names of the columns.
fn column_names<'d>(alloc: Global, columns: &'d [ColumnDecl]) -> Result<BTreeSet<&'d str>, NoMemory>
    ensures { IfOk result (λ s. (q : List ℕ) → has_name s q ≡ column_stands columns.now q) }
{
    let mut names = BTreeSet::new(alloc);
    for column in columns {
        names.insert(column.name.as_str())?;
    }
    Ok(names)
}

fn misses_any(names: &BTreeSet<&str>, key: &[SqlText]) -> bool
    ensures { result ≡ list_any (λ k. not (has_name names.now k)) key.now }
{
    key.iter().any(|name| !names.contains(name.as_str()))
}

fn lacks_key(alloc: Global, table: &TableDecl) -> Result<bool, NoMemory>
    ensures { IfOk result (λ b. b ≡ key_lacking table.now) }
{
    let key = table.primary_key.as_slice();
    if key.is_empty() {
        return Ok(true);
    }
    let names = column_names(alloc, table.columns.as_slice())?;
    Ok(misses_any(&names, key))
}

fn lacks_columns(table: &TableDecl) -> bool
    ensures { result ≡ columns_lacking table.now }
{
    table.columns.as_slice().is_empty()
}

fn has_table(tables: &Tables, name: &SqlText) -> bool
    ensures { result ≡ table_stands tables.now name.now }
{
    tables.find(name.as_str()).is_some()
}

fn lacks_table(tables: &Tables, one: &SqlText, other: &SqlText) -> bool
    ensures { result ≡ table_lacking tables.now one.now other.now }
{
    !has_table(tables, one) || !has_table(tables, other)
}

fn any_relation_lacks_table(tables: &Tables, joinables: &[JoinableDecl]) -> bool
    ensures { result ≡ list_any (λ j. table_lacking tables.now j.child j.parent) joinables.now }
{
    joinables.iter().any(|joinable| lacks_table(tables, &joinable.child, &joinable.parent))
}

fn any_pair_lacks_table(tables: &Tables, together: &[(SqlText, SqlText)]) -> bool
    ensures { result ≡ list_any (λ p. table_lacking tables.now p.0 p.1) together.now }
{
    together
        .iter()
        .any(|pair| lacks_table(tables, &pair.0, &pair.1))
}

/// The column of a key that has one alone.
fn find_single(table: &Table) -> Option<&ColumnDecl>
    ensures { option_map (λ c. c.now) result ≡ single_column table.now.primary_key table.now.columns }
{
    match table.primary_key() {
        [name] => table.find_column(name.as_str()),
        _ => None,
    }
}

fn bases_agree(column: Option<&ColumnDecl>, key: Option<&ColumnDecl>) -> bool
    ensures { result
        ≡ agree (option_map (λ c. c.now) column.entry) (option_map (λ c. c.now) key.entry) }
{
    match column {
        None => false,
        Some(column) => match key {
            None => false,
            Some(key) => column.ty.base == key.ty.base,
        },
    }
}

fn refers(child: Option<&Table>, parent: Option<&Table>, key: &SqlText) -> bool
    ensures { result
        ≡ referring (option_map (λ t. t.now) child.entry) (option_map (λ t. t.now) parent.entry)
        key.now }
{
    match child {
        None => true,
        Some(child) => match parent {
            None => true,
            Some(parent) => bases_agree(child.find_column(key.as_str()), find_single(parent)),
        },
    }
}

fn is_bad_joinable(tables: &Tables, joinable: &JoinableDecl) -> bool
    ensures { result ≡ bad tables.now joinable.now }
{
    let child = tables.find(joinable.child.as_str());
    let parent = tables.find(joinable.parent.as_str());
    joinable.child == joinable.parent || !refers(child, parent, &joinable.key)
}

fn any_is_bad(tables: &Tables, joinables: &[JoinableDecl]) -> bool
    ensures { result ≡ list_any (λ j. bad tables.now j) joinables.now }
{
    joinables
        .iter()
        .any(|joinable| is_bad_joinable(tables, joinable))
}

fn any_lacks_columns(tables: &[TableDecl]) -> bool
    ensures { result ≡ list_any columns_lacking tables.now }
{
    tables.iter().any(|table| lacks_columns(table))
}

fn any_has_duplicate_column(alloc: Global, tables: &[TableDecl]) -> Result<bool, NoMemory>
    ensures { IfOk result (λ b. b ≡ list_any column_doubled tables.now) }
{
    for table in tables {
        if has_duplicate_column(alloc, table)? {
            return Ok(true);
        }
    }
    Ok(false)
}

fn any_lacks_key(alloc: Global, tables: &[TableDecl]) -> Result<bool, NoMemory>
    ensures { IfOk result (λ b. b ≡ list_any key_lacking tables.now) }
{
    for table in tables {
        if lacks_key(alloc, table)? {
            return Ok(true);
        }
    }
    Ok(false)
}

fn names_unknown_table(
    tables: &Tables,
    joinables: &[JoinableDecl],
    together: &[(SqlText, SqlText)],
) -> bool
    ensures { result
        ≡ table_unknown (record {
          tables = tables.now;
          joinables = joinables.now;
          together = together.now;
        }) }
{
    any_relation_lacks_table(tables, joinables) || any_pair_lacks_table(tables, together)
}

fn has_bad_joinable(
    alloc: Global,
    tables: &Tables,
    joinables: &[JoinableDecl],
) -> Result<bool, NoMemory>
    ensures { IfOk result (λ b. b
        ≡ (list_any (λ j. bad tables.now j) joinables.now || any_two relate_alike joinables.now)) }
{
    if any_is_bad(tables, joinables) {
        return Ok(true);
    }
    has_repeated_relation(alloc, joinables)
}

/// The first refusal that holds of the tables alone, if any does.
#[tactic(auto, unfolding(crate::specs::inside::Split::tables_refusal))]
pub(crate) fn table_refusal(
    alloc: Global,
    tables: &[TableDecl],
) -> Result<Option<SchemaError>, NoMemory>
    ensures { IfOk result (λ o. o ≡ tables_refusal tables.now) }
{
    if has_duplicate_table(alloc, tables)? {
        return Ok(Some(SchemaError::DuplicateTable));
    }
    if any_lacks_columns(tables) {
        return Ok(Some(SchemaError::NoColumns));
    }
    if any_has_duplicate_column(alloc, tables)? {
        return Ok(Some(SchemaError::DuplicateColumn));
    }
    if any_lacks_key(alloc, tables)? {
        return Ok(Some(SchemaError::UnknownKey));
    }
    Ok(None)
}

/// The first refusal that holds of relations and pairs of tables, if any does.
#[tactic(auto, unfolding(crate::specs::inside::Split::relations_refusal))]
pub(crate) fn relation_refusal(
    alloc: Global,
    tables: &Tables,
    joinables: &[JoinableDecl],
    together: &[(SqlText, SqlText)],
) -> Result<Option<SchemaError>, NoMemory>
    ensures { IfOk result (λ o. o
        ≡ relations_refusal (record {
          tables = tables.now;
          joinables = joinables.now;
          together = together.now;
        })) }
{
    if names_unknown_table(tables, joinables, together) {
        return Ok(Some(SchemaError::UnknownTable));
    }
    if has_bad_joinable(alloc, tables, joinables)? {
        return Ok(Some(SchemaError::BadJoinable));
    }
    Ok(None)
}
