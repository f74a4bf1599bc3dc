//! Texts, columns and tables to declare.

use sql_schema::{Base, ColumnDecl, NoMemory, SqlList, SqlText, SqlType, TableDecl};
use std::alloc::Global;

pub fn text(alloc: Global, text: &str) -> Result<SqlText, NoMemory> {
    Ok(SqlText::from(String::from_str(alloc, text)?))
}

pub fn column(alloc: Global, name: &str, base: Base) -> Result<ColumnDecl, NoMemory> {
    Ok(ColumnDecl {
        name: text(alloc, name)?,
        sql_name: text(alloc, name)?,
        ty: SqlType {
            base,
            nullable: false,
        },
        max_length: None,
    })
}

/// A table of these columns, with the key `id`.
pub fn table(alloc: Global, name: &str, columns: Vec<ColumnDecl>) -> Result<TableDecl, NoMemory> {
    let primary_key = vec![in alloc; text(alloc, "id")?]?;
    Ok(TableDecl {
        name: text(alloc, name)?,
        sql_name: text(alloc, name)?,
        schema: None,
        columns: SqlList::from(columns),
        primary_key: SqlList::from(primary_key),
    })
}
