//! Declarations, schemas, tables, columns and thin types.

use sql_schema::{
    Column, ColumnDecl, JoinableDecl, SchemaBuilder, SqlBytes, SqlText, Table, TableDecl,
};
use sql_test_kit::{column, column_decl, is, schema, table, table_decl, text};
use std::alloc::Global;
use std::test::Fail;

pub fn every_call(alloc: Global) -> Result<(), Fail> {
    thin_types(alloc)?;
    copies(alloc)?;
    built(alloc)?;
    columns(alloc)
}

fn thin_types(alloc: Global) -> Result<(), Fail> {
    let copy = SqlText::try_clone(&text(alloc, "a")?, alloc)?;
    is(copy.as_str() == "a", "a text's copy")?;
    let bytes = SqlBytes::from(vec![in alloc; 7u8]?);
    is(SqlBytes::try_clone(&bytes, alloc)? == bytes, "bytes' copy")
}

fn copies(alloc: Global) -> Result<(), Fail> {
    let id = ColumnDecl::try_clone(&column_decl(alloc, "id")?, alloc)?;
    is(id.name.as_str() == "id", "a declared column's copy")?;
    let users = TableDecl::try_clone(&table_decl(alloc, "users", "name")?, alloc)?;
    is(
        users.columns.as_slice().len() == 2,
        "a declared table's copy",
    )?;
    let schema = schema(alloc)?;
    let relation = schema.joinables().first().ok_or("no relation")?;
    let relation = JoinableDecl::try_clone(relation, alloc)?;
    is(relation.key.as_str() == "user_id", "a relation's copy")
}

fn built(alloc: Global) -> Result<(), Fail> {
    let mut builder = SchemaBuilder::new(alloc);
    builder.table(table_decl(alloc, "users", "name")?)?;
    builder.table(table_decl(alloc, "posts", "user_id")?)?;
    builder.joinable("posts", "user_id", "users")?;
    builder.together("users", "posts")?;
    let schema = builder.build()?;
    is(
        schema.tables().len() == 2 && schema.joinables().len() == 1,
        "a schema",
    )
}

fn columns(alloc: Global) -> Result<(), Fail> {
    let users = table(alloc, "users")?;
    is(
        Table::try_clone(&users, alloc)?.name() == "users",
        "a table's copy",
    )?;
    is(users.all_columns(alloc)?.len() == 2, "all columns")?;
    is(users.column(alloc, "none")?.is_none(), "no column")?;
    let name = Column::try_clone(&column(alloc, "users", "name")?, alloc)?;
    is(name.name() == "name", "a column's copy")
}
