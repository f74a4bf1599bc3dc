//! The code that README shows: a schema, a statement built by calls, and its text for a backend.

use crate::failure::Failure;
use hardieflax::{
    AsQuery, Backend, Base, ColumnDecl, ExpressionMethods, NoMemory, Query, QueryDsl, Schema,
    SchemaBuilder, SqlList, SqlText, SqlType, Statement, TableDecl, compile,
};
use std::alloc::Global;

fn text(alloc: Global, text: &str) -> Result<SqlText, NoMemory> {
    Ok(SqlText::from(String::from_str(alloc, text)?))
}

fn column(alloc: Global, name: &str, base: Base) -> Result<ColumnDecl, NoMemory> {
    Ok(ColumnDecl {
        name: text(alloc, name)?,
        sql_name: text(alloc, name)?,
        ty: SqlType {
            base,
            nullable: false,
        },
        max_length: None,
    })
}

/// The schema of one table, `users`: its key `id`, and `name`, which is of this type.
pub fn users(alloc: Global, name: Base) -> Result<Schema, Failure> {
    let id = column(alloc, "id", Base::Integer)?;
    let columns = vec![in alloc; id, column(alloc, "name", name)?]?;
    let key = vec![in alloc; text(alloc, "id")?]?;
    let mut builder = SchemaBuilder::new(alloc);
    builder.table(TableDecl {
        name: text(alloc, "users")?,
        sql_name: text(alloc, "users")?,
        schema: None,
        columns: SqlList::from(columns),
        primary_key: SqlList::from(key),
    })?;
    Ok(builder.build()?)
}

/// The first ten users of the name Sean.
pub fn ten_named_sean(alloc: Global, schema: &Schema) -> Result<Statement, Failure> {
    let users = schema.table("users").ok_or(Failure::Missing("table"))?;
    let name = users
        .column(alloc, "name")?
        .ok_or(Failure::Missing("column"))?;
    let query = users
        .as_query(alloc)?
        .filter(alloc, name.eq(alloc, "Sean")?)?
        .limit(10);
    Ok(query.into_statement())
}

/// That statement's text, as the backend has it.
pub fn written<DB: Backend>(
    alloc: Global,
    backend: &DB,
    schema: &Schema,
) -> Result<String, Failure> {
    let statement = ten_named_sean(alloc, schema)?;
    let built = compile(alloc, backend, schema, &statement);
    drop(statement);
    Ok(built?.sql.into_inner())
}
