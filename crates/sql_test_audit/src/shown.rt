use sql_audit::{AuditError, AuditReport, audit};
use sql_dialect::Dialect;
use sql_schema::{ColumnDecl, NoMemory, Schema, SchemaBuilder, SqlList, TableDecl};
use sql_test_kit::{INTEGER, column_decl, table_decl, text};
use std::alloc::Global;
use std::test::Fail;

/// A column whose SQL name is another.
fn renamed(alloc: Global, name: &str, sql_name: &str) -> Result<ColumnDecl, NoMemory> {
    Ok(ColumnDecl {
        name: text(alloc, name)?,
        sql_name: text(alloc, sql_name)?,
        ty: INTEGER,
        max_length: None,
    })
}

/// A table of the SQL name `mod` in the schema `s`.
fn qualified(alloc: Global) -> Result<TableDecl, NoMemory> {
    let columns = vec![in alloc; column_decl(alloc, "id")?, renamed(alloc, "kind", "type")?]?;
    Ok(TableDecl {
        name: text(alloc, "parts")?,
        sql_name: text(alloc, "mod")?,
        schema: Some(text(alloc, "s")?),
        columns: SqlList::from(columns),
        primary_key: SqlList::from(vec![in alloc; text(alloc, "id")?]?),
    })
}

/// Users, posts that name their user, and parts, whose SQL names are others.
pub fn schema(alloc: Global) -> Result<Schema, Fail> {
    let mut builder = SchemaBuilder::new(alloc);
    builder.table(table_decl(alloc, "users", "name")?)?;
    builder.table(table_decl(alloc, "posts", "user_id")?)?;
    builder.table(qualified(alloc)?)?;
    Ok(builder.build()?)
}

/// The tables of the leaves, and each use with its leaf: `users posts : 0.users.id 1.posts.id`.
fn shown(alloc: Global, report: &AuditReport) -> Result<String, NoMemory> {
    let mut out = String::new(alloc);
    for table in report.tables.as_slice() {
        out.push_str(table.as_str())?;
        out.push_str(" ")?;
    }
    out.push_str(":")?;
    for used in report.uses.as_slice() {
        let leaf = used.leaf;
        let part = format!(in alloc; " {leaf}.")?;
        out.push_str(part.as_str())?;
        out.push_str(used.table.as_str())?;
        out.push_str(".")?;
        out.push_str(used.column.as_str())?;
    }
    Ok(out)
}

fn refused(alloc: Global, error: AuditError) -> Result<String, NoMemory> {
    format!(in alloc; "{error}")
}

/// Returns the answer of the audit of a text, on one line.
pub fn audited(alloc: Global, schema: &Schema, text: &str) -> Result<String, NoMemory> {
    match audit(alloc, Dialect::Pg, schema, text) {
        Ok(report) => shown(alloc, &report),
        Err(error) => refused(alloc, error),
    }
}
