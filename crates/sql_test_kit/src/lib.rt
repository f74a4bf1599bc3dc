//! The fixtures that tests of the libraries share: a schema of two related tables, parts over it, and checks of answers.
//!
//! Where a part is alive at a `?`, a check takes each enum in it apart there, and with each other part that is alive. Functions over any
//! part drop it by one call, so the tests hand parts and answers to these.
#![tactic(auto)]

use sql_dialect::{Backend, Pg, QueryBuilder};
use sql_pass::{AstPass, QueryFragment};
use sql_schema::{
    Base, Column, ColumnDecl, NoMemory, Schema, SchemaBuilder, SqlList, SqlText, SqlType, Table,
    TableDecl,
};
use std::alloc::Global;
use std::test::Fail;

/// Fails with what was wanted, where it isn't found.
pub fn is(found: bool, wanted: &'static str) -> Result<(), Fail> {
    if found { Ok(()) } else { Err(wanted)? }
}

/// Fails with the text, where it is another.
pub fn reads(text: String, wanted: &str) -> Result<(), Fail> {
    if text.as_str() == wanted {
        Ok(())
    } else {
        Err(text)?
    }
}

/// Fails with the part's text for PostgreSQL, where it is another.
pub fn writes<T: QueryFragment<Pg> + Drop>(
    alloc: Global,
    part: T,
    wanted: &str,
) -> Result<(), Fail> {
    let builder = part.to_sql(Pg.query_builder(alloc), &Pg)?;
    reads(builder.finish(), wanted)
}

/// Fails where the part isn't made, or has another text for PostgreSQL.
pub fn gives<T: QueryFragment<Pg> + Drop, E>(
    alloc: Global,
    made: Result<T, E>,
    wanted: &str,
) -> Result<(), Fail>
where
    Fail: From<E>,
{
    match made {
        Ok(part) => writes(alloc, part, wanted),
        Err(error) => Err(error)?,
    }
}

/// Fails where the part isn't copied, or its copy has another text for PostgreSQL.
pub fn copies<T: QueryFragment<Pg> + Drop, F: FnOnce(&T, Global) -> Result<T, NoMemory>>(
    alloc: Global,
    part: T,
    try_clone: F,
    wanted: &str,
) -> Result<(), Fail>
    requires { F.IsAlwaysCallable try_clone }
{
    gives(alloc, try_clone(&part, alloc), wanted)
}

/// A part and what is made beside it, which may be refused.
pub fn beside<P: Drop, M, E>(part: P, made: Result<M, E>) -> Result<(P, M), Fail>
where
    Fail: From<E>,
{
    match made {
        Ok(made) => Ok((part, made)),
        Err(error) => Err(error)?,
    }
}

/// The text that a pass holds.
pub fn text_in(pass: AstPass<Pg>) -> Result<String, Fail> {
    match pass {
        AstPass::ToSql(builder, _backend) => Ok(builder.finish()),
        AstPass::CollectBinds(_collector, _backend) => Err("values")?,
        AstPass::IsSafe(_safe, _backend) => Err("a flag")?,
        AstPass::DebugBinds(_shown, _backend) => Err("shown values")?,
        AstPass::IsNoop(_noop, _backend) => Err("a test")?,
    }
}

pub const INTEGER: SqlType = SqlType {
    base: Base::Integer,
    nullable: false,
};

pub fn text(alloc: Global, text: &str) -> Result<SqlText, NoMemory> {
    Ok(SqlText::from(String::from_str(alloc, text)?))
}

/// A column of integers.
pub fn column_decl(alloc: Global, name: &str) -> Result<ColumnDecl, NoMemory> {
    Ok(ColumnDecl {
        name: text(alloc, name)?,
        sql_name: text(alloc, name)?,
        ty: INTEGER,
        max_length: None,
    })
}

/// A table of the columns `id`, its key, and one more.
pub fn table_decl(alloc: Global, name: &str, second: &str) -> Result<TableDecl, NoMemory> {
    Ok(TableDecl {
        name: text(alloc, name)?,
        sql_name: text(alloc, name)?,
        schema: None,
        columns: SqlList::from(vec![in alloc;
            column_decl(alloc, "id")?,
            column_decl(alloc, second)?,
        ]?),
        primary_key: SqlList::from(vec![in alloc; text(alloc, "id")?]?),
    })
}

/// Users, and posts that name their user.
pub fn schema(alloc: Global) -> Result<Schema, Fail> {
    let mut builder = SchemaBuilder::new(alloc);
    builder.table(table_decl(alloc, "users", "name")?)?;
    builder.table(table_decl(alloc, "posts", "user_id")?)?;
    builder.joinable("posts", "user_id", "users")?;
    builder.together("users", "posts")?;
    Ok(builder.build()?)
}

/// A table of that schema.
pub fn table(alloc: Global, name: &str) -> Result<Table, Fail> {
    let schema = schema(alloc)?;
    let table = schema.table(name).ok_or("no table")?;
    Ok(table.try_clone(alloc)?)
}

/// A column of a table of that schema.
pub fn column(alloc: Global, of: &str, name: &str) -> Result<Column, Fail> {
    let column = table(alloc, of)?.column(alloc, name)?;
    Ok(column.ok_or("no column")?)
}
