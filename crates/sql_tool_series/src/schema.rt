ghost use Rattle.std.specs.Prelude.{◌≡◌, [], ◌∷◌, IfOk, None};
ghost use Rattle.sql_tool_series.specs.Schema as given;

use sql_schema::{
    Base, ColumnDecl, NoMemory, Schema, SchemaBuilder, SqlList, SqlText, SqlType, TableDecl,
};
use std::alloc::{AllocError, Global};

fn text(alloc: Global, text: &str) -> Result<SqlText, NoMemory>
    ensures { IfOk result (λ t. t ≡ text.now) }
{
    let text = String::from_str(alloc, text)?;
    Ok(SqlText::from(text))
}

fn column_as(alloc: Global, name: &str, sql_name: &str, base: Base) -> Result<ColumnDecl, NoMemory>
    ensures { IfOk result (λ c. c ≡ given.column_as name.now sql_name.now base) }
{
    let name = text(alloc, name)?;
    let sql_name = text(alloc, sql_name)?;
    Ok(ColumnDecl {
        name,
        sql_name,
        ty: SqlType {
            base,
            nullable: false,
        },
        max_length: None,
    })
}

fn integer(alloc: Global, name: &str) -> Result<ColumnDecl, NoMemory>
    ensures { IfOk result (λ c. c ≡ given.integer name.now) }
{
    column_as(alloc, name, name, Base::Integer)
}

/// A table outside of every schema.
fn table(
    alloc: Global,
    name: &str,
    sql_name: &str,
    columns: Vec<ColumnDecl>,
    key: Vec<SqlText>,
) -> Result<TableDecl, NoMemory>
    ensures { IfOk result (λ t. t
        ≡ given.table_as name.now None sql_name.now columns.items key.items) }
{
    let name = text(alloc, name)?;
    let sql_name = text(alloc, sql_name)?;
    Ok(TableDecl {
        name,
        sql_name,
        schema: None,
        columns: SqlList::from(columns),
        primary_key: SqlList::from(key),
    })
}

/// The key that is the column `id`.
fn id_key(alloc: Global) -> Result<Vec<SqlText>, NoMemory>
    ensures { IfOk result (λ v. v.items ≡ given.id_key) }
{
    let id = text(alloc, "id")?;
    Ok(vec![in alloc; id]?)
}

fn id_alone(alloc: Global) -> Result<Vec<ColumnDecl>, NoMemory>
    ensures { IfOk result (λ v. v.items ≡ given.id ∷ []) }
{
    let id = integer(alloc, "id")?;
    Ok(vec![in alloc; id]?)
}

fn foo(alloc: Global) -> Result<TableDecl, NoMemory>
    ensures { IfOk result (λ t. t ≡ given.foo) }
{
    let mut columns = id_alone(alloc)?;
    columns.push(column_as(alloc, "mytype", "type", Base::Integer)?)?;
    columns.push(column_as(alloc, "hey", "bleh", Base::Integer)?)?;
    table(alloc, "foo", "foo", columns, id_key(alloc)?)
}

fn bars(alloc: Global) -> Result<TableDecl, NoMemory>
    ensures { IfOk result (λ t. t ≡ given.bars) }
{
    let mut columns = id_alone(alloc)?;
    columns.push(column_as(alloc, "baz", "baz", Base::Text)?)?;
    let mut table = table(alloc, "bars", "bars", columns, id_key(alloc)?)?;
    table.schema = Some(text(alloc, "foo")?);
    Ok(table)
}

fn bar(alloc: Global) -> Result<TableDecl, NoMemory>
    ensures { IfOk result (λ t. t ≡ given.bar) }
{
    table(alloc, "bar", "mod", id_alone(alloc)?, id_key(alloc)?)
}

fn q(alloc: Global) -> Result<TableDecl, NoMemory>
    ensures { IfOk result (λ t. t ≡ given.q) }
{
    table(alloc, "q", "a\"b", id_alone(alloc)?, id_key(alloc)?)
}

#[tactic(auto, unfolding(crate::specs::Schema::users))]
fn users(alloc: Global) -> Result<TableDecl, NoMemory>
    ensures { IfOk result (λ t. t ≡ given.users) }
{
    let mut columns = id_alone(alloc)?;
    columns.push(column_as(alloc, "name", "name", Base::Text)?)?;
    table(alloc, "users", "users", columns, id_key(alloc)?)
}

#[tactic(auto, unfolding(crate::specs::Schema::posts))]
fn posts(alloc: Global) -> Result<TableDecl, NoMemory>
    ensures { IfOk result (λ t. t ≡ given.posts) }
{
    let mut columns = id_alone(alloc)?;
    columns.push(integer(alloc, "user_id")?)?;
    columns.push(column_as(alloc, "title", "title", Base::Text)?)?;
    table(alloc, "posts", "posts", columns, id_key(alloc)?)
}

fn member_key(alloc: Global) -> Result<Vec<SqlText>, NoMemory>
    ensures { IfOk result (λ v. v.items ≡ given.members.primary_key) }
{
    let user_id = text(alloc, "user_id")?;
    let group_id = text(alloc, "group_id")?;
    Ok(vec![in alloc; user_id, group_id]?)
}

fn members(alloc: Global) -> Result<TableDecl, NoMemory>
    ensures { IfOk result (λ t. t ≡ given.members) }
{
    let user_id = integer(alloc, "user_id")?;
    let group_id = integer(alloc, "group_id")?;
    let columns = vec![in alloc; user_id, group_id]?;
    table(alloc, "members", "members", columns, member_key(alloc)?)
}

#[tactic(auto, unfolding(crate::specs::Schema::declarations))]
fn declared(alloc: Global) -> Result<SchemaBuilder, NoMemory>
    ensures { IfOk result (λ b. b ≡ given.declarations) }
{
    let mut builder = SchemaBuilder::new(alloc);
    builder.table(foo(alloc)?)?;
    builder.table(bars(alloc)?)?;
    builder.table(bar(alloc)?)?;
    builder.table(q(alloc)?)?;
    builder.table(users(alloc)?)?;
    builder.table(posts(alloc)?)?;
    builder.table(members(alloc)?)?;
    builder.joinable("posts", "user_id", "users")?;
    builder.together("users", "posts")?;
    Ok(builder)
}

/// The schema that requests are generated over. No refusal holds of it, so it can fail for memory alone.
pub fn series_schema(alloc: Global) -> Result<Schema, NoMemory>
    ensures { IfOk result (λ s. s ≡ given.declarations) }
{
    match declared(alloc)?.build() {
        Ok(schema) => Ok(schema),
        Err(_) => Err(AllocError),
    }
}
