//! Counts, and the texts of sources that stand alone.

use sql_expr::{Alias, JoinRhs, Source, TableSource};
use sql_schema::{Schema, SchemaBuilder};
use sql_source::{Count, JoinDsl, NewAlias, NewTableSource, Plus, Side, TablesampleDsl, pick};
use sql_test_kit::{beside, gives, schema, table, table_decl, text, writes};
use std::alloc::Global;
use std::test::Fail;

#[test]
fn counts(rt: HostRuntime) -> Result<(), Fail> {
    assert!(rt; Count::Once.plus(Count::Once) == Count::MoreThanOnce);
    assert!(rt; Count::Never.plus(Count::Once) == Count::Once);
    assert!(rt; pick(Count::Once, Count::Once).is_none());
    assert!(rt; pick(Count::Never, Count::Once) == Some(Side::Right));
    Ok(())
}

/// `users` and `bar`, which is written `mod`; the two are not related.
fn unrelated(alloc: Global) -> Result<Schema, Fail> {
    let mut bar = table_decl(alloc, "bar", "x")?;
    bar.sql_name = text(alloc, "mod")?;
    let mut builder = SchemaBuilder::new(alloc);
    builder.table(table_decl(alloc, "users", "name")?)?;
    builder.table(bar)?;
    Ok(builder.build()?)
}

fn plain(alloc: Global, schema: &Schema, name: &str) -> Result<Source, Fail> {
    let table = schema.table(name).ok_or("no table")?;
    Ok(Source::Table(TableSource::new(table.try_clone(alloc)?)))
}

#[test]
fn a_sample_with_a_seed(rt: HostRuntime) -> Result<(), Fail> {
    let alloc = rt.alloc();
    let users = TableSource::new(table(alloc, "users")?);
    writes(
        alloc,
        users.tablesample_system(10).with_seed(42),
        r#""users" TABLESAMPLE SYSTEM($1) REPEATABLE($2)"#,
    )
}

#[test]
fn an_alias_joins_by_its_table(rt: HostRuntime) -> Result<(), Fail> {
    let alloc = rt.alloc();
    let schema = schema(alloc)?;
    let u2 = Alias::new(String::from_str(alloc, "u2")?, table(alloc, "users")?);
    let (u2, posts) = beside(Source::Alias(u2), plain(alloc, &schema, "posts"))?;
    gives(
        alloc,
        u2.inner_join(alloc, &schema, JoinRhs::Source(posts)),
        r#"("users" AS "u2" INNER JOIN "posts" ON ("posts"."user_id" = "u2"."id"))"#,
    )
}

#[test]
fn a_join_without_relation(rt: HostRuntime) -> Result<(), Fail> {
    let alloc = rt.alloc();
    let schema = unrelated(alloc)?;
    let (users, bar) = beside(
        plain(alloc, &schema, "users")?,
        plain(alloc, &schema, "bar"),
    )?;
    gives(
        alloc,
        users.inner_join(alloc, &schema, JoinRhs::Source(bar)),
        r#""users" INNER JOIN "mod""#,
    )
}
