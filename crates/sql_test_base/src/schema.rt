use super::fixture::{column, table};
use sql_schema::{Base, ColumnDecl, NoMemory, Schema, SchemaBuilder, SchemaError, TableNotEqual};
use std::alloc::Global;
use std::test::Fail;

fn columns(alloc: Global, names: &[&str]) -> Result<Vec<ColumnDecl>, NoMemory> {
    let mut columns = Vec::new(alloc);
    for name in names {
        columns.push(column(alloc, *name, Base::Integer)?)?;
    }
    Ok(columns)
}

fn tables(alloc: Global, tables: &[(&str, &[&str])]) -> Result<SchemaBuilder, NoMemory> {
    let mut builder = SchemaBuilder::new(alloc);
    for (name, names) in tables {
        builder.table(table(alloc, *name, columns(alloc, *names)?)?)?;
    }
    Ok(builder)
}

/// The refusal's message, or the empty text.
fn message(alloc: Global, built: Result<Schema, SchemaError>) -> Result<String, NoMemory> {
    match built {
        Ok(_schema) => Ok(String::new(alloc)),
        Err(error) => format!(in alloc; "{error}"),
    }
}

#[test]
fn refusals_by_their_names(rt: HostRuntime) -> Result<(), Fail> {
    let alloc = rt.alloc();
    let refused: [(&[(&str, &[&str])], &str); 5] = [
        (&[("a", &["id"]), ("a", &["id"])], "DuplicateTable"),
        (&[("a", &[])], "NoColumns"),
        (&[("a", &["id", "x", "x"])], "DuplicateColumn"),
        (&[("a", &["x"])], "UnknownKey"),
        (&[("a", &["id"]), ("b", &["id"])], ""),
    ];
    for (declared, want) in refused {
        let built = tables(alloc, declared)?.build();
        assert_eq!(rt; message(alloc, built)?.as_str(), want);
    }
    Ok(())
}

#[test]
fn relations(rt: HostRuntime) -> Result<(), Fail> {
    let alloc = rt.alloc();
    let related = [
        ("nobody", "user_id", "users", "UnknownTable"),
        ("users", "id", "users", "BadJoinable"),
        ("posts", "title", "users", "BadJoinable"),
        ("posts", "user_id", "users", ""),
    ];
    for (child, key, parent, want) in related {
        let mut builder = tables(alloc, &[("users", &["id"]), ("posts", &["id", "user_id"])])?;
        builder.joinable(child, key, parent)?;
        assert_eq!(rt; message(alloc, builder.build())?.as_str(), want);
    }
    Ok(())
}

fn key<'s>(schema: &'s Schema, one: &str, other: &str) -> &'s str {
    match schema.relation(one, other) {
        None => "",
        Some(relation) => relation.key.as_str(),
    }
}

#[test]
fn relations_are_found(rt: HostRuntime) -> Result<(), Fail> {
    let alloc = rt.alloc();
    let declared: [(&str, &[&str]); 3] = [
        ("users", &["id"]),
        ("posts", &["id", "user_id"]),
        ("comments", &["id", "post_id"]),
    ];
    let mut builder = tables(alloc, &declared)?;
    builder.joinable("posts", "user_id", "users")?;
    builder.joinable("comments", "post_id", "posts")?;
    let schema = builder.build()?;
    let wanted = [
        ("posts", "users", "user_id"),
        ("users", "posts", "user_id"),
        ("comments", "posts", "post_id"),
        ("posts", "comments", "post_id"),
        ("users", "comments", ""),
        ("posts", "posts", ""),
        ("posts", "nobody", ""),
        ("nobody", "posts", ""),
    ];
    for (one, other, want) in wanted {
        assert_eq!(rt; key(&schema, one, other), want);
    }
    Ok(())
}

/// Two relations of the same tables are refused, in either direction.
#[test]
fn one_relation_of_two_tables(rt: HostRuntime) -> Result<(), Fail> {
    let alloc = rt.alloc();
    let second = [
        ("posts", "author_id", "users"),
        ("users", "post_id", "posts"),
    ];
    for (child, by, parent) in second {
        let declared: [(&str, &[&str]); 2] = [
            ("users", &["id", "post_id"]),
            ("posts", &["id", "user_id", "author_id"]),
        ];
        let mut builder = tables(alloc, &declared)?;
        builder.joinable("posts", "user_id", "users")?;
        builder.joinable(child, by, parent)?;
        assert_eq!(rt; message(alloc, builder.build())?.as_str(), "BadJoinable");
    }
    Ok(())
}

#[test]
fn allowed_together(rt: HostRuntime) -> Result<(), Fail> {
    let alloc = rt.alloc();
    let mut builder = tables(alloc, &[("a", &["id"]), ("b", &["id"])])?;
    builder.together("a", "b")?;
    let schema = builder.build()?;
    let a = schema.table("a").ok_or("no table")?;
    let b = schema.table("b").ok_or("no table")?;
    assert!(rt; schema.allowed_together(b, a));
    assert!(rt; schema.allowed_together(a, b));
    assert!(rt; !schema.allowed_together(a, a));
    assert_eq!(rt; a.all_columns(alloc)?.len(), 1);
    assert!(rt; a.column(alloc, "id")?.is_some());
    Ok(())
}
