use crate::shown::{audited, schema};
use std::test::Fail;

#[test]
fn reports(rt: HostRuntime) -> Result<(), Fail> {
    let schema = schema(rt.alloc())?;
    for (text, want) in [
        ("SELECT $1", ":"),
        (
            "SELECT \"users\".\"id\" FROM \"users\"",
            "users : 0.users.id",
        ),
        // a subselect looks outwards where its own FROM has no such leaf
        (
            "SELECT \"users\".\"id\", \"users\".\"name\" FROM \"users\" WHERE EXISTS (SELECT \"posts\".\"id\" \
             FROM \"posts\" WHERE (\"posts\".\"user_id\" = \"users\".\"id\"))",
            "users posts : 0.users.id 0.users.name 1.posts.id 1.posts.user_id 0.users.id",
        ),
        // and in its own first
        (
            "SELECT \"users\".\"id\" FROM \"users\" WHERE EXISTS (SELECT $1 FROM \"users\" WHERE (\"users\".\"id\" = $2))",
            "users users : 0.users.id 1.users.id",
        ),
        // a subselect in the selection stands before FROM, and sees what the selection sees
        (
            "SELECT (SELECT \"posts\".\"id\" FROM \"posts\" WHERE (\"posts\".\"user_id\" = \"users\".\"id\")) FROM \"users\"",
            "posts users : 0.posts.id 0.posts.user_id 1.users.id",
        ),
        // a condition of a join comes after the conditions in its sides
        (
            "SELECT \"a\".\"id\" FROM ((\"users\" AS \"a\" INNER JOIN \"users\" AS \"b\" ON (\"a\".\"id\" = \"b\".\"id\")) \
             INNER JOIN \"posts\" ON (\"posts\".\"id\" = \"b\".\"id\"))",
            "users users posts : 0.users.id 0.users.id 1.users.id 2.posts.id 1.users.id",
        ),
        // a part of a path may stand for it
        (
            "SELECT \"s\".\"mod\".\"type\", \"mod\".\"id\" FROM \"s\".\"mod\"",
            "parts : 0.parts.kind 0.parts.id",
        ),
        (
            "(SELECT \"users\".\"id\" FROM \"users\") UNION (SELECT \"posts\".\"id\" FROM \"posts\")",
            "users posts : 0.users.id 1.posts.id",
        ),
    ] {
        let found = audited(rt.alloc(), &schema, text)?;
        assert!(rt; found.as_str() == want, "{text}: {found}");
    }
    Ok(())
}

#[test]
fn refusals(rt: HostRuntime) -> Result<(), Fail> {
    let schema = schema(rt.alloc())?;
    for (text, want) in [
        ("x", "NotInGrammar"),
        ("SELECT \"x\".\"id\" FROM \"x\"", "UnknownTable"),
        // a look-up name is no SQL name
        ("SELECT $1 FROM \"parts\"", "UnknownTable"),
        ("SELECT $1 FROM \"mod\"", "UnknownTable"),
        ("SELECT \"users\".\"nope\" FROM \"users\"", "NotInScope"),
        ("SELECT \"mod\".\"kind\" FROM \"s\".\"mod\"", "NotInScope"),
        // an alias hides the table's name
        (
            "SELECT \"users\".\"id\" FROM \"users\" AS \"u\"",
            "NotInScope",
        ),
        // the selection of a subselect doesn't look outwards
        (
            "SELECT $1 FROM \"users\" WHERE EXISTS (SELECT \"users\".\"id\" FROM \"posts\")",
            "NotInScope",
        ),
        // nor does an ON
        (
            "SELECT $1 FROM \"users\" WHERE EXISTS (SELECT $2 FROM (\"posts\" INNER JOIN \"posts\" AS \"p\" \
             ON (\"p\".\"id\" = \"users\".\"id\")))",
            "NotInScope",
        ),
        // an alias is spelled as the end of a table's path
        (
            "SELECT \"mod\".\"id\" FROM (\"s\".\"mod\" INNER JOIN \"users\" AS \"mod\" ON ($1 = $2))",
            "Ambiguous",
        ),
        // the first refusal that holds anywhere
        (
            "SELECT \"users\".\"nope\" FROM (\"users\" INNER JOIN \"x\" ON ($1 = $2))",
            "UnknownTable",
        ),
        (
            "SELECT \"mod\".\"id\", \"users\".\"nope\" FROM (\"s\".\"mod\" INNER JOIN \"users\" AS \"mod\" ON ($1 = $2))",
            "NotInScope",
        ),
    ] {
        let found = audited(rt.alloc(), &schema, text)?;
        assert!(rt; found.as_str() == want, "{text}: {found}");
    }
    Ok(())
}
