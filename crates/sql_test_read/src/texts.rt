use sql_dialect::Dialect;
use sql_read::{ReadError, placeholders, read, write};
use std::alloc::Global;
use std::test::Fail;

/// Whether the text is read, has so many placeholders and is written as that.
fn is_read(
    alloc: Global,
    dialect: Dialect,
    text: &str,
    count: u64,
    want: &str,
) -> Result<bool, ReadError> {
    let tree = read(alloc, dialect, text)?;
    let written = write(alloc, dialect, &tree)?;
    Ok(placeholders(&tree) == count && written.as_str() == want)
}

fn is_refused(alloc: Global, dialect: Dialect, text: &str) -> bool {
    matches!(read(alloc, dialect, text), Err(ReadError::NotInGrammar))
}

#[test]
fn texts_on_pg(rt: HostRuntime) -> Result<(), Fail> {
    for (count, text) in [
        (1, "SELECT (\"a\".\"x\" = $7)"),
        (
            0,
            "SELECT DISTINCT ON (\"a\".\"x\") \"a\".\"x\", COUNT(*) FROM  ONLY \"s\".\"a\"",
        ),
        (
            4,
            "SELECT $1 FROM \"a\" TABLESAMPLE SYSTEM($2) REPEATABLE($1) ORDER BY \"a\".\"x\" DESC, $3",
        ),
        (
            3,
            "SELECT $1 WHERE (\"a\".\"x\" = ANY($2)) GROUP BY \"a\".\"x\" HAVING NOT (EXISTS (SELECT $3))",
        ),
        (
            0,
            "SELECT \"a\".\"x\" FROM \"a\" FOR NO KEY UPDATE SKIP LOCKED",
        ),
    ] {
        assert!(rt;
            is_read(rt.alloc(), Dialect::Pg, text, count, text)?,
            "{text}"
        );
    }
    Ok(())
}

#[test]
fn texts_elsewhere(rt: HostRuntime) -> Result<(), Fail> {
    for (dialect, count, text) in [
        (
            Dialect::Mysql,
            1,
            "SELECT `a`.`x` FROM (`a` LEFT OUTER JOIN `b` AS `c` ON (`a`.`x` = `c`.`y`)) LIMIT ?",
        ),
        (
            Dialect::Mysql,
            2,
            "(SELECT ?) EXCEPT ALL (SELECT ? FROM `b`) ORDER BY 1 ASC, 2",
        ),
        (
            Dialect::Sqlite,
            3,
            "SELECT * FROM (SELECT (`a`.`x` NOT IN (?, ?))) UNION SELECT * FROM (SELECT ?)",
        ),
        (Dialect::Sqlite, 1, "SELECT (1=0) LIMIT -1  OFFSET ?"),
        (
            Dialect::Bracket,
            2,
            "SELECT [a]]b].[x] FROM [a]]b] OFFSET @p1 ROWS FETCH NEXT @p2 ROWS ONLY",
        ),
    ] {
        assert!(rt; is_read(rt.alloc(), dialect, text, count, text)?, "{text}");
    }
    Ok(())
}

#[test]
fn spaces_are_no_part_of_a_tree(rt: HostRuntime) -> Result<(), Fail> {
    let text = "SELECT   ( \"a\".\"x\"=$7 )";
    let want = "SELECT (\"a\".\"x\" = $7)";
    assert!(rt; is_read(rt.alloc(), Dialect::Pg, text, 1, want)?);
    Ok(())
}

#[test]
fn texts_without_a_reading(rt: HostRuntime) -> Result<(), Fail> {
    for (dialect, text) in [
        (Dialect::Pg, ""),
        (Dialect::Pg, "select \"a\".\"id\""),
        (Dialect::Pg, "SELECT $01"),
        (Dialect::Pg, "SELECT $1;"),
        (Dialect::Pg, "SELECT ($1"),
        (Dialect::Pg, "SELECT \"a\".\"é"),
        (Dialect::Pg, "SELECT $1 WHERE $2=$3"),
        (Dialect::Sqlite, "SELECT ? FOR UPDATE"),
        (Dialect::Bracket, "SELECT @p1 LIMIT @p2"),
    ] {
        assert!(rt; is_refused(rt.alloc(), dialect, text), "{text}");
    }
    Ok(())
}
