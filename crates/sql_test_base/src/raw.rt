use sql_dialect::{Backend, Mysql, Pg, QueryBuilder, Sqlite};
use sql_pass::{Bound, PassError, QueryFragment, ToSql, Value};
use sql_raw::*;
use sql_schema::{Base, SqlBytes, SqlList, SqlText, SqlType};
use std::alloc::{AllocError, Global};
use std::test::Fail;

fn raw(alloc: Global, text: &str) -> Result<SqlQuery, AllocError> {
    Ok(sql_query(String::from_str(alloc, text)?))
}

/// `SELECT $1, $2, $3` with three values.
fn three_values(
    alloc: Global,
) -> Result<UncheckedBind<UncheckedBind<UncheckedBind<SqlQuery>>>, AllocError> {
    let query = raw(alloc, "SELECT $1, $2, $3")?;
    let first = 42i32.bound(alloc)?;
    let second = 3i32.bound(alloc)?;
    let third = 342i32.bound(alloc)?;
    Ok(query.bind(first).bind(second).bind(third))
}

fn text_is<DB: Backend, T: QueryFragment<DB>>(
    alloc: Global,
    backend: &DB,
    query: &T,
    want: &str,
) -> Result<bool, PassError> {
    let builder = query.to_sql(backend.query_builder(alloc), backend)?;
    Ok(builder.finish().as_str() == want)
}

#[test]
fn values_alone_leave_the_text(rt: HostRuntime) -> Result<(), Fail> {
    let alloc = rt.alloc();
    let query = three_values(alloc)?;
    assert!(rt; text_is(alloc, &Pg, &query, "SELECT $1, $2, $3")?);
    let builder = query.to_sql(Pg.query_builder(alloc), &Pg)?;
    assert_eq!(rt; builder.bind_idx(), 3);
    assert!(rt; !query.is_safe_to_cache_prepared(&Pg) && !query.is_noop(&Pg));
    Ok(())
}

/// `SELECT 1` boxed, with text and a value appended.
fn one_and_five(alloc: Global) -> Result<BoxedSqlQuery<Pg, SqlQuery>, AllocError> {
    let query = raw(alloc, "SELECT 1")?.into_boxed::<Pg>(alloc);
    let value = 5i32.bound(alloc)?;
    query.sql(" + $1")?.bind(value)
}

#[test]
fn boxed_takes_text_and_values(rt: HostRuntime) -> Result<(), Fail> {
    let alloc = rt.alloc();
    let query = one_and_five(alloc)?;
    assert!(rt; text_is(alloc, &Pg, &query, "SELECT 1 + $1")?);
    let builder = query.to_sql(Pg.query_builder(alloc), &Pg)?;
    assert_eq!(rt; builder.bind_idx(), 1);
    assert!(rt; !query.is_safe_to_cache_prepared(&Pg));
    Ok(())
}

/// A raw query after a bound one: `SELECT ?` with a value, then ` + ?` and ` + 1`.
fn more_text(alloc: Global) -> Result<SqlQuery<UncheckedBind<SqlQuery>>, AllocError> {
    let value = 5i32.bound(alloc)?;
    let query = UncheckedBind::new(raw(alloc, "SELECT ?")?, value);
    query.sql(String::from_str(alloc, " + ?")?).sql(" + 1")
}

/// The same boxed after its values.
fn more_boxed(alloc: Global) -> Result<BoxedSqlQuery<Sqlite, UncheckedBind<SqlQuery>>, AllocError> {
    let value = 5i32.bound(alloc)?;
    let query = raw(alloc, "SELECT ?")?
        .bind(value)
        .into_boxed::<Sqlite>(alloc);
    query.sql(" + 2")
}

#[test]
fn text_goes_after_values(rt: HostRuntime) -> Result<(), Fail> {
    let alloc = rt.alloc();
    let query = more_text(alloc)?;
    assert!(rt; text_is(alloc, &Mysql, &query, "SELECT ? + ? + 1")?);
    let query = more_boxed(alloc)?;
    assert!(rt; text_is(alloc, &Sqlite, &query, "SELECT ? + 2")?);
    assert!(rt; text_is(alloc, &Pg, &Empty, "")?);
    Ok(())
}

fn lines_are<DB: Backend, T: QueryFragment<DB>>(
    alloc: Global,
    backend: &DB,
    query: &T,
    line: &str,
    structure: &str,
) -> Result<bool, PassError> {
    let shown = debug_query(alloc, backend, query)?;
    match lines(alloc, &shown) {
        Ok((one, other)) => Ok(one.as_str() == line && other.as_str() == structure),
        Err(_) => Err(PassError::NoMemory),
    }
}

fn lines(alloc: Global, shown: &DebugQuery) -> Result<(String, String), AllocError> {
    Ok((
        format!(in alloc; "{shown}")?,
        format!(in alloc; "{shown:?}")?,
    ))
}

#[test]
fn lines_show_values_in_order(rt: HostRuntime) -> Result<(), Fail> {
    let alloc = rt.alloc();
    let query = three_values(alloc)?;
    assert!(rt;
        lines_are(
            alloc,
            &Pg,
            &query,
            "SELECT $1, $2, $3 -- binds: [42, 3, 342]",
            "Query { sql: \"SELECT $1, $2, $3\", binds: [42, 3, 342] }"
        )?
    );
    let query = one_and_five(alloc)?;
    assert!(rt;
        lines_are(
            alloc,
            &Pg,
            &query,
            "SELECT 1 + $1 -- binds: [5]",
            "Query { sql: \"SELECT 1 + $1\", binds: [5] }"
        )?
    );
    assert!(rt;
        lines_are(
            alloc,
            &Pg,
            &Empty,
            " -- binds: []",
            "Query { sql: \"\", binds: [] }"
        )?
    );
    Ok(())
}

fn of_type(base: Base, value: Value) -> Bound {
    Bound::Value(
        SqlType {
            base,
            nullable: true,
        },
        value,
    )
}

fn text_value(alloc: Global, text: &str) -> Result<Value, AllocError> {
    Ok(Value::Text(SqlText::from(String::from_str(alloc, text)?)))
}

fn byte_value(alloc: Global, bytes: &[u8]) -> Result<Value, AllocError> {
    Ok(Value::Binary(SqlBytes::from(Vec::from_slice(alloc, bytes)?)))
}

/// `[3, None]`, bound as one.
fn list_value(alloc: Global) -> Result<Bound, AllocError> {
    let mut values = Vec::new(alloc);
    values.push(Value::BigInt(3))?;
    values.push(Value::Null)?;
    let ty = SqlType {
        base: Base::BigInt,
        nullable: true,
    };
    Ok(Bound::List(ty, SqlList::from(values)))
}

/// Whether this is how the value is shown, after no text.
fn shown_as(alloc: Global, value: Bound, want: &str) -> Result<bool, PassError> {
    let query = UncheckedBind::new(Empty, value);
    let shown = debug_query(alloc, &Pg, &query)?;
    match format!(in alloc; "{shown}") {
        Ok(line) => Ok(line.as_str() == want),
        Err(_) => Err(PassError::NoMemory),
    }
}

#[test]
fn numbers_and_truth_as_rust_shows_them(rt: HostRuntime) -> Result<(), Fail> {
    let alloc = rt.alloc();
    assert!(rt;
        shown_as(
            alloc,
            of_type(Base::SmallInt, Value::SmallInt(-32768)),
            " -- binds: [-32768]"
        )?
    );
    assert!(rt;
        shown_as(
            alloc,
            of_type(Base::BigInt, Value::BigInt(9223372036854775807)),
            " -- binds: [9223372036854775807]"
        )?
    );
    assert!(rt;
        shown_as(
            alloc,
            of_type(Base::Bool, Value::Bool(true)),
            " -- binds: [true]"
        )?
    );
    assert!(rt;
        shown_as(
            alloc,
            of_type(Base::Integer, Value::Null),
            " -- binds: [None]"
        )?
    );
    Ok(())
}

#[test]
fn texts_and_bytes_as_rust_shows_them(rt: HostRuntime) -> Result<(), Fail> {
    let alloc = rt.alloc();
    let text = text_value(alloc, "a\"b\n\\")?;
    assert!(rt;
        shown_as(
            alloc,
            of_type(Base::Text, text),
            " -- binds: [\"a\\\"b\\n\\\\\"]"
        )?
    );
    let bytes = byte_value(alloc, &[1, 255])?;
    assert!(rt; shown_as(alloc, of_type(Base::Binary, bytes), " -- binds: [[1, 255]]")?);
    Ok(())
}

#[test]
fn lists_and_texts_past_ascii(rt: HostRuntime) -> Result<(), Fail> {
    let alloc = rt.alloc();
    let list = list_value(alloc)?;
    assert!(rt; shown_as(alloc, list, " -- binds: [[3, None]]")?);
    // A letter stands as it is, and what does not print is escaped.
    let text = text_value(alloc, "é\u{200b}")?;
    assert!(rt;
        shown_as(
            alloc,
            of_type(Base::Text, text),
            " -- binds: [\"é\\u{200b}\"]"
        )?
    );
    Ok(())
}
