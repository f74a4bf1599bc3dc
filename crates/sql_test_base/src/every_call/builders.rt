//! Query builders, collectors, values and the parts of `sql_pass`.

use sql_dialect::{Backend, Bracket, Dialect, Mysql, Pg, QueryBuilder, Sqlite, quote_name};
use sql_pass::{
    BindCollector, Bound, BoundRef, Identifier, InfixNode, OnKeyword, ParenthesisWrapper,
    QueryFragment, RawBytesBindCollector, ToSql, Value, debug_binds,
};
use sql_test_kit::{INTEGER, column, is, reads, table, text, writes};
use std::alloc::Global;
use std::test::Fail;

pub fn every_call(alloc: Global) -> Result<(), Fail> {
    pushes(alloc, &Pg, "a \"b\"$1$3")?;
    pushes(alloc, &Mysql, "a `b`??")?;
    pushes(alloc, &Sqlite, "a `b`??")?;
    pushes(alloc, &Bracket, "a [b]@p1@p3")?;
    reads(quote_name(alloc, Dialect::Bracket, "a]b")?, "[a]]b]")?;
    numbers(alloc)?;
    texts(alloc)?;
    values(alloc)?;
    collected(alloc)?;
    parts(alloc)?;
    paths(alloc)
}

fn pushes<DB: Backend>(alloc: Global, backend: &DB, wanted: &str) -> Result<(), Fail> {
    let mut builder = backend.query_builder(alloc);
    builder.push_sql("a ")?;
    builder.push_identifier("b")?;
    builder.push_bind_param()?;
    builder.push_bind_param_value_only()?;
    builder.push_bind_param()?;
    reads(builder.finish(), wanted)
}

fn numbers(alloc: Global) -> Result<(), Fail> {
    let bound = 1i16.bound(alloc)?;
    is(Bound::try_clone(&bound, alloc)? == bound, "an equal bind")?;
    let value = Value::SmallInt(1);
    is(Value::try_clone(&value, alloc)? == value, "an equal value")?;
    is(
        matches!(1i16.bound(alloc)?, Bound::Value(_, Value::SmallInt(1))),
        "a SmallInt",
    )?;
    is(
        matches!(1i32.bound(alloc)?, Bound::Value(_, Value::Integer(1))),
        "an Integer",
    )?;
    is(
        matches!(1i64.bound(alloc)?, Bound::Value(_, Value::BigInt(1))),
        "a BigInt",
    )?;
    is(
        matches!(true.bound(alloc)?, Bound::Value(_, Value::Bool(true))),
        "a Bool",
    )?;
    is(
        matches!(
            1i32.bound(alloc)?.bound(alloc)?,
            Bound::Value(_, Value::Integer(1))
        ),
        "a value that is bound",
    )
}

fn is_text(bound: Bound) -> bool {
    match bound {
        Bound::Value(_, Value::Text(text)) => text.as_str() == "a",
        _ => false,
    }
}

fn texts(alloc: Global) -> Result<(), Fail> {
    is(is_text("a".bound(alloc)?), "a Text")?;
    is(
        is_text(String::from_str(alloc, "a")?.bound(alloc)?),
        "a String",
    )?;
    let bytes: &[u8] = b"a";
    match bytes.bound(alloc)? {
        Bound::Value(_, Value::Binary(found)) => is(found.as_slice() == bytes, "a Binary"),
        _ => Err("a Binary")?,
    }
}

fn values(alloc: Global) -> Result<(), Fail> {
    let value = Value::Text(text(alloc, "a")?);
    is(value.try_clone(alloc)? == value, "a value's copy")?;
    let bound = BoundRef::Value(INTEGER, &Value::Null).to_bound(alloc)?;
    is(
        matches!(bound, Bound::Value(_, Value::Null)),
        "a bound value's copy",
    )?;
    let list = BoundRef::List(INTEGER, &[]).to_bound(alloc)?;
    is(matches!(list, Bound::List(_, _)), "a bound list's copy")
}

fn collected(alloc: Global) -> Result<(), Fail> {
    let mut collector = RawBytesBindCollector::new(alloc, Pg);
    collector.push_bound_value(BoundRef::Value(INTEGER, &Value::Integer(1)))?;
    collector.push_null_value(INTEGER)?;
    let collector = Some(()).collect_binds(collector, &Pg)?;
    is(collector.binds().len() == 2, "collected values")?;
    is(debug_binds(alloc, &Pg, &())?.is_empty(), "shown values")
}

fn parts(alloc: Global) -> Result<(), Fail> {
    writes(alloc, Identifier("a"), "\"a\"")?;
    writes(alloc, &Identifier("a"), "\"a\"")?;
    writes(alloc, Box::new(alloc, Identifier("a"))?, "\"a\"")?;
    writes(alloc, Some(Identifier("a")), "\"a\"")?;
    writes(alloc, (), "")?;
    let on = InfixNode::new(Identifier("a"), Identifier("b"), OnKeyword);
    writes(alloc, on, "\"a\" ON \"b\"")?;
    let equal = InfixNode::new(Identifier("a"), Identifier("b"), " = ");
    writes(
        alloc,
        ParenthesisWrapper { inner: equal },
        "(\"a\" = \"b\")",
    )
}

fn paths(alloc: Global) -> Result<(), Fail> {
    writes(alloc, table(alloc, "users")?, "\"users\"")?;
    writes(alloc, column(alloc, "users", "id")?, "\"users\".\"id\"")
}
