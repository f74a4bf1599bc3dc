//! A refused call changes nothing, so the same call again gives what the first would have given. With memory to spare none is refused
//! here; `tests/faults.sh` refuses each allocation of this test in turn.

use sql_dialect::{Backend, Pg};
use sql_pass::{AstPass, BindCollector, BoundRef, RawBytesBindCollector, Value};
use sql_schema::SchemaBuilder;
use sql_test_kit::{INTEGER, is, reads, table_decl, text_in};
use std::alloc::Global;
use std::test::Fail;

fn declarations(alloc: Global) -> Result<(), Fail> {
    let mut builder = SchemaBuilder::new(alloc);
    let users = table_decl(alloc, "users", "name")?;
    let users_again = table_decl(alloc, "users", "name")?;
    if builder.table(users).is_err() {
        builder.table(users_again)?;
    }
    builder.table(table_decl(alloc, "posts", "user_id")?)?;
    if builder.joinable("posts", "user_id", "users").is_err() {
        builder.joinable("posts", "user_id", "users")?;
    }
    if builder.together("users", "posts").is_err() {
        builder.together("users", "posts")?;
    }
    let schema = builder.build()?;
    is(
        schema.tables().len() == 2 && schema.joinables().len() == 1,
        "a schema",
    )
}

fn pushes(alloc: Global) -> Result<(), Fail> {
    let mut pass = AstPass::to_sql(Pg.query_builder(alloc), Pg);
    let value = Value::Integer(1);
    if pass.push_sql("a ").is_err() {
        pass.push_sql("a ")?;
    }
    if pass.push_identifier("b").is_err() {
        pass.push_identifier("b")?;
    }
    let bound = BoundRef::Value(INTEGER, &value);
    if pass.push_bind_param(bound).is_err() {
        pass.push_bind_param(bound)?;
    }
    if pass.push_bind_param_value_only(bound).is_err() {
        pass.push_bind_param_value_only(bound)?;
    }
    reads(text_in(pass)?, "a \"b\"$1")
}

fn collected(alloc: Global) -> Result<(), Fail> {
    let mut collector = RawBytesBindCollector::new(alloc, Pg);
    let value = Value::Integer(1);
    let bound = BoundRef::Value(INTEGER, &value);
    if collector.push_bound_value(bound).is_err() {
        collector.push_bound_value(bound)?;
    }
    if collector.push_null_value(INTEGER).is_err() {
        collector.push_null_value(INTEGER)?;
    }
    is(
        collector.binds().len() == 2 && collector.metadata().len() == 2,
        "collected values",
    )
}

#[test]
fn the_same_call_again(rt: HostRuntime) -> Result<(), Fail> {
    let alloc = rt.alloc();
    declarations(alloc)?;
    pushes(alloc)?;
    collected(alloc)
}
