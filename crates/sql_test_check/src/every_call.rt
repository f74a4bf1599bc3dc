//! Each public call that tells something of a statement, made once with memory to spare: keys, conditions, rules, and what `compile`
//! gives.

mod flat;

use sql_check::{Built, broken, compile};
use sql_dialect::Pg;
use sql_expr::{Expr, ExpressionMethods, Statement};
use sql_flat::{expression_nodes, flatten};
use sql_key::{QueryId, QueryKey};
use sql_rows::{StatementCache, compile_sound};
use sql_rules_check::{Names, is_condition_of, judge};
use sql_schema::Schema;
use sql_select::Query;
use sql_test_calls::fixture::{id, ids, one};
use sql_test_kit::{INTEGER, beside, is, schema};
use std::alloc::Global;
use std::num::NonZeroUsize;
use std::test::Fail;

#[test]
fn every_call_once(rt: HostRuntime) -> Result<(), Fail> {
    let alloc = rt.alloc();
    keys(alloc)?;
    conditions(alloc)?;
    verdicts(alloc)?;
    sound_types(alloc)?;
    cached(alloc)?;
    flat::every_call(alloc)
}

fn key(alloc: Global) -> Result<Option<QueryKey>, Fail> {
    let ids = ids(alloc)?.into_statement();
    let key = ids.query_id(alloc);
    drop(ids);
    Ok(key?)
}

fn keys(alloc: Global) -> Result<(), Fail> {
    let first = key(alloc)?;
    is(first.is_some() && first == key(alloc)?, "one key")
}

fn equal(alloc: Global) -> Result<Expr, Fail> {
    let (id, one) = beside(id(alloc)?, one(alloc))?;
    Ok(id.eq(alloc, one)?)
}

fn conditions(alloc: Global) -> Result<(), Fail> {
    let equal = expression_nodes(alloc, 0, &equal(alloc)?)?;
    is(is_condition_of(alloc, &equal)?, "a condition")?;
    let id = expression_nodes(alloc, 0, &id(alloc)?)?;
    is(!is_condition_of(alloc, &id)?, "no condition")
}

fn verdicts_of(alloc: Global, schema: &Schema, statement: &Statement) -> Result<(), Fail> {
    is(
        broken(alloc, &Pg, schema, statement)?.is_empty(),
        "no rule broken",
    )?;
    let flat = flatten(alloc, statement)?;
    let judged = judge(alloc, Names::Asked, &Pg, schema, &flat);
    drop(flat);
    is(judged?.first.is_none(), "no first rule")?;
    let built = compile(alloc, &Pg, schema, statement)?;
    is(
        built.sql.as_str() == "SELECT \"users\".\"id\" FROM \"users\"",
        "a compiled statement",
    )?;
    is(Built::try_clone(&built, alloc)? == built, "an equal answer")
}

fn verdicts(alloc: Global) -> Result<(), Fail> {
    let schema = schema(alloc)?;
    let ids = ids(alloc)?.into_statement();
    let found = verdicts_of(alloc, &schema, &ids);
    drop(ids);
    found
}

fn sound_types_of(alloc: Global, schema: &Schema, statement: &Statement) -> Result<(), Fail> {
    let built = compile_sound(alloc, &Pg, schema, statement)?;
    is(
        built.sql_types.as_slice() == [INTEGER].as_slice(),
        "types that are right for NULL",
    )
}

fn sound_types(alloc: Global) -> Result<(), Fail> {
    let schema = schema(alloc)?;
    let ids = ids(alloc)?.into_statement();
    let found = sound_types_of(alloc, &schema, &ids);
    drop(ids);
    found
}

fn cached(alloc: Global) -> Result<(), Fail> {
    let mut cache = StatementCache::new(alloc, schema(alloc)?, NonZeroUsize::MIN)?;
    let ids = ids(alloc)?.into_statement();
    let built = cache.compile_cached(alloc, &Pg, &ids);
    drop(ids);
    is(
        built?.sql.as_str() == "SELECT \"users\".\"id\" FROM \"users\"",
        "a statement that a cache keeps",
    )
}
