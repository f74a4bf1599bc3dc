//! Callers of Hardieflax, over the crate `hardieflax` alone: one compiles a statement that it builds by calls, one has a backend and a part
//! of a statement of its own, and a gallery has a statement of each kind. The program prints what they give.
#![tactic(auto)]

mod failure;
mod gallery;
mod layer;
mod maria;
mod readme;
mod report;

use failure::Failure;
use gallery::gallery;
use hardieflax::{
    Backend, Base, Bracket, Identifier, Mysql, Pg, QueryBuilder, QueryFragment, Schema,
    SchemaBuilder, Sqlite, StatementCache, debug_query,
};
use layer::users_named_again;
use maria::{Maria, Upper};
use readme::{users, written};
use report::users_named;
use std::num::NonZeroUsize;

fn main(rt: HostRuntime) -> Result<(), Failure> {
    statements(&rt)?;
    reports(&rt)?;
    cached(&rt)?;
    parts(&rt)?;
    gallery(&rt)
}

/// One statement, as each dialect has it.
fn statements(rt: &HostRuntime) -> Result<(), Failure> {
    let alloc = rt.alloc();
    let schema = users(alloc, Base::Text)?;
    println!(rt; "Pg:      {}", written(alloc, &Pg, &schema)?)?;
    println!(rt; "Mysql:   {}", written(alloc, &Mysql, &schema)?)?;
    println!(rt; "Sqlite:  {}", written(alloc, &Sqlite, &schema)?)?;
    println!(rt; "Bracket: {}", written(alloc, &Bracket, &schema)?)?;
    println!(rt; "Maria:   {}", written(alloc, &Maria, &schema)?)?;
    Ok(())
}

/// The report over a schema that has it, one whose names are numbers, and one without users.
fn reports(rt: &HostRuntime) -> Result<(), Failure> {
    let alloc = rt.alloc();
    print_report(rt, &users(alloc, Base::Text)?)?;
    print_report(rt, &users(alloc, Base::Integer)?)?;
    print_report(rt, &SchemaBuilder::new(alloc).build()?)
}

fn print_report(rt: &HostRuntime, schema: &Schema) -> Result<(), Failure> {
    match users_named(rt.alloc(), schema, "x'; --") {
        Ok(built) => {
            println!(rt; "report:  {}", built.sql.as_str())?;
            println!(rt;
                "values:  {}, safe to cache: {}",
                built.binds.as_slice().len(),
                built.safe
            )?;
        }
        Err(error) => println!(rt; "report:  {error}")?,
    }
    Ok(())
}

/// The report for two names through a cache, which has the second name's text already.
fn cached(rt: &HostRuntime) -> Result<(), Failure> {
    let alloc = rt.alloc();
    let capacity = NonZeroUsize::new(256).unwrap();
    let mut cache = StatementCache::new(alloc, users(alloc, Base::Text)?, capacity)?;
    print_cached(rt, &mut cache, "Sean")?;
    print_cached(rt, &mut cache, "Tess")?;
    println!(rt; "cached:  {} entry, {} hit", cache.len(), cache.hits())?;
    Ok(())
}

fn print_cached(rt: &HostRuntime, cache: &mut StatementCache, name: &str) -> Result<(), Failure> {
    match users_named_again(rt.alloc(), cache, name) {
        Ok(built) => println!(rt; "cached:  {}", built.sql.as_str())?,
        Err(error) => println!(rt; "cached:  {error}")?,
    }
    Ok(())
}

/// A part of one's own, on a backend of one's own and on PostgreSQL.
fn parts(rt: &HostRuntime) -> Result<(), Failure> {
    let alloc = rt.alloc();
    let part = Upper(Identifier("name"));
    let builder = part
        .to_sql(Maria.query_builder(alloc), &Maria)
        .map_err(Failure::Shown)?;
    println!(rt; "part:    {}", builder.finish())?;
    let shown = debug_query(alloc, &Pg, &part).map_err(Failure::Shown)?;
    println!(rt; "part:    {shown}")?;
    Ok(())
}
