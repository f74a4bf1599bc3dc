//! The calls on flat lists, and those that may be told that a statement's names are known.

ghost use Rattle.std.specs.Prelude.{◌≡◌, ◌<◌};

use crate::flat::end_at;
use sql_check::{Built, CompileError, Steps, compile_by, compile_flat_by, fused};
use sql_dialect::Pg;
use sql_expr::Statement;
use sql_flat::{Flat, FlatKind, FlatNode, expression_nodes, flatten};
use sql_flat_back::Unflatten;
use sql_flat_text::write_flat;
use sql_key::{QueryKey, erased_kind, flat_query_id};
use sql_pass::Value;
use sql_rows::{StatementCache, compile_sound_by};
use sql_rules_check::{Names, broken_but_the_last};
use sql_schema::Schema;
use sql_select::Query;
use sql_test_calls::fixture::{id, ids};
use sql_test_kit::{INTEGER, gives, is, schema};
use std::alloc::Global;
use std::marker::Brand;
use std::num::NonZeroUsize;
use std::sync::ledger::{Blank, Ledger};
use std::test::Fail;

const IDS: &str = "SELECT \"users\".\"id\" FROM \"users\"";

pub fn every_call(alloc: Global) -> Result<(), Fail> {
    let statement = ids(alloc)?.into_statement();
    let told = told_of(alloc, &statement);
    drop(statement);
    told?;
    expressions(alloc)
}

fn told_of(alloc: Global, statement: &Statement) -> Result<(), Fail> {
    let schema = schema(alloc)?;
    let flat = flatten(alloc, statement)?;
    of_list(alloc, &schema, &flat)?;
    compiled(alloc, &schema, statement, &flat)
}

fn of_list(alloc: Global, schema: &Schema, flat: &Flat) -> Result<(), Fail> {
    gives(alloc, flat.unflatten(alloc), IDS)?;
    match flat_query_id(alloc, flat)? {
        Some(key) => is(QueryKey::try_clone(&key, alloc)? == key, "an equal key")?,
        None => is(false, "an id")?,
    }
    copies_of_nodes(alloc, flat)?;
    let broken = broken_but_the_last(alloc, &Pg, schema, flat)?;
    is(broken.is_empty(), "no rule broken")?;
    let blank = Blank::new(1);
    counted::<Brand>(alloc, flat, blank)
}

/// Fails where a node's copy is another.
fn copies_of_nodes(alloc: Global, flat: &Flat) -> Result<(), Fail> {
    for node in flat.nodes() {
        is(FlatNode::try_clone(node, alloc)? == *node, "an equal node")?;
        is(
            FlatKind::try_clone(&node.kind, alloc)? == node.kind,
            "an equal kind",
        )?;
    }
    Ok(())
}

/// Checks what is written and told where the caller counts the steps.
fn counted<L: Ledger>(alloc: Global, flat: &Flat, blank: Blank) -> Result<(), Fail>
    requires name { blank.name ≡ L.name }
    requires parts { (blank.parts ≡ L.parts) × (0 < L.parts) }
{
    let mut steps = Steps::<L>::new(blank);
    let written = write_flat(alloc, &Pg, flat, &mut steps)?;
    is(
        written.sql.as_str() == IDS && written.safe,
        "what is written",
    )?;
    let told = fused(alloc, &Pg, flat, &mut steps)?;
    is(
        told.sql.as_str() == IDS && told.safe && told.id.is_some(),
        "what is told",
    )
}

fn is_compiled(built: Result<Built, CompileError>) -> Result<(), Fail> {
    match built {
        Ok(built) => is(built.sql.as_str() == IDS, "the text"),
        Err(error) => Err(error)?,
    }
}

fn compiled(
    alloc: Global,
    schema: &Schema,
    statement: &Statement,
    flat: &Flat,
) -> Result<(), Fail> {
    let names = Names::Asked;
    is_compiled(compile_by(alloc, names, &Pg, schema, statement))?;
    is_compiled(compile_flat_by(alloc, names, &Pg, schema, flat))?;
    is_compiled(compile_sound_by(alloc, names, &Pg, schema, statement))?;
    is_kept(alloc, statement)
}

fn is_kept(alloc: Global, statement: &Statement) -> Result<(), Fail> {
    let mut cache = StatementCache::new(alloc, schema(alloc)?, NonZeroUsize::MIN)?;
    is_compiled(cache.compile_cached_by(alloc, Names::Asked, &Pg, statement))?;
    is_compiled(cache.compile_cached_by(alloc, Names::Asked, &Pg, statement))?;
    is(cache.hits() == 1, "an answer that was kept")
}

fn expressions(alloc: Global) -> Result<(), Fail> {
    let id = id(alloc)?;
    let nodes = expression_nodes(alloc, 1, &id);
    drop(id);
    let nodes = nodes?;
    is(end_at(nodes.as_slice(), &[2, 2]), "a column under nullable")?;
    let one = FlatKind::Value(INTEGER, Value::Integer(1));
    let erased = erased_kind(alloc, &one)?;
    is(
        matches!(&erased, FlatKind::Value(_, Value::Null)),
        "no value",
    )
}
