ghost use Rattle.std.specs.Prelude.{◌≡◌, ◌∷◌, [], ◌++◌, length, map, IfOk, OnOk, option_map};
ghost use Rattle.sql_read_tree.specs.View.{expression_tree, item_tree, source_tree, distinctness_tree, query_tree, maybe_tree, maybe_source_tree};
ghost use Rattle.sql_audit_resolution.specs.Leaves as l;
ghost use Rattle.sql_audit_resolution.specs.Meant as meant;
ghost use Rattle.sql_audit_resolution.specs.Uses as u;
ghost use Rattle.sql_audit_resolution.specs.inside.After as after;

use crate::known::Known;
use crate::leaf::{Level, join_level, own_level, widened};
use sql_read_tree::{Distinctness, Expression, Item, Query, Source};
use sql_schema::{NoMemory, Schema};
use std::alloc::Global;
use std::slice::from_ref;

/// Takes in an expression of a clause that sees these levels.
#[cycle(walk)]
fn walk_expression(
    alloc: Global,
    schema: &Schema,
    known: &mut Known,
    levels: &[Level],
    e: &Expression,
) -> Result<(), NoMemory>
    ensures { OnOk result
        (known.new
        ≡ after.after_expression schema.now.tables levels.now known.old (expression_tree e.now)) }
{
    match e {
        Expression::Path(names) => {
            known.push_path(alloc, schema, levels, names)?;
            Ok(())
        }
        Expression::Placeholder(_) => Ok(()),
        Expression::SingleValue(q) => {
            walk_query(alloc, schema, known, levels, q)?;
            Ok(())
        }
        Expression::Exists(q) => {
            walk_query(alloc, schema, known, levels, q)?;
            Ok(())
        }
        Expression::Compared(_, a, b) => {
            walk_expression(alloc, schema, known, levels, a)?;
            walk_expression(alloc, schema, known, levels, b)?;
            Ok(())
        }
        Expression::Connected(_, a, b) => {
            walk_expression(alloc, schema, known, levels, a)?;
            walk_expression(alloc, schema, known, levels, b)?;
            Ok(())
        }
        Expression::Not(a) => {
            walk_expression(alloc, schema, known, levels, a)?;
            Ok(())
        }
        Expression::NullTest(_, a) => {
            walk_expression(alloc, schema, known, levels, a)?;
            Ok(())
        }
        Expression::CountAll => Ok(()),
        Expression::Count(a) => {
            walk_expression(alloc, schema, known, levels, a)?;
            Ok(())
        }
        Expression::InList(_, a, _, _) => {
            walk_expression(alloc, schema, known, levels, a)?;
            Ok(())
        }
        Expression::InQuery(_, a, q) => {
            walk_expression(alloc, schema, known, levels, a)?;
            walk_query(alloc, schema, known, levels, q)?;
            Ok(())
        }
        Expression::Constant(_) => Ok(()),
    }
}

#[cycle(walk)]
fn walk_list(
    alloc: Global,
    schema: &Schema,
    known: &mut Known,
    levels: &[Level],
    es: &[Expression],
) -> Result<(), NoMemory>
    ensures { OnOk result
        (known.new
        ≡ after.after_list schema.now.tables levels.now known.old (map expression_tree es.now)) }
{
    for e in es {
        walk_expression(alloc, schema, known, levels, e)?;
    }
    Ok(())
}

#[cycle(walk)]
fn walk_item(
    alloc: Global,
    schema: &Schema,
    known: &mut Known,
    levels: &[Level],
    item: &Item,
) -> Result<(), NoMemory>
    ensures { OnOk result
        (known.new
        ≡ after.after_expression schema.now.tables levels.now known.old (item_tree item.now).0) }
{
    match item {
        Item::Plain(e) => {
            walk_expression(alloc, schema, known, levels, e)?;
            Ok(())
        }
        Item::Ascending(e) => {
            walk_expression(alloc, schema, known, levels, e)?;
            Ok(())
        }
        Item::Descending(e) => {
            walk_expression(alloc, schema, known, levels, e)?;
            Ok(())
        }
    }
}

#[cycle(walk)]
fn walk_items(
    alloc: Global,
    schema: &Schema,
    known: &mut Known,
    levels: &[Level],
    items: &[Item],
) -> Result<(), NoMemory>
    ensures { OnOk result
        (known.new
        ≡ after.after_items schema.now.tables levels.now known.old (map item_tree items.now)) }
{
    for item in items {
        walk_item(alloc, schema, known, levels, item)?;
    }
    Ok(())
}

/// Takes in a source: its leaves and its conditions, each of which sees the leaves of its join.
#[cycle(walk)]
fn walk_source(
    alloc: Global,
    schema: &Schema,
    known: &mut Known,
    s: &Source,
) -> Result<(), NoMemory>
    ensures { OnOk result
        (known.new ≡ after.after_source schema.now.tables known.old (source_tree s.now)) }
{
    match s {
        Source::Table(names, _, _) => {
            known.push_table(alloc, schema, names)?;
            Ok(())
        }
        Source::Alias(names, _) => {
            known.push_table(alloc, schema, names)?;
            Ok(())
        }
        Source::Join(_, a, b, on) => {
            let level = join_level(alloc, known.count(), s)?;
            walk_source(alloc, schema, known, a)?;
            walk_source(alloc, schema, known, b)?;
            walk_expression(alloc, schema, known, from_ref(&level), on)?;
            Ok(())
        }
    }
}

#[cycle(walk)]
#[tactic(auto, using(crate::proofs::Lists::parts))]
fn walk_maybe(
    alloc: Global,
    schema: &Schema,
    known: &mut Known,
    levels: &[Level],
    e: &Option<Expression>,
) -> Result<(), NoMemory>
    ensures { OnOk result
        (known.new
        ≡ after.after_maybe schema.now.tables levels.now known.old (maybe_tree e.now)) }
{
    match e {
        None => Ok(()),
        Some(e) => {
            walk_expression(alloc, schema, known, levels, e)?;
            Ok(())
        }
    }
}

#[cycle(walk)]
#[tactic(auto, using(crate::proofs::Lists::parts))]
fn walk_from(
    alloc: Global,
    schema: &Schema,
    known: &mut Known,
    s: &Option<Source>,
) -> Result<(), NoMemory>
    ensures { OnOk result
        (known.new ≡ after.after_from schema.now.tables known.old (maybe_source_tree s.now)) }
{
    match s {
        None => Ok(()),
        Some(s) => {
            walk_source(alloc, schema, known, s)?;
            Ok(())
        }
    }
}

#[cycle(walk)]
fn walk_distinct(
    alloc: Global,
    schema: &Schema,
    known: &mut Known,
    levels: &[Level],
    d: &Distinctness,
) -> Result<(), NoMemory>
    ensures { OnOk result
        (known.new
        ≡ after.after_distinct schema.now.tables levels.now known.old (distinctness_tree d.now)) }
{
    match d {
        Distinctness::Every => Ok(()),
        Distinctness::Distinct => Ok(()),
        Distinctness::DistinctOn(e, es) => {
            walk_expression(alloc, schema, known, levels, e)?;
            walk_list(alloc, schema, known, levels, es)?;
            Ok(())
        }
    }
}

/// Takes in what a select statement selects.
#[cycle(walk)]
fn walk_selected(
    alloc: Global,
    schema: &Schema,
    known: &mut Known,
    levels: &[Level],
    q: &Query,
) -> Result<(), NoMemory>
    ensures { OnOk result
        (known.new
        ≡ after.after_selected schema.now.tables levels.now known.old (query_tree q.now)) }
{
    match q {
        Query::Select(_, e, es, ..) => {
            walk_expression(alloc, schema, known, levels, e)?;
            walk_list(alloc, schema, known, levels, es)?;
            Ok(())
        }
        Query::Combined(..) => Ok(()),
    }
}

#[cycle(walk)]
fn walk_group(
    alloc: Global,
    schema: &Schema,
    known: &mut Known,
    levels: &[Level],
    q: &Query,
) -> Result<(), NoMemory>
    ensures { OnOk result
        (known.new
        ≡ after.after_grouped schema.now.tables levels.now known.old (query_tree q.now)) }
{
    match q {
        Query::Select(_, _, _, _, _, g, ..) => {
            walk_list(alloc, schema, known, levels, g)?;
            Ok(())
        }
        Query::Combined(..) => Ok(()),
    }
}

#[cycle(walk)]
fn walk_order(
    alloc: Global,
    schema: &Schema,
    known: &mut Known,
    levels: &[Level],
    q: &Query,
) -> Result<(), NoMemory>
    ensures { OnOk result
        (known.new
        ≡ after.after_ordered schema.now.tables levels.now known.old (query_tree q.now)) }
{
    match q {
        Query::Select(_, _, _, _, _, _, _, o, ..) => {
            walk_items(alloc, schema, known, levels, o)?;
            Ok(())
        }
        Query::Combined(..) => Ok(()),
    }
}

/// Takes in a statement that a clause which sees these levels encloses.
#[cycle(walk)]
pub(crate) fn walk_query(
    alloc: Global,
    schema: &Schema,
    known: &mut Known,
    around: &[Level],
    q: &Query,
) -> Result<(), NoMemory>
    ensures { OnOk result
        (known.new
        ≡ after.after_query schema.now.tables around.now known.old (query_tree q.now)) }
{
    match q {
        Query::Select(u, _, _, f, w, _, h, _, _, _) => {
            let own = own_level(alloc, known.count(), q)?;
            let wide = widened(alloc, &own, around)?;
            let here = from_ref(&own);
            walk_distinct(alloc, schema, known, here, u)?;
            walk_selected(alloc, schema, known, here, q)?;
            walk_from(alloc, schema, known, f)?;
            walk_maybe(alloc, schema, known, wide.as_slice(), w)?;
            walk_group(alloc, schema, known, here, q)?;
            walk_maybe(alloc, schema, known, here, h)?;
            walk_order(alloc, schema, known, here, q)?;
            Ok(())
        }
        Query::Combined(a, _, _, b, _, _) => {
            walk_query(alloc, schema, known, around, a)?;
            walk_query(alloc, schema, known, around, b)?;
            Ok(())
        }
    }
}
