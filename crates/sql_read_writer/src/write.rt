ghost use Rattle.std.specs.Prelude.{◌≡◌, ◌++◌, ℕ, List, map, string_bytes, OnOk};
ghost use Rattle.sql_grammar.specs.Text as x;
ghost use Rattle.sql_read_tree.specs.View.{expression_tree, item_tree, source_tree, distinctness_tree, query_tree, maybe_tree, maybe_source_tree};
ghost use Rattle.sql_read_writer.specs.More as more;

use crate::leaf::{
    push, push_all, push_among, push_constant, push_direction, push_head, push_kind, push_lock,
    push_logic, push_mark, push_marks, push_name, push_names, push_null_test, push_only,
    push_operator, push_page, push_places, push_sample, push_side_open, push_sign,
};
use sql_dialect::{Dialect, NoMemory};
use sql_read_tree::{Direction, Distinctness, Expression, Item, Query, Source};
use std::alloc::Global;

/// Writes an expression at the end.
#[cycle(write)]
#[tactic(auto, unfolding(sql_grammar::specs::Text::expression))]
pub fn push_expression(
    alloc: Global,
    out: &mut String,
    dialect: Dialect,
    e: &Expression,
) -> Result<(), NoMemory>
    ensures { (rest : List ℕ) → OnOk result
        (string_bytes out.new ++ rest
        ≡ string_bytes out.old ++ x.expression dialect (expression_tree e.now) rest) }
{
    match e {
        Expression::Path(names) => {
            push_names(alloc, out, dialect, names)?;
            Ok(())
        }
        Expression::Placeholder(mark) => {
            push_mark(out, dialect, *mark)?;
            Ok(())
        }
        Expression::SingleValue(q) => {
            push(out, "(")?;
            push_query(alloc, out, dialect, q)?;
            push(out, ")")?;
            Ok(())
        }
        Expression::Exists(q) => {
            push(out, "EXISTS (")?;
            push_query(alloc, out, dialect, q)?;
            push(out, ")")?;
            Ok(())
        }
        Expression::Compared(by, a, b) => {
            push(out, "(")?;
            push_expression(alloc, out, dialect, a)?;
            push(out, " ")?;
            push_sign(out, *by)?;
            push(out, " ")?;
            push_expression(alloc, out, dialect, b)?;
            push(out, ")")?;
            Ok(())
        }
        Expression::Connected(by, a, b) => {
            push(out, "(")?;
            push_expression(alloc, out, dialect, a)?;
            push_logic(out, *by)?;
            push_expression(alloc, out, dialect, b)?;
            push(out, ")")?;
            Ok(())
        }
        Expression::Not(a) => {
            push(out, "NOT (")?;
            push_expression(alloc, out, dialect, a)?;
            push(out, ")")?;
            Ok(())
        }
        Expression::NullTest(negated, a) => {
            push(out, "(")?;
            push_expression(alloc, out, dialect, a)?;
            push_null_test(out, *negated)?;
            Ok(())
        }
        Expression::CountAll => {
            push(out, "COUNT(*)")?;
            Ok(())
        }
        Expression::Count(a) => {
            push(out, "COUNT(")?;
            push_expression(alloc, out, dialect, a)?;
            push(out, ")")?;
            Ok(())
        }
        Expression::InList(negated, a, first, others) => {
            push(out, "(")?;
            push_expression(alloc, out, dialect, a)?;
            push_among(out, dialect, *negated)?;
            push_marks(out, dialect, *first, others)?;
            push(out, "))")?;
            Ok(())
        }
        Expression::InQuery(negated, a, q) => {
            push(out, "(")?;
            push_expression(alloc, out, dialect, a)?;
            push_among(out, dialect, *negated)?;
            push_query(alloc, out, dialect, q)?;
            push(out, "))")?;
            Ok(())
        }
        Expression::Constant(holds) => {
            push_constant(out, *holds)?;
            Ok(())
        }
    }
}

/// Writes expressions at the end, the first after a word, the others each after a comma.
#[cycle(write)]
fn push_list(
    alloc: Global,
    out: &mut String,
    dialect: Dialect,
    head: &'static str,
    es: &[Expression],
) -> Result<(), NoMemory>
    ensures { (rest : List ℕ) → OnOk result
        (string_bytes out.new ++ rest
        ≡ string_bytes out.old ++ more.listed dialect head.now (map expression_tree es.now) rest) }
{
    let mut first = true;
    for e in es {
        push_head(out, first, head)?;
        push_expression(alloc, out, dialect, e)?;
        first = false;
    }
    Ok(())
}

#[cycle(write)]
fn push_item(alloc: Global, out: &mut String, dialect: Dialect, item: &Item) -> Result<(), NoMemory>
    ensures { (rest : List ℕ) → OnOk result
        (string_bytes out.new ++ rest
        ≡ string_bytes out.old
        ++ x.expression dialect (item_tree item.now).0 (x.direction (item_tree item.now).1 rest)) }
{
    match item {
        Item::Plain(e) => {
            push_expression(alloc, out, dialect, e)?;
            push_direction(out, Direction::Plain)?;
            Ok(())
        }
        Item::Ascending(e) => {
            push_expression(alloc, out, dialect, e)?;
            push_direction(out, Direction::Ascending)?;
            Ok(())
        }
        Item::Descending(e) => {
            push_expression(alloc, out, dialect, e)?;
            push_direction(out, Direction::Descending)?;
            Ok(())
        }
    }
}

/// The same of items.
#[cycle(write)]
fn push_items(
    alloc: Global,
    out: &mut String,
    dialect: Dialect,
    head: &'static str,
    items: &[Item],
) -> Result<(), NoMemory>
    ensures { (rest : List ℕ) → OnOk result
        (string_bytes out.new ++ rest
        ≡ string_bytes out.old ++ more.items dialect head.now (map item_tree items.now) rest) }
{
    let mut first = true;
    for item in items {
        push_head(out, first, head)?;
        push_item(alloc, out, dialect, item)?;
        first = false;
    }
    Ok(())
}

#[cycle(write)]
#[tactic(auto, unfolding(sql_grammar::specs::Text::expression))]
fn push_source(
    alloc: Global,
    out: &mut String,
    dialect: Dialect,
    s: &Source,
) -> Result<(), NoMemory>
    ensures { (rest : List ℕ) → OnOk result
        (string_bytes out.new ++ rest
        ≡ string_bytes out.old ++ x.source dialect (source_tree s.now) rest) }
{
    match s {
        Source::Table(names, only, sample) => {
            push_only(out, *only)?;
            push_names(alloc, out, dialect, names)?;
            push_sample(out, dialect, *sample)?;
            Ok(())
        }
        Source::Alias(names, alias) => {
            push_names(alloc, out, dialect, names)?;
            push(out, " AS ")?;
            push_name(alloc, out, dialect, alias.as_str())?;
            Ok(())
        }
        Source::Join(kind, a, b, on) => {
            push(out, "(")?;
            push_source(alloc, out, dialect, a)?;
            push_kind(out, *kind)?;
            push_source(alloc, out, dialect, b)?;
            push(out, " ON ")?;
            push_expression(alloc, out, dialect, on)?;
            push(out, ")")?;
            Ok(())
        }
    }
}

#[cycle(write)]
#[tactic(auto, using(crate::proofs::Lists::lists))]
fn push_distinct(
    alloc: Global,
    out: &mut String,
    dialect: Dialect,
    d: &Distinctness,
) -> Result<(), NoMemory>
    ensures { (rest : List ℕ) → OnOk result
        (string_bytes out.new ++ rest
        ≡ string_bytes out.old ++ x.distinct dialect (distinctness_tree d.now) rest) }
{
    match d {
        Distinctness::Every => Ok(()),
        Distinctness::Distinct => {
            push(out, "DISTINCT ")?;
            Ok(())
        }
        Distinctness::DistinctOn(e, es) => {
            push(out, "DISTINCT ON (")?;
            push_expression(alloc, out, dialect, e)?;
            push_list(alloc, out, dialect, ", ", es)?;
            push(out, ") ")?;
            Ok(())
        }
    }
}

/// Writes a condition after a word, where there is one.
#[cycle(write)]
fn push_condition(
    alloc: Global,
    out: &mut String,
    dialect: Dialect,
    head: &'static str,
    filter: &Option<Expression>,
) -> Result<(), NoMemory>
    ensures { (rest : List ℕ) → OnOk result
        (string_bytes out.new ++ rest
        ≡ string_bytes out.old ++ more.condition dialect head.now (maybe_tree filter.now) rest) }
{
    match filter {
        None => Ok(()),
        Some(e) => {
            push(out, head)?;
            push_expression(alloc, out, dialect, e)?;
            Ok(())
        }
    }
}

#[cycle(write)]
#[tactic(auto, unfolding(sql_grammar::specs::Text::expression))]
fn push_from(
    alloc: Global,
    out: &mut String,
    dialect: Dialect,
    source: &Option<Source>,
) -> Result<(), NoMemory>
    ensures { (rest : List ℕ) → OnOk result
        (string_bytes out.new ++ rest
        ≡ string_bytes out.old ++ x.from dialect (maybe_source_tree source.now) rest) }
{
    match source {
        None => Ok(()),
        Some(s) => {
            push(out, " FROM ")?;
            push_source(alloc, out, dialect, s)?;
            Ok(())
        }
    }
}

/// Writes what a query selects.
#[cycle(write)]
fn push_selected(
    alloc: Global,
    out: &mut String,
    dialect: Dialect,
    q: &Query,
) -> Result<(), NoMemory>
    ensures { (rest : List ℕ) → OnOk result
        (string_bytes out.new ++ rest
        ≡ string_bytes out.old ++ more.selected_part dialect (query_tree q.now) rest) }
{
    match q {
        Query::Select(_, first, others, ..) => {
            push_expression(alloc, out, dialect, first)?;
            push_list(alloc, out, dialect, ", ", others)?;
            Ok(())
        }
        Query::Combined(..) => Ok(()),
    }
}

/// Writes what a query groups by.
#[cycle(write)]
fn push_group(alloc: Global, out: &mut String, dialect: Dialect, q: &Query) -> Result<(), NoMemory>
    ensures { (rest : List ℕ) → OnOk result
        (string_bytes out.new ++ rest
        ≡ string_bytes out.old ++ more.group_part dialect (query_tree q.now) rest) }
{
    match q {
        Query::Select(_, _, _, _, _, group, ..) => {
            push_list(alloc, out, dialect, " GROUP BY ", group)?;
            Ok(())
        }
        Query::Combined(..) => Ok(()),
    }
}

/// Writes the order of a query that selects.
#[cycle(write)]
fn push_order(alloc: Global, out: &mut String, dialect: Dialect, q: &Query) -> Result<(), NoMemory>
    ensures { (rest : List ℕ) → OnOk result
        (string_bytes out.new ++ rest
        ≡ string_bytes out.old ++ more.order_part dialect (query_tree q.now) rest) }
{
    match q {
        Query::Select(_, _, _, _, _, _, _, order, ..) => {
            push_items(alloc, out, dialect, " ORDER BY ", order)?;
            Ok(())
        }
        Query::Combined(..) => Ok(()),
    }
}

/// Writes a query at the end.
#[cycle(write)]
#[tactic(auto, using(crate::proofs::Lists::lists))]
pub fn push_query(
    alloc: Global,
    out: &mut String,
    dialect: Dialect,
    q: &Query,
) -> Result<(), NoMemory>
    ensures { (rest : List ℕ) → OnOk result
        (string_bytes out.new ++ rest
        ≡ string_bytes out.old ++ x.query dialect (query_tree q.now) rest) }
{
    match q {
        Query::Select(distinct, _, _, source, filter, _, having, _, page, lock) => {
            push(out, "SELECT ")?;
            push_distinct(alloc, out, dialect, distinct)?;
            push_selected(alloc, out, dialect, q)?;
            push_from(alloc, out, dialect, source)?;
            push_condition(alloc, out, dialect, " WHERE ", filter)?;
            push_group(alloc, out, dialect, q)?;
            push_condition(alloc, out, dialect, " HAVING ", having)?;
            push_order(alloc, out, dialect, q)?;
            push_page(out, dialect, *page)?;
            push_lock(out, *lock)?;
            Ok(())
        }
        Query::Combined(a, by, all, b, order, page) => {
            push_side_open(out, dialect)?;
            push_query(alloc, out, dialect, a)?;
            push(out, ")")?;
            push_operator(out, *by)?;
            push_all(out, *all)?;
            push_side_open(out, dialect)?;
            push_query(alloc, out, dialect, b)?;
            push(out, ")")?;
            push_places(out, " ORDER BY ", order)?;
            push_page(out, dialect, *page)?;
            Ok(())
        }
    }
}
