ghost use Rattle.std.specs.Prelude.{◌≡◌, ℕ, ◌+◌, length, map, IfOk};
ghost use Rattle.sql_read_tree.specs.Counts.{capped};
ghost use Rattle.sql_read_tree.specs.View.{expression_tree, item_tree, source_tree, distinctness_tree, query_tree, maybe_tree, maybe_source_tree};
ghost use Rattle.sql_audit_resolution.specs.Leaves as l;
ghost use Rattle.sql_audit_resolution.specs.inside.Lists as lists;

use sql_read_tree::{Distinctness, Expression, Item, Query, Source};
use sql_schema::NoMemory;
use std::alloc::AllocError;

#[tactic(auto, unfolding(sql_read_tree::specs::Counts::capped))]
fn plus(n: usize, more: usize) -> usize
    ensures { result ≡ capped (n + more) }
{
    n.saturating_add(more)
}

/// How many leaves there are up to the end of an expression, where there are n before it; in this and the functions below the greatest
/// number stands for all from it on.
#[cycle(count)]
#[tactic(auto, using(sql_read_tree::proofs::Capped::capped_laws))]
fn count_expression(n: usize, e: &Expression) -> usize
    ensures { result ≡ capped (n + length (l.tables_expression (expression_tree e.now))) }
{
    match e {
        Expression::Path(_) => plus(n, 0),
        Expression::Placeholder(_) => plus(n, 0),
        Expression::SingleValue(q) => count_query(n, q),
        Expression::Exists(q) => count_query(n, q),
        Expression::Compared(_, a, b) => {
            let first = count_expression(n, a);
            count_expression(first, b)
        }
        Expression::Connected(_, a, b) => {
            let first = count_expression(n, a);
            count_expression(first, b)
        }
        Expression::Not(a) => count_expression(n, a),
        Expression::NullTest(_, a) => count_expression(n, a),
        Expression::CountAll => plus(n, 0),
        Expression::Count(a) => count_expression(n, a),
        Expression::InList(_, a, _, _) => count_expression(n, a),
        Expression::InQuery(_, a, q) => {
            let first = count_expression(n, a);
            count_query(first, q)
        }
        Expression::Constant(_) => plus(n, 0),
    }
}

#[cycle(count)]
#[tactic(auto, using(sql_read_tree::proofs::Capped::capped_laws))]
fn count_source(n: usize, s: &Source) -> usize
    ensures { result ≡ capped (n + length (l.tables_source (source_tree s.now))) }
{
    match s {
        Source::Table(_, _, _) => plus(n, 1),
        Source::Alias(_, _) => plus(n, 1),
        Source::Join(_, a, b, on) => {
            let first = count_source(n, a);
            let second = count_source(first, b);
            count_expression(second, on)
        }
    }
}

#[cycle(count)]
#[tactic(auto, using(sql_read_tree::proofs::Capped::capped_laws))]
fn count_list(n: usize, es: &[Expression]) -> usize
    ensures { result ≡ capped (n + lists.in_list (map expression_tree es.now)) }
{
    let mut total = plus(n, 0);
    for e in es {
        total = count_expression(total, e);
    }
    plus(total, 0)
}

#[cycle(count)]
fn count_item(n: usize, item: &Item) -> usize
    ensures { result ≡ capped (n + length (l.tables_expression (item_tree item.now).0)) }
{
    match item {
        Item::Plain(e) => count_expression(n, e),
        Item::Ascending(e) => count_expression(n, e),
        Item::Descending(e) => count_expression(n, e),
    }
}

#[cycle(count)]
#[tactic(auto, using(sql_read_tree::proofs::Capped::capped_laws))]
fn count_items(n: usize, items: &[Item]) -> usize
    ensures { result ≡ capped (n + lists.in_items (map item_tree items.now)) }
{
    let mut total = plus(n, 0);
    for item in items {
        total = count_item(total, item);
    }
    plus(total, 0)
}

#[cycle(count)]
fn count_maybe(n: usize, e: &Option<Expression>) -> usize
    ensures { result ≡ capped (n + length (l.tables_maybe (maybe_tree e.now))) }
{
    match e {
        None => plus(n, 0),
        Some(e) => count_expression(n, e),
    }
}

#[cycle(count)]
fn count_from(n: usize, s: &Option<Source>) -> usize
    ensures { result ≡ capped (n + length (l.tables_from (maybe_source_tree s.now))) }
{
    match s {
        None => plus(n, 0),
        Some(s) => count_source(n, s),
    }
}

#[cycle(count)]
fn count_distinct(n: usize, d: &Distinctness) -> usize
    ensures { result ≡ capped (n + length (l.tables_distinct (distinctness_tree d.now))) }
{
    match d {
        Distinctness::Every => plus(n, 0),
        Distinctness::Distinct => plus(n, 0),
        Distinctness::DistinctOn(e, es) => {
            let first = count_expression(n, e);
            count_list(first, es)
        }
    }
}

#[cycle(count)]
fn count_selected(n: usize, q: &Query) -> usize
    ensures { result ≡ capped (n + lists.selected (query_tree q.now)) }
{
    match q {
        Query::Select(_, e, es, ..) => {
            let first = count_expression(n, e);
            count_list(first, es)
        }
        Query::Combined(..) => plus(n, 0),
    }
}

#[cycle(count)]
fn count_group(n: usize, q: &Query) -> usize
    ensures { result ≡ capped (n + lists.grouped (query_tree q.now)) }
{
    match q {
        Query::Select(_, _, _, _, _, g, ..) => count_list(n, g),
        Query::Combined(..) => plus(n, 0),
    }
}

#[cycle(count)]
fn count_order(n: usize, q: &Query) -> usize
    ensures { result ≡ capped (n + lists.ordered (query_tree q.now)) }
{
    match q {
        Query::Select(_, _, _, _, _, _, _, o, ..) => count_items(n, o),
        Query::Combined(..) => plus(n, 0),
    }
}

#[cycle(count)]
fn count_query(n: usize, q: &Query) -> usize
    ensures { result ≡ capped (n + length (l.tables_query (query_tree q.now))) }
{
    match q {
        Query::Select(u, _, _, f, w, _, h, _, _, _) => {
            let distinct = count_distinct(n, u);
            let selected = count_selected(distinct, q);
            let from = count_from(selected, f);
            let filter = count_maybe(from, w);
            let group = count_group(filter, q);
            let having = count_maybe(group, h);
            count_order(having, q)
        }
        Query::Combined(a, _, _, b, _, _) => {
            let first = count_query(n, a);
            count_query(first, b)
        }
    }
}

/// The count, if it is below the greatest number: memory holds no more leaves.
#[tactic(auto, using(crate::proofs::Counted::below_cap))]
fn exact(count: usize) -> Result<usize, NoMemory>
    ensures { (m : ℕ) → count ≡ capped m → IfOk result (λ n. n ≡ m) }
{
    if count < usize::MAX {
        Ok(count)
    } else {
        Err(AllocError)
    }
}

/// The number of the leaf that follows a source whose first leaf has number n.
pub(crate) fn source_end(n: usize, s: &Source) -> Result<usize, NoMemory>
    ensures { IfOk result (λ m. m ≡ n + length (l.tables_source (source_tree s.now))) }
{
    exact(count_source(n, s))
}

#[tactic(auto, using(sql_read_tree::proofs::Capped::capped_laws))]
fn start_of(n: usize, d: &Distinctness, q: &Query) -> usize
    ensures { result
        ≡ capped (n + lists.before_from (distinctness_tree d.now) (query_tree q.now)) }
{
    let distinct = count_distinct(n, d);
    count_selected(distinct, q)
}

/// The number of the first leaf of a select statement's FROM, where the first leaf that stands in the statement has number n.
pub(crate) fn source_start(n: usize, d: &Distinctness, q: &Query) -> Result<usize, NoMemory>
    ensures { IfOk result
        (λ m. m ≡ n + lists.before_from (distinctness_tree d.now) (query_tree q.now)) }
{
    exact(start_of(n, d, q))
}
