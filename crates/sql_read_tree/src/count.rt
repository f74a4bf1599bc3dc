ghost use Rattle.std.specs.Prelude.{◌≡◌, ◌+◌, length, map};
ghost use Rattle.sql_read_tree.specs.Counts as counts;
ghost use Rattle.sql_grammar.specs.Values as v;
ghost use Rattle.sql_read_tree.specs.View.{sample_of, page_of, expression_tree, item_tree, source_tree, distinctness_tree, query_tree, maybe_tree, maybe_source_tree};

use crate::tree::{Distinctness, Expression, Item, Query, Source};
use crate::words::{Mark, Page, Sample};

#[tactic(auto, unfolding(crate::specs::Counts::capped))]
fn plus(n: u64, more: u64) -> u64
    ensures { result ≡ counts.capped (n + more) }
{
    n.saturating_add(more)
}

fn count_option(n: u64, mark: Option<Mark>) -> u64
    ensures { result ≡ counts.capped (n + length (v.values_option mark)) }
{
    match mark {
        None => plus(n, 0),
        Some(_) => plus(n, 1),
    }
}

#[tactic(auto, using(crate::proofs::Capped::capped_laws))]
fn count_sample(n: u64, sample: Sample) -> u64
    ensures { result ≡ counts.capped (n + length (v.values_sample (sample_of sample))) }
{
    match sample {
        Sample::Whole => plus(n, 0),
        Sample::Sampled(_, _, seed) => {
            let first = plus(n, 1);
            count_option(first, seed)
        }
    }
}

#[tactic(auto, using(crate::proofs::Capped::capped_laws))]
fn count_page(n: u64, page: Page) -> u64
    ensures { result ≡ counts.capped (n + length (v.values_page (page_of page))) }
{
    match page {
        Page::PageBy(limit, offset) => {
            let first = count_option(n, limit);
            count_option(first, offset)
        }
        Page::FetchBy(offset, _) => {
            let first = count_option(n, offset);
            plus(first, 1)
        }
    }
}

#[cycle(count)]
#[tactic(auto, using(crate::proofs::Capped::capped_laws))]
pub fn count_expression(n: u64, e: &Expression) -> u64
    ensures { result ≡ counts.capped (n + length (v.values_expression (expression_tree e.now))) }
{
    match e {
        Expression::Path(_) => plus(n, 0),
        Expression::Placeholder(_) => plus(n, 1),
        Expression::SingleValue(q) => count_query(n, q),
        Expression::Exists(q) => count_query(n, q),
        Expression::Compared(_, a, b) => {
            let first = count_expression(n, a);
            count_expression(first, b)
        }
        Expression::Connected(_, a, b) => {
            let first = count_expression(n, a);
            count_expression(first, b)
        }
        Expression::Not(a) => count_expression(n, a),
        Expression::NullTest(_, a) => count_expression(n, a),
        Expression::CountAll => plus(n, 0),
        Expression::Count(a) => count_expression(n, a),
        Expression::InList(_, a, _, others) => {
            let first = count_expression(n, a);
            let second = plus(first, 1);
            plus(second, others.len() as u64)
        }
        Expression::InQuery(_, a, q) => {
            let first = count_expression(n, a);
            count_query(first, q)
        }
        Expression::Constant(_) => plus(n, 0),
    }
}

#[cycle(count)]
#[tactic(auto, using(crate::proofs::Capped::capped_laws))]
fn count_source(n: u64, s: &Source) -> u64
    ensures { result ≡ counts.capped (n + length (v.values_source (source_tree s.now))) }
{
    match s {
        Source::Table(_, _, sample) => count_sample(n, *sample),
        Source::Alias(_, _) => plus(n, 0),
        Source::Join(_, a, b, on) => {
            let first = count_source(n, a);
            let second = count_source(first, b);
            count_expression(second, on)
        }
    }
}

#[cycle(count)]
#[tactic(auto, using(crate::proofs::Capped::capped_laws))]
fn count_list(n: u64, es: &[Expression]) -> u64
    ensures { result ≡ counts.capped (n + counts.in_list (map expression_tree es.now)) }
{
    let mut total = plus(n, 0);
    for e in es {
        total = count_expression(total, e);
    }
    plus(total, 0)
}

#[cycle(count)]
fn count_item(n: u64, item: &Item) -> u64
    ensures { result ≡ counts.capped (n + length (v.values_expression (item_tree item.now).0)) }
{
    match item {
        Item::Plain(e) => count_expression(n, e),
        Item::Ascending(e) => count_expression(n, e),
        Item::Descending(e) => count_expression(n, e),
    }
}

#[cycle(count)]
#[tactic(auto, using(crate::proofs::Capped::capped_laws))]
fn count_items(n: u64, items: &[Item]) -> u64
    ensures { result ≡ counts.capped (n + counts.in_items (map item_tree items.now)) }
{
    let mut total = plus(n, 0);
    for item in items {
        total = count_item(total, item);
    }
    plus(total, 0)
}

#[cycle(count)]
fn count_maybe(n: u64, e: &Option<Expression>) -> u64
    ensures { result ≡ counts.capped (n + length (v.values_maybe (maybe_tree e.now))) }
{
    match e {
        None => plus(n, 0),
        Some(e) => count_expression(n, e),
    }
}

#[cycle(count)]
fn count_from(n: u64, s: &Option<Source>) -> u64
    ensures { result
        ≡ counts.capped (n + length (v.values_maybe_source (maybe_source_tree s.now))) }
{
    match s {
        None => plus(n, 0),
        Some(s) => count_source(n, s),
    }
}

#[cycle(count)]
fn count_distinct(n: u64, d: &Distinctness) -> u64
    ensures { result ≡ counts.capped (n + length (v.values_distinct (distinctness_tree d.now))) }
{
    match d {
        Distinctness::Every => plus(n, 0),
        Distinctness::Distinct => plus(n, 0),
        Distinctness::DistinctOn(e, es) => {
            let first = count_expression(n, e);
            count_list(first, es)
        }
    }
}

#[cycle(count)]
fn count_selected(n: u64, q: &Query) -> u64
    ensures { result ≡ counts.capped (n + length (counts.selected (query_tree q.now))) }
{
    match q {
        Query::Select(_, e, es, ..) => {
            let first = count_expression(n, e);
            count_list(first, es)
        }
        Query::Combined(..) => plus(n, 0),
    }
}

#[cycle(count)]
fn count_group(n: u64, q: &Query) -> u64
    ensures { result ≡ counts.capped (n + length (counts.grouped (query_tree q.now))) }
{
    match q {
        Query::Select(_, _, _, _, _, g, ..) => count_list(n, g),
        Query::Combined(..) => plus(n, 0),
    }
}

#[cycle(count)]
fn count_order(n: u64, q: &Query) -> u64
    ensures { result ≡ counts.capped (n + length (counts.ordered (query_tree q.now))) }
{
    match q {
        Query::Select(_, _, _, _, _, _, _, o, ..) => count_items(n, o),
        Query::Combined(..) => plus(n, 0),
    }
}

#[cycle(count)]
pub fn count_query(n: u64, q: &Query) -> u64
    ensures { result ≡ counts.capped (n + length (v.values_query (query_tree q.now))) }
{
    match q {
        Query::Select(u, _, _, f, w, _, h, _, p, _) => {
            let distinct = count_distinct(n, u);
            let selected = count_selected(distinct, q);
            let from = count_from(selected, f);
            let filter = count_maybe(from, w);
            let group = count_group(filter, q);
            let having = count_maybe(group, h);
            let order = count_order(having, q);
            count_page(order, *p)
        }
        Query::Combined(a, _, _, b, _, p) => {
            let first = count_query(n, a);
            let second = count_query(first, b);
            count_page(second, *p)
        }
    }
}
