ghost use Rattle.std.specs.Prelude.{◌≡◌, ◌↔◌, IsTrue, Some, None, nat_lt, if◌then◌else◌, map};
ghost use Rattle.sql_grammar.specs.Fits.{OnPg, NotPg, OnBracket, NotBracket, HasLocks, FitsMark, FitsMarks, FitsList, FitsMaybeMark, IsColumnPath, IsTablePath, FitsOnly, FitsSample, FitsPage, FitsOuterPage, FitsMode, FitsLock, FitsOperator, IsPlace, FitsMaybePlaces, FitsExpression, FitsExpressions, FitsSource, FitsMaybeExpression, FitsMaybeExpressions, FitsMaybeItems, FitsMaybeSource, FitsDistinctness, FitsQuery};
ghost use Rattle.sql_grammar.specs.Spelling.{value_of};
ghost use Rattle.sql_read_tree.specs.View.{sample_of, page_of, lock_of, mode_of, operator_of, place_of, expression_tree, item_tree, source_tree, distinctness_tree, query_tree, maybe_tree, maybe_source_tree};
ghost use Rattle.sql_read_writer.specs.All as all;

use itoa::Buffer;
use sql_dialect::Dialect;
use sql_read_tree::{
    Distinctness, Expression, Item, Lock, LockMode, Mark, Names, Page, Place, Query, Sample,
    SetOperator, Source,
};

fn on_pg(dialect: Dialect) -> bool
    ensures { IsTrue result ↔ OnPg dialect }
{
    match dialect {
        Dialect::Pg => true,
        Dialect::Mysql | Dialect::Sqlite | Dialect::Bracket => false,
    }
}

fn on_bracket(dialect: Dialect) -> bool
    ensures { IsTrue result ↔ OnBracket dialect }
{
    match dialect {
        Dialect::Bracket => true,
        Dialect::Pg | Dialect::Mysql | Dialect::Sqlite => false,
    }
}

fn not_pg(dialect: Dialect) -> bool
    ensures { IsTrue result ↔ NotPg dialect }
{
    match dialect {
        Dialect::Pg => false,
        Dialect::Mysql | Dialect::Sqlite | Dialect::Bracket => true,
    }
}

fn not_bracket(dialect: Dialect) -> bool
    ensures { IsTrue result ↔ NotBracket dialect }
{
    match dialect {
        Dialect::Bracket => false,
        Dialect::Pg | Dialect::Mysql | Dialect::Sqlite => true,
    }
}

fn has_locks(dialect: Dialect) -> bool
    ensures { IsTrue result ↔ HasLocks dialect }
{
    match dialect {
        Dialect::Pg | Dialect::Mysql => true,
        Dialect::Sqlite | Dialect::Bracket => false,
    }
}

fn fits_mark(dialect: Dialect, mark: Mark) -> bool
    ensures { IsTrue result ↔ FitsMark dialect mark }
{
    match dialect {
        Dialect::Pg | Dialect::Bracket => match mark {
            None => false,
            Some(number) => 0 < number,
        },
        Dialect::Mysql | Dialect::Sqlite => match mark {
            None => true,
            Some(_) => false,
        },
    }
}

fn fits_marks(dialect: Dialect, marks: &[Mark]) -> bool
    ensures { IsTrue result ↔ FitsMarks dialect marks.now }
{
    for mark in marks {
        if !fits_mark(dialect, *mark) {
            return false;
        }
    }
    true
}

fn fits_list(dialect: Dialect, first: Mark, others: &[Mark]) -> bool
    ensures { IsTrue result ↔ FitsList dialect first others.now }
{
    match dialect {
        Dialect::Pg => fits_mark(dialect, first) && others.is_empty(),
        Dialect::Mysql | Dialect::Sqlite | Dialect::Bracket => fits_mark(dialect, first)
            && fits_marks(dialect, others),
    }
}

fn fits_maybe_mark(dialect: Dialect, mark: Option<Mark>) -> bool
    ensures { IsTrue result ↔ FitsMaybeMark dialect mark }
{
    match mark {
        None => true,
        Some(mark) => fits_mark(dialect, mark),
    }
}

fn fits_sample(dialect: Dialect, sample: Sample) -> bool
    ensures { IsTrue result ↔ FitsSample dialect (sample_of sample) }
{
    match sample {
        Sample::Whole => true,
        Sample::Sampled(_, portion, seed) => on_pg(dialect)
            && fits_mark(dialect, portion)
            && fits_maybe_mark(dialect, seed),
    }
}

fn fits_page(dialect: Dialect, page: Page) -> bool
    ensures { IsTrue result ↔ FitsPage dialect (page_of page) }
{
    match page {
        Page::PageBy(None, offset) => fits_maybe_mark(dialect, offset),
        Page::PageBy(Some(limit), offset) => not_bracket(dialect)
            && fits_mark(dialect, limit)
            && fits_maybe_mark(dialect, offset),
        Page::FetchBy(offset, limit) => on_bracket(dialect)
            && fits_maybe_mark(dialect, offset)
            && fits_mark(dialect, limit),
    }
}

fn fits_outer_page(dialect: Dialect, page: Page) -> bool
    ensures { IsTrue result ↔ FitsOuterPage dialect (page_of page) }
{
    match page {
        Page::PageBy(None, None) => true,
        Page::PageBy(None, Some(offset)) => match dialect {
            Dialect::Mysql => false,
            Dialect::Pg | Dialect::Sqlite | Dialect::Bracket => fits_mark(dialect, offset),
        },
        Page::PageBy(Some(limit), offset) => not_bracket(dialect)
            && fits_mark(dialect, limit)
            && fits_maybe_mark(dialect, offset),
        Page::FetchBy(offset, limit) => on_bracket(dialect)
            && fits_maybe_mark(dialect, offset)
            && fits_mark(dialect, limit),
    }
}

fn fits_lock(dialect: Dialect, lock: Lock) -> bool
    ensures { IsTrue result ↔ FitsLock dialect (lock_of lock) }
{
    match lock {
        Lock::Unlocked => true,
        Lock::Locks(LockMode::ForUpdate, _) => has_locks(dialect),
        Lock::Locks(LockMode::ForShare, _) => has_locks(dialect),
        Lock::Locks(LockMode::ForNoKeyUpdate, _) => on_pg(dialect),
        Lock::Locks(LockMode::ForKeyShare, _) => on_pg(dialect),
    }
}

fn fits_operator(dialect: Dialect, by: SetOperator, all: bool) -> bool
    ensures { IsTrue result ↔ FitsOperator dialect (operator_of by) all }
{
    match by {
        SetOperator::Union => true,
        SetOperator::Intersect | SetOperator::Except => match dialect {
            Dialect::Pg | Dialect::Mysql => true,
            Dialect::Sqlite | Dialect::Bracket => !all,
        },
    }
}

fn is_column_path(names: &Names) -> bool
    ensures { IsTrue result ↔ IsColumnPath names.now.more }
{
    let count = names.count();
    1 < count && count < 4
}

fn is_table_path(names: &Names) -> bool
    ensures { IsTrue result ↔ IsTablePath names.now.more }
{
    names.count() < 3
}

#[cycle(fits)]
#[tactic(auto, unfolding(sql_grammar::specs::Fits::FitsExpression))]
pub fn fits_expression(dialect: Dialect, e: &Expression) -> bool
    ensures { IsTrue result ↔ FitsExpression dialect (expression_tree e.now) }
{
    match e {
        Expression::Path(names) => is_column_path(names),
        Expression::Placeholder(mark) => fits_mark(dialect, *mark),
        Expression::SingleValue(q) => fits_query(dialect, q),
        Expression::Exists(q) => fits_query(dialect, q),
        Expression::Compared(_, a, b) => fits_expression(dialect, a) && fits_expression(dialect, b),
        Expression::Connected(_, a, b) => fits_expression(dialect, a)
            && fits_expression(dialect, b),
        Expression::Not(a) => fits_expression(dialect, a),
        Expression::NullTest(_, a) => fits_expression(dialect, a),
        Expression::CountAll => true,
        Expression::Count(a) => fits_expression(dialect, a),
        Expression::InList(_, a, first, others) => fits_expression(dialect, a)
            && fits_list(dialect, *first, others),
        Expression::InQuery(_, a, q) => fits_expression(dialect, a) && fits_query(dialect, q),
        Expression::Constant(_) => not_pg(dialect),
    }
}

#[cycle(fits)]
fn fits_all(dialect: Dialect, es: &[Expression]) -> bool
    ensures { IsTrue result ↔ all.Expressions dialect (map expression_tree es.now) }
{
    for e in es {
        if !fits_expression(dialect, e) {
            return false;
        }
    }
    true
}

#[cycle(fits)]
fn fits_items(dialect: Dialect, items: &[Item]) -> bool
    ensures { IsTrue result ↔ all.Items dialect (map item_tree items.now) }
{
    for item in items {
        if !fits_item(dialect, item) {
            return false;
        }
    }
    true
}

#[cycle(fits)]
fn fits_item(dialect: Dialect, item: &Item) -> bool
    ensures { IsTrue result ↔ FitsExpression dialect (item_tree item.now).0 }
{
    match item {
        Item::Plain(e) => fits_expression(dialect, e),
        Item::Ascending(e) => fits_expression(dialect, e),
        Item::Descending(e) => fits_expression(dialect, e),
    }
}

#[cycle(fits)]
#[tactic(auto, unfolding(sql_grammar::specs::Fits::FitsExpression))]
fn fits_source(dialect: Dialect, s: &Source) -> bool
    ensures { IsTrue result ↔ FitsSource dialect (source_tree s.now) }
{
    match s {
        Source::Table(names, only, sample) => is_table_path(names)
            && (!*only || on_pg(dialect))
            && fits_sample(dialect, *sample),
        Source::Alias(names, _) => is_table_path(names),
        Source::Join(_, a, b, on) => fits_source(dialect, a)
            && fits_source(dialect, b)
            && fits_expression(dialect, on),
    }
}

#[cycle(fits)]
#[tactic(auto, unfolding(sql_grammar::specs::Fits::FitsExpression))]
fn fits_maybe(dialect: Dialect, e: &Option<Expression>) -> bool
    ensures { IsTrue result ↔ FitsMaybeExpression dialect (maybe_tree e.now) }
{
    match e {
        None => true,
        Some(e) => fits_expression(dialect, e),
    }
}

#[cycle(fits)]
#[tactic(auto, unfolding(sql_grammar::specs::Fits::FitsExpression))]
fn fits_from(dialect: Dialect, s: &Option<Source>) -> bool
    ensures { IsTrue result ↔ FitsMaybeSource dialect (maybe_source_tree s.now) }
{
    match s {
        None => true,
        Some(s) => fits_source(dialect, s),
    }
}

#[cycle(fits)]
fn fits_distinct(dialect: Dialect, d: &Distinctness) -> bool
    ensures { IsTrue result ↔ FitsDistinctness dialect (distinctness_tree d.now) }
{
    match d {
        Distinctness::Every => true,
        Distinctness::Distinct => true,
        Distinctness::DistinctOn(e, es) => {
            let first = fits_expression(dialect, e);
            let others = fits_all(dialect, es);
            three(on_pg(dialect), first, others)
        }
    }
}

fn two(a: bool, b: bool) -> bool
    ensures { IsTrue result ↔ (IsTrue a × IsTrue b) }
{
    a && b
}

fn three(a: bool, b: bool, c: bool) -> bool
    ensures { IsTrue result ↔ (IsTrue a × IsTrue b × IsTrue c) }
{
    a && b && c
}

fn five(a: bool, b: bool, c: bool, d: bool, e: bool) -> bool
    ensures { IsTrue result ↔ (IsTrue a × IsTrue b × IsTrue c × IsTrue d × IsTrue e) }
{
    a && b && c && d && e
}

/// Whether what a query selects fits.
#[cycle(fits)]
fn fits_selected(dialect: Dialect, q: &Query) -> bool
    ensures { IsTrue result ↔ all.Selected dialect (query_tree q.now) }
{
    match q {
        Query::Select(_, e, es, ..) => {
            let first = fits_expression(dialect, e);
            let others = fits_all(dialect, es);
            two(first, others)
        }
        Query::Combined(..) => true,
    }
}

/// Whether what a query groups by fits.
#[cycle(fits)]
fn fits_group(dialect: Dialect, q: &Query) -> bool
    ensures { IsTrue result ↔ all.Grouped dialect (query_tree q.now) }
{
    match q {
        Query::Select(_, _, _, _, _, g, ..) => fits_all(dialect, g),
        Query::Combined(..) => true,
    }
}

/// Whether the order of a query that selects fits.
#[cycle(fits)]
fn fits_order(dialect: Dialect, q: &Query) -> bool
    ensures { IsTrue result ↔ all.InOrder dialect (query_tree q.now) }
{
    match q {
        Query::Select(_, _, _, _, _, _, _, o, ..) => fits_items(dialect, o),
        Query::Combined(..) => true,
    }
}

#[cycle(fits)]
pub fn fits_query(dialect: Dialect, q: &Query) -> bool
    ensures { IsTrue result ↔ FitsQuery dialect (query_tree q.now) }
{
    match q {
        Query::Select(u, _, _, f, w, _, h, _, p, l) => {
            let distinct = fits_distinct(dialect, u);
            let selected = fits_selected(dialect, q);
            let from = fits_from(dialect, f);
            let filter = fits_maybe(dialect, w);
            let group = fits_group(dialect, q);
            let having = fits_maybe(dialect, h);
            let order = fits_order(dialect, q);
            let page = fits_page(dialect, *p);
            let lock = fits_lock(dialect, *l);
            let tail = five(group, having, order, page, lock);
            five(distinct, selected, from, filter, tail)
        }
        Query::Combined(a, by, all, b, o, p) => {
            let left = fits_query(dialect, a);
            let operator = fits_operator(dialect, *by, *all);
            let right = fits_query(dialect, b);
            let order = fits_places(o);
            let page = fits_outer_page(dialect, *p);
            five(left, operator, right, order, page)
        }
    }
}

fn fits_places(places: &[Place]) -> bool
    ensures { IsTrue result ↔ all.Places (map place_of places.now) }
{
    for place in places {
        if !fits_place(place) {
            return false;
        }
    }
    true
}

fn fits_place(place: &Place) -> bool
    ensures { IsTrue result ↔ IsPlace (place_of place.now).0 }
{
    match place {
        Place::At(digits, _) => is_place(digits.as_str()),
    }
}

/// Whether the digits are what is written for a number below 2 ^ 32: this is tried.
fn is_place(digits: &str) -> bool
    ensures { IsTrue result ↔ IsPlace digits.now }
{
    match number(digits.as_bytes()) {
        None => false,
        Some(value) => {
            let mut buffer = Buffer::new();
            buffer.format(value) == digits
        }
    }
}

/// The number that the digits write, where it is below 2 ^ 32.
#[tactic(auto, unfolding(sql_grammar::specs::Spelling::value_after))]
fn number(digits: &[u8]) -> Option<u32>
    ensures { result
        ≡ (if nat_lt (value_of digits.now) 4294967296 then Some (value_of digits.now) else None) }
{
    let mut value: u64 = 0;
    for digit in digits {
        value = 10 * value + (*digit).saturating_sub(48) as u64;
        if value > 4294967295 {
            return None;
        }
    }
    Some(value as u32)
}
