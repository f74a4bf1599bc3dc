ghost use Rattle.std.specs.Prelude.{◌≡◌, ◌<◌, ◌≤◌, [], None, IfSome};
ghost use Rattle.std.specs.Option.{option_map};
ghost use Rattle.sql_grammar.proofs.Machine as m;
ghost use Rattle.sql_read_tree.specs.View.{expression_tree, item_tree, query_tree};
ghost use Rattle.sql_read_tree.specs.declared.tree.Expression.{size-Expression};
ghost use Rattle.sql_read_tree.specs.declared.tree.Query.{size-Query};
ghost use Rattle.sql_read_tree.specs.declared.tree.Source.{size-Source};

use crate::names::Names;
use crate::words::{Direction, JoinKind, Lock, Logic, Mark, Page, Sample, SetOperator};
use sql_read_lexer::Comparison;
use std::alloc::Global;
use std::mem;

#[cycle(tree)]
pub enum Expression {
    /// `"users"."id"`.
    Path(Names),
    /// `$1`.
    Placeholder(Mark),
    /// `(SELECT ..)`.
    SingleValue(Box<Query>),
    /// `EXISTS (SELECT ..)`.
    Exists(Box<Query>),
    /// `(a = b)`.
    Compared(Comparison, Box<Expression>, Box<Expression>),
    /// `(a AND b)`.
    Connected(Logic, Box<Expression>, Box<Expression>),
    /// `NOT (a)`.
    Not(Box<Expression>),
    /// `(a IS NULL)`, with NOT where the flag is true.
    NullTest(bool, Box<Expression>),
    /// `COUNT(*)`.
    CountAll,
    /// `COUNT(a)`.
    Count(Box<Expression>),
    /// `(a IN (?, ?))`, with NOT where the flag is true: the first place, and the others.
    InList(bool, Box<Expression>, Mark, Vec<Mark>),
    /// `(a IN (SELECT ..))`, with NOT where the flag is true.
    InQuery(bool, Box<Expression>, Box<Query>),
    /// `(1=1)` where the flag is true, else `(1=0)`.
    Constant(bool),
}

impl Drop for Expression {
    // (not inlined: see `drop_expression`)
    #[inline(never)]
    #[cycle(tree)]
    fn drop(self) {
        match self {
            Expression::Path(names) => drop_names(names),
            Expression::Placeholder(_) | Expression::CountAll | Expression::Constant(_) => {}
            Expression::SingleValue(q) | Expression::Exists(q) => drop_query(q),
            Expression::Compared(_, a, b) => {
                drop_expression(a);
                drop_expression(b);
            }
            Expression::Connected(_, a, b) => {
                drop_expression(a);
                drop_expression(b);
            }
            Expression::Not(a) | Expression::NullTest(_, a) | Expression::Count(a) => {
                drop_expression(a)
            }
            Expression::InList(_, a, _, others) => {
                drop_expression(a);
                drop_marks(others);
            }
            Expression::InQuery(_, a, q) => {
                drop_expression(a);
                drop_query(q);
            }
        }
    }
}

// Drops go down a tree level by level. What is not inlined keeps its values off the stack of the levels below.

#[inline(never)]
fn drop_names(names: Names) {
    drop(names);
}

#[inline(never)]
fn drop_marks(marks: Vec<Mark>) {
    drop(marks);
}

#[inline(never)]
#[cycle(tree)]
fn drop_expression(e: Box<Expression>) {
    drop(e);
}

/// An element of an order.
#[cycle(tree)]
pub enum Item {
    Plain(Expression),
    /// `a ASC`.
    Ascending(Expression),
    /// `a DESC`.
    Descending(Expression),
}

impl Drop for Item {
    // (not inlined: see `drop_expression`)
    #[inline(never)]
    #[cycle(tree)]
    fn drop(self) {
        match self {
            Item::Plain(e) | Item::Ascending(e) | Item::Descending(e) => drop(e),
        }
    }
}

#[cycle(tree)]
pub enum Source {
    /// The path of a table, whether ONLY stands before it, and its sample.
    Table(Names, bool, Sample),
    /// The path of a table, and the alias.
    Alias(Names, String),
    /// The two sides and the condition.
    Join(JoinKind, Box<Source>, Box<Source>, Box<Expression>),
}

impl Drop for Source {
    // (not inlined: see `drop_expression`)
    #[inline(never)]
    #[cycle(tree)]
    fn drop(self) {
        match self {
            Source::Table(names, _, _) => drop_names(names),
            Source::Alias(names, alias) => {
                drop_names(names);
                drop_alias(alias);
            }
            Source::Join(_, a, b, on) => {
                drop_source(a);
                drop_source(b);
                drop_expression(on);
            }
        }
    }
}

#[inline(never)]
fn drop_alias(alias: String) {
    drop(alias);
}

#[inline(never)]
#[cycle(tree)]
fn drop_source(s: Box<Source>) {
    drop(s);
}

#[cycle(tree)]
#[derive(Drop)]
pub enum Distinctness {
    Every,
    Distinct,
    /// `DISTINCT ON (a, b)`: the first expression, and the others.
    DistinctOn(Box<Expression>, Vec<Expression>),
}

/// An element of the order of a combination: a column by its place, as its digits.
#[derive(Debug, Drop)]
pub enum Place {
    At(String, Direction),
}

#[cycle(tree)]
pub enum Query {
    /// The distinctness, the first selected expression and the others, FROM, WHERE, GROUP BY, HAVING, ORDER BY, the page
    /// and the lock. An empty list stands for a clause that isn't there.
    Select(
        Distinctness,
        Box<Expression>,
        Vec<Expression>,
        Option<Source>,
        Option<Expression>,
        Vec<Expression>,
        Option<Expression>,
        Vec<Item>,
        Page,
        Lock,
    ),
    /// The two sides, with ALL where the flag is true, ORDER BY, and the page.
    Combined(Box<Query>, SetOperator, bool, Box<Query>, Vec<Place>, Page),
}

impl Drop for Query {
    // (not inlined: see `drop_expression`)
    #[inline(never)]
    fn drop(self) {
        let (first, left, right) = self.into_last();
        if let Some(first) = first {
            drop_expression(first);
        }
        if let Some(left) = left {
            drop_query(left);
        }
        if let Some(right) = right {
            drop_query(right);
        }
    }
}

// A query is large, so its clauses are dropped where they lie in their box, and only then is what is left moved out.

#[inline(never)]
#[cycle(tree)]
fn drop_query(mut q: Box<Query>) {
    clear(&mut q);
    let (first, left, right) = last_of(q);
    if let Some(first) = first {
        drop_expression(first);
    }
    if let Some(left) = left {
        drop_query(left);
    }
    if let Some(right) = right {
        drop_query(right);
    }
}

/// Drops all of a select but the first expression that it selects.
#[inline(never)]
#[cycle(tree)]
fn clear(q: &mut Query)
    ensures { size-Query q.new ≤ size-Query q.old }
{
    match q {
        Query::Select(on, _, others, from, filter, group, having, order, _, _) => {
            drop_on(on);
            drop_each(others);
            drop_from(from);
            drop_maybe(filter);
            drop_each(group);
            drop_maybe(having);
            drop_items(order);
        }
        Query::Combined(..) => {}
    }
}

#[inline(never)]
#[cycle(tree)]
fn drop_on(on: &mut Distinctness)
    ensures { on.new ≡ Distinctness.Every }
{
    match mem::replace(on, Distinctness::Every) {
        Distinctness::Every | Distinctness::Distinct => {}
        Distinctness::DistinctOn(first, mut others) => {
            drop_expression(first);
            drop_each(&mut others);
        }
    }
}

#[inline(never)]
#[cycle(tree)]
fn drop_from(from: &mut Option<Source>)
    ensures { from.new ≡ None }
{
    match from.take() {
        None => {}
        Some(s) => drop(s),
    }
}

#[inline(never)]
#[cycle(tree)]
fn drop_maybe(e: &mut Option<Expression>)
    ensures { e.new ≡ None }
{
    match e.take() {
        None => {}
        Some(e) => drop(e),
    }
}

#[inline(never)]
#[cycle(tree)]
fn drop_items(items: &mut Vec<Item>)
    ensures { items.new.items ≡ [] }
{
    while let Some(item) = items.pop() {
        drop(item);
    }
}

#[inline(never)]
#[cycle(tree)]
fn drop_each(es: &mut Vec<Expression>)
    ensures { es.new.items ≡ [] }
{
    while let Some(e) = es.pop() {
        drop(e);
    }
}

impl Query {
    /// The first expression that is selected, or both sides; all else is dropped.
    #[inline(never)]
    #[cycle(tree)]
    fn into_last(
        self,
    ) -> (
        Option<Box<Expression>>,
        Option<Box<Query>>,
        Option<Box<Query>>,
    )
        ensures first { IfSome result.0 (λ e. size-Expression e.value < size-Query self) }
        ensures left { IfSome result.1 (λ q. size-Query q.value < size-Query self) }
        ensures right { IfSome result.2 (λ q. size-Query q.value < size-Query self) }
    {
        match self {
            Query::Select(_, first, _, _, _, _, _, _, _, _) => (Some(first), None, None),
            Query::Combined(left, _, _, right, _, _) => (None, Some(left), Some(right)),
        }
    }
}

#[inline(never)]
#[cycle(tree)]
fn last_of(
    q: Box<Query>,
) -> (
    Option<Box<Expression>>,
    Option<Box<Query>>,
    Option<Box<Query>>,
)
    ensures first { IfSome result.0 (λ e. size-Expression e.value < size-Query q.value) }
    ensures left { IfSome result.1 (λ l. size-Query l.value < size-Query q.value) }
    ensures right { IfSome result.2 (λ r. size-Query r.value < size-Query q.value) }
{
    Box::into_inner(q).into_last()
}

fn no_names(alloc: Global, e: Expression) -> Names
    ensures { result ≡ record { first = []; more = [] } }
{
    drop(e);
    Names::new(alloc, String::new(alloc))
}

fn no_query(e: Expression) -> Option<Box<Query>>
    ensures { result ≡ None }
{
    drop(e);
    None
}

impl Expression {
    /// The names of a path, where the expression is one.
    #[tactic(auto, unfolding(sql_grammar::proofs::Machine::name_in, sql_grammar::proofs::Machine::names_in))]
    pub(crate) fn into_names(self, alloc: Global) -> Names
        ensures { result
            ≡ record { first = m.name_in (expression_tree self); more = m.names_in (expression_tree self) } }
    {
        match self {
            Expression::Path(names) => names,
            Expression::Placeholder(mark) => no_names(alloc, Expression::Placeholder(mark)),
            Expression::SingleValue(q) => no_names(alloc, Expression::SingleValue(q)),
            Expression::Exists(q) => no_names(alloc, Expression::Exists(q)),
            Expression::Compared(by, a, b) => no_names(alloc, Expression::Compared(by, a, b)),
            Expression::Connected(by, a, b) => no_names(alloc, Expression::Connected(by, a, b)),
            Expression::Not(a) => no_names(alloc, Expression::Not(a)),
            Expression::NullTest(negated, a) => no_names(alloc, Expression::NullTest(negated, a)),
            Expression::CountAll => no_names(alloc, Expression::CountAll),
            Expression::Count(a) => no_names(alloc, Expression::Count(a)),
            Expression::InList(negated, a, m, ms) => no_names(
                alloc,
                Expression::InList(negated, a, m, ms),
            ),
            Expression::InQuery(negated, a, q) => no_names(
                alloc,
                Expression::InQuery(negated, a, q),
            ),
            Expression::Constant(b) => no_names(alloc, Expression::Constant(b)),
        }
    }

    /// The query, where the expression is the single value of one.
    #[tactic(auto, unfolding(sql_grammar::proofs::Machine::query_in))]
    pub(crate) fn into_query(self) -> Option<Box<Query>>
        ensures { option_map (λ q. query_tree q.value) result ≡ m.query_in (expression_tree self) }
    {
        match self {
            Expression::SingleValue(q) => Some(q),
            Expression::Path(names) => no_query(Expression::Path(names)),
            Expression::Placeholder(mark) => no_query(Expression::Placeholder(mark)),
            Expression::Exists(q) => no_query(Expression::Exists(q)),
            Expression::Compared(by, a, b) => no_query(Expression::Compared(by, a, b)),
            Expression::Connected(by, a, b) => no_query(Expression::Connected(by, a, b)),
            Expression::Not(a) => no_query(Expression::Not(a)),
            Expression::NullTest(negated, a) => no_query(Expression::NullTest(negated, a)),
            Expression::CountAll => no_query(Expression::CountAll),
            Expression::Count(a) => no_query(Expression::Count(a)),
            Expression::InList(negated, a, m, ms) => no_query(Expression::InList(
                negated, a, m, ms,
            )),
            Expression::InQuery(negated, a, q) => no_query(Expression::InQuery(negated, a, q)),
            Expression::Constant(b) => no_query(Expression::Constant(b)),
        }
    }
}

impl Item {
    /// The expression.
    pub(crate) fn into_expression(self) -> Expression
        ensures { expression_tree result ≡ (item_tree self).0 }
    {
        match self {
            Item::Plain(e) | Item::Ascending(e) | Item::Descending(e) => e,
        }
    }
}
