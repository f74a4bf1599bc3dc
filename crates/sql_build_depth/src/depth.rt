ghost use Rattle.std.specs.Prelude.{◌≡◌, ◌<◌, ◌+◌, ◌↔◌, IsTrue, map, option_map};
ghost use Rattle.sql_build_depth.specs.Depth as deep;
ghost use Rattle.sql_build_depth.specs.Leaves as leaf;
ghost use Rattle.sql_build_syntax.specs.View.{call_tree, calls_of, expr_tree, exprs_of, items_of, join_tree, maybe_of, membership_tree, order_item_tree, query_start_tree, query_tree, source_tree};
ghost use Rattle.sql_build_depth.specs.declared.depth.TheConstants.{MAX_DEPTH};
ghost use Rattle.sql_build_depth.specs.inside.Capped.{capped, capped_depths};

use crate::leaves::query_leaves;
use sql_build_syntax::{
    Call, ClauseCall, Expr, Join, Membership, OrderItem, PlainCall, Query, QueryStart, Source,
};

/// How deep a statement may nest.
pub const MAX_DEPTH: usize = 2500;

/// Whether the statement of the query nests deeper than `MAX_DEPTH`.
pub fn is_too_deep(query: &Query) -> bool
    ensures { IsTrue result ↔ (MAX_DEPTH < deep.query_depth (query_tree query.now)) }
{
    query_depth(query) > MAX_DEPTH
}

/// Whether the statement of the query, restricted by a guard, may nest deeper than `MAX_DEPTH`, the guard's predicate not counted. For
/// each table and alias that a select reads, the guard puts a condition into its WHERE, or into an ON.
pub fn is_too_deep_restricted(query: &Query) -> bool
    ensures { IsTrue result ↔ (MAX_DEPTH
        < deep.query_depth (query_tree query.now) + leaf.query_leaves (query_tree query.now)) }
{
    query_depth(query).saturating_add(query_leaves(query)) > MAX_DEPTH
}

/// Whether the statement of the query nests deeper than `MAX_DEPTH` with so many levels more.
pub fn is_too_deep_with(query: &Query, more: usize) -> bool
    ensures { IsTrue result ↔ (MAX_DEPTH < deep.query_depth (query_tree query.now) + more) }
{
    query_depth(query).saturating_add(more) > MAX_DEPTH
}

/// Whether the expression nests deeper than `MAX_DEPTH`.
pub fn is_expr_too_deep(expr: &Expr) -> bool
    ensures { IsTrue result ↔ (MAX_DEPTH < deep.expr_depth (expr_tree expr.now)) }
{
    expr_depth(expr) > MAX_DEPTH
}

/// How deep the clauses of a statement nest.
#[derive(Clone, Copy)]
pub struct Depths {
    /// Of what is selected now.
    pub selection: usize,
    /// Of the FROM.
    pub sources: usize,
    /// Of the WHERE.
    pub condition: usize,
    /// Of all that was built so far.
    pub deepest: usize,
    /// Whether `into_boxed` was called.
    pub boxed: bool,
}

#[cycle(depth)]
#[tactic(auto, using(sql_build_syntax::proofs::Trees::opens_query, crate::proofs::Depths::query_capped))]
fn query_depth(query: &Query) -> usize
    ensures { result ≡ capped (deep.query_depth (query_tree query.now)) }
{
    let source = reads_source(&query.start);
    let start = start_depth(&query.start);
    let depths = after_calls(query.calls.as_slice(), source, start);
    depths.deepest.saturating_add(1)
}

#[tactic(auto, using(sql_build_syntax::proofs::Trees::opens_query_start))]
fn reads_source(start: &QueryStart) -> bool
    ensures { result ≡ deep.reads_source (query_start_tree start.now) }
{
    match start {
        QueryStart::From(_) => true,
        QueryStart::Select(_) => false,
    }
}

#[cycle(depth)]
#[tactic(auto, using(sql_build_syntax::proofs::Trees::opens_query_start))]
fn start_depth(start: &QueryStart) -> usize
    ensures { result ≡ capped (deep.start_depth (query_start_tree start.now)) }
{
    match start {
        QueryStart::From(source) => source_depth(source),
        QueryStart::Select(selection) => expr_depth(selection),
    }
}

/// The depths before any call, of a source of that depth or of a selection alone.
fn begun(source: bool, start: usize) -> Depths
    ensures { result ≡ capped_depths (deep.begun source start) }
{
    let selection = if source {
        start.saturating_add(1)
    } else {
        start
    };
    Depths {
        selection,
        sources: if source { start } else { 0 },
        condition: 0,
        deepest: selection,
        boxed: false,
    }
}

/// The depths after the calls.
#[cycle(depth)]
fn after_calls(calls: &[Call], source: bool, start: usize) -> Depths
    ensures { result ≡ capped_depths
        (deep.after_calls (calls_of (map call_tree calls.now)) (deep.begun source start)) }
{
    let mut depths = begun(source, start);
    for call in calls {
        depths = after_call(call, depths);
    }
    depths
}

#[cycle(depth)]
#[tactic(auto, using(sql_build_syntax::proofs::Trees::opens_call))]
fn after_call(call: &Call, before: Depths) -> Depths
    ensures { result ≡ capped_depths (deep.after_call (call_tree call.now) before) }
{
    match call {
        Call::Plain(call) => after_plain(*call, before),
        Call::Clause(call, expr) => after_clause(*call, expr_depth(expr), before),
        Call::Join(_, source, on) => joining(source_depth(source), maybe_depth(on), before),
        Call::Find(key) => filtering(key_depth(key.as_slice(), before.condition), before),
        Call::Order(items) => holding(items_depth(items.as_slice()), before),
        Call::ThenOrderBy(items) => holding(items_depth(items.as_slice()), before),
        Call::Limit(_) => before,
        Call::Offset(_) => before,
        Call::IntoBoxed(_) => Depths {
            boxed: true,
            ..before
        },
        Call::Combine(_, _, query) => combining(query_depth(query), before),
        Call::PositionalOrderBy(_) => before,
    }
}

fn after_plain(call: PlainCall, before: Depths) -> Depths
    ensures { result ≡ capped_depths (deep.after_plain call before) }
{
    match call {
        PlainCall::Nullable => nullable(before),
        PlainCall::Count => selecting(1, before),
        PlainCall::Distinct
        | PlainCall::ForUpdate
        | PlainCall::ForNoKeyUpdate
        | PlainCall::ForShare
        | PlainCall::ForKeyShare
        | PlainCall::SkipLocked
        | PlainCall::NoWait => before,
    }
}

fn after_clause(call: ClauseCall, expr: usize, before: Depths) -> Depths
    ensures { result ≡ capped_depths (deep.after_clause call expr before) }
{
    match call {
        ClauseCall::Filter | ClauseCall::OrFilter => {
            filtering(before.condition.max(expr).saturating_add(1), before)
        }
        ClauseCall::Select => selecting(expr, before),
        ClauseCall::DistinctOn | ClauseCall::GroupBy | ClauseCall::Having => holding(expr, before),
    }
}

fn nullable(before: Depths) -> Depths
    ensures { result ≡ capped_depths (deep.nullable before.boxed before) }
{
    if before.boxed {
        before
    } else {
        selecting(before.selection.saturating_add(1), before)
    }
}

fn selecting(selection: usize, before: Depths) -> Depths
    ensures { result ≡ deep.selecting selection before }
{
    Depths {
        selection,
        deepest: before.deepest.max(selection),
        ..before
    }
}

fn filtering(condition: usize, before: Depths) -> Depths
    ensures { result ≡ deep.filtering condition before }
{
    Depths {
        condition,
        deepest: before.deepest.max(condition),
        ..before
    }
}

fn holding(depth: usize, before: Depths) -> Depths
    ensures { result ≡ deep.holding depth before }
{
    Depths {
        deepest: before.deepest.max(depth),
        ..before
    }
}

fn joining(source: usize, on: usize, before: Depths) -> Depths
    ensures { result ≡ capped_depths (deep.joining source on before) }
{
    let selected = source.saturating_add(2);
    let joined = before.sources.max(source.max(on)).saturating_add(1);
    Depths {
        selection: before.selection.max(selected),
        sources: joined,
        deepest: before.deepest.max(selected.max(joined)),
        ..before
    }
}

fn combining(query: usize, before: Depths) -> Depths
    ensures { result ≡ capped_depths (deep.combining query before) }
{
    let side = before.deepest.saturating_add(1).max(query);
    Depths {
        deepest: side.saturating_add(1),
        ..before
    }
}

#[cycle(depth)]
fn key_depth(key: &[Expr], before: usize) -> usize
    ensures { result ≡ capped (deep.key_depth (exprs_of (map expr_tree key.now)) before) }
{
    let mut depth = before;
    for expr in key {
        let comparison = expr_depth(expr).saturating_add(1);
        depth = depth.max(comparison).saturating_add(1);
    }
    depth
}

#[cycle(depth)]
#[tactic(auto, using(sql_build_syntax::proofs::Trees::opens_expr))]
fn expr_depth(expr: &Expr) -> usize
    ensures { result ≡ capped (deep.expr_depth (expr_tree expr.now)) }
{
    let inside = match expr {
        Expr::List(exprs) => exprs_depth(exprs.as_slice()),
        Expr::CountStar => 0,
        Expr::Column(_) => 0,
        Expr::Field(_) => 0,
        Expr::Bind(_, _) => 0,
        Expr::Unary(_, operand) => expr_depth(operand),
        Expr::Binary(_, left, right) => expr_depth(left).max(expr_depth(right)),
        Expr::Exists(query) => query_depth(query),
        Expr::SingleValue(query) => query_depth(query),
        Expr::Quantified(_, sought, among) => expr_depth(sought).max(membership_depth(among)),
    };
    inside.saturating_add(1)
}

#[cycle(depth)]
fn exprs_depth(exprs: &[Expr]) -> usize
    ensures { result ≡ capped (deep.exprs_depth (exprs_of (map expr_tree exprs.now))) }
{
    let mut depth = 0;
    for expr in exprs {
        depth = expr_depth(expr).max(depth);
    }
    depth
}

#[cycle(depth)]
fn maybe_depth(expr: &Option<Expr>) -> usize
    ensures { result ≡ capped (deep.maybe_depth (maybe_of (option_map expr_tree expr.now))) }
{
    match expr {
        None => 0,
        Some(expr) => expr_depth(expr),
    }
}

#[cycle(depth)]
#[tactic(auto, using(sql_build_syntax::proofs::Trees::opens_membership))]
fn membership_depth(among: &Membership) -> usize
    ensures { result ≡ capped (deep.membership_depth (membership_tree among.now)) }
{
    match among {
        Membership::Values(_, _) => 0,
        Membership::Rows(query) => query_depth(query),
    }
}

#[cycle(depth)]
#[tactic(auto, using(sql_build_syntax::proofs::Trees::opens_order_item))]
fn items_depth(items: &[OrderItem]) -> usize
    ensures { result ≡ capped (deep.items_depth (items_of (map order_item_tree items.now))) }
{
    let mut depth = 0;
    for item in items {
        depth = expr_depth(&item.expr).max(depth);
    }
    depth
}

#[cycle(depth)]
#[tactic(auto, using(sql_build_syntax::proofs::Trees::opens_source))]
fn source_depth(source: &Source) -> usize
    ensures { result ≡ capped (deep.source_depth (source_tree source.now)) }
{
    match source {
        Source::Table(_) => 1,
        Source::Alias(_) => 1,
        Source::Join(join) => join_depth(join),
    }
}

#[cycle(depth)]
#[tactic(auto, using(sql_build_syntax::proofs::Trees::opens_join))]
fn join_depth(join: &Join) -> usize
    ensures { result ≡ capped (deep.source_depth (join_tree join.now)) }
{
    let right = source_depth(&join.right).max(maybe_depth(&join.on));
    source_depth(&join.left).max(right).saturating_add(1)
}
