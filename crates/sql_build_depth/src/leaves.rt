ghost use Rattle.std.specs.Prelude.{◌≡◌, map};
ghost use Rattle.sql_build_depth.specs.Leaves as leaf;
ghost use Rattle.sql_build_depth.specs.inside.Capped.{capped};
ghost use Rattle.sql_build_syntax.specs.View.{call_tree, calls_of, join_tree, query_start_tree, query_tree, source_tree};

use sql_build_syntax::{Call, Join, Query, QueryStart, Source};

/// How many tables and aliases a select of the query reads, of two sides of a combination the most.
#[cycle(leaves)]
#[tactic(auto, using(sql_build_syntax::proofs::Trees::opens_query, crate::proofs::Sums::query_capped))]
pub(crate) fn query_leaves(query: &Query) -> usize
    ensures { result ≡ capped (leaf.query_leaves (query_tree query.now)) }
{
    let start = start_leaves(&query.start);
    calls_leaves(query.calls.as_slice(), start)
}

#[tactic(auto, using(sql_build_syntax::proofs::Trees::opens_query_start))]
fn start_leaves(start: &QueryStart) -> usize
    ensures { result ≡ capped (leaf.start_leaves (query_start_tree start.now)) }
{
    match start {
        QueryStart::From(source) => source_leaves(source),
        QueryStart::Select(_) => 0,
    }
}

/// The leaves after the calls.
#[cycle(leaves)]
fn calls_leaves(calls: &[Call], before: usize) -> usize
    ensures { result ≡ capped (leaf.calls_leaves (calls_of (map call_tree calls.now)) before) }
{
    let mut leaves = before;
    for call in calls {
        leaves = call_leaves(call, leaves);
    }
    leaves
}

#[cycle(leaves)]
#[tactic(auto, using(sql_build_syntax::proofs::Trees::opens_call, crate::proofs::Sums::sum_capped))]
fn call_leaves(call: &Call, before: usize) -> usize
    ensures { result ≡ capped (leaf.call_leaves (call_tree call.now) before) }
{
    match call {
        Call::Join(_, source, _) => before.saturating_add(source_leaves(source)),
        Call::Combine(_, _, query) => before.max(query_leaves(query)),
        Call::Plain(_) => before,
        Call::Clause(_, _) => before,
        Call::Find(_) => before,
        Call::Order(_) => before,
        Call::ThenOrderBy(_) => before,
        Call::Limit(_) => before,
        Call::Offset(_) => before,
        Call::IntoBoxed(_) => before,
        Call::PositionalOrderBy(_) => before,
    }
}

#[cycle(sources)]
#[tactic(auto, using(sql_build_syntax::proofs::Trees::opens_source))]
fn source_leaves(source: &Source) -> usize
    ensures { result ≡ capped (leaf.source_leaves (source_tree source.now)) }
{
    match source {
        Source::Table(_) => 1,
        Source::Alias(_) => 1,
        Source::Join(join) => join_leaves(join),
    }
}

#[cycle(sources)]
#[tactic(auto, using(sql_build_syntax::proofs::Trees::opens_join, crate::proofs::Sums::sum_capped))]
fn join_leaves(join: &Join) -> usize
    ensures { result ≡ capped (leaf.source_leaves (join_tree join.now)) }
{
    source_leaves(&join.left).saturating_add(source_leaves(&join.right))
}
