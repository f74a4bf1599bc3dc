//! Whether a query's calls replace the selection that it begins with.
#![tactic(auto, using(sql_build_syntax::proofs::Trees::opens_call))]

ghost use Rattle.std.specs.Prelude.{◌≡◌, map};
ghost use Rattle.sql_build_syntax.specs.View.{call_tree, calls_of};
ghost use Rattle.sql_build.specs.inside.Replaced.{clause_effect, effect_of as effect_in, is_replaced as replaced_in, plain_effect};

use sql_build_syntax::{Call, ClauseCall, PlainCall};

/// What a call does with the selection of the statement that it is made on.
#[derive(Clone, Copy)]
pub(crate) enum Effect {
    /// Another stands in its place, whichever it was.
    Replaces,
    /// It stays, in a side of a combination.
    Encloses,
    /// It stays or changes, and a later call can replace it.
    Passes,
}

fn effect_of_plain(call: PlainCall) -> Effect
    ensures { result ≡ plain_effect call }
{
    match call {
        PlainCall::Count => Effect::Replaces,
        PlainCall::Distinct
        | PlainCall::Nullable
        | PlainCall::ForUpdate
        | PlainCall::ForNoKeyUpdate
        | PlainCall::ForShare
        | PlainCall::ForKeyShare
        | PlainCall::SkipLocked
        | PlainCall::NoWait => Effect::Passes,
    }
}

fn effect_of_clause(call: ClauseCall) -> Effect
    ensures { result ≡ clause_effect call }
{
    match call {
        ClauseCall::Select => Effect::Replaces,
        ClauseCall::DistinctOn
        | ClauseCall::GroupBy
        | ClauseCall::Filter
        | ClauseCall::OrFilter
        | ClauseCall::Having => Effect::Passes,
    }
}

fn effect_of(call: &Call) -> Effect
    ensures { result ≡ effect_in (call_tree call.now) }
{
    match call {
        Call::Plain(by) => effect_of_plain(*by),
        Call::Clause(by, _) => effect_of_clause(*by),
        Call::Join(_, _, _) => Effect::Passes,
        Call::Find(_) => Effect::Passes,
        Call::Order(_) => Effect::Passes,
        Call::ThenOrderBy(_) => Effect::Passes,
        Call::Limit(_) => Effect::Passes,
        Call::Offset(_) => Effect::Passes,
        Call::IntoBoxed(_) => Effect::Passes,
        Call::Combine(_, _, _) => Effect::Encloses,
        Call::PositionalOrderBy(_) => Effect::Passes,
    }
}

/// Whether one of the calls replaces the selection that they begin with, by `select` or `count`, before a combination has it in
/// a side.
pub(crate) fn is_replaced(calls: &[Call]) -> bool
    ensures { result ≡ replaced_in (calls_of (map call_tree calls.now)) }
{
    for call in calls {
        match effect_of(call) {
            Effect::Replaces => return true,
            Effect::Encloses => return false,
            Effect::Passes => {}
        }
    }
    false
}
