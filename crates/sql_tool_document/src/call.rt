#![tactic(auto, using(sql_build_syntax::proofs::Trees::opens_call))]

ghost use Rattle.std.specs.Prelude.{◌≡◌, option_map, option_and_then};
ghost use Rattle.sql_tool_document.specs.inside.Seen.{seen, items_seen};
ghost use Rattle.sql_tool_document.specs.Members.{if_any, argument_of};
ghost use Rattle.sql_tool_document.specs.Giving.{Gives};
ghost use Rattle.sql_tool_document.specs.Queries.{plain_call as plain_call_of, join_call as join_call_of, boxed_call as boxed_call_of, list_call as list_call_of, argument_call as argument_call_of, last_call as last_call_of, dialect_named, named_call as named_call_of, expr_of, source_of, query_of, call_of};
ghost use Rattle.sql_build_syntax.specs.Tree as tree;
ghost use Rattle.sql_build_syntax.specs.View.{call_tree};

use crate::each::decode_each;
use crate::expr::{condition, expr, exprs};
use crate::look::{as_array, as_i64, as_str, at};
use crate::member::{argument, text_item};
use crate::names::{clause_call, combination, dialect, join_kind, plain_call};
use crate::order::items;
use crate::query::query;
use crate::refusal::Refusal;
use crate::source::source_item;
use json::Value;
use sql_build_syntax::{Call, ClauseCall, PlainCall};
use sql_dialect::{Combinator, Dialect, DuplicateRule};
use sql_leaf::JoinKind;
use sql_schema::SqlList;
use std::alloc::Global;

#[cycle(decode)]
#[tactic(auto, unfolding(crate::specs::Queries::call_of))]
pub(crate) fn call(alloc: Global, value: &Value<'_>, depth: u32) -> Result<Call, Refusal>
    ensures { Gives call_tree result (call_of depth (seen value.now)) }
{
    if depth == 0 {
        return Err(Refusal::NotADocument);
    }
    let name = text_item(value, 0).ok_or(Refusal::NotADocument)?;
    named_call(alloc, name, value, depth - 1)
}

#[cycle(decode)]
#[tactic(auto, unfolding(crate::specs::Queries::named_call))]
fn named_call(alloc: Global, name: &str, value: &Value<'_>, depth: u32) -> Result<Call, Refusal>
    ensures { Gives call_tree result
        (named_call_of (expr_of depth) (source_of depth) (query_of depth) name.now
        (seen value.now)) }
{
    match plain_call(name) {
        Some(call) => plain(call, value),
        None => match clause_call(name) {
            Some(call) => clause(alloc, call, value, depth),
            None => match join_kind(name) {
                Some(kind) => join_call(alloc, kind, value, depth),
                None => match combination(name) {
                    Some((combinator, rule)) => combined(alloc, combinator, rule, value, depth),
                    None => last_calls(alloc, name, value, depth),
                },
            },
        },
    }
}

#[tactic(auto, unfolding(crate::specs::Queries::plain_call), using(sql_build_syntax::proofs::Trees::opens_call))]
fn plain(call: PlainCall, value: &Value<'_>) -> Result<Call, Refusal>
    ensures { Gives call_tree result (plain_call_of call (seen value.now)) }
{
    if at(value, 1).is_some() {
        return Err(Refusal::NotADocument);
    }
    Ok(Call::Plain(call))
}

#[cycle(decode)]
fn clause(alloc: Global, call: ClauseCall, value: &Value<'_>, depth: u32) -> Result<Call, Refusal>
    ensures { Gives call_tree result
        (option_and_then (λ a. option_map (tree.clause call) (expr_of depth a))
        (argument_of (seen value.now))) }
{
    let inner = argument(value).ok_or(Refusal::NotADocument)?;
    Ok(Call::Clause(call, expr(alloc, inner, depth)?))
}

#[cycle(decode)]
#[tactic(auto, unfolding(crate::specs::Queries::join_call), using(sql_build_syntax::proofs::Trees::opens_call))]
fn join_call(alloc: Global, kind: JoinKind, value: &Value<'_>, depth: u32) -> Result<Call, Refusal>
    ensures { Gives call_tree result
        (join_call_of (expr_of depth) (source_of depth) kind (seen value.now)) }
{
    let source = source_item(alloc, value, 1, depth)?;
    let on = condition(alloc, at(value, 2), depth)?;
    if at(value, 3).is_some() {
        return Err(Refusal::NotADocument);
    }
    Ok(Call::Join(kind, source, on))
}

#[cycle(decode)]
fn combined(
    alloc: Global,
    combinator: Combinator,
    rule: DuplicateRule,
    value: &Value<'_>,
    depth: u32,
) -> Result<Call, Refusal>
    ensures { Gives call_tree result
        (option_and_then (λ a. option_map (tree.combine combinator rule) (query_of depth a))
        (argument_of (seen value.now))) }
{
    let inner = argument(value).ok_or(Refusal::NotADocument)?;
    Ok(Call::Combine(combinator, rule, query(alloc, inner, depth)?))
}

#[cycle(decode)]
fn last_calls(alloc: Global, name: &str, value: &Value<'_>, depth: u32) -> Result<Call, Refusal>
    ensures { Gives call_tree result (last_call_of (expr_of depth) name.now (seen value.now)) }
{
    if name == "into_boxed" {
        return boxed(value);
    }
    let inner = argument(value).ok_or(Refusal::NotADocument)?;
    argument_call(alloc, name, inner, depth)
}

fn dialect_if_any(value: Option<&Value<'_>>) -> Option<Option<Dialect>>
    ensures { result ≡ if_any dialect_named (option_map (λ v. seen v.now) value.entry) }
{
    match value {
        None => Some(None),
        Some(value) => Some(Some(dialect(as_str(value)?)?)),
    }
}

#[tactic(auto, unfolding(crate::specs::Queries::boxed_call), using(sql_build_syntax::proofs::Trees::opens_call))]
fn boxed(value: &Value<'_>) -> Result<Call, Refusal>
    ensures { Gives call_tree result (boxed_call_of (seen value.now)) }
{
    let dialect = dialect_if_any(at(value, 1)).ok_or(Refusal::NotADocument)?;
    if at(value, 2).is_some() {
        return Err(Refusal::NotADocument);
    }
    Ok(Call::IntoBoxed(dialect))
}

#[cycle(decode)]
#[tactic(auto, unfolding(crate::specs::Queries::argument_call), using(sql_build_syntax::proofs::Trees::opens_call))]
fn argument_call(alloc: Global, name: &str, value: &Value<'_>, depth: u32) -> Result<Call, Refusal>
    ensures { Gives call_tree result (argument_call_of (expr_of depth) name.now (seen value.now)) }
{
    match name {
        "limit" => Ok(Call::Limit(as_i64(value).ok_or(Refusal::NotADocument)?)),
        "offset" => Ok(Call::Offset(as_i64(value).ok_or(Refusal::NotADocument)?)),
        name => {
            let inner = as_array(value).ok_or(Refusal::NotADocument)?;
            list_call(alloc, name, inner, depth)
        }
    }
}

#[cycle(decode)]
#[tactic(auto, unfolding(crate::specs::Queries::list_call), using(sql_build_syntax::proofs::Trees::opens_call))]
fn list_call(alloc: Global, name: &str, list: &Vec<Value<'_>>, depth: u32) -> Result<Call, Refusal>
    ensures { Gives call_tree result
        (list_call_of (expr_of depth) name.now (items_seen list.now.items)) }
{
    match name {
        "find" => Ok(Call::Find(SqlList::from(exprs(alloc, list, depth)?))),
        "order" => Ok(Call::Order(SqlList::from(items(alloc, list, depth)?))),
        "order_by" => Ok(Call::Order(SqlList::from(items(alloc, list, depth)?))),
        "then_order_by" => Ok(Call::ThenOrderBy(SqlList::from(items(alloc, list, depth)?))),
        "positional_order_by" => {
            let places = decode_each(alloc, list)?;
            Ok(Call::PositionalOrderBy(SqlList::from(places)))
        }
        _ => Err(Refusal::NotADocument),
    }
}
