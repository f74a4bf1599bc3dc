ghost use Rattle.std.specs.Prelude.{◌≡◌, IfOk, OnOk, List, ℕ, string_bytes};
ghost use Rattle.std.specs.BTreeMap.{get_by_text};
ghost use Rattle.serde_json.specs.Data.{Members, no_members, object};
ghost use Rattle.serde_json.specs.View.{members_view, view};
ghost use Rattle.sql_tool_build.specs.Output.{Line};
ghost use Rattle.sql_tool_generate.specs.Summary.{refusals as refusal_members, summary, summary_object, summary_text, tallied};
ghost use Rattle.sql_tool_generate.specs.inside.Counting.{HasRefusals, Tell, kept};

use crate::counts::Counts;
use serde_json::{Map, Value as Json, json, put};
use sql_rules::{RULES, Rule};
use std::alloc::{AllocError, Global};
use std::collections::BTreeMap;

/// Adds the member with this count, where there is one.
fn tally(
    alloc: Global,
    members: &mut Map<String, Json>,
    name: &str,
    count: Option<u64>,
) -> Result<(), AllocError>
    ensures { OnOk result ((many : ℕ) → count ≡ kept many → members_view members.new.entries
        ≡ tallied name.now many (members_view members.old.entries)) }
{
    match count {
        None => Ok(()),
        Some(count) => put(members, alloc, name, Json::from(count)),
    }
}

/// `{"NeedsNullable":3,"Unsupported":2}`, of these rules.
fn refusals(
    alloc: Global,
    rules: &[Rule],
    refused: &BTreeMap<String, u64>,
) -> Result<Json, AllocError>
    ensures { IfOk result (λ v. (ls : List Line) → HasRefusals (get_by_text refused.now) ls
        → view v ≡ object (refusal_members rules.now ls no_members)) }
{
    let mut members = Map::new(alloc);
    for rule in rules {
        let count = refused.get(rule.name()).copied();
        tally(alloc, &mut members, rule.name(), count)?;
    }
    Ok(Json::Object(members))
}

fn object_of(alloc: Global, counts: &Counts, refused: Json) -> Result<Json, AllocError>
    ensures { IfOk result (λ v. (ms : Members) → view refused ≡ object ms → view v
        ≡ summary_object counts.now.accepted counts.now.binds counts.now.bytes counts.now.ids
        ms counts.now.requests) }
{
    json!(in alloc; {
        "accepted": counts.accepted,
        "binds": counts.binds,
        "bytes": counts.bytes,
        "ids": counts.ids,
        "refused": refused,
        "requests": counts.requests,
    })
}

fn summary_json(alloc: Global, counts: &Counts) -> Result<Json, AllocError>
    ensures { IfOk result (λ v. (ls : List Line) → Tell counts.now ls → view v ≡ summary ls) }
{
    let refused = refusals(alloc, &RULES, &counts.refused)?;
    object_of(alloc, counts, refused)
}

/// The line with these counts.
pub(crate) fn summary_line(alloc: Global, counts: &Counts) -> Result<String, AllocError>
    ensures { IfOk result (λ text. (ls : List Line) → Tell counts.now ls
        → string_bytes text ≡ summary_text ls) }
{
    let value = summary_json(alloc, counts)?;
    let mut text = value.to_string(alloc)?;
    text.push_str("\n")?;
    Ok(text)
}
