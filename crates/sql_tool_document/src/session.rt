ghost use Rattle.std.specs.Prelude.{◌≡◌, ◌≤◌, None, Some, codes, option_and_then, option_map};
ghost use Rattle.serde_json.specs.Data.{depth};
ghost use Rattle.serde_json.specs.Find as find;
ghost use Rattle.serde_json.specs.Read.{max_depth};
ghost use Rattle.serde_json.specs.View.{view};
ghost use Rattle.sql_tool_document.specs.Documents.{value_in, without_floats};
ghost use Rattle.sql_tool_document.specs.Giving.{Gives};
ghost use Rattle.sql_tool_document.specs.Sessions.{call_in, call_of, opening, opening_of, policed_by};
ghost use Rattle.sql_tool_document.specs.Trees.{call_tree, opening_tree, policed_tree, template_tree};
ghost use Rattle.sql_tool_document.specs.inside.Seen.{seen};

use crate::document::{Document, whole};
use crate::float::has_float;
use crate::look::{as_array, get};
use crate::place::fill_places;
use crate::policy::{NamedPolicy, Policed, each_policy};
use crate::reading::json;
use crate::refusal::Refusal;
use json::{Scratch, Value};
use sql_schema::SqlList;
use std::alloc::Global;

/// Policies with places for values, as the text of their JSON.
#[derive(Drop)]
pub struct Template {
    text: Vec<u8>,
}

/// A document of a session, and the policies that hold for it, where the session has policies.
#[derive(Drop)]
pub struct Call {
    pub document: Document,
    pub policies: Option<SqlList<NamedPolicy>>,
}

/// The document that opens a session, and the policies with their places, where it has policies.
#[derive(Drop)]
pub struct Opening {
    pub call: Call,
    pub template: Option<Template>,
}

#[tactic(auto, unfolding(crate::specs::Sessions::policed_by))]
fn fill_policies<'a>(
    alloc: Global,
    template: &Value<'a>,
    value: &Value<'a>,
) -> Result<Policed, Refusal>
    ensures { Gives policed_tree result (policed_by (seen template.now) (seen value.now)) }
{
    let filled = fill_places(alloc, template, get(value, "values"))?;
    let named = as_array(&filled).ok_or(Refusal::NotADocument)?;
    let policies = each_policy(alloc, named)?;
    let document = whole(alloc, value)?;
    Ok(Policed {
        document,
        policies: SqlList::from(policies),
    })
}

fn plain_call(alloc: Global, value: &Value<'_>) -> Result<Call, Refusal>
    ensures { Gives call_tree result (call_of None (seen value.now)) }
{
    let document = whole(alloc, value)?;
    Ok(Call {
        document,
        policies: None,
    })
}

fn guarded_call<'a>(alloc: Global, template: &Value<'a>, value: &Value<'a>) -> Result<Call, Refusal>
    ensures { Gives call_tree result (call_of (Some (seen template.now)) (seen value.now)) }
{
    let Policed { document, policies } = fill_policies(alloc, template, value)?;
    Ok(Call {
        document,
        policies: Some(policies),
    })
}

/// The text of the policies that the value has.
fn template_in(alloc: Global, value: &serde_json::Value) -> Result<Template, Refusal>
    requires { depth (view value.now) ≤ max_depth }
    ensures { Gives template_tree result (option_map Some
        (option_and_then (find.get (codes "tenant")) (without_floats (view value.now)))) }
{
    if has_float(value) {
        return Err(Refusal::NotADocument);
    }
    let Some(policies) = value.get("tenant") else {
        return Err(Refusal::NotADocument);
    };
    let text = policies.to_vec(alloc)?;
    Ok(Template { text })
}

/// The text of the policies that the bytes have.
fn template_of(alloc: Global, bytes: &[u8]) -> Result<Template, Refusal>
    ensures { Gives template_tree result
        (option_map Some (option_and_then (find.get (codes "tenant")) (value_in bytes.now))) }
{
    match serde_json::Value::from_slice(alloc, bytes) {
        Ok(value) => template_in(alloc, &value),
        Err(error) if error.is_memory() => Err(Refusal::NoMemory),
        Err(_) => Err(Refusal::NotADocument),
    }
}

#[tactic(auto, unfolding(crate::specs::Sessions::opening_of))]
fn whole_opening(alloc: Global, bytes: &[u8], value: &Value<'_>) -> Result<Opening, Refusal>
    requires { value_in bytes.now ≡ Some (seen value.now) }
    ensures { Gives opening_tree result (opening_of (seen value.now)) }
{
    match get(value, "tenant") {
        None => Ok(Opening {
            call: plain_call(alloc, value)?,
            template: None,
        }),
        Some(template) => {
            let call = guarded_call(alloc, template, value)?;
            let template = template_of(alloc, bytes)?;
            Ok(Opening {
                call,
                template: Some(template),
            })
        }
    }
}

/// The document that opens a session, which the bytes are, else `NotADocument`; or `NoMemory`. Where it has policies,
/// `"tenant":[{"table":"posts","predicate":EXPR},{"table":"countries"}]`, they may have places, and hold with the values of
/// `"values":{"tenant":7}` there.
#[tactic(auto, unfolding(crate::specs::Sessions::opening))]
pub fn read_opening(alloc: Global, bytes: &[u8]) -> Result<Opening, Refusal>
    ensures { Gives opening_tree result (opening bytes.now) }
{
    let mut scratch = Scratch::new(alloc);
    let value = json(alloc, bytes, &mut scratch)?;
    whole_opening(alloc, bytes, &value)
}

fn call_over<'a>(
    alloc: Global,
    template: &Value<'a>,
    bytes: &'a [u8],
    scratch: &'a mut Scratch,
) -> Result<Call, Refusal>
    ensures { Gives call_tree result
        (option_and_then (call_of (Some (seen template.now))) (value_in bytes.now)) }
{
    let value = json(alloc, bytes, scratch)?;
    guarded_call(alloc, template, &value)
}

fn call_with(alloc: Global, template: &Template, bytes: &[u8]) -> Result<Call, Refusal>
    ensures { Gives call_tree result (option_and_then
        (λ t. option_and_then (call_of (Some t)) (value_in bytes.now)) (template_tree template.now)) }
{
    let mut kept = Scratch::new(alloc);
    let mut scratch = Scratch::new(alloc);
    let template = json(alloc, template.text.as_slice(), &mut kept)?;
    call_over(alloc, &template, bytes, &mut scratch)
}

/// The document that the bytes are, in a session with these policies, else `NotADocument`; or `NoMemory`.
#[tactic(auto, unfolding(crate::specs::Sessions::call_in))]
pub fn read_call(alloc: Global, template: &Option<Template>, bytes: &[u8]) -> Result<Call, Refusal>
    ensures { Gives call_tree result (call_in (option_map template_tree template.now) bytes.now) }
{
    match template {
        Some(template) => call_with(alloc, template, bytes),
        None => {
            let mut scratch = Scratch::new(alloc);
            let value = json(alloc, bytes, &mut scratch)?;
            plain_call(alloc, &value)
        }
    }
}
