//! Places for values in JSON, `{"value":NAME}`, and the values that are put there.

ghost use Rattle.std.specs.Prelude.{◌≡◌, IfOk, option_map};
ghost use Rattle.json.specs.Value.{value_view, items_view, members_view};
ghost use Rattle.sql_tool_document.specs.Places.{filled};
ghost use Rattle.sql_tool_document.specs.inside.Filled.{filled_json, items_filled, json_for, members_filled, placed_json, scalar_json};
ghost use Rattle.sql_tool_document.specs.inside.Seen.{seen};

use crate::look::as_str;
use crate::member::only_entry;
use json::Value;
use std::alloc::{AllocError, Global};

/// The value, where it is null, a truth value, a number or a text.
fn scalar<'a>(value: &Value<'a>) -> Option<Value<'a>>
    ensures { option_map value_view result ≡ scalar_json (value_view value.now) }
{
    match value {
        Value::Null => Some(Value::Null),
        Value::Bool(truth) => Some(Value::Bool(*truth)),
        Value::Number(text) => Some(Value::Number(*text)),
        Value::String(text) => Some(Value::String(*text)),
        Value::Array(_) | Value::Object(_) => None,
    }
}

/// The value of that name.
fn value_for<'a>(values: Option<&Value<'a>>, name: &str) -> Option<Value<'a>>
    ensures { option_map value_view result
        ≡ json_for (option_map (λ v. value_view v.now) values.entry) name.now }
{
    let value = values?.get(name)?;
    scalar(value)
}

/// What is put into an object of these members, where it is a place and its name has a value.
fn placed<'a>(members: &Vec<(&'a str, Value<'a>)>, values: Option<&Value<'a>>) -> Option<Value<'a>>
    ensures { option_map value_view result
        ≡ placed_json (option_map (λ v. value_view v.now) values.entry)
        (members_view members.now.items) }
{
    let (key, name) = only_entry(members)?;
    if key != "value" {
        return None;
    }
    let name = as_str(name)?;
    value_for(values, name)
}

/// A copy of the template with a value at each place.
#[cycle(fill)]
fn fill<'a>(
    alloc: Global,
    template: &Value<'a>,
    values: Option<&Value<'a>>,
) -> Result<Value<'a>, AllocError>
    ensures { IfOk result (λ v. value_view v
        ≡ filled_json (option_map (λ w. value_view w.now) values.entry) (value_view template.now)) }
{
    match template {
        Value::Null => Ok(Value::Null),
        Value::Bool(truth) => Ok(Value::Bool(*truth)),
        Value::Number(text) => Ok(Value::Number(*text)),
        Value::String(text) => Ok(Value::String(*text)),
        Value::Array(items) => Ok(Value::Array(fill_items(alloc, items, values)?)),
        Value::Object(members) => match placed(members, values) {
            Some(value) => Ok(value),
            None => Ok(Value::Object(fill_members(alloc, members, values)?)),
        },
    }
}

#[cycle(fill)]
fn fill_items<'a>(
    alloc: Global,
    items: &Vec<Value<'a>>,
    values: Option<&Value<'a>>,
) -> Result<Vec<Value<'a>>, AllocError>
    ensures { IfOk result (λ v. items_view v.items
        ≡ items_filled (option_map (λ w. value_view w.now) values.entry) (items_view items.now.items)) }
{
    let mut all = Vec::new(alloc);
    for item in items {
        all.push(fill(alloc, item, values)?)?;
    }
    Ok(all)
}

#[cycle(fill)]
fn fill_members<'a>(
    alloc: Global,
    members: &Vec<(&'a str, Value<'a>)>,
    values: Option<&Value<'a>>,
) -> Result<Vec<(&'a str, Value<'a>)>, AllocError>
    ensures { IfOk result (λ v. members_view v.items
        ≡ members_filled (option_map (λ w. value_view w.now) values.entry)
        (members_view members.now.items)) }
{
    let mut all = Vec::new(alloc);
    for (key, member) in members {
        let filled = fill(alloc, member, values)?;
        all.push((*key, filled))?;
    }
    Ok(all)
}

/// The template with a value at each place.
#[tactic(auto, using(crate::proofs::Filling::filled_data))]
pub(crate) fn fill_places<'a>(
    alloc: Global,
    template: &Value<'a>,
    values: Option<&Value<'a>>,
) -> Result<Value<'a>, AllocError>
    ensures { IfOk result (λ v. seen v
        ≡ filled (option_map (λ w. seen w.now) values.entry) (seen template.now)) }
{
    fill(alloc, template, values)
}
