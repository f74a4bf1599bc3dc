ghost use Rattle.std.specs.Prelude.{◌≡◌};
ghost use Rattle.serde_json.specs.View.{view, items_view, members_view};
ghost use Rattle.serde_json.specs.Written.{has_float as data_has_float, items_have_float, members_have_float};

use serde_json::{Map, Value};

/// Whether a number in the value is neither a `u64` nor an `i64`.
#[cycle(float)]
pub(crate) fn has_float(value: &Value) -> bool
    ensures { result ≡ data_has_float (view value.now) }
{
    match value {
        Value::Null => false,
        Value::Bool(_) => false,
        Value::Number(number) => number.is_f64(),
        Value::String(_) => false,
        Value::Array(items) => items_have_a_float(items),
        Value::Object(members) => members_have_a_float(members),
    }
}

#[cycle(float)]
fn items_have_a_float(items: &Vec<Value>) -> bool
    ensures { result ≡ items_have_float (items_view items.now.items) }
{
    for item in items {
        if has_float(item) {
            return true;
        }
    }
    false
}

#[cycle(float)]
fn members_have_a_float(members: &Map<String, Value>) -> bool
    ensures { result ≡ members_have_float (members_view members.now.entries) }
{
    for (_, member) in members.iter() {
        if has_float(member) {
            return true;
        }
    }
    false
}
