ghost use Rattle.std.specs.Prelude.{◌≡◌, Option, option_map};
ghost use Rattle.serde_json.specs.Data.{Data};
ghost use Rattle.serde_json.specs.Find.{as_str};
ghost use Rattle.sql_tool_document.specs.inside.Seen.{seen, items_seen};
ghost use Rattle.sql_tool_document.specs.Members.{each, each_if_any};
ghost use Rattle.sql_tool_document.specs.Giving.{Gives};

use crate::look::{as_array, as_str};
use crate::refusal::Refusal;
use json::Value;
use sql_schema::SqlText;
use std::alloc::Global;

/// A value that a JSON value may stand for.
pub(crate) trait Decode {
    /// Which JSON has the form, and the value that it stands for.
    ghost form: { Data → Option Self };

    fn decode(alloc: Global, value: &Value<'_>) -> Result<Self, Refusal>
    where
        Self: Sized,
        ensures { Gives (λ x. x) result (form (seen value.now)) };
}

/// Each item of an array.
pub(crate) fn decode_each<T: Decode + Drop>(
    alloc: Global,
    items: &Vec<Value<'_>>,
) -> Result<Vec<T>, Refusal>
    ensures { Gives (λ v. v.items) result (each T.form (items_seen items.now.items)) }
{
    let mut all = Vec::new(alloc);
    for item in items {
        all.push(T::decode(alloc, item)?)?;
    }
    Ok(all)
}

/// Each item of an array, and none where there is no array.
pub(crate) fn decode_if_any<T: Decode + Drop>(
    alloc: Global,
    value: Option<&Value<'_>>,
) -> Result<Vec<T>, Refusal>
    ensures { Gives (λ v. v.items) result
        (each_if_any T.form (option_map (λ v. seen v.now) value.entry)) }
{
    match value {
        None => Ok(Vec::new(alloc)),
        Some(value) => {
            let items = as_array(value).ok_or(Refusal::NotADocument)?;
            decode_each(alloc, items)
        }
    }
}

impl Decode for SqlText {
    ghost form = { as_str };

    fn decode(alloc: Global, value: &Value<'_>) -> Result<SqlText, Refusal> {
        let text = as_str(value).ok_or(Refusal::NotADocument)?;
        Ok(SqlText::from(String::from_str(alloc, text)?))
    }
}
