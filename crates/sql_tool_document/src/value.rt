ghost use Rattle.std.specs.Prelude.{◌≡◌};
ghost use Rattle.std.specs.List.{list_any};
ghost use Rattle.sql_tool_document.specs.inside.Seen.{seen, items_seen};
ghost use Rattle.sql_tool_document.specs.Members.{each};
ghost use Rattle.sql_tool_document.specs.Giving.{Gives};
ghost use Rattle.sql_tool_document.specs.Scalar.{small_of, medium_of, place_number_of, is_upper_case, bytes_of, of_base, value_of};

use crate::look::{as_bool, as_i64, as_str, as_u64, is_null};
use crate::refusal::Refusal;
use hex::FromHexError;
use json::Value as Json;
use sql_pass::Value;
use sql_schema::{Base, SqlBytes, SqlText};
use std::alloc::Global;

pub(crate) fn small(value: &Json<'_>) -> Option<i16>
    ensures { result ≡ small_of (seen value.now) }
{
    let number = as_i64(value)?;
    if number >= -32768 && number < 32768 {
        Some(number as i16)
    } else {
        None
    }
}

pub(crate) fn medium(value: &Json<'_>) -> Option<i32>
    ensures { result ≡ medium_of (seen value.now) }
{
    let number = as_i64(value)?;
    if number >= -2147483648 && number < 2147483648 {
        Some(number as i32)
    } else {
        None
    }
}

/// A place in an order.
pub(crate) fn place_number(value: &Json<'_>) -> Option<u32>
    ensures { result ≡ place_number_of (seen value.now) }
{
    let number = as_u64(value)?;
    if number < 4294967296 {
        Some(number as u32)
    } else {
        None
    }
}

fn has_upper_case(text: &str) -> bool
    ensures { result ≡ list_any is_upper_case text.now }
{
    text.as_bytes().iter().any(|code| code.is_ascii_uppercase())
}

/// The bytes that lower case hexadecimal digits spell.
#[tactic(auto, unfolding(crate::specs::Scalar::bytes_of))]
fn bytes(alloc: Global, text: &str) -> Result<Vec<u8>, Refusal>
    ensures { Gives (λ v. v.items) result (bytes_of text.now) }
{
    if has_upper_case(text) {
        return Err(Refusal::NotADocument);
    }
    match hex::decode(alloc, text) {
        Ok(spelled) => Ok(spelled),
        Err(FromHexError::OutOfMemory) => Err(Refusal::NoMemory),
        Err(_) => Err(Refusal::NotADocument),
    }
}

fn of_base_or_refused(alloc: Global, base: Base, value: &Json<'_>) -> Result<Value, Refusal>
    ensures { Gives (λ v. v) result (of_base base (seen value.now)) }
{
    match base {
        Base::SmallInt => Ok(Value::SmallInt(small(value).ok_or(Refusal::NotADocument)?)),
        Base::Integer => Ok(Value::Integer(medium(value).ok_or(Refusal::NotADocument)?)),
        Base::BigInt => Ok(Value::BigInt(as_i64(value).ok_or(Refusal::NotADocument)?)),
        Base::Text => {
            let text = as_str(value).ok_or(Refusal::NotADocument)?;
            Ok(Value::Text(SqlText::from(String::from_str(alloc, text)?)))
        }
        Base::Binary => {
            let text = as_str(value).ok_or(Refusal::NotADocument)?;
            Ok(Value::Binary(SqlBytes::from(bytes(alloc, text)?)))
        }
        Base::Bool => Ok(Value::Bool(as_bool(value).ok_or(Refusal::NotADocument)?)),
    }
}

/// A bound value: null, or a number, a text, hexadecimal digits or a truth value, by the base of its type.
#[tactic(auto, unfolding(crate::specs::Scalar::value_of))]
pub(crate) fn value(alloc: Global, base: Base, value: &Json<'_>) -> Result<Value, Refusal>
    ensures { Gives (λ v. v) result (value_of base (seen value.now)) }
{
    if is_null(value) {
        return Ok(Value::Null);
    }
    of_base_or_refused(alloc, base, value)
}

/// Values of one base.
pub(crate) fn each_value(
    alloc: Global,
    base: Base,
    items: &Vec<Json<'_>>,
) -> Result<Vec<Value>, Refusal>
    ensures { Gives (λ v. v.items) result (each (value_of base) (items_seen items.now.items)) }
{
    let mut all = Vec::new(alloc);
    for item in items {
        all.push(value(alloc, base, item)?)?;
    }
    Ok(all)
}
