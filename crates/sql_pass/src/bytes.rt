ghost use Rattle.std.specs.Prelude.{◌≡◌, ◌<◌, ◌≤◌, ◌++◌, ℤ, pos, Some, length, IfOk, OnOk, IsErr, IsErrOf, IsTrue};
ghost use Rattle.std.specs.List.{list_any, flat_map};
ghost use Rattle.sql_pass.specs.Bytes as bytes;
ghost use Rattle.sql_pass.specs.Bytes.{int4, element, is_long_element, is_too_long, MAX_LENGTH};
ghost use Rattle.sql_pass.specs.Bounds.{bound_of};
ghost use Rattle.sql_pass.specs.Collected.{plain_one};
ghost use Rattle.sql_pass.specs.declared.value.Bound.TheVariants as B;

use crate::collect::CollectError;
use crate::value::{BoundRef, Value};
use sql_dialect::{Dialect, NoMemory};
use sql_schema::{Base, SqlType};
use std::alloc::Global;

/// The bytes of a bind, None for a NULL.
pub fn bound_bytes(
    alloc: Global,
    dialect: Dialect,
    bound: BoundRef<'_>,
) -> Result<Option<Vec<u8>>, CollectError>
    ensures bytes { IfOk result (λ b. plain_one b ≡ bytes.bytes_of dialect (bound_of bound.entry)) }
    ensures long { IsErrOf result CollectError.TooLong
        → IsTrue (is_too_long (bound_of bound.entry)) }
    ensures refused { IsTrue (is_too_long (bound_of bound.entry)) → IsErr result }
{
    match bound {
        BoundRef::Value(_, value) => Ok(value_bytes(alloc, dialect, value)?),
        BoundRef::List(ty, values) => Ok(Some(list_bytes(alloc, ty, values)?)),
    }
}

/// The bytes of a value, None for a NULL.
pub fn value_bytes(
    alloc: Global,
    dialect: Dialect,
    value: &Value,
) -> Result<Option<Vec<u8>>, NoMemory>
    ensures { IfOk result (λ b. plain_one b ≡ bytes.value_bytes dialect value.now) }
{
    match value {
        Value::SmallInt(n) => {
            let two = match dialect {
                Dialect::Pg => n.to_be_bytes(),
                Dialect::Mysql | Dialect::Sqlite | Dialect::Bracket => n.to_le_bytes(),
            };
            Ok(Some(Vec::from_slice(alloc, &two)?))
        }
        Value::Integer(n) => {
            let four = match dialect {
                Dialect::Pg => n.to_be_bytes(),
                Dialect::Mysql | Dialect::Sqlite | Dialect::Bracket => n.to_le_bytes(),
            };
            Ok(Some(Vec::from_slice(alloc, &four)?))
        }
        Value::BigInt(n) => {
            let eight = match dialect {
                Dialect::Pg => n.to_be_bytes(),
                Dialect::Mysql | Dialect::Sqlite | Dialect::Bracket => n.to_le_bytes(),
            };
            Ok(Some(Vec::from_slice(alloc, &eight)?))
        }
        Value::Text(text) => Ok(Some(Vec::from_slice(alloc, text.as_str().as_bytes())?)),
        Value::Binary(bytes) => Ok(Some(Vec::from_slice(alloc, bytes.as_slice())?)),
        Value::Bool(b) => Ok(Some(Vec::from_slice(alloc, &[u8::from(*b)])?)),
        Value::Null => Ok(None),
    }
}

/// PostgreSQL's binary form of an array.
#[tactic(auto, unfolding(crate::specs::Bytes::list_bytes))]
fn list_bytes(alloc: Global, ty: SqlType, values: &[Value]) -> Result<Vec<u8>, CollectError>
    ensures bytes { IfOk result (λ b. b.items ≡ bytes.list_bytes ty values.now) }
    ensures long { IsErrOf result CollectError.TooLong
        → IsTrue (is_too_long (B.List ty values.now)) }
    ensures refused { IsTrue (is_too_long (B.List ty values.now)) → IsErr result }
{
    let mut out = Vec::new(alloc);
    push_int(&mut out, 1)?;
    push_int(&mut out, null_flag(values))?;
    push_int(&mut out, element_number(ty.base))?;
    push_length(&mut out, values.len())?;
    push_int(&mut out, 1)?;
    push_elements(alloc, &mut out, values)?;
    Ok(out)
}

fn push_elements(alloc: Global, out: &mut Vec<u8>, values: &[Value]) -> Result<(), CollectError>
    ensures bytes { OnOk result (out.new.items ≡ out.old.items ++ flat_map element values.now) }
    ensures long { IsErrOf result CollectError.TooLong
        → IsTrue (list_any is_long_element values.now) }
    ensures refused { IsTrue (list_any is_long_element values.now) → IsErr result }
{
    for value in values {
        push_element(alloc, out, value)?;
    }
    Ok(())
}

/// Appends a value after its length; a NULL is the length -1 alone.
fn push_element(alloc: Global, out: &mut Vec<u8>, value: &Value) -> Result<(), CollectError>
    ensures bytes { OnOk result (out.new.items ≡ out.old.items ++ element value.now) }
    ensures long { IsErrOf result CollectError.TooLong → IsTrue (is_long_element value.now) }
    ensures refused { IsTrue (is_long_element value.now) → IsErr result }
{
    match value_bytes(alloc, Dialect::Pg, value)? {
        None => push_int(out, -1)?,
        Some(bytes) => {
            push_length(out, bytes.len())?;
            out.extend_from_slice(bytes.as_slice())?;
        }
    }
    Ok(())
}

fn push_length(out: &mut Vec<u8>, length: usize) -> Result<(), CollectError>
    ensures bytes { OnOk result (out.new.items ≡ out.old.items ++ int4 (pos length)) }
    ensures long { IsErrOf result CollectError.TooLong → MAX_LENGTH < length }
    ensures fits { OnOk result (length ≤ MAX_LENGTH) }
{
    match i32::try_from(length) {
        Ok(number) => {
            push_int(out, number)?;
            Ok(())
        }
        Err(_) => Err(CollectError::TooLong),
    }
}

#[tactic(auto, unfolding(crate::specs::Bytes::int4))]
fn push_int(out: &mut Vec<u8>, number: i32) -> Result<(), NoMemory>
    ensures { OnOk result (out.new.items ≡ out.old.items ++ int4 number) }
{
    out.extend_from_slice(&number.to_be_bytes())
}

/// 1 where a NULL stands among the values.
fn null_flag(values: &[Value]) -> i32
    ensures { result ≡ bytes.null_flag values.now }
{
    if has_null(values) { 1 } else { 0 }
}

fn has_null(values: &[Value]) -> bool
    ensures { result ≡ list_any bytes.is_null values.now }
{
    values.iter().any(is_null)
}

fn is_null(value: &Value) -> bool
    ensures { result ≡ bytes.is_null value.now }
{
    matches!(value, Value::Null)
}

/// The number of the elements' type.
fn element_number(base: Base) -> i32
    ensures { result ≡ pos (bytes.element_number base) }
{
    match base {
        Base::Bool => 16,
        Base::Binary => 17,
        Base::BigInt => 20,
        Base::SmallInt => 21,
        Base::Integer => 23,
        Base::Text => 25,
    }
}
