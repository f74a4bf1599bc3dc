ghost use Rattle.std.specs.Prelude.{◌≡◌, IfOk, map};
ghost use Rattle.sql_raw.specs.Debug.{bound_debug, value_debug};
ghost use Rattle.sql_raw.specs.Shown.{shown_debug, shown_value};

use sql_pass::{Bound, Value};
use std::alloc::{AllocError, Global};
use std::fmt;

/// A value as Rust's debug form shows it: `7`, `"x"`, `true`, `[1, 255]` for bytes, and `None` for NULL.
#[derive(Drop)]
pub(crate) struct ShownValue(Value);

/// A bound value, or a list of values that is bound as one: `[7, None]`.
#[derive(Drop)]
pub(crate) enum ShownBound {
    Value(ShownValue),
    List(Vec<ShownValue>),
}

impl fmt::Debug for ShownValue {
    ghost debug_output = { λ v. value_debug v.0 };

    fn fmt<W: fmt::Write>(&self, f: &mut fmt::Formatter<W>) -> fmt::Result {
        match &self.0 {
            Value::SmallInt(n) => fmt::Debug::fmt(n, f),
            Value::Integer(n) => fmt::Debug::fmt(n, f),
            Value::BigInt(n) => fmt::Debug::fmt(n, f),
            Value::Text(text) => fmt::Debug::fmt(&text.as_str(), f),
            Value::Binary(bytes) => fmt::Debug::fmt(&bytes.as_slice(), f),
            Value::Bool(b) => fmt::Debug::fmt(b, f),
            Value::Null => f.write_str("None"),
        }
    }
}

impl fmt::Debug for ShownBound {
    ghost debug_output = { shown_debug };

    fn fmt<W: fmt::Write>(&self, f: &mut fmt::Formatter<W>) -> fmt::Result {
        match self {
            ShownBound::Value(value) => fmt::Debug::fmt(value, f),
            ShownBound::List(values) => fmt::Debug::fmt(&values.as_slice(), f),
        }
    }
}

fn show_values(alloc: Global, values: Vec<Value>) -> Result<Vec<ShownValue>, AllocError>
    ensures { IfOk result (λ v. map shown_value v.items ≡ values.items) }
{
    let mut all = Vec::new(alloc);
    for value in values {
        all.push(ShownValue(value))?;
    }
    Ok(all)
}

fn show(alloc: Global, bound: Bound) -> Result<ShownBound, AllocError>
    ensures { IfOk result (λ b. shown_debug b ≡ bound_debug bound) }
{
    match bound {
        Bound::Value(_, value) => Ok(ShownBound::Value(ShownValue(value))),
        Bound::List(_, values) => {
            let all = show_values(alloc, values.into_inner())?;
            Ok(ShownBound::List(all))
        }
    }
}

/// The values, each as it is shown.
pub(crate) fn show_all(alloc: Global, binds: Vec<Bound>) -> Result<Vec<ShownBound>, AllocError>
    ensures { IfOk result (λ v. map shown_debug v.items ≡ map bound_debug binds.items) }
{
    let mut all = Vec::new(alloc);
    for bound in binds {
        all.push(show(alloc, bound)?)?;
    }
    Ok(all)
}
