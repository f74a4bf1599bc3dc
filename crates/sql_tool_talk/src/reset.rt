ghost use Rattle.std.specs.Prelude.{◌≡◌, IfOk};
ghost use Rattle.serde_json.specs.View.{view};
ghost use Rattle.sql_tool_talk.specs.Resets.{is_reset as is_reset_of, is_reset_value};

use serde_json::Value;
use std::alloc::{AllocError, Global};

/// Whether the value is `{"reset":true}`.
fn is_reset_object(value: &Value) -> bool
    ensures { result ≡ is_reset_value (view value.now) }
{
    let Some(members) = value.as_object() else {
        return false;
    };
    if members.len() != 1 {
        return false;
    }
    match value.get("reset") {
        Some(reset) => reset.as_bool().unwrap_or(false),
        None => false,
    }
}

/// Whether the line is the text of `{"reset":true}`, with white space or without.
pub(crate) fn is_reset(alloc: Global, line: &[u8]) -> Result<bool, AllocError>
    ensures { IfOk result (λ told. told ≡ is_reset_of line.now) }
{
    match Value::from_slice(alloc, line) {
        Ok(value) => Ok(is_reset_object(&value)),
        Err(error) if error.is_memory() => Err(AllocError),
        Err(_) => Ok(false),
    }
}
