ghost use Rattle.std.specs.Prelude.{◌≡◌, OnOk, map};
ghost use Rattle.serde_json.specs.Data.{Data, array};
ghost use Rattle.serde_json.specs.Events.{SendsValue};
ghost use Rattle.serde_json.specs.Find.{of_integer};
ghost use Rattle.serde_json.specs.View.{items_of};
ghost use Rattle.serde_json.specs.Data.{number};
ghost use Rattle.sql_tool_build.specs.Objects.{bound_data, id_data, type_data, value_data};

use serde::Serializer;
use sql_pass::{Bound, Value};
use sql_schema::SqlType;
use sql_tool_document::type_name;
use std::alloc::Global;

/// A part of a line, which can be sent to a `Serializer`.
pub(crate) trait Sent {
    /// The JSON that is sent.
    ghost sent: { Self → Data };

    fn send<S: Serializer>(&self, alloc: Global, out: &mut S) -> Result<(), S::Error>
        ensures { OnOk result (SendsValue (sent self.now) (S.written out.old) (S.written out.new)) };
}

/// Sends a list of what each item sends.
pub(crate) fn send_list<T: Sent, S: Serializer>(
    alloc: Global,
    items: &[T],
    out: &mut S,
) -> Result<(), S::Error>
    ensures { OnOk result (SendsValue (array (items_of (map T.sent items.now)))
        (S.written out.old) (S.written out.new)) }
{
    out.begin_seq(Some(items.len()))?;
    for item in items {
        item.send(alloc, out)?;
    }
    out.end_seq()
}

fn send_integer<S: Serializer>(integer: i64, out: &mut S) -> Result<(), S::Error>
    ensures { OnOk result (SendsValue (number (of_integer integer))
        (S.written out.old) (S.written out.new)) }
{
    match u64::try_from(integer) {
        Ok(natural) => out.u64(natural),
        Err(_) => out.i64(integer),
    }
}

impl Sent for Value {
    ghost sent = { value_data };

    fn send<S: Serializer>(&self, alloc: Global, out: &mut S) -> Result<(), S::Error> {
        match self {
            Value::SmallInt(integer) => send_integer(i64::from(*integer), out),
            Value::Integer(integer) => send_integer(i64::from(*integer), out),
            Value::BigInt(integer) => send_integer(*integer, out),
            Value::Text(text) => out.str(text.as_str()),
            Value::Binary(bytes) => match hex::encode(alloc, bytes.as_slice()) {
                Ok(digits) => out.str(digits.as_str()),
                Err(_) => Err(out.custom("out of memory")),
            },
            Value::Bool(truth) => out.bool(*truth),
            Value::Null => out.unit(),
        }
    }
}

impl Sent for SqlType {
    ghost sent = { type_data };

    fn send<S: Serializer>(&self, _alloc: Global, out: &mut S) -> Result<(), S::Error> {
        out.str(type_name(*self))
    }
}

impl Sent for Bound {
    ghost sent = { bound_data };

    fn send<S: Serializer>(&self, alloc: Global, out: &mut S) -> Result<(), S::Error> {
        out.begin_seq(Some(2))?;
        match self {
            Bound::Value(ty, value) => {
                ty.send(alloc, out)?;
                value.send(alloc, out)?;
            }
            Bound::List(ty, values) => {
                ty.send(alloc, out)?;
                send_list(alloc, values.as_slice(), out)?;
            }
        }
        out.end_seq()
    }
}

pub(crate) fn send_id<S: Serializer>(id: Option<u64>, out: &mut S) -> Result<(), S::Error>
    ensures { OnOk result (SendsValue (id_data id) (S.written out.old) (S.written out.new)) }
{
    match id {
        None => out.unit(),
        Some(n) => out.u64(n),
    }
}
