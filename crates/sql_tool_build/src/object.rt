ghost use Rattle.std.specs.Prelude.{◌≡◌, ◌∷◌, ◌++◌, [], IfOk, Some, false, string_bytes};
ghost use Rattle.serde.specs.Event.{Log};
ghost use Rattle.serde_json.specs.Data.{Data};
ghost use Rattle.serde_json.specs.Events.{SendsValue};
ghost use Rattle.serde_json.specs.Written.{compact_text, has_float};
ghost use Rattle.sql_tool_build.specs.Objects.{refused as refused_data, statement_data};

use crate::sent::{send_id, send_list};
use serde::{Described, Serialize, Serializer};
use sql_pass::Bound;
use sql_schema::SqlType;
use std::alloc::{AllocError, Global};

/// The object of an accepted request:
/// `{"binds":[["Integer",1]],"columns":["Integer"],"id":1,"safe":true,"sql":"SELECT .."}`.
#[derive(Drop)]
struct Accepted<'a> {
    alloc: Global,
    binds: &'a [Bound],
    columns: &'a [SqlType],
    id: Option<u64>,
    safe: bool,
    sql: &'a str,
}

impl Described for Accepted<'_> {
    ghost writes = { λ a. SendsValue (statement_data a.binds.now a.columns.now a.id a.safe a.sql.now) };
}

impl Serialize for Accepted<'_> {
    fn serialize<S: Serializer>(&self, out: &mut S) -> Result<(), S::Error> {
        out.begin_map(Some(5))?;
        out.key("binds")?;
        send_list(self.alloc, self.binds, out)?;
        out.key("columns")?;
        send_list(self.alloc, self.columns, out)?;
        out.key("id")?;
        send_id(self.id, out)?;
        out.key("safe")?;
        out.bool(self.safe)?;
        out.key("sql")?;
        out.str(self.sql)?;
        out.end_map()
    }
}

/// The object of a request that is refused by this name: `{"refused":"NotInScope"}`.
#[derive(Drop)]
struct Refused<'a>(&'a str);

impl Described for Refused<'_> {
    ghost writes = { λ r. SendsValue (refused_data r.0.now) };
}

impl Serialize for Refused<'_> {
    fn serialize<S: Serializer>(&self, out: &mut S) -> Result<(), S::Error> {
        out.begin_map(Some(1))?;
        out.key("refused")?;
        out.str(self.0)?;
        out.end_map()
    }
}

/// Compact JSON, and a newline.
fn line_of<T: Serialize>(alloc: Global, object: &T) -> Result<String, AllocError>
    ensures { IfOk result (λ text. (d : Data) → has_float d ≡ false
        → ((log : Log) → T.writes object.now (Some []) log → SendsValue d (Some []) log)
        → string_bytes text ≡ compact_text d ++ 10 ∷ []) }
{
    let Ok(mut text) = serde_json::to_string(alloc, object) else {
        return Err(AllocError);
    };
    text.push_str("\n")?;
    Ok(text)
}

/// The line of an accepted request, with a newline.
pub(crate) fn accepted_line(
    alloc: Global,
    binds: &[Bound],
    columns: &[SqlType],
    id: Option<u64>,
    safe: bool,
    sql: &str,
) -> Result<String, AllocError>
    ensures { IfOk result (λ text. string_bytes text
        ≡ compact_text (statement_data binds.now columns.now id safe sql.now) ++ 10 ∷ []) }
{
    let object = Accepted {
        alloc,
        binds,
        columns,
        id,
        safe,
        sql,
    };
    line_of(alloc, &object)
}

/// The line of a request that is refused by this name: `{"refused":"NotInScope"}` and a newline.
pub fn refusal_line(alloc: Global, name: &str) -> Result<String, AllocError>
    ensures { IfOk result (λ text. string_bytes text
        ≡ compact_text (refused_data name.now) ++ 10 ∷ []) }
{
    line_of(alloc, &Refused(name))
}
