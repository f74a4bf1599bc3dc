ghost use Rattle.std.specs.Prelude.{◌≡◌, IfOk, string_bytes};
ghost use Rattle.serde_json.specs.View.{view};
ghost use Rattle.sql_tool_audit.specs.Line.{IsAuditLine, IsAuditObject, refusal_text, refused as refused_data};

use crate::report::reported;
use serde_json::{Value as Json, json};
use sql_audit::{AuditError, audit};
use sql_dialect::Dialect;
use sql_schema::Schema;
use std::alloc::{AllocError, Global};

/// The name of a refusal.
fn refusal_name(error: AuditError) -> &'static str
    ensures { result.now ≡ refusal_text error }
{
    match error {
        AuditError::NotInGrammar => "NotInGrammar",
        AuditError::UnknownTable => "UnknownTable",
        AuditError::NotInScope => "NotInScope",
        AuditError::Ambiguous => "Ambiguous",
        AuditError::NoMemory => "NoMemory",
    }
}

/// The object of a refusal: `{"refused":"UnknownTable"}`.
fn refused(alloc: Global, error: AuditError) -> Result<Json, AllocError>
    ensures { IfOk result (λ v. view v ≡ refused_data (refusal_text error)) }
{
    json!(in alloc; {"refused": refusal_name(error)})
}

fn audit_object(
    alloc: Global,
    dialect: Dialect,
    schema: &Schema,
    text: &str,
) -> Result<Json, AllocError>
    ensures { IfOk result (λ v. IsAuditObject dialect schema.now.tables text.now (view v)) }
{
    match audit(alloc, dialect, schema, text) {
        Ok(report) => reported(alloc, &report),
        Err(AuditError::NoMemory) => Err(AllocError),
        Err(error) => refused(alloc, error),
    }
}

/// The line of a text in a dialect: `{"columns":[["users","id"]],"sources":[0],"tables":["users"]}` with a table for each leaf and a column
/// for each path, in the order of the text, or `{"refused":"UnknownTable"}` with the first refusal that holds of it.
pub fn audit_line(
    alloc: Global,
    dialect: Dialect,
    schema: &Schema,
    text: &str,
) -> Result<String, AllocError>
    ensures { IfOk result (λ line. IsAuditLine dialect schema.now.tables text.now
        (string_bytes line)) }
{
    let object = audit_object(alloc, dialect, schema, text)?;
    let mut line = object.to_string(alloc)?;
    line.push_str("\n")?;
    Ok(line)
}
