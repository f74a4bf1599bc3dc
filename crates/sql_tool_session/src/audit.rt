//! Texts that are audited over the schema of a session.

ghost use Rattle.std.specs.Prelude.{◌≡◌, ◌⊎◌, IfErr, IfOk, OnErr, OnOk, []};
ghost use Rattle.sql_tool_audit.specs.Output.{IsAuditOutput};
ghost use Rattle.sql_tool_document.specs.Texts.{Texts as TextsTree};
ghost use Rattle.sql_tool_run.specs.declared.status.Status.{Status};
ghost use Rattle.sql_tool_session.specs.Audited.{IsStartOf, auditing_status, texts_over};

use sql_dialect::Dialect;
use sql_schema::{Schema, SqlList, SqlText};
use sql_tool_audit::audit_line;
use sql_tool_document::{Refusal, Texts, read_texts};
use sql_tool_run::{LIMIT, Status};
use std::alloc::{AllocError, Global};

/// The texts that the bytes are, which declare no table, since the session has its own schema; or the status with which the call ends.
#[tactic(auto, using(crate::proofs::Auditing::no_texts))]
pub(crate) fn texts_of(
    alloc: Global,
    schema: &Schema,
    bytes: &[u8],
) -> Result<SqlList<SqlText>, Status>
    ensures read { IfOk result (λ texts. texts_over schema.now bytes.now
        ≡ Some (record { schema = schema.now; texts = texts })) }
    ensures done { OnOk result (auditing_status schema.now bytes.now ≡ Status.Done) }
    ensures refused { IfErr result (λ status. (status ≡ Status.NoMemory)
        ⊎ ((status ≡ auditing_status schema.now bytes.now) × (status ≡ Status.Done → ⊥))) }
{
    if bytes.len() > LIMIT {
        return Err(Status::TooLarge);
    }
    let Texts {
        schema: declared,
        texts,
    } = match read_texts(alloc, bytes) {
        Ok(texts) => texts,
        Err(Refusal::NoMemory) => return Err(Status::NoMemory),
        Err(Refusal::NotADocument) => return Err(Status::BadDocument),
    };
    if declared.tables().len() > 0 {
        return Err(Status::BadDocument);
    }
    Ok(texts)
}

/// Adds the line of each text. Where memory runs out it has added those of the first ones.
pub(crate) fn add_lines(
    alloc: Global,
    dialect: Dialect,
    schema: &Schema,
    texts: &[SqlText],
    lines: &mut Vec<u8>,
) -> Result<(), AllocError>
    requires { lines.old.items ≡ [] }
    ensures all { OnOk result (IsAuditOutput dialect
        (record { schema = schema.now; texts = texts.now }) lines.new.items) }
    ensures some { OnErr result (IsStartOf dialect
        (record { schema = schema.now; texts = texts.now }) lines.new.items) }
{
    for text in texts {
        let line = audit_line(alloc, dialect, schema, text.as_str())?;
        lines.extend_from_slice(line.as_bytes())?;
    }
    Ok(())
}
