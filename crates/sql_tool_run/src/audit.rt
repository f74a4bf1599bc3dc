ghost use Rattle.std.specs.Prelude.{◌≡◌, List, ℕ};
ghost use Rattle.std.specs.Io.KnownBytes.{Appends};
ghost use Rattle.sql_tool_audit.specs.Output.{IsAuditOutput};
ghost use Rattle.sql_tool_stream.specs.Causes.{HasRisen};
ghost use Rattle.sql_tool_run.specs.inside.Responses.{Response};
ghost use Rattle.sql_tool_run.specs.declared.command.Command.TheVariants.{Audit};
ghost use Rattle.sql_tool_run.specs.declared.status.Status.{Status};

use crate::lines::{Lines, write_lines};
use crate::status::Status;
use sql_dialect::Dialect;
use sql_schema::{Schema, SqlText};
use sql_tool_audit::audit_line;
use sql_tool_document::{Refusal, Texts, read_texts};
use sql_tool_stream::Sink;
use std::alloc::{AllocError, Global};

/// The lines of audited texts.
#[derive(Drop)]
struct AuditLines {
    dialect: Dialect,
    schema: Schema,
}

impl Lines for AuditLines {
    type Item = SqlText;

    ghost HasLines = { λ first now items text. (now ≡ first)
        × IsAuditOutput first.dialect (record { schema = first.schema; texts = items }) text };

    fn line(&mut self, alloc: Global, _number: u64, item: &SqlText) -> Result<String, AllocError> {
        audit_line(alloc, self.dialect, &self.schema, item.as_str())
    }
}

/// Writes which tables and columns each text of the input uses.
pub(crate) fn write_audit<K: Sink>(
    alloc: Global,
    dialect: Dialect,
    bytes: &[u8],
    sink: &mut K,
) -> Status
    ensures response { (written : List ℕ) × Appends (K.held sink.old) (K.held sink.new) written
        × Response result (Audit dialect) bytes.now written }
    ensures fault { result ≡ Status.WriteFault → HasRisen (K.faults sink.old) (K.faults sink.new) }
    ensures no_fault { (result ≡ Status.WriteFault → ⊥) → K.faults sink.new ≡ K.faults sink.old }
{
    match read_texts(alloc, bytes) {
        Ok(Texts { schema, texts }) => {
            let mut lines = AuditLines { dialect, schema };
            write_lines(alloc, &mut lines, texts.as_slice(), sink)
        }
        Err(Refusal::NoMemory) => Status::NoMemory,
        Err(Refusal::NotADocument) => Status::BadDocument,
    }
}
