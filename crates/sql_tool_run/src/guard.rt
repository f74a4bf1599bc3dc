ghost use Rattle.std.specs.Prelude.{◌≡◌, List, ℕ, map};
ghost use Rattle.std.specs.Io.KnownBytes.{Appends};
ghost use Rattle.sql_tool_document.specs.Trees.{request_tree};
ghost use Rattle.sql_tool_build.specs.Output.{StatementRequest};
ghost use Rattle.sql_tool_build.specs.inside.Keys.{AreWritten, seen_at};
ghost use Rattle.sql_tool_guard.specs.Output.{AreGuarded};
ghost use Rattle.sql_tool_guard.specs.Trees.{tenant_document_tree, tenant_tree};
ghost use Rattle.sql_tool_stream.specs.Causes.{HasRisen};
ghost use Rattle.sql_tool_run.specs.inside.Responses.{Response, WroteTenant};
ghost use Rattle.sql_tool_run.specs.declared.command.Command.TheVariants.{Guard, Tenant as TenantCommand};
ghost use Rattle.sql_tool_run.specs.declared.status.Status.{Status};

use crate::build::Known;
use crate::lines::{Lines, write_lines};
use crate::status::Status;
use sql_tool_document::{Document, Refusal, Request};
use sql_tool_guard::{Tenant, TenantDocument, guarded_line, read_policies, read_tenant};
use sql_tool_stream::Sink;
use std::alloc::{AllocError, Global};

/// The lines of a tenant's requests.
#[derive(Drop)]
struct GuardLines {
    known: Known,
    tenant: Tenant,
}

impl Lines for GuardLines {
    type Item = Request;

    ghost HasLines = { λ first now items text. (now.known.cache.schema ≡ first.known.cache.schema)
        × (now.tenant ≡ first.tenant)
        × ((rs : List StatementRequest)
        × AreGuarded first.known.cache.schema (tenant_tree first.tenant) (map request_tree items) rs
        × AreWritten first.known.cache.schema (seen_at now.known.seen) rs text) };

    fn line(&mut self, alloc: Global, number: u64, item: &Request) -> Result<String, AllocError> {
        let Known { cache, seen } = &mut self.known;
        guarded_line(alloc, cache, seen, number, &self.tenant, item)
    }
}

/// Writes a line for each request of the document, in order, its statement limited to the tenant's rows.
fn write_document<K: Sink>(alloc: Global, document: TenantDocument, sink: &mut K) -> Status
    ensures wrote { (written : List ℕ) × Appends (K.held sink.old) (K.held sink.new) written
        × WroteTenant result (tenant_document_tree document) written }
    ensures fault { result ≡ Status.WriteFault → HasRisen (K.faults sink.old) (K.faults sink.new) }
    ensures no_fault { (result ≡ Status.WriteFault → ⊥) → K.faults sink.new ≡ K.faults sink.old }
{
    let TenantDocument { document, tenant } = document;
    let Document { schema, requests } = document;
    match Known::new(alloc, schema) {
        Ok(known) => {
            let mut lines = GuardLines { known, tenant };
            write_lines(alloc, &mut lines, requests.as_slice(), sink)
        }
        Err(AllocError) => Status::NoMemory,
    }
}

/// Writes a line for each request of the document that the bytes are, in order, its statement restricted to the document's tenant.
pub(crate) fn write_guard<K: Sink>(alloc: Global, bytes: &[u8], sink: &mut K) -> Status
    ensures response { (written : List ℕ) × Appends (K.held sink.old) (K.held sink.new) written
        × Response result Guard bytes.now written }
    ensures fault { result ≡ Status.WriteFault → HasRisen (K.faults sink.old) (K.faults sink.new) }
    ensures no_fault { (result ≡ Status.WriteFault → ⊥) → K.faults sink.new ≡ K.faults sink.old }
{
    match read_tenant(alloc, bytes) {
        Ok(document) => write_document(alloc, document, sink),
        Err(Refusal::NoMemory) => Status::NoMemory,
        Err(Refusal::NotADocument) => Status::BadDocument,
    }
}

/// Writes a line for each request of the document that the bytes are, in order, its statement guarded by the document's policies.
pub(crate) fn write_tenant<K: Sink>(alloc: Global, bytes: &[u8], sink: &mut K) -> Status
    ensures response { (written : List ℕ) × Appends (K.held sink.old) (K.held sink.new) written
        × Response result TenantCommand bytes.now written }
    ensures fault { result ≡ Status.WriteFault → HasRisen (K.faults sink.old) (K.faults sink.new) }
    ensures no_fault { (result ≡ Status.WriteFault → ⊥) → K.faults sink.new ≡ K.faults sink.old }
{
    match read_policies(alloc, bytes) {
        Ok(document) => write_document(alloc, document, sink),
        Err(Refusal::NoMemory) => Status::NoMemory,
        Err(Refusal::NotADocument) => Status::BadDocument,
    }
}
