ghost use Rattle.std.specs.Prelude.{◌≡◌, List, ℕ, IfOk, [], map};
ghost use Rattle.std.specs.Io.KnownBytes.{Appends};
ghost use Rattle.sql_tool_document.specs.Trees.{request_tree};
ghost use Rattle.sql_tool_build.specs.Output.{statement_request};
ghost use Rattle.sql_tool_build.specs.inside.Keys.{AreWritten, Tells, seen_at};
ghost use Rattle.sql_tool_stream.specs.Causes.{HasRisen};
ghost use Rattle.sql_tool_run.specs.inside.Responses.{Response};
ghost use Rattle.sql_tool_run.specs.declared.command.Command.TheVariants.{Build};
ghost use Rattle.sql_tool_run.specs.declared.status.Status.{Status};

use crate::lines::{Lines, write_lines};
use crate::status::Status;
use sql_schema::Schema;
use sql_tool_build::{NamedRequest, StatementCache, request_line};
use sql_tool_document::{Document, Refusal, Request, read_document};
use sql_tool_stream::Sink;
use std::alloc::{AllocError, Global};
use std::collections::BTreeMap;
use std::num::NonZeroUsize;

/// How many answers are kept for requests of the same dialect and shape.
const ENTRIES: usize = 256;

/// The state after some requests: their keys, and what was compiled for them.
#[derive(Drop)]
pub(crate) struct Known {
    pub(crate) cache: StatementCache,
    pub(crate) seen: BTreeMap<NamedRequest, u64>,
}

impl Known {
    /// Returns the state over a schema before the first request.
    pub(crate) fn new(alloc: Global, schema: Schema) -> Result<Known, AllocError>
        ensures schema { IfOk result (λ k. k.cache.schema ≡ schema) }
        ensures nothing { IfOk result (λ k. Tells (seen_at k.seen) []) }
    {
        let capacity = NonZeroUsize::new(ENTRIES).unwrap();
        Ok(Known {
            cache: StatementCache::new(alloc, schema, capacity)?,
            seen: BTreeMap::new(alloc),
        })
    }
}

/// The lines of requests.
#[derive(Drop)]
struct BuildLines(Known);

impl Lines for BuildLines {
    type Item = Request;

    ghost HasLines = { λ first now items text. (now.0.cache.schema ≡ first.0.cache.schema)
        × AreWritten first.0.cache.schema (seen_at now.0.seen)
        (map (statement_request first.0.cache.schema) (map request_tree items)) text };

    fn line(&mut self, alloc: Global, number: u64, item: &Request) -> Result<String, AllocError> {
        let Known { cache, seen } = &mut self.0;
        request_line(alloc, cache, seen, number, item)
    }
}

/// Writes a line for each request of the document that the bytes are, in order.
pub(crate) fn write_build<K: Sink>(alloc: Global, bytes: &[u8], sink: &mut K) -> Status
    ensures response { (written : List ℕ) × Appends (K.held sink.old) (K.held sink.new) written
        × Response result Build bytes.now written }
    ensures fault { result ≡ Status.WriteFault → HasRisen (K.faults sink.old) (K.faults sink.new) }
    ensures no_fault { (result ≡ Status.WriteFault → ⊥) → K.faults sink.new ≡ K.faults sink.old }
{
    let Document { schema, requests } = match read_document(alloc, bytes) {
        Ok(document) => document,
        Err(Refusal::NoMemory) => return Status::NoMemory,
        Err(Refusal::NotADocument) => return Status::BadDocument,
    };
    match Known::new(alloc, schema) {
        Ok(known) => write_lines(alloc, &mut BuildLines(known), requests.as_slice(), sink),
        Err(AllocError) => Status::NoMemory,
    }
}
