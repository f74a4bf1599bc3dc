ghost use Rattle.std.specs.Prelude.{◌≡◌, ◌<◌, ◌+◌, ◌↔◌, length, ◌⊎◌, ◌++◌, List, ℕ, map, IfSome, false, Some, None, string_bytes, []};
ghost use Rattle.std.specs.Io.KnownBytes.{Appends, Consumes, IsAtEnd, Keeps};
ghost use Rattle.sql_schema.specs.Declarations.{Declarations};
ghost use Rattle.sql_tool_stream.specs.Causes.{HasRisen};
ghost use Rattle.sql_dialect.specs.declared.backend.Dialect.{Dialect};
ghost use Rattle.sql_tool_document.specs.Documents.{Document as DocumentTree};
ghost use Rattle.sql_tool_generate.specs.Summary.{IsSummary};
ghost use Rattle.sql_tool_build.specs.Output.{AreLines, IsOutput, IsOutputPrefix, Line, StatementRequest};
ghost use Rattle.sql_tool_build.specs.Shared.{OneIdServes, OneShapeOneId};
ghost use Rattle.sql_tool_read.specs.Line.{IsReadingLine};
ghost use Rattle.sql_tool_run.specs.Command.{command_of, reads_source, AreWordsOf, IsDone, IsOutputOf};
ghost use Rattle.sql_tool_run.specs.Limits.{greatest_input};
ghost use Rattle.sql_tool_run.specs.Run.{Ends, Outcome, Took, may_write, run_reads, status_of};
ghost use Rattle.sql_tool_run.specs.inside.Responses.{Response, WroteLine};
ghost use Rattle.sql_tool_run.specs.declared.command.Command.TheVariants.{Generate, Read};
ghost use Rattle.sql_tool_run.specs.declared.command.Command.{Command};

use crate::audit::write_audit;
use crate::build::write_build;
use crate::command::Command;
use crate::guard::{write_guard, write_tenant};
use crate::status::Status;
use sql_dialect::Dialect;
use sql_tool_generate::generate;
use sql_tool_read::{input_text, reading_line};
use sql_tool_stream::{Failed, ReadError, Sink, Source, read_all, write_all};
use std::alloc::{AllocError, Global};

/// How many bytes an input may have.
pub const LIMIT: usize = 16777216;

/// Writes one line.
fn write_line<K: Sink>(line: &str, sink: &mut K) -> Status
    ensures response { (written : List ℕ) × Appends (K.held sink.old) (K.held sink.new) written
        × WroteLine result line.now written }
    ensures fault { result ≡ Status.WriteFault → HasRisen (K.faults sink.old) (K.faults sink.new) }
    ensures no_fault { (result ≡ Status.WriteFault → ⊥) → K.faults sink.new ≡ K.faults sink.old }
{
    match write_all(sink, line.as_bytes()) {
        Ok(()) => Status::Done,
        Err(Failed) => Status::WriteFault,
    }
}

/// Writes what becomes of so many generated requests.
fn write_summary<K: Sink>(alloc: Global, count: u32, sink: &mut K) -> Status
    ensures response { (given : List ℕ) → (written : List ℕ)
        × Appends (K.held sink.old) (K.held sink.new) written
        × Response result (Generate count) given written }
    ensures fault { result ≡ Status.WriteFault → HasRisen (K.faults sink.old) (K.faults sink.new) }
    ensures no_fault { (result ≡ Status.WriteFault → ⊥) → K.faults sink.new ≡ K.faults sink.old }
{
    match generate(alloc, count) {
        Ok(line) => write_line(line.as_str(), sink),
        Err(AllocError) => Status::NoMemory,
    }
}

/// Writes the text that the bytes are as its tree is written.
fn write_reading<K: Sink>(alloc: Global, dialect: Dialect, bytes: &[u8], sink: &mut K) -> Status
    ensures response { (written : List ℕ) × Appends (K.held sink.old) (K.held sink.new) written
        × Response result (Read dialect) bytes.now written }
    ensures fault { result ≡ Status.WriteFault → HasRisen (K.faults sink.old) (K.faults sink.new) }
    ensures no_fault { (result ≡ Status.WriteFault → ⊥) → K.faults sink.new ≡ K.faults sink.old }
{
    let Some(text) = input_text(bytes) else {
        return Status::BadDocument;
    };
    match reading_line(alloc, dialect, text) {
        Ok(line) => write_line(line.as_str(), sink),
        Err(AllocError) => Status::NoMemory,
    }
}

/// Writes what the command answers to these bytes.
fn answer<K: Sink>(alloc: Global, command: Command, bytes: &[u8], sink: &mut K) -> Status
    ensures response { (written : List ℕ) × Appends (K.held sink.old) (K.held sink.new) written
        × Response result command bytes.now written }
    ensures fault { result ≡ Status.WriteFault → HasRisen (K.faults sink.old) (K.faults sink.new) }
    ensures no_fault { (result ≡ Status.WriteFault → ⊥) → K.faults sink.new ≡ K.faults sink.old }
{
    match command {
        Command::Build => write_build(alloc, bytes, sink),
        Command::Generate(count) => write_summary(alloc, count, sink),
        Command::Read(dialect) => write_reading(alloc, dialect, bytes, sink),
        Command::Audit(dialect) => write_audit(alloc, dialect, bytes, sink),
        Command::Guard => write_guard(alloc, bytes, sink),
        Command::Tenant => write_tenant(alloc, bytes, sink),
    }
}

/// Reads the input, where the command has one, and writes what it answers.
fn carry_out<S: Source, K: Sink>(
    alloc: Global,
    command: Command,
    source: &mut S,
    sink: &mut K,
) -> Status
    ensures outcome { (given written : List ℕ)
        × Took result (S.left source.old) (S.left source.new) given
        × Appends (K.held sink.old) (K.held sink.new) written
        × Ends result command given written (IsAtEnd (S.left source.new)) }
    ensures unread { reads_source command ≡ false → source.new ≡ source.old }
    ensures read_fault { result ≡ Status.ReadFault
        → HasRisen (S.faults source.old) (S.faults source.new) }
    ensures no_read_fault { (result ≡ Status.ReadFault → ⊥)
        → S.faults source.new ≡ S.faults source.old }
    ensures write_fault { result ≡ Status.WriteFault
        → HasRisen (K.faults sink.old) (K.faults sink.new) }
    ensures no_write_fault { (result ≡ Status.WriteFault → ⊥)
        → K.faults sink.new ≡ K.faults sink.old }
{
    if !command.reads_source() {
        return answer(alloc, command, &[], sink);
    }
    match read_all(alloc, source, LIMIT) {
        Ok(bytes) => answer(alloc, command, &bytes, sink),
        Err(ReadError::NoMemory) => Status::NoMemory,
        Err(ReadError::Fault) => Status::ReadFault,
        Err(ReadError::TooLarge) => Status::TooLarge,
    }
}

fn perform<S: Source, K: Sink>(
    alloc: Global,
    words: &[String],
    source: &mut S,
    sink: &mut K,
) -> Status
    ensures outcome { (given written : List ℕ)
        × Took result (S.left source.old) (S.left source.new) given
        × Appends (K.held sink.old) (K.held sink.new) written
        × Outcome result (command_of (map string_bytes words.now)) given written
        (IsAtEnd (S.left source.new)) }
    ensures untouched { result ≡ Status.Usage → (source.new ≡ source.old) × (sink.new ≡ sink.old) }
    ensures unread { run_reads (command_of (map string_bytes words.now)) ≡ false
        → source.new ≡ source.old }
    ensures read_fault { result ≡ Status.ReadFault
        → HasRisen (S.faults source.old) (S.faults source.new) }
    ensures no_read_fault { (result ≡ Status.ReadFault → ⊥)
        → S.faults source.new ≡ S.faults source.old }
    ensures write_fault { result ≡ Status.WriteFault
        → HasRisen (K.faults sink.old) (K.faults sink.new) }
    ensures no_write_fault { (result ≡ Status.WriteFault → ⊥)
        → K.faults sink.new ≡ K.faults sink.old }
{
    match Command::from_words(words) {
        None => Status::Usage,
        Some(command) => carry_out(alloc, command, source, sink),
    }
}

/// Does what the words say: on `build`, writes a line for each request of the document that the source holds; on `generate N`, a
/// line that sums up N generated requests; on `read D`, a line with the text that the source holds, as its tree is written; on `audit D`, a
/// line for each text of the source, with the tables and columns that it uses; on `guard`, a line for each request of the document that
/// the source holds, its statement restricted to the rows of the document's tenant; and on `tenant` so, its statement guarded by the
/// document's policies.
pub fn run<S: Source, K: Sink>(
    alloc: Global,
    words: &[String],
    source: &mut S,
    sink: &mut K,
) -> Status
    // The words are a command where they are its own: `build`, `generate N`, `read D`, `audit D`, `guard`, `tenant`.
    ensures command { (given : List (List ℕ)) (c : Command) → (command_of given ≡ Some c)
        ↔ AreWordsOf c given }
    // On Done the command was carried out. On `build` the source was read to its end, its bytes were a document, and what was
    // written is that document's output. The output has a line for each request, in order: with the first rule that the request's
    // statement breaks, or with a text whose only reading is the statement's normal tree, whose k-th placeholder stands for the
    // k-th value beside it, and whose column paths each name one source. On `read D` the source was read to its end, its bytes
    // were a text, and the line is of the text's only reading in D, or says that it has none. On `audit D` they were a schema and
    // texts, and there is a line for each text, in order: of its report, by its only reading, or of the first refusal that holds.
    // On `guard` they were a document with a tenant, and there is a line for each request, in order: as on `build` of the
    // request's statement with the tenant's predicate beside each leaf of its table, or of the first refusal that holds.
    // On `tenant` they were a document with policies, and so is each line: of the request's statement with each predicate beside
    // each leaf of its table, in subselects too, or of the first refusal that holds.
    // On `generate N` the line is the summary of the N generated requests.
    ensures headline { result ≡ Status.Done → IfSome (S.left source.old) (λ input.
        (c : Command) × (command_of (map string_bytes words.now) ≡ Some c)
        × IsDone c input (IsAtEnd (S.left source.new))
        (λ text. Appends (K.held sink.old) (K.held sink.new) text)) }
    // The output of a command for given bytes is one text.
    ensures one_answer { (c : Command) (given a b : List ℕ) → IsOutputOf c given a
        → IsOutputOf c given b → a ≡ b }
    // A document has at most one output, and the output of its first requests is a prefix of it.
    ensures one_output { (d : DocumentTree) (a b : List ℕ) → IsOutput d a → IsOutput d b → a ≡ b }
    ensures prefix { (d : DocumentTree) (start whole : List ℕ) → IsOutputPrefix d start
        → IsOutput d whole
        → (rest : List ℕ) × (whole ≡ start ++ rest) }
    // So many generated requests have one summary, and a text has one line.
    ensures one_summary { (n : ℕ) (a b : List ℕ) → IsSummary n a → IsSummary n b → a ≡ b }
    ensures one_line { (d : Dialect) (text a b : List ℕ) → IsReadingLine d text a
        → IsReadingLine d text b → a ≡ b }
    // Of two lines of one id, what was prepared for the one statement serves for the other.
    ensures one_id { (schema : Declarations) (rs : List StatementRequest) (ls : List Line)
        → AreLines schema [] rs ls → OneIdServes ls }
    // Two lines of one dialect and of statements of one shape have one id, or both have none.
    ensures one_shape { (schema : Declarations) (rs : List StatementRequest) (ls : List Line)
        → AreLines schema [] rs ls → OneShapeOneId ls }
    // The status says this of the bytes that were given and written in this call.
    ensures outcome { (given written : List ℕ)
        × Took result (S.left source.old) (S.left source.new) given
        × Appends (K.held sink.old) (K.held sink.new) written
        × Outcome result (command_of (map string_bytes words.now)) given written
        (IsAtEnd (S.left source.new)) }
    // Usage exactly where the words are no command. Then neither object was touched.
    ensures usage { (result ≡ Status.Usage) ↔ (command_of (map string_bytes words.now) ≡ None) }
    ensures untouched { result ≡ Status.Usage → (source.new ≡ source.old) × (sink.new ≡ sink.old) }
    // Without a command, and on `generate N`, nothing is read.
    ensures unread { run_reads (command_of (map string_bytes words.now)) ≡ false
        → source.new ≡ source.old }
    // TooLarge exactly where more than the limit was given.
    ensures too_large { IfSome (S.left source.old) (λ input. IfSome (S.left source.new) (λ rest.
        (result ≡ Status.TooLarge) ↔ (greatest_input + length rest < length input))) }
    // Only a run that is done, failed to write or ran out of memory has written.
    ensures nothing { may_write result ≡ false → Keeps (K.held sink.old) (K.held sink.new) }
    // A run ends with a fault only where its object counted one, and ends so where an object counted one.
    ensures read_fault { result ≡ Status.ReadFault
        → HasRisen (S.faults source.old) (S.faults source.new) }
    ensures write_fault { result ≡ Status.WriteFault
        → HasRisen (K.faults sink.old) (K.faults sink.new) }
    ensures source_failed { S.faults source.old < S.faults source.new → result ≡ Status.ReadFault }
    ensures sink_failed { K.faults sink.old < K.faults sink.new → result ≡ Status.WriteFault }
    // Words and bytes determine the status, unless an object fails or memory runs out.
    ensures decided { IfSome (S.left source.old) (λ input.
        (result ≡ status_of (command_of (map string_bytes words.now)) input)
        ⊎ ((result ≡ Status.ReadFault)
        ⊎ ((result ≡ Status.WriteFault) ⊎ (result ≡ Status.NoMemory)))) }
    // Where no fault was counted, they determine it unless memory runs out.
    ensures complete { IfSome (S.left source.old) (λ input.
        ¬ HasRisen (S.faults source.old) (S.faults source.new)
        → ¬ HasRisen (K.faults sink.old) (K.faults sink.new)
        → (result ≡ Status.NoMemory)
        ⊎ (result ≡ status_of (command_of (map string_bytes words.now)) input)) }
{
    perform(alloc, words, source, sink)
}
