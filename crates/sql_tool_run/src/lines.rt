ghost use Rattle.std.specs.Prelude.{◌≡◌, ◌+◌, ◌++◌, ◌∷◌, List, ℕ, IfOk, OnOk, OnErr, IfErr, [], length, string_bytes};
ghost use Rattle.std.specs.Io.KnownBytes.{Appends};
ghost use Rattle.sql_tool_stream.specs.Causes.{HasRisen};
ghost use Rattle.sql_tool_run.specs.inside.Responses.{WroteLines, WroteSome};
ghost use Rattle.sql_tool_run.specs.declared.status.Status.{Status};
ghost use Rattle.sql_tool_run.specs.declared.lines.WriteError.TheVariants.{Fault, Memory};

use crate::status::Status;
use sql_tool_stream::{Failed, Sink, write_all, write_pending};
use std::alloc::{AllocError, Global};

/// Why not all was written.
#[derive(Debug, Clone, Copy, PartialEq, Eq)]
enum WriteError {
    Memory,
    Fault,
}

impl From<AllocError> for WriteError {
    ghost from_gives = { λ _ e. e ≡ Memory };

    fn from(_: AllocError) -> WriteError {
        WriteError::Memory
    }
}

impl From<Failed> for WriteError {
    ghost from_gives = { λ _ e. e ≡ Fault };

    fn from(_: Failed) -> WriteError {
        WriteError::Fault
    }
}

/// Makes the lines of items, one after the other.
pub(crate) trait Lines {
    /// The type of the items that have lines.
    type Item;

    /// Between these states, the lines of these items are this text.
    ghost HasLines: { Self → Self → List Self.Item → List ℕ → Type 0 };

    /// The line of the next item, which has this number, from 1.
    fn line(&mut self, alloc: Global, number: u64, item: &Self::Item) -> Result<String, AllocError>
        ensures { IfOk result (λ line. (first : Self) (items : List Self.Item) (text : List ℕ)
            → number ≡ 1 + length items → HasLines first self.old items text
            → HasLines first self.new (items ++ item.now ∷ []) (text ++ string_bytes line)) };
}

/// Writes the line of each of these items, in order, many at once. Where memory runs out, the lines before that are written.
fn write_each<L: Lines, K: Sink>(
    alloc: Global,
    lines: &mut L,
    items: &[L::Item],
    sink: &mut K,
) -> Result<(), WriteError>
    requires { L.HasLines lines.now lines.now [] [] }
    ensures all { OnOk result ((text : List ℕ) × L.HasLines lines.old lines.new items.now text
        × Appends (K.held sink.old) (K.held sink.new) text) }
    ensures prefix { OnErr result ((text : List ℕ) × WroteSome (L.HasLines lines.old) items.now text
        × Appends (K.held sink.old) (K.held sink.new) text) }
    ensures fault { IfErr result (λ e. e ≡ WriteError.Fault
        → HasRisen (K.faults sink.old) (K.faults sink.new)) }
    ensures no_fault { IfErr result (λ e. e ≡ WriteError.Memory
        → K.faults sink.new ≡ K.faults sink.old) }
    ensures ok { OnOk result (K.faults sink.new ≡ K.faults sink.old) }
{
    let mut pending = Vec::new(alloc);
    for (index, item) in items.iter().enumerate() {
        match lines.line(alloc, index as u64 + 1, item) {
            Ok(line) => write_pending(sink, &mut pending, line.as_bytes())?,
            Err(error) => {
                write_all(sink, pending.as_slice())?;
                return Err(WriteError::from(error));
            }
        }
    }
    write_all(sink, pending.as_slice())?;
    Ok(())
}

/// Writes the line of each of these items, in order.
pub(crate) fn write_lines<L: Lines, K: Sink>(
    alloc: Global,
    lines: &mut L,
    items: &[L::Item],
    sink: &mut K,
) -> Status
    requires { L.HasLines lines.now lines.now [] [] }
    ensures response { (written : List ℕ) × Appends (K.held sink.old) (K.held sink.new) written
        × WroteLines result (L.HasLines lines.old) items.now written }
    ensures fault { result ≡ Status.WriteFault → HasRisen (K.faults sink.old) (K.faults sink.new) }
    ensures no_fault { (result ≡ Status.WriteFault → ⊥) → K.faults sink.new ≡ K.faults sink.old }
{
    match write_each(alloc, lines, items, sink) {
        Ok(()) => Status::Done,
        Err(WriteError::Memory) => Status::NoMemory,
        Err(WriteError::Fault) => Status::WriteFault,
    }
}
