ghost use Rattle.std.specs.Prelude.{◌≡◌, ◌++◌, List, ℕ, OnOk, OnErr, if◌then◌else◌};
ghost use Rattle.std.specs.Io.KnownBytes.{Appends};
ghost use Rattle.sql_tool_stream.specs.Causes.{HasCause};

use crate::outside::{Failed, PIECE, Sink};

/// Writes the whole text, or a prefix of it where the sink fails.
pub fn write_all<K: Sink>(sink: &mut K, text: &[u8]) -> Result<(), Failed>
    ensures all { OnOk result (Appends (K.held sink.old) (K.held sink.new) text.now) }
    ensures prefix { OnErr result ((done rest : List ℕ) × (text.now ≡ done ++ rest)
        × Appends (K.held sink.old) (K.held sink.new) done) }
    ensures cause { HasCause (K.faults sink.old) (K.faults sink.new) result }
{
    let mut rest = text;
    while !rest.is_empty() {
        let count = sink.write(rest)?;
        rest = &rest[count..];
    }
    Ok(())
}

/// Adds the text to the bytes that are pending, where there are few enough and there is memory for them.
fn is_added(pending: &mut Vec<u8>, text: &[u8]) -> bool
    ensures { pending.new.items
        ≡ (if result then pending.old.items ++ text.now else pending.old.items) }
{
    let room = PIECE.saturating_sub(pending.len());
    if text.len() > room {
        return false;
    }
    pending.extend_from_slice(text).is_ok()
}

/// Writes a text after the bytes that are pending, or adds it to them. Texts are pending until they are 64 kilobytes, so that many short
/// texts take few writes: the caller writes what is pending in the end. Where there is no memory for more, all is written. Where the sink
/// fails, it holds a prefix of what was pending and the text.
pub fn write_pending<K: Sink>(
    sink: &mut K,
    pending: &mut Vec<u8>,
    text: &[u8],
) -> Result<(), Failed>
    ensures all { OnOk result ((done : List ℕ)
        × (pending.old.items ++ text.now ≡ done ++ pending.new.items)
        × Appends (K.held sink.old) (K.held sink.new) done) }
    ensures prefix { OnErr result ((done rest : List ℕ)
        × (pending.old.items ++ text.now ≡ done ++ rest)
        × Appends (K.held sink.old) (K.held sink.new) done) }
    ensures cause { HasCause (K.faults sink.old) (K.faults sink.new) result }
{
    if is_added(pending, text) {
        return Ok(());
    }
    write_all(sink, pending.as_slice())?;
    pending.clear();
    write_all(sink, text)
}
