ghost use Rattle.std.specs.Prelude.{◌≡◌, ◌<◌, ◌≤◌, ◌+◌, ◌^◌, ◌∷◌, ◌++◌, List, ℕ, [], length, take, drop, IfErr, IfOk, OnOk, IfSome, None};
ghost use Rattle.sql_tool_stream.specs.Causes.{HasRisen};
ghost use Rattle.sql_tool_lines.specs.Conversation.{Conversed, Moves};
ghost use Rattle.sql_tool_lines.specs.Lines.{ended_after, last_line, unended_after};
ghost use Rattle.sql_tool_lines.specs.Turns.{Adds, AreWrites, Event};
ghost use Rattle.sql_tool_lines.specs.inside.Parts.{Holds, MovesSome};
ghost use Rattle.sql_tool_lines.specs.declared.listener.Stop.TheVariants as stop;

use crate::listener::{Listener, Stop};
use crate::part::Part;
use crate::peer::Peer;
use crate::writing::write_all;
use sql_tool_stream::Failed;
use std::alloc::{AllocError, Global};

/// How many bytes are read at once, at most.
const PIECE: usize = 65536;

/// The bytes before this index.
fn before(bytes: &[u8], end: usize) -> &[u8]
    requires { end ≤ length bytes.now }
    ensures { result.now ≡ take end bytes.now }
{
    &bytes[..end]
}

/// The bytes after the one at this index.
#[tactic(auto, using(std::proofs::lemmas::List::take_rest))]
fn after(bytes: &[u8], end: usize) -> &[u8]
    requires within { end < length bytes.now }
    requires fits { end + 1 < 2 ^ 64 }
    ensures rest { result.now ≡ drop (end + 1) bytes.now }
    ensures shorter { length result.now < length bytes.now }
{
    &bytes[end + 1..]
}

/// Where the first line of the bytes ends.
fn line_end(bytes: &[u8]) -> Option<usize>
    ensures bound { IfSome result (λ i. i + 1 < 2 ^ 64) }
    ensures found { IfSome result (λ i. (i < length bytes.now) × ((begun : List ℕ)
        → (ended_after begun bytes.now
        ≡ (begun ++ take i bytes.now) ∷ ended_after [] (drop (i + 1) bytes.now))
        × (unended_after begun bytes.now ≡ unended_after [] (drop (i + 1) bytes.now)))) }
    ensures none { result ≡ None → (begun : List ℕ) → (ended_after begun bytes.now ≡ [])
        × (unended_after begun bytes.now ≡ begun ++ bytes.now) }
{
    for (index, byte) in bytes.iter().enumerate() {
        if *byte == b'\n' {
            return Some(index);
        }
    }
    None
}

/// The answer to the line that has ended.
fn heard<L: Listener>(alloc: Global, listener: &mut L, part: &Part) -> Result<Vec<u8>, AllocError>
    requires { (line : List ℕ) × Holds L.LIMIT part.now line }
    ensures { IfOk result (λ text. (line : List ℕ) → Holds L.LIMIT part.now line
        → Moves L.Answers listener.old listener.new (line ∷ []) text.items) }
{
    if part.is_long {
        return listener.hear_long(alloc);
    }
    listener.hear(alloc, part.bytes.as_slice())
}

/// Answers the line that has ended, and begins the next one.
fn answer<P: Peer, L: Listener>(
    alloc: Global,
    peer: &mut P,
    listener: &mut L,
    part: &mut Part,
) -> Result<(), Stop>
    requires { (line : List ℕ) × Holds L.LIMIT part.now line }
    ensures answered { OnOk result ((es : List Event) × (text : List ℕ)
        × Adds (P.history peer.old) (P.history peer.new) es × AreWrites es text
        × Holds L.LIMIT part.new []
        × ((line : List ℕ) → Holds L.LIMIT part.old line
        → Moves L.Answers listener.old listener.new (line ∷ []) text)) }
    ensures stopped { IfErr result (λ e. (es : List Event) × (text : List ℕ)
        × Adds (P.history peer.old) (P.history peer.new) es × AreWrites es text
        × ((line : List ℕ) → Holds L.LIMIT part.old line
        → MovesSome L.Answers listener.old (line ∷ []) text e)) }
    ensures write_fault { IfErr result (λ e. e ≡ stop.WriteFault
        → HasRisen (P.write_faults peer.old) (P.write_faults peer.new)) }
    ensures no_write_fault { (result ≡ Err stop.WriteFault → ⊥)
        → P.write_faults peer.new ≡ P.write_faults peer.old }
    ensures other { P.read_faults peer.new ≡ P.read_faults peer.old }
{
    let Ok(text) = heard(alloc, listener, part) else {
        return Err(Stop::NoMemory);
    };
    part.clear();
    match write_all(peer, text.as_slice()) {
        Ok(()) => Ok(()),
        Err(Failed) => Err(Stop::WriteFault),
    }
}

/// Answers the lines that end in the piece, and keeps what comes after them.
fn take_in<P: Peer, L: Listener>(
    alloc: Global,
    peer: &mut P,
    listener: &mut L,
    part: &mut Part,
    piece: &[u8],
) -> Result<(), Stop>
    requires { (line : List ℕ) × Holds L.LIMIT part.now line }
    ensures answered { OnOk result ((es : List Event) × (text : List ℕ)
        × Adds (P.history peer.old) (P.history peer.new) es × AreWrites es text
        × ((begun : List ℕ) → Holds L.LIMIT part.old begun
        → Holds L.LIMIT part.new (unended_after begun piece.now)
        × Moves L.Answers listener.old listener.new (ended_after begun piece.now) text)) }
    ensures stopped { IfErr result (λ e. (es : List Event) × (text : List ℕ)
        × Adds (P.history peer.old) (P.history peer.new) es × AreWrites es text
        × ((begun : List ℕ) → Holds L.LIMIT part.old begun
        → MovesSome L.Answers listener.old (ended_after begun piece.now) text e)) }
    ensures write_fault { IfErr result (λ e. e ≡ stop.WriteFault
        → HasRisen (P.write_faults peer.old) (P.write_faults peer.new)) }
    ensures no_write_fault { (result ≡ Err stop.WriteFault → ⊥)
        → P.write_faults peer.new ≡ P.write_faults peer.old }
    ensures other { P.read_faults peer.new ≡ P.read_faults peer.old }
{
    let mut rest = piece;
    while let Some(end) = line_end(rest) {
        let Ok(()) = part.extend(before(rest, end), L::LIMIT) else {
            return Err(Stop::NoMemory);
        };
        match answer(alloc, peer, listener, part) {
            Ok(()) => rest = after(rest, end),
            Err(stop) => return Err(stop),
        }
    }
    match part.extend(rest, L::LIMIT) {
        Ok(()) => Ok(()),
        Err(AllocError) => Err(Stop::NoMemory),
    }
}

/// Answers the last line, where it lacks its end.
fn finish<P: Peer, L: Listener>(
    alloc: Global,
    peer: &mut P,
    listener: &mut L,
    part: &mut Part,
) -> Result<(), Stop>
    requires { (line : List ℕ) × Holds L.LIMIT part.now line }
    ensures answered { OnOk result ((es : List Event) × (text : List ℕ)
        × Adds (P.history peer.old) (P.history peer.new) es × AreWrites es text
        × ((line : List ℕ) → Holds L.LIMIT part.old line
        → Moves L.Answers listener.old listener.new (last_line line) text)) }
    ensures stopped { IfErr result (λ e. (es : List Event) × (text : List ℕ)
        × Adds (P.history peer.old) (P.history peer.new) es × AreWrites es text
        × ((line : List ℕ) → Holds L.LIMIT part.old line
        → MovesSome L.Answers listener.old (last_line line) text e)) }
    ensures write_fault { IfErr result (λ e. e ≡ stop.WriteFault
        → HasRisen (P.write_faults peer.old) (P.write_faults peer.new)) }
    ensures no_write_fault { (result ≡ Err stop.WriteFault → ⊥)
        → P.write_faults peer.new ≡ P.write_faults peer.old }
    ensures other { P.read_faults peer.new ≡ P.read_faults peer.old }
{
    if part.is_empty() {
        return Ok(());
    }
    answer(alloc, peer, listener, part)
}

/// Answers each line of the peer before the next read, until the peer is at its end. Byte 10 ends a line, and the last line may lack it. A
/// line may have `L::LIMIT` bytes; one with more is answered too, by what the listener says to such a line. Memory is bounded by the
/// longest line and its answer.
///
/// It stops early where a read or a write fails or memory runs out: then some of the lines are answered, in order, the last one in part
/// only where a write failed.
pub fn converse<P: Peer, L: Listener>(
    alloc: Global,
    peer: &mut P,
    listener: &mut L,
) -> Result<(), Stop>
    // Before the first line no line is answered, by no text.
    requires { L.Answers listener.now listener.now [] [] }
    // At each read, each line that has ended is answered, by what was written until then, and no more. In the end each line is.
    ensures conversed { (es : List Event) × Adds (P.history peer.old) (P.history peer.new) es
        × Conversed (λ lines text. (state : L) × L.Answers listener.old state lines text)
        (λ lines text. L.Answers listener.old listener.new lines text) es result }
    // It stops for a fault only where the peer counted one, and does where the peer counted one.
    ensures read_fault { result ≡ Err stop.ReadFault
        → HasRisen (P.read_faults peer.old) (P.read_faults peer.new) }
    ensures write_fault { result ≡ Err stop.WriteFault
        → HasRisen (P.write_faults peer.old) (P.write_faults peer.new) }
    ensures no_read_fault { (result ≡ Err stop.ReadFault → ⊥)
        → P.read_faults peer.new ≡ P.read_faults peer.old }
    ensures no_write_fault { (result ≡ Err stop.WriteFault → ⊥)
        → P.write_faults peer.new ≡ P.write_faults peer.old }
{
    let mut part = Part::new(alloc);
    let mut piece = [0u8; PIECE];
    for _ in 0..u64::MAX {
        let Ok(count) = peer.read(&mut piece) else {
            return Err(Stop::ReadFault);
        };
        if count == 0 {
            return finish(alloc, peer, listener, &mut part);
        }
        match take_in(alloc, peer, listener, &mut part, before(&piece, count)) {
            Ok(()) => {}
            Err(stop) => return Err(stop),
        }
    }
    Err(Stop::NoMemory)
}
