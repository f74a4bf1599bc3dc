ghost use Rattle.std.specs.Prelude.{◌≡◌, ◌↔◌, ◌<◌, ◌≤◌, List, ℕ, length, IfOk, IfErr, OnOk};
ghost use Rattle.std.specs.Io.KnownBytes.{Consumes, IsAtEnd};
ghost use Rattle.sql_tool_stream.specs.Causes.{HasCause, HasRisen};
ghost use Rattle.sql_tool_stream.specs.Reading.{Gives};
ghost use Rattle.sql_tool_stream.specs.declared.reading.ReadError.TheVariants.{NoMemory, Fault, TooLarge};

use crate::outside::{Failed, PIECE, Source};
use std::alloc::{AllocError, Global};

/// Why not all was read.
#[derive(Debug, Clone, Copy, PartialEq, Eq)]
pub enum ReadError {
    NoMemory,
    /// The source failed.
    Fault,
    /// It gave more bytes than were allowed.
    TooLarge,
}

impl From<AllocError> for ReadError {
    ghost from_gives = { λ _ e. e ≡ NoMemory };

    fn from(_: AllocError) -> ReadError {
        ReadError::NoMemory
    }
}

impl From<Failed> for ReadError {
    ghost from_gives = { λ _ e. e ≡ Fault };

    fn from(_: Failed) -> ReadError {
        ReadError::Fault
    }
}

/// All that the source gives, to its end, where that is at most `limit` bytes.
pub fn read_all<S: Source>(
    alloc: Global,
    source: &mut S,
    limit: usize,
) -> Result<Vec<u8>, ReadError>
    ensures all { IfOk result (λ bytes. Consumes (S.left source.old) (S.left source.new) bytes.items
        × IsAtEnd (S.left source.new) × (length bytes.items ≤ limit)) }
    // The bytes that the source had given before an error are more than the limit exactly where that is the error. The bytes
    // after them are left, but for those that a failed read may lose.
    ensures given { IfErr result (λ e. (given : List ℕ)
        × Gives (S.left source.old) (S.left source.new) given
        × ((e ≡ Fault → ⊥) → Consumes (S.left source.old) (S.left source.new) given)
        × ((e ≡ TooLarge) ↔ (limit < length given))) }
    ensures fault { IfErr result (λ e. e ≡ Fault
        → HasRisen (S.faults source.old) (S.faults source.new)) }
    ensures no_fault { IfErr result (λ e. (e ≡ Fault → ⊥)
        → S.faults source.new ≡ S.faults source.old) }
    ensures ok { OnOk result (S.faults source.new ≡ S.faults source.old) }
{
    let mut bytes = Vec::new(alloc);
    let mut piece = [0u8; PIECE];
    loop {
        let count = source.read(&mut piece)?;
        if count == 0 {
            return Ok(bytes);
        }
        if count > limit - bytes.len() {
            return Err(ReadError::TooLarge);
        }
        bytes.extend_from_slice(&piece[..count])?;
    }
}
