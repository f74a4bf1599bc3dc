ghost use Rattle.std.specs.Prelude.{◌≡◌, ◌≤◌, ◌<◌, ◌^◌, ◌+◌, ◌-◌, ◌↔◌, drop, length, min, Some, IfOk, OnErr, IsErr, Contains, ◌⊎◌, []};
ghost use Rattle.std.specs.Io.{ReadsAtMost, WritesAtMost};
ghost use Rattle.std.specs.Io.KnownBytes.{WriteAppends};
ghost use Rattle.sql_tool_stream.specs.Causes.{HasCause};
ghost use Rattle.sql_tool_stream.specs.Memory.{counted};
ghost use Rattle.sql_tool_stream.specs.Reading.{Reads};

use crate::outside::{Failed, Sink, Source, give};
use std::alloc::{AllocError, Global};
use std::marker::Model;
use std::num::NonZeroUsize;

/// A source over memory, which gives at most `piece` bytes a call and fails at the calls that `failing` names.
#[derive(Debug, Drop)]
pub struct MemorySource {
    bytes: Vec<u8>,
    at: usize,
    piece: NonZeroUsize,
    failing: Vec<u64>,
    calls: u64,
    faults: u64,
}

impl Model for MemorySource {
    ghost use Rattle.std.specs.Prelude.{◌≤◌, length, drop};
    ghost use Rattle.sql_tool_stream.specs.Memory.{Supply};

    ghost Value = { Supply };

    ghost view = { λ s. record {
      left = drop s.at s.bytes.items;
      piece = s.piece.value;
      failing = s.failing.items;
      calls = s.calls;
      faults = s.faults;
    } };

    ghost invariant = { λ s. s.at ≤ length s.bytes.items };
}

impl MemorySource {
    /// A source of these bytes. Calls are numbered from 1.
    pub fn new(bytes: Vec<u8>, piece: NonZeroUsize, failing: Vec<u64>) -> MemorySource
        ensures { result
            ≡ record {
              left = bytes.items;
              piece = piece.value;
              failing = failing.items;
              calls = 0;
              faults = 0;
            } }
    {
        MemorySource {
            bytes,
            at: 0,
            piece,
            failing,
            calls: 0,
            faults: 0,
        }
    }
}

impl Source for MemorySource {
    ghost left = { λ s. Some s.left };

    ghost faults = { λ s. s.faults };

    fn read(&mut self, out: &mut [u8]) -> Result<usize, Failed>
        ensures bound { ReadsAtMost result out.new }
        ensures bytes { Reads (Some self.old.left) (Some self.new.left) result out.new }
        ensures cause { HasCause self.old.faults self.new.faults result }
        // It fails at the calls that were named, and gives as much as it can at any other.
        ensures fails { IsErr result ↔ Contains self.old.failing (counted self.old.calls) }
        ensures count { IfOk result (λ n. n
            ≡ min (min (length self.old.left) (length out.old)) self.old.piece) }
        ensures ok { IfOk result (λ n. self.new
            ≡ record self.old { left = drop n self.old.left; calls = counted self.old.calls }) }
        ensures err { OnErr result
            (self.new
            ≡ record self.old {
              calls = counted self.old.calls;
              faults = counted self.old.faults;
            }) }
    {
        self.calls = self.calls.saturating_add(1);
        if self.failing.contains(&self.calls) {
            self.faults = self.faults.saturating_add(1);
            return Err(Failed);
        }
        let rest = &self.bytes[self.at..];
        let count = give(rest, out, self.piece.get());
        self.at += count;
        Ok(count)
    }
}

/// A sink over memory, which takes at most `piece` bytes a call and fails at the calls that `failing` names, and
/// where no room is left.
#[derive(Debug, Drop)]
pub struct MemorySink {
    bytes: Vec<u8>,
    room: usize,
    piece: NonZeroUsize,
    failing: Vec<u64>,
    calls: u64,
    faults: u64,
}

impl Model for MemorySink {
    ghost use Rattle.std.specs.Prelude.{◌≤◌, vec_capacity};
    ghost use Rattle.sql_tool_stream.specs.Memory.{Store};

    ghost Value = { Store };

    ghost view = { λ s. record {
      held = s.bytes.items;
      room = s.room;
      piece = s.piece.value;
      failing = s.failing.items;
      calls = s.calls;
      faults = s.faults;
    } };

    ghost invariant = { λ s. s.room ≤ vec_capacity s.bytes };
}

impl MemorySink {
    /// An empty sink, with its room reserved. Calls are numbered from 1.
    pub fn new(
        alloc: Global,
        room: usize,
        piece: NonZeroUsize,
        failing: Vec<u64>,
    ) -> Result<MemorySink, AllocError>
        ensures { IfOk result (λ sink. sink
            ≡ record {
              held = [];
              room = room;
              piece = piece.value;
              failing = failing.items;
              calls = 0;
              faults = 0;
            }) }
    {
        let bytes = Vec::with_capacity(alloc, room)?;
        Ok(MemorySink {
            bytes,
            room,
            piece,
            failing,
            calls: 0,
            faults: 0,
        })
    }

    /// Returns the bytes that the sink has taken.
    pub fn bytes(&self) -> &[u8]
        ensures { result.now ≡ self.now.held }
    {
        &self.bytes
    }
}

impl Sink for MemorySink {
    ghost held = { λ s. Some s.held };

    ghost faults = { λ s. s.faults };

    fn write(&mut self, piece: &[u8]) -> Result<usize, Failed>
        ensures bound { WritesAtMost result piece.now }
        ensures some { IfOk result (λ n. 0 < length piece.now → 0 < n) }
        ensures bytes { WriteAppends (Some self.old.held) (Some self.new.held) result piece.now }
        ensures cause { HasCause self.old.faults self.new.faults result }
        // It fails at the calls that were named, and at a piece that isn't empty where no room is left.
        ensures fails { IsErr result ↔ (Contains self.old.failing (counted self.old.calls)
            ⊎ ((0 < length piece.now) × (self.old.room ≤ length self.old.held))) }
        ensures count { IfOk result (λ n. n
            ≡ min (min (length piece.now) (self.old.room - length self.old.held)) self.old.piece) }
        ensures ok { IfOk result (λ n. self.new
            ≡ record self.old { held = self.new.held; calls = counted self.old.calls }) }
        ensures err { OnErr result
            (self.new
            ≡ record self.old {
              calls = counted self.old.calls;
              faults = counted self.old.faults;
            }) }
    {
        self.calls = self.calls.saturating_add(1);
        if self.failing.contains(&self.calls) {
            self.faults = self.faults.saturating_add(1);
            return Err(Failed);
        }
        let left = self.room.saturating_sub(self.bytes.len());
        let count = piece.len().min(left).min(self.piece.get());
        if count == 0 && !piece.is_empty() {
            self.faults = self.faults.saturating_add(1);
            return Err(Failed);
        }
        match self.bytes.extend_from_slice(&piece[..count]) {
            Ok(()) => Ok(count),
            Err(_) => {
                self.faults = self.faults.saturating_add(1);
                Err(Failed)
            }
        }
    }
}
