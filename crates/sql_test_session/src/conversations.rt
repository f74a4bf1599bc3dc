//! Conversations with a peer that gives and takes few bytes at once, and whose reads or writes fail.

ghost use Rattle.std.specs.Prelude.{◌^◌, ◌-◌, None};

use crate::examples::{FILTER, FILTERED};
use sql_test_kit::is;
use sql_tool_stream::Failed;
use sql_tool_talk::{Peer, Stop, talk};
use std::alloc::Global;
use std::test::Fail;

/// Gives the input a byte at a time, and fails at the read or the write with this number, from 1. It takes a byte at a time.
#[derive(Drop)]
pub(crate) struct Script {
    input: Vec<u8>,
    reads: usize,
    writes: usize,
    failing_read: usize,
    failing_write: usize,
    written: Vec<u8>,
    /// Whether a read came while a line that had ended was not answered.
    is_late: bool,
}

/// How many lines end in the bytes.
fn ends(bytes: &[u8]) -> usize {
    bytes.iter().filter(|byte| **byte == b'\n').count()
}

impl Peer for Script {
    ghost history = { λ _. None };

    ghost read_faults = { λ _. 2 ^ 64 - 1 };

    ghost write_faults = { λ _. 2 ^ 64 - 1 };

    fn read(&mut self, out: &mut [u8]) -> Result<usize, Failed> {
        let given = self.input.get(..self.reads).unwrap_or(&[]);
        // Each line of the input has one request, or is the last: an answer ends two lines.
        if ends(&self.written) < ends(given).saturating_mul(2) {
            self.is_late = true;
        }
        let next = self.input.get(self.reads).copied();
        self.reads = self.reads.saturating_add(1);
        if self.reads == self.failing_read {
            return Err(Failed);
        }
        match (next, out.first_mut()) {
            (Some(byte), Some(first)) => {
                *first = byte;
                Ok(1)
            }
            _ => Ok(0),
        }
    }

    fn write(&mut self, piece: &[u8]) -> Result<usize, Failed> {
        self.writes = self.writes.saturating_add(1);
        let Some(byte) = piece.first() else {
            return Ok(0);
        };
        if self.writes == self.failing_write || self.written.push(*byte).is_err() {
            return Err(Failed);
        }
        Ok(1)
    }
}

/// The filter's document, as a line, and a line that is none.
pub(crate) fn two_lines(
    alloc: Global,
    failing_read: usize,
    failing_write: usize,
) -> Result<Script, Fail> {
    let mut input = Vec::from_slice(alloc, FILTER.as_bytes())?;
    input.extend_from_slice(b"\nx")?;
    Ok(Script {
        input,
        reads: 0,
        writes: 0,
        failing_read,
        failing_write,
        written: Vec::new(alloc),
        is_late: false,
    })
}

fn has_written(script: &Script, more: &str) -> Result<(), Fail> {
    is(!script.is_late, "a read before an answer")?;
    is(
        script.written.starts_with(FILTERED.as_bytes()),
        "the first answer",
    )?;
    let rest = script.written.get(FILTERED.len()..).unwrap_or(&[]);
    is(rest == more.as_bytes(), "the rest")
}

#[test]
fn a_byte_at_a_time(rt: HostRuntime) -> Result<(), Fail> {
    let alloc = rt.alloc();
    let mut script = two_lines(alloc, 0, 0)?;
    is(talk(alloc, &mut script) == Ok(()), "not done")?;
    has_written(&script, "\n{\"error\":\"BadDocument\"}\n\n")
}

#[test]
fn a_read_fails(rt: HostRuntime) -> Result<(), Fail> {
    let alloc = rt.alloc();
    let mut script = two_lines(alloc, FILTER.len() + 2, 0)?;
    is(
        talk(alloc, &mut script) == Err(Stop::ReadFault),
        "no fault of a read",
    )?;
    has_written(&script, "\n")
}

#[test]
fn a_write_fails(rt: HostRuntime) -> Result<(), Fail> {
    let alloc = rt.alloc();
    let mut script = two_lines(alloc, 0, FILTERED.len() + 5)?;
    is(
        talk(alloc, &mut script) == Err(Stop::WriteFault),
        "no fault of a write",
    )?;
    has_written(&script, "\n{\"e")
}
