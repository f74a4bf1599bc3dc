//! Conversations over lines, and a listener of them.

ghost use Rattle.std.specs.Prelude.{ℕ, List};

use crate::conversations::two_lines;
use sql_test_kit::is;
use sql_tool_lines::{Listener, converse};
use sql_tool_session::Status;
use sql_tool_talk::{ending, talk};
use std::alloc::{AllocError, Global};
use std::test::Fail;

/// Answers a line by itself.
#[derive(Drop)]
struct Echo {}

impl Listener for Echo {
    ghost Answers = { λ _ _ _ _. Unit {0} };

    ghost LIMIT = { 4 };

    const LIMIT: usize = 4;

    fn hear(&mut self, alloc: Global, line: &[u8]) -> Result<Vec<u8>, AllocError> {
        Vec::from_slice(alloc, line)
    }

    fn hear_long(&mut self, alloc: Global) -> Result<Vec<u8>, AllocError> {
        Vec::from_slice(alloc, b"long")
    }
}

pub(crate) fn every_call(alloc: Global) -> Result<(), Fail> {
    let mut first = two_lines(alloc, 0, 0)?;
    let status = ending(talk(alloc, &mut first));
    drop(first);
    is(status == Status::Done, status.name())?;
    let mut echo = Echo {};
    let line = Listener::hear(&mut echo, alloc, b"line")?;
    is(line.as_slice() == b"line".as_slice(), "a line")?;
    let long = Listener::hear_long(&mut echo, alloc)?;
    is(long.as_slice() == b"long".as_slice(), "a long line")?;
    let mut second = two_lines(alloc, 0, 0)?;
    let status = ending(converse(alloc, &mut second, &mut echo));
    drop(second);
    is(status == Status::Done, status.name())
}
