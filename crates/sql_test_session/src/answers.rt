//! Tests of a command's answers over bytes in memory.

ghost use Rattle.std.specs.Prelude.{◌≡◌, true};
ghost use Rattle.sql_tool_run.specs.Command.{reads_source};

use crate::examples::{AUDITED, FILTER, FILTERED, GUARD, GUARDED, NOTHING, READ, TEXT, TEXTS};
use sql_test_kit::is;
use sql_tool_session::{Command, Dialect, Status, answer};
use std::alloc::{AllocError, Global};
use std::test::Fail;

fn answers(alloc: Global, command: Command, input: &str, wanted: &str) -> Result<(), Fail>
    requires { reads_source command ≡ true }
{
    let reply = answer(alloc, command, input.as_bytes());
    is(reply.status == Status::Done, reply.status.name())?;
    is(reply.lines.as_slice() == wanted.as_bytes(), "other lines")
}

/// The document of 38 bytes that asks for nothing, and spaces after it: 16777217 bytes, one more than an input may have.
pub(crate) fn too_large(alloc: Global) -> Result<Vec<u8>, AllocError> {
    let spaces = vec![in alloc; b' '; 16777179]?;
    let mut bytes = Vec::from_slice(alloc, NOTHING.as_bytes())?;
    bytes.extend_from_slice(spaces.as_slice())?;
    Ok(bytes)
}

fn build_ends(alloc: Global, input: &[u8], wanted: Status) -> Result<(), Fail> {
    let reply = answer(alloc, Command::Build, input);
    is(reply.status == wanted, wanted.name())?;
    is(reply.lines.is_empty(), "lines")
}

#[test]
fn each_command(rt: HostRuntime) -> Result<(), Fail> {
    let alloc = rt.alloc();
    answers(alloc, Command::Build, FILTER, FILTERED)?;
    answers(alloc, Command::Guard, GUARD, GUARDED)?;
    answers(alloc, Command::Read(Dialect::Pg), TEXT, READ)?;
    answers(alloc, Command::Audit(Dialect::Pg), TEXTS, AUDITED)?;
    answers(alloc, Command::Build, NOTHING, "")
}

#[test]
fn no_documents(rt: HostRuntime) -> Result<(), Fail> {
    let alloc = rt.alloc();
    build_ends(alloc, b"{", Status::BadDocument)?;
    build_ends(alloc, too_large(alloc)?.as_slice(), Status::TooLarge)
}
