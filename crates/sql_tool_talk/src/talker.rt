ghost use Rattle.std.specs.Prelude.{◌≡◌, ◌≤◌, ◌++◌, List, ℕ, [], Option, None, IfOk, length};
ghost use Rattle.sql_tool_run.specs.Limits.{greatest_input};
ghost use Rattle.sql_tool_talk.specs.Talk.{Opened, after, asking_of, error_in, kept_after};
ghost use Rattle.sql_tool_talk.specs.inside.Talkers.{IsAnew, IsRemark, Knows, Told};

use crate::remark::{Remark, answer_text};
use crate::reset::is_reset;
use sql_tool_lines::Listener;
use sql_tool_run::{LIMIT, Status};
use sql_tool_session::{Capacity, Responder};
use std::alloc::{AllocError, Global};

/// Answers lines over one session, which the first line that is a document opens.
#[derive(Drop)]
pub(crate) struct Talker {
    responder: Responder,
}

/// The remark on a call that ended so. Without a session after `NoMemory`, memory has run out. Lines are never too large for a call.
fn remark(responder: &Responder, status: Status) -> Result<Option<Remark>, AllocError>
    ensures { IfOk result (λ said. IsRemark status responder.now.session said) }
{
    match status {
        Status::Done => Ok(None),
        Status::BadDocument => Ok(Some(Remark::BadDocument)),
        Status::NoMemory if responder.has_session() => Ok(Some(Remark::TooDeep)),
        _ => Err(AllocError),
    }
}

/// Opens a session by the line, and answers its requests.
fn open(alloc: Global, responder: &mut Responder, line: &[u8]) -> Result<Option<Remark>, AllocError>
    requires { length line.now ≤ greatest_input }
    ensures { IfOk result (λ said. (said ≡ error_in None line.now)
        × Knows responder.new (after None line.now) responder.new.answer.items) }
{
    let status = responder.open(alloc, Capacity::usual(), line);
    remark(responder, status)
}

/// Has the session begin anew, where the line, which is no such document, asks for it.
fn begin_anew(
    alloc: Global,
    responder: &mut Responder,
    line: &[u8],
) -> Result<Option<Remark>, AllocError>
    ensures { IfOk result (λ said. IsAnew line.now responder.old responder.new said) }
{
    if is_reset(alloc, line)? {
        responder.reset(alloc);
        return Ok(None);
    }
    Ok(Some(Remark::BadDocument))
}

/// Answers the line's requests over the session, or opens one where there is none, or has it begin anew.
fn go_on(
    alloc: Global,
    responder: &mut Responder,
    line: &[u8],
) -> Result<Option<Remark>, AllocError>
    requires { length line.now ≤ greatest_input }
    ensures { IfOk result (λ said. (o : Option Opened) (output : List ℕ)
        → Knows responder.old o output → (said ≡ error_in o line.now)
        × Knows responder.new (after o line.now)
        (kept_after o line.now output ++ responder.new.answer.items)) }
{
    match responder.next(alloc, line) {
        Status::Usage => open(alloc, responder, line),
        Status::BadDocument => begin_anew(alloc, responder, line),
        status => remark(responder, status),
    }
}

impl Talker {
    /// One that waits for its first line.
    pub(crate) fn new(alloc: Global) -> Talker
        ensures { Knows result.responder None [] }
    {
        Talker {
            responder: Responder::new(alloc),
        }
    }
}

impl Listener for Talker {
    ghost Answers = { λ _ now lines text. Told now.responder lines text };

    ghost LIMIT = { 16777216 };

    const LIMIT: usize = LIMIT;

    fn hear(&mut self, alloc: Global, line: &[u8]) -> Result<Vec<u8>, AllocError> {
        let remark = go_on(alloc, &mut self.responder, line)?;
        answer_text(alloc, self.responder.answer().as_slice(), remark)
    }

    fn hear_long(&mut self, alloc: Global) -> Result<Vec<u8>, AllocError> {
        answer_text(alloc, &[], Some(Remark::TooLarge))
    }
}
