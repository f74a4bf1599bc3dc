ghost use Rattle.std.specs.Prelude.{◌≡◌, IfOk, IfErr, None, Some, option_map, false, true};
ghost use Rattle.hardieflax_c.specs.Handles.{IsAnew, IsAnswered, IsAuditedBySession, IsContinued, IsOpened, IsSound, Shows, kept_by, session_of};
ghost use Rattle.sql_tool_run.specs.Command.{reads_source};

use crate::owner::Owner;
use sql_tool_session::{Capacity, Command, Dialect, Responder, Status};
use std::alloc::{AllocError, Global};
use std::{mem, ptr};

/// `hardieflax` of the header. C begins with one of zeros, which is not in use.
#[repr(C)]
pub struct Handle {
    bytes: *const u8,
    length: usize,
    owner: Owner,
    in_use: bool,
}

impl Handle {
    /// Takes what the handle keeps out of it.
    fn take(&mut self, alloc: Global) -> Option<Box<Responder>>
        requires { IsSound self.old }
        ensures kept { option_map (λ b. b.value) result ≡ kept_by self.old }
        ensures empty { (kept_by self.new ≡ None) × (self.new.in_use ≡ false)
            × (self.new.length ≡ 0) }
    {
        self.length = 0;
        if !self.in_use {
            return None;
        }
        self.in_use = false;
        let owner = mem::replace(&mut self.owner, Owner::empty(ptr::null_mut()));
        Some(owner.into_box(alloc))
    }

    /// Takes what the handle keeps, or makes a new responder, which has no session.
    fn take_or_make(&mut self, alloc: Global) -> Result<Box<Responder>, AllocError>
        requires { IsSound self.old }
        ensures kept { IfOk result (λ b. b.value.session ≡ session_of self.old) }
        ensures none { IfErr result (λ _. session_of self.old ≡ None) }
        ensures empty { (kept_by self.new ≡ None) × (self.new.in_use ≡ false)
            × (self.new.length ≡ 0) }
    {
        match self.take(alloc) {
            Some(responder) => Ok(responder),
            None => Ok(Box::new(alloc, Responder::new(alloc))?),
        }
    }

    /// Keeps the responder, and shows its answer.
    fn put(&mut self, responder: Box<Responder>)
        requires { kept_by self.old ≡ None }
        ensures { Shows self.new responder.value × IsSound self.new }
    {
        self.bytes = responder.answer().as_ptr();
        self.length = responder.answer().len();
        mem::replace(&mut self.owner, Owner::of(responder)).end();
        self.in_use = true;
    }

    /// Frees what the handle keeps.
    pub(crate) fn clear(&mut self, alloc: Global)
        requires { IsSound self.old }
        ensures { (kept_by self.new ≡ None) × IsSound self.new }
    {
        self.bytes = ptr::null();
        drop(self.take(alloc));
    }

    /// Carries out a command that reads its input.
    pub(crate) fn ask(&mut self, alloc: Global, command: Command, input: &[u8]) -> Status
        requires sound { IsSound self.old }
        requires reads { reads_source command ≡ true }
        ensures { IsAnswered command input.now self.old self.new result }
    {
        let Ok(mut responder) = self.take_or_make(alloc) else {
            return Status::NoMemory;
        };
        let status = responder.ask(alloc, command, input);
        self.put(responder);
        status
    }

    /// Opens a session with this capacity.
    pub(crate) fn open(&mut self, alloc: Global, capacity: Capacity, document: &[u8]) -> Status
        requires { IsSound self.old }
        ensures { IsOpened capacity.shapes document.now self.new result }
    {
        let Ok(mut responder) = self.take_or_make(alloc) else {
            return Status::NoMemory;
        };
        let status = responder.open(alloc, capacity, document);
        self.put(responder);
        status
    }

    /// Goes on with the session.
    pub(crate) fn next(&mut self, alloc: Global, document: &[u8]) -> Status
        requires { IsSound self.old }
        ensures { IsContinued document.now self.old self.new result }
    {
        let Ok(mut responder) = self.take_or_make(alloc) else {
            return Status::Usage;
        };
        let status = responder.next(alloc, document);
        self.put(responder);
        status
    }

    /// Has the session begin anew.
    pub(crate) fn reset(&mut self, alloc: Global) -> Status
        requires { IsSound self.old }
        ensures { IsAnew self.old self.new result }
    {
        let Ok(mut responder) = self.take_or_make(alloc) else {
            return Status::Usage;
        };
        let status = responder.reset(alloc);
        self.put(responder);
        status
    }

    /// Audits texts over the session's schema.
    pub(crate) fn audit_next(&mut self, alloc: Global, dialect: Dialect, texts: &[u8]) -> Status
        requires { IsSound self.old }
        ensures { IsAuditedBySession dialect texts.now self.old self.new result }
    {
        let Ok(mut responder) = self.take_or_make(alloc) else {
            return Status::Usage;
        };
        let status = responder.audit(alloc, dialect, texts);
        self.put(responder);
        status
    }
}
