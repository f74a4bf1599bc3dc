ghost use Rattle.std.specs.Prelude.{◌≡◌, ◌⊎◌, ◌↔◌, ◌++◌, ◌<◌, IsSome, IsTrue, List, ℕ, [], Some, None, length, map, option_map, true};
ghost use Rattle.sql_tool_run.specs.Command.{IsOutputOf, IsOutputPrefixOf, reads_source};
ghost use Rattle.sql_tool_run.specs.Limits.{greatest_input};
ghost use Rattle.sql_tool_run.specs.Run.{status_of};
ghost use Rattle.sql_tool_run.specs.declared.status.Status.{Status};
ghost use Rattle.sql_schema.specs.Declarations.{Declarations};
ghost use Rattle.sql_tool_document.specs.Trees.{request_tree};
ghost use Rattle.sql_tool_guard.specs.Trees.{tenant_tree};
ghost use Rattle.sql_tool_session.specs.Session.{Asked, Asking as AskingTree, HasAnswered, IsOpenedBy, asked_by, asked_for, opened_by, opening_status};
ghost use Rattle.sql_tool_session.specs.Audited.{IsAuditedOver, IsAuditedPartly, auditing_status};
ghost use Rattle.sql_tool_session.specs.Within.{HasTooDeep, before_too_deep};
ghost use Rattle.sql_tool_session.specs.declared.session.Session.{Session as SessionTree};

use crate::audit::{add_lines, texts_of};
use crate::call::{Reply, answer};
use crate::capacity::Capacity;
use crate::session::{Asking, Session};
use crate::within::before_too_deep;
use sql_dialect::Dialect;
use sql_tool_run::{Command, Status};
use std::alloc::{AllocError, Global};
use std::mem;

/// Answers calls, and keeps the last answer and at most one session.
#[derive(Drop)]
pub struct Responder {
    session: Option<Session>,
    answer: Vec<u8>,
}

impl Responder {
    /// One with no session and an empty answer.
    pub fn new(alloc: Global) -> Responder
        ensures { (result.session ≡ None) × (result.answer.items ≡ []) }
    {
        Responder {
            session: None,
            answer: Vec::new(alloc),
        }
    }

    /// The answer of the last call: what was written until it ended.
    pub fn answer(&self) -> &Vec<u8>
        ensures { result.now ≡ self.now.answer }
    {
        &self.answer
    }

    /// Returns whether there is a session: after a call that ended with NoMemory, whether a request nested too deep.
    pub fn has_session(&self) -> bool
        ensures { IsTrue result ↔ IsSome self.now.session }
    {
        self.session.is_some()
    }

    /// Carries out a command that reads its input, over these bytes. The session stays as it is.
    pub fn ask(&mut self, alloc: Global, command: Command, input: &[u8]) -> Status
        requires { reads_source command ≡ true }
        ensures output { result ≡ Status.Done → IsOutputOf command input.now self.new.answer.items }
        // Out of memory, the answer is empty or a prefix of the output.
        ensures partial { result ≡ Status.NoMemory → (self.new.answer.items ≡ [])
            ⊎ IsOutputPrefixOf command input.now self.new.answer.items }
        ensures nothing { (result ≡ Status.Done → ⊥) → (result ≡ Status.NoMemory → ⊥)
            → self.new.answer.items ≡ [] }
        ensures status { (result ≡ Status.NoMemory)
            ⊎ (result ≡ status_of (Some command) input.now) }
        ensures session { self.new.session ≡ self.old.session }
    {
        let Reply { status, lines } = answer(alloc, command, input);
        self.answer = lines;
        status
    }

    /// Answers the requests before the first one that nests too deep, over the session. It is Done where there is no such one, else
    /// NoMemory. Where memory runs out there is no session from then on.
    fn go_on(&mut self, alloc: Global, session: Session, asking: &Asking) -> Status
        requires { (self.old.session ≡ None) × (self.old.answer.items ≡ []) }
        ensures done { result ≡ Status.Done → (after : SessionTree) × (self.new.session ≡ Some after)
            × (after.terms ≡ session.terms)
            × ((schema : Declarations) (asked : List Asked) (text : List ℕ)
            → HasAnswered schema asked text session
            → HasAnswered schema (asked ++ asked_for (option_map tenant_tree asking.now.tenant)
            (map request_tree asking.now.requests)) (text ++ self.new.answer.items) after) }
        ensures deep { (after : SessionTree) → result ≡ Status.NoMemory
            → self.new.session ≡ Some after → HasTooDeep (map request_tree asking.now.requests)
            × (after.terms ≡ session.terms)
            × ((schema : Declarations) (asked : List Asked) (text : List ℕ)
            → HasAnswered schema asked text session
            → HasAnswered schema (asked ++ asked_for (option_map tenant_tree asking.now.tenant)
            (before_too_deep (map request_tree asking.now.requests)))
            (text ++ self.new.answer.items) after) }
        ensures shallow { result ≡ Status.Done → HasTooDeep (map request_tree asking.now.requests)
            → ⊥ }
        ensures lost { self.new.session ≡ None → self.new.answer.items ≡ [] }
        ensures status { (result ≡ Status.Done) ⊎ (result ≡ Status.NoMemory) }
    {
        let requests = asking.requests.as_slice();
        let answered = before_too_deep(requests);
        match session.answer(alloc, &asking.tenant, answered) {
            Ok((session, lines)) => {
                self.session = Some(session);
                self.answer = lines;
                if answered.len() < requests.len() {
                    Status::NoMemory
                } else {
                    Status::Done
                }
            }
            Err(_) => Status::NoMemory,
        }
    }

    /// Opens a session over the document's schema, in place of an earlier one, with the document's output. In it so many shapes have an id
    /// before all are forgotten. Where the document has policies the session keeps them, and each of its statements is guarded by them,
    /// with the call's values at their places. A request that nests too deep ends the call with NoMemory: then the session has answered the
    /// requests before it, and the answer is their lines.
    pub fn open(&mut self, alloc: Global, capacity: Capacity, document: &[u8]) -> Status
        ensures opened { result ≡ Status.Done → (a : AskingTree) × (session : SessionTree)
            × (opened_by document.now ≡ Some a) × (self.new.session ≡ Some session)
            × IsOpenedBy session capacity.shapes document.now
            × HasAnswered a.document.schema (asked_for a.tenant a.document.requests)
            self.new.answer.items session }
        // A session after NoMemory has answered the requests before one that nests too deep.
        ensures deep { (session : SessionTree) → result ≡ Status.NoMemory
            → self.new.session ≡ Some session → (a : AskingTree)
            × (opened_by document.now ≡ Some a) × HasTooDeep a.document.requests
            × IsOpenedBy session capacity.shapes document.now
            × HasAnswered a.document.schema
            (asked_for a.tenant (before_too_deep a.document.requests))
            self.new.answer.items session }
        // Done only where no request nests too deep.
        ensures shallow { (a : AskingTree) → result ≡ Status.Done
            → opened_by document.now ≡ Some a → HasTooDeep a.document.requests → ⊥ }
        ensures refused { (result ≡ Status.Done → ⊥)
            → (result ≡ Status.NoMemory → self.new.session ≡ None)
            → (self.new.session ≡ None) × (self.new.answer.items ≡ []) }
        ensures status { (result ≡ Status.NoMemory) ⊎ (result ≡ opening_status document.now) }
        // More bytes than the limit are always TooLarge.
        ensures too_large { greatest_input < length document.now → result ≡ Status.TooLarge }
    {
        self.session = None;
        self.answer = Vec::new(alloc);
        match Session::begin(alloc, capacity, document) {
            Ok((session, asking)) => self.go_on(alloc, session, &asking),
            Err(status) => status,
        }
    }

    /// Answers the requests of a document that declares no table, over the session. In a session with policies they hold with the
    /// document's values at their places. A request that nests too deep ends the call with NoMemory: then the session has answered the
    /// requests before it, the answer is their lines, and the session goes on. Where memory runs out there is no session from then on.
    pub fn next(&mut self, alloc: Global, document: &[u8]) -> Status
        // Usage exactly where there is no session.
        ensures usage { (result ≡ Status.Usage) ↔ (self.old.session ≡ None) }
        // To what the session answered before, these requests and this answer are added.
        ensures done { result ≡ Status.Done → (before : SessionTree) × (after : SessionTree)
            × (a : AskingTree) × (self.old.session ≡ Some before)
            × (self.new.session ≡ Some after) × (asked_by before document.now ≡ Some a)
            × (length a.document.schema.tables ≡ 0) × (after.terms ≡ before.terms)
            × ((schema : Declarations) (asked : List Asked) (text : List ℕ)
            → HasAnswered schema asked text before
            → HasAnswered schema (asked ++ asked_for a.tenant a.document.requests)
            (text ++ self.new.answer.items) after) }
        // A session after NoMemory has answered the requests before one that nests too deep.
        ensures deep { (after : SessionTree) → result ≡ Status.NoMemory
            → self.new.session ≡ Some after → (before : SessionTree)
            × (a : AskingTree) × (self.old.session ≡ Some before)
            × (asked_by before document.now ≡ Some a) × (length a.document.schema.tables ≡ 0)
            × HasTooDeep a.document.requests × (after.terms ≡ before.terms)
            × ((schema : Declarations) (asked : List Asked) (text : List ℕ)
            → HasAnswered schema asked text before
            → HasAnswered schema (asked ++ asked_for a.tenant (before_too_deep a.document.requests))
            (text ++ self.new.answer.items) after) }
        // Done only where no request nests too deep.
        ensures shallow { (before : SessionTree) (a : AskingTree) → result ≡ Status.Done
            → self.old.session ≡ Some before → asked_by before document.now ≡ Some a
            → HasTooDeep a.document.requests → ⊥ }
        ensures nothing { (result ≡ Status.Done → ⊥)
            → (result ≡ Status.NoMemory → self.new.session ≡ None) → self.new.answer.items ≡ [] }
        ensures bad { result ≡ Status.BadDocument → (self.new.session ≡ self.old.session)
            × ((before : SessionTree) (a : AskingTree) → self.old.session ≡ Some before
            → asked_by before document.now ≡ Some a → 0 < length a.document.schema.tables) }
        ensures large { result ≡ Status.TooLarge → (self.new.session ≡ self.old.session)
            × (greatest_input < length document.now) }
        // Where there is a session, more bytes than the limit are always TooLarge.
        ensures too_large { ¬ (self.old.session ≡ None) → greatest_input < length document.now
            → result ≡ Status.TooLarge }
        ensures status { (result ≡ Status.Done) ⊎ ((result ≡ Status.Usage)
            ⊎ ((result ≡ Status.BadDocument) ⊎ ((result ≡ Status.TooLarge)
            ⊎ (result ≡ Status.NoMemory)))) }
    {
        self.answer = Vec::new(alloc);
        let Some(session) = mem::replace(&mut self.session, None) else {
            return Status::Usage;
        };
        match session.asking(alloc, document) {
            Ok(asking) => self.go_on(alloc, session, &asking),
            Err(Status::NoMemory) => Status::NoMemory,
            Err(status) => {
                self.session = Some(session);
                status
            }
        }
    }

    /// Begins the session anew: it has answered nothing, and ids are counted from 1 again. Schema, policies and capacity stay. The answer is
    /// empty. Usage where there is no session.
    pub fn reset(&mut self, alloc: Global) -> Status
        ensures usage { (result ≡ Status.Usage) ↔ (self.old.session ≡ None) }
        ensures done { result ≡ Status.Done → (before : SessionTree) × (after : SessionTree)
            × (self.old.session ≡ Some before) × (self.new.session ≡ Some after)
            × (after.terms ≡ before.terms)
            × ((schema : Declarations) (asked : List Asked) (text : List ℕ)
            → HasAnswered schema asked text before → HasAnswered schema [] [] after) }
        ensures answer { self.new.answer.items ≡ [] }
        ensures none { self.old.session ≡ None → self.new.session ≡ None }
        ensures status { (result ≡ Status.Done) ⊎ (result ≡ Status.Usage) }
    {
        self.answer = Vec::new(alloc);
        match mem::replace(&mut self.session, None) {
            Some(mut session) => {
                session.reset();
                self.session = Some(session);
                Status::Done
            }
            None => Status::Usage,
        }
    }

    /// A line for each text of a document that declares no table, as `audit D` writes it over the session's schema. Where memory runs out or
    /// a text nests too deep the answer has the lines of the texts before. The session stays as it is.
    pub fn audit(&mut self, alloc: Global, dialect: Dialect, texts: &[u8]) -> Status
        // Usage exactly where there is no session.
        ensures usage { (result ≡ Status.Usage) ↔ (self.old.session ≡ None) }
        ensures done { (session : SessionTree) → self.old.session ≡ Some session
            → result ≡ Status.Done → IsAuditedOver session.cache.schema dialect texts.now
            self.new.answer.items }
        ensures partial { (session : SessionTree) → self.old.session ≡ Some session
            → result ≡ Status.NoMemory → (self.new.answer.items ≡ [])
            ⊎ IsAuditedPartly session.cache.schema dialect texts.now self.new.answer.items }
        ensures nothing { (result ≡ Status.Done → ⊥) → (result ≡ Status.NoMemory → ⊥)
            → self.new.answer.items ≡ [] }
        ensures status { (session : SessionTree) → self.old.session ≡ Some session
            → (result ≡ Status.NoMemory)
            ⊎ (result ≡ auditing_status session.cache.schema texts.now) }
        ensures session { self.new.session ≡ self.old.session }
    {
        self.answer = Vec::new(alloc);
        let Some(session) = &self.session else {
            return Status::Usage;
        };
        let texts = match texts_of(alloc, session.schema(), texts) {
            Ok(texts) => texts,
            Err(status) => return status,
        };
        match add_lines(
            alloc,
            dialect,
            session.schema(),
            texts.as_slice(),
            &mut self.answer,
        ) {
            Ok(()) => Status::Done,
            Err(AllocError) => Status::NoMemory,
        }
    }
}
