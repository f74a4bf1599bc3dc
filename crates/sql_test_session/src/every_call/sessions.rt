//! The program's commands over bytes in memory, and sessions.

use crate::examples::{
    ANEW_LINES, FILTER, MORE, MORE_AUDITED, MORE_LINES, MORE_TEXTS, OPEN_TENANTS, READ, TENANT_8,
    TENANT_8_LINES, TEXT,
};
use sql_test_kit::is;
use sql_tool_document::{Call, Opening, Template, read_call, read_opening};
use sql_tool_guard::policies_in;
use sql_tool_session::{Capacity, Command, Dialect, Responder, Status, answer};
use std::alloc::Global;
use std::test::Fail;

pub(crate) fn every_call(alloc: Global) -> Result<(), Fail> {
    answered(alloc)?;
    opened(alloc)?;
    let mut responder = Responder::new(alloc);
    let told = responding(alloc, &mut responder);
    drop(responder);
    told
}

fn answered(alloc: Global) -> Result<(), Fail> {
    let reply = answer(alloc, Command::Read(Dialect::Pg), TEXT.as_bytes());
    is_done(reply.status)?;
    is(reply.lines.as_slice() == READ.as_bytes(), "a line")
}

/// A document that opens a session with policies, and one that follows it.
fn opened(alloc: Global) -> Result<(), Fail> {
    let Opening { call, template } = read_opening(alloc, OPEN_TENANTS.as_bytes())?;
    let told = named(alloc, &call);
    drop(call);
    told?;
    let told = followed(alloc, &template);
    drop(template);
    told
}

fn named(alloc: Global, call: &Call) -> Result<(), Fail> {
    match &call.policies {
        Some(named) => {
            let found = policies_in(alloc, &call.document.schema, named.as_slice())?;
            let is_found = found.is_some();
            drop(found);
            is(is_found, "tables of the schema")
        }
        None => is(false, "policies"),
    }
}

fn followed(alloc: Global, template: &Option<Template>) -> Result<(), Fail> {
    let call = read_call(alloc, template, TENANT_8.as_bytes())?;
    let is_guarded = call.policies.is_some();
    drop(call);
    is(is_guarded, "the policies of a call")
}

fn is_done(status: Status) -> Result<(), Fail> {
    is(status == Status::Done, status.name())
}

fn begun_anew(alloc: Global, responder: &mut Responder) -> Result<(), Fail> {
    is_done(Responder::reset(responder, alloc))?;
    is_done(responder.next(alloc, MORE.as_bytes()))?;
    is(
        responder.answer().as_slice() == ANEW_LINES.as_bytes(),
        "ids from 1 again",
    )?;
    is_done(Responder::audit(responder, alloc, Dialect::Pg, MORE_TEXTS.as_bytes()))?;
    is(
        responder.answer().as_slice() == MORE_AUDITED.as_bytes(),
        "what texts use",
    )
}

fn responding(alloc: Global, responder: &mut Responder) -> Result<(), Fail> {
    is_done(Responder::open(responder, alloc, Capacity::usual(), FILTER.as_bytes()))?;
    is_done(responder.next(alloc, MORE.as_bytes()))?;
    is(
        responder.answer().as_slice() == MORE_LINES.as_bytes(),
        "the lines of more",
    )?;
    begun_anew(alloc, responder)?;
    is_done(Responder::open(responder, alloc, Capacity::of(0), OPEN_TENANTS.as_bytes()))?;
    is_done(responder.next(alloc, TENANT_8.as_bytes()))?;
    is(
        responder.answer().as_slice() == TENANT_8_LINES.as_bytes(),
        "the lines of a tenant",
    )?;
    is_done(responder.ask(alloc, Command::Read(Dialect::Pg), TEXT.as_bytes()))
}
