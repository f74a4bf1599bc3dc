//! Sessions with policies: one session serves many tenants, and no call answers an unguarded text.

use crate::examples::{NO_TENANT, OPEN_TENANTS, TENANT_7_LINES, TENANT_8, TENANT_8_LINES};
use sql_test_kit::is;
use sql_tool_session::{Capacity, Responder, Status};
use std::alloc::Global;
use std::test::Fail;

/// Whether the last call was answered by these lines.
fn answered(responder: &Responder, lines: &str) -> bool {
    responder.answer().as_slice() == lines.as_bytes()
}

fn opens(alloc: Global, responder: &mut Responder) -> Result<(), Fail> {
    let status = responder.open(alloc, Capacity::usual(), OPEN_TENANTS.as_bytes());
    is(status == Status::Done, status.name())?;
    is(answered(responder, TENANT_7_LINES), "the lines of tenant 7")
}

fn goes_on(alloc: Global, responder: &mut Responder) -> Result<(), Fail> {
    let status = responder.next(alloc, TENANT_8.as_bytes());
    is(status == Status::Done, status.name())?;
    is(answered(responder, TENANT_8_LINES), "the lines of tenant 8")
}

fn refuses(alloc: Global, responder: &mut Responder, document: &str) -> Result<(), Fail> {
    let status = responder.next(alloc, document.as_bytes());
    is(status == Status::BadDocument, status.name())?;
    is(answered(responder, ""), "no lines")
}

fn all_calls(alloc: Global, responder: &mut Responder) -> Result<(), Fail> {
    opens(alloc, responder)?;
    goes_on(alloc, responder)?;
    refuses(alloc, responder, NO_TENANT[0])?;
    refuses(alloc, responder, NO_TENANT[1])?;
    refuses(alloc, responder, NO_TENANT[2])?;
    goes_on(alloc, responder)
}

#[test]
fn one_session_serves_two_tenants(rt: HostRuntime) -> Result<(), Fail> {
    let mut responder = Responder::new(rt.alloc());
    let told = all_calls(rt.alloc(), &mut responder);
    drop(responder);
    told
}
