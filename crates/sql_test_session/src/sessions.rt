//! Sessions: what each call answers, and which of them leave a session as it was.

use crate::answers::too_large;
use crate::examples::{
    ANEW_LINES, FILTER, FILTERED, FORGOTTEN_LINES, MORE, MORE_AUDITED, MORE_LINES, MORE_TEXTS,
    READ, TEXT, TEXTS,
};
use sql_test_kit::is;
use sql_tool_session::{Capacity, Command, Dialect, Responder, Status};
use std::alloc::Global;
use std::test::Fail;

/// Whether the last call was answered by these lines.
fn answered(responder: &Responder, lines: &str) -> bool {
    responder.answer().as_slice() == lines.as_bytes()
}

fn opens(alloc: Global, responder: &mut Responder) -> Result<(), Fail> {
    let status = responder.next(alloc, MORE.as_bytes());
    is(status == Status::Usage, "no session")?;
    let status = responder.open(alloc, Capacity::usual(), FILTER.as_bytes());
    is(status == Status::Done, "a session")?;
    is(answered(responder, FILTERED), "the document's lines")
}

fn goes_on(alloc: Global, responder: &mut Responder) -> Result<(), Fail> {
    let status = responder.next(alloc, MORE.as_bytes());
    is(status == Status::Done, "more requests")?;
    is(answered(responder, MORE_LINES), "their lines")
}

fn is_refused(
    alloc: Global,
    responder: &mut Responder,
    document: &[u8],
    wanted: Status,
) -> Result<(), Fail> {
    let status = responder.next(alloc, document);
    is(status == wanted, wanted.name())?;
    is(answered(responder, ""), "no lines")
}

fn reads(alloc: Global, responder: &mut Responder) -> Result<(), Fail> {
    let status = responder.ask(alloc, Command::Read(Dialect::Pg), TEXT.as_bytes());
    is(status == Status::Done, "a text")?;
    is(answered(responder, READ), "its line")
}

fn all_calls(alloc: Global, responder: &mut Responder) -> Result<(), Fail> {
    opens(alloc, responder)?;
    goes_on(alloc, responder)?;
    // No document, one that declares a table, and one of 16777217 bytes.
    is_refused(alloc, responder, b"{", Status::BadDocument)?;
    is_refused(alloc, responder, FILTER.as_bytes(), Status::BadDocument)?;
    let large = too_large(alloc)?;
    is_refused(alloc, responder, large.as_slice(), Status::TooLarge)?;
    reads(alloc, responder)?;
    goes_on(alloc, responder)
}

#[test]
fn refused_documents_leave_the_session(rt: HostRuntime) -> Result<(), Fail> {
    let mut responder = Responder::new(rt.alloc());
    let told = all_calls(rt.alloc(), &mut responder);
    drop(responder);
    told
}

fn begins_anew(alloc: Global, responder: &mut Responder) -> Result<(), Fail> {
    is(responder.reset(alloc) == Status::Usage, "no session")?;
    opens(alloc, responder)?;
    goes_on(alloc, responder)?;
    is(responder.reset(alloc) == Status::Done, "a reset")?;
    is(answered(responder, ""), "no lines")?;
    let status = responder.next(alloc, MORE.as_bytes());
    is(status == Status::Done, "requests after a reset")?;
    is(answered(responder, ANEW_LINES), "ids from 1 again")
}

#[test]
fn a_session_begins_anew(rt: HostRuntime) -> Result<(), Fail> {
    let mut responder = Responder::new(rt.alloc());
    let told = begins_anew(rt.alloc(), &mut responder);
    drop(responder);
    told
}

/// A session that keeps one shape forgets each before the next request.
fn forgets(alloc: Global, responder: &mut Responder) -> Result<(), Fail> {
    let status = responder.open(alloc, Capacity::of(1), FILTER.as_bytes());
    is(status == Status::Done, "a session")?;
    is(answered(responder, FILTERED), "the document's lines")?;
    let status = responder.next(alloc, MORE.as_bytes());
    is(status == Status::Done, "more requests")?;
    is(answered(responder, FORGOTTEN_LINES), "new ids")
}

#[test]
fn a_small_session_forgets(rt: HostRuntime) -> Result<(), Fail> {
    let mut responder = Responder::new(rt.alloc());
    let told = forgets(rt.alloc(), &mut responder);
    drop(responder);
    told
}

#[test]
fn no_capacity_is_the_usual_one() -> Result<(), Fail> {
    is(Capacity::of(0) == Capacity::usual(), "0")?;
    is(Capacity::usual().shapes() == 16384, "16384")
}

fn is_audited(
    alloc: Global,
    responder: &mut Responder,
    texts: &[u8],
    wanted: Status,
    lines: &str,
) -> Result<(), Fail> {
    let status = responder.audit(alloc, Dialect::Pg, texts);
    is(status == wanted, wanted.name())?;
    is(answered(responder, lines), "the lines of texts")
}

fn audits(alloc: Global, responder: &mut Responder) -> Result<(), Fail> {
    let texts = MORE_TEXTS.as_bytes();
    is_audited(alloc, responder, texts, Status::Usage, "")?;
    opens(alloc, responder)?;
    is_audited(alloc, responder, texts, Status::Done, MORE_AUDITED)?;
    // Texts with a table, and a document that has none.
    is_audited(alloc, responder, TEXTS.as_bytes(), Status::BadDocument, "")?;
    is_audited(alloc, responder, MORE.as_bytes(), Status::BadDocument, "")?;
    let large = too_large(alloc)?;
    is_audited(alloc, responder, large.as_slice(), Status::TooLarge, "")?;
    goes_on(alloc, responder)
}

#[test]
fn texts_are_audited_over_the_schema(rt: HostRuntime) -> Result<(), Fail> {
    let mut responder = Responder::new(rt.alloc());
    let told = audits(rt.alloc(), &mut responder);
    drop(responder);
    told
}
