//! The program's commands, and sessions, for C: `examples/c/hardieflax.h` declares what is exported here.
//!
//! A caller of these functions upholds what the header says of a handle, of pointers and of threads. Nothing checks a caller, nor the
//! header.
//!
//! A handle is a struct in the caller's memory, of zeros at first, and a call writes through a `&mut` to it. So what C owns with a handle is a
//! definition (`specs/Owning.antt`), and the clauses of the calls are facts about its fields. The answer lies where the library made it until
//! the next call, with no copy and no second call to free it.
#![tactic(auto)]

ghost use Rattle.std.specs.Prelude.{◌≡◌, IfSome, None};
ghost use Rattle.hardieflax_c.specs.Dialects.{dialect_at};
ghost use Rattle.hardieflax_c.specs.Handles.{IsAnew, IsAnswered, IsAuditedBySession, IsContinued, IsOpened, IsSound, kept_by};
ghost use Rattle.sql_tool_session.specs.Session.{shapes_for};
ghost use Rattle.sql_tool_ids.specs.declared.seen.TheConstants.{MAX_SHAPES};
ghost use Rattle.sql_tool_run.specs.Status.{code_of};
ghost use Rattle.sql_tool_run.specs.declared.command.Command.TheVariants as command;
ghost use Rattle.sql_tool_run.specs.declared.status.Status.{Status as Ending};

mod handle;
mod owner;

use handle::Handle;
use sql_tool_session::{Capacity, Command, Dialect, Status};
use std::alloc::Global;

/// The dialect of this number.
fn dialect_of(number: u32) -> Option<Dialect>
    ensures { result ≡ dialect_at number }
{
    match number {
        0 => Some(Dialect::Pg),
        1 => Some(Dialect::Mysql),
        2 => Some(Dialect::Sqlite),
        3 => Some(Dialect::Bracket),
        _ => None,
    }
}

fn number_of(status: Status) -> u32
    ensures { result ≡ code_of status }
{
    u32::from(status.code())
}

/// A line for each request of a document, as `build` writes it.
#[unsafe(no_mangle)]
pub extern "C" fn hardieflax_build(alloc: Global, handle: &mut Handle, document: &[u8]) -> u32
    requires { IsSound handle.old }
    ensures { (status : Ending) × (result ≡ code_of status)
        × IsAnswered command.Build document.now handle.old handle.new status }
{
    number_of(handle.ask(alloc, Command::Build, document))
}

/// The same for a document with a tenant, as `guard` writes it.
#[unsafe(no_mangle)]
pub extern "C" fn hardieflax_guard(alloc: Global, handle: &mut Handle, document: &[u8]) -> u32
    requires { IsSound handle.old }
    ensures { (status : Ending) × (result ≡ code_of status)
        × IsAnswered command.Guard document.now handle.old handle.new status }
{
    number_of(handle.ask(alloc, Command::Guard, document))
}

/// The line of a text, as `read D` writes it. A number of no dialect leaves the handle as it was.
#[unsafe(no_mangle)]
pub extern "C" fn hardieflax_read(
    alloc: Global,
    handle: &mut Handle,
    dialect: u32,
    text: &[u8],
) -> u32
    requires { IsSound handle.old }
    ensures read { IfSome (dialect_at dialect) (λ d. (status : Ending) × (result ≡ code_of status)
        × IsAnswered (command.Read d) text.now handle.old handle.new status) }
    ensures usage { dialect_at dialect ≡ None → (result ≡ 2) × (handle.new ≡ handle.old) }
{
    match dialect_of(dialect) {
        Some(dialect) => number_of(handle.ask(alloc, Command::Read(dialect), text)),
        None => number_of(Status::Usage),
    }
}

/// A line for each text, as `audit D` writes it. A number of no dialect leaves the handle as it was.
#[unsafe(no_mangle)]
pub extern "C" fn hardieflax_audit(
    alloc: Global,
    handle: &mut Handle,
    dialect: u32,
    texts: &[u8],
) -> u32
    requires { IsSound handle.old }
    ensures audit { IfSome (dialect_at dialect) (λ d. (status : Ending) × (result ≡ code_of status)
        × IsAnswered (command.Audit d) texts.now handle.old handle.new status) }
    ensures usage { dialect_at dialect ≡ None → (result ≡ 2) × (handle.new ≡ handle.old) }
{
    match dialect_of(dialect) {
        Some(dialect) => number_of(handle.ask(alloc, Command::Audit(dialect), texts)),
        None => number_of(Status::Usage),
    }
}

/// Opens a session over a document's schema, with the document's lines, or those of the requests before one that nests too deep.
#[unsafe(no_mangle)]
pub extern "C" fn hardieflax_open(alloc: Global, handle: &mut Handle, document: &[u8]) -> u32
    requires { IsSound handle.old }
    ensures { (status : Ending) × (result ≡ code_of status)
        × IsOpened MAX_SHAPES document.now handle.new status }
{
    number_of(handle.open(alloc, Capacity::usual(), document))
}

/// The same with a session in which so many shapes have an id before all are forgotten: the usual number for 0.
#[unsafe(no_mangle)]
pub extern "C" fn hardieflax_open_within(
    alloc: Global,
    handle: &mut Handle,
    document: &[u8],
    capacity: usize,
) -> u32
    requires { IsSound handle.old }
    ensures { (status : Ending) × (result ≡ code_of status)
        × IsOpened (shapes_for capacity) document.now handle.new status }
{
    number_of(handle.open(alloc, Capacity::of(capacity), document))
}

/// The lines of more requests over the session, or of those before one that nests too deep.
#[unsafe(no_mangle)]
pub extern "C" fn hardieflax_next(alloc: Global, handle: &mut Handle, document: &[u8]) -> u32
    requires { IsSound handle.old }
    ensures { (status : Ending) × (result ≡ code_of status)
        × IsContinued document.now handle.old handle.new status }
{
    number_of(handle.next(alloc, document))
}

/// Has the session begin anew: ids are counted from 1 again, over the same schema and policies.
#[unsafe(no_mangle)]
pub extern "C" fn hardieflax_reset(alloc: Global, handle: &mut Handle) -> u32
    requires { IsSound handle.old }
    ensures { (status : Ending) × (result ≡ code_of status) × IsAnew handle.old handle.new status }
{
    number_of(handle.reset(alloc))
}

/// A line for each text of a document that declares no table, over the session's schema. A number of no dialect leaves the handle as it was.
#[unsafe(no_mangle)]
pub extern "C" fn hardieflax_audit_next(
    alloc: Global,
    handle: &mut Handle,
    dialect: u32,
    texts: &[u8],
) -> u32
    requires { IsSound handle.old }
    ensures audit { IfSome (dialect_at dialect) (λ d. (status : Ending) × (result ≡ code_of status)
        × IsAuditedBySession d texts.now handle.old handle.new status) }
    ensures usage { dialect_at dialect ≡ None → (result ≡ 2) × (handle.new ≡ handle.old) }
{
    match dialect_of(dialect) {
        Some(dialect) => number_of(handle.audit_next(alloc, dialect, texts)),
        None => number_of(Status::Usage),
    }
}

/// Frees what the handle keeps. It may be used again.
#[unsafe(no_mangle)]
pub extern "C" fn hardieflax_free(alloc: Global, handle: &mut Handle)
    requires { IsSound handle.old }
    ensures { (kept_by handle.new ≡ None) × IsSound handle.new }
{
    handle.clear(alloc);
}
