//! The program's commands over bytes in memory, and sessions, which answer requests over one schema in many calls.
//!
//! A call of a session takes a document that declares no table, so that there is one decoder, one form and one JSON Schema. A document that
//! declares tables is refused, since its schema would not be the one that is used. Opening a session answers its document, so that a session
//! is `build` continued.
//!
//! A session that runs out of memory over its requests is gone, since what it knows of ids may be ahead of the lines that its caller has. A
//! request that nests too deep is looked for before any is answered. So a session answers those before it and lives on: the status is
//! NoMemory, and that the session is there tells it from a lack of memory.
#![tactic(auto)]

mod audit;
mod buffer;
mod call;
mod capacity;
mod laws;
mod responder;
mod session;
mod within;

pub use call::{Reply, answer};
pub use capacity::Capacity;
pub use laws::{
    answers_are_outputs, sessions_with_policies_have_tenants, sessions_without_policies_are_plain,
};
pub use responder::Responder;
pub use session::Session;
pub use sql_dialect::Dialect;
pub use sql_tool_run::{Command, LIMIT, Status};
