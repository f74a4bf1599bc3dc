//! The command `session`: requests over one schema, a line of the input after the other, each answered before the next one is read.
#![tactic(auto)]

mod command;
mod conversation;
mod remark;
mod reset;
mod talker;

pub use command::{ending, is_session};
pub use conversation::talk;
pub use remark::Remark;
pub use sql_tool_lines::{Peer, Stop, Streams};
