//! A conversation over lines: each line of a peer is answered before the next one is read.
//!
//! What a conversation has read and written, in order, is what its contract speaks of. Who listens says what answers a line.
#![tactic(auto)]

mod conversation;
mod listener;
mod part;
mod peer;
mod streams;
mod writing;

pub use conversation::converse;
pub use listener::{Listener, Stop};
pub use peer::Peer;
pub use streams::Streams;
