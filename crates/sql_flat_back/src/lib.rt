//! Reads the flat list of a statement back.
//!
//! It is a crate of its own, so that no other library waits for its proof but `hardieflax`.
#![tactic(auto)]

mod clauses;
mod over;
mod part;
mod reading;
mod stack;
mod unflatten;

pub use unflatten::Unflatten;
