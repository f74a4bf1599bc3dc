//! The ids of a session: how many are kept, when they are forgotten, and what holds of them.
//!
//! A session that lives long may meet any number of shapes. Once as many of them have an id as are kept, all are forgotten. Ids are numbers of requests,
//! which go on, so an id that was given never comes to mean another shape, and a client need not be told: what it prepared under an id stays
//! right, and a shape that comes again has another id once. A client that keeps the statements of its latest ids keeps those in use.
#![tactic(auto)]

mod laws;
mod seen;

pub use laws::{few_ids_are_those_of_one_document, ids_are_given_once};
pub use seen::{MAX_SHAPES, keep_within};
