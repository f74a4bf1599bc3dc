//! Requests that a number determines, and one line that sums up what becomes of the first so many of them: a measure of how fast
//! statements are built, checked and written. No more than one request is held at a time, and the keys of those before it.
#![tactic(auto)]

mod counts;
mod requests;
mod summary;

pub use requests::{generate, one_summary};
