//! How a tree is written in a dialect, and whether the dialect has its productions.
#![tactic(auto)]

mod fits;
mod leaf;
mod write;

pub use fits::fits_query;
pub use write::push_query;
