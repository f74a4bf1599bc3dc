//! Statements as trees, one kind of node for each production of the grammar: what a text says. Their lists stand in the order of the
//! text. And how many placeholders a tree has.
//!
//! A tree is dropped by its own calls, level by level. A drop cannot fail, so it cannot ask for the memory of a list of what is left to drop.
//! `read` alone makes trees for users, with a bound on their depth.
#![tactic(auto)]

mod count;
mod debug;
mod names;
mod parts;
mod tree;
mod words;

pub use count::count_query;
pub use names::Names;
pub use parts::{expression_in, names_in, query_in};
pub use tree::{Distinctness, Expression, Item, Place, Query, Source};
pub use words::{
    Direction, JoinKind, Lock, LockMode, LockWait, Logic, Mark, Page, Sample, SampleMethod,
    SetOperator,
};
