//! The origin of a leaf of a source and of a column: a table, or an alias of one.
//!
//! A leaf is an origin and a number of paddings, one for each left outer join in whose right side it stands. What it exposes and whether its
//! row may be missing follow from these, and what is said of a source is said of the list of its leaves.
#![tactic(auto)]

mod origin;

pub use origin::{Origin, same_table};
