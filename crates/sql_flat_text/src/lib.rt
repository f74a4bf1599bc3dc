//! The text of a flat statement, its values and its flag, by one loop over its nodes.
//!
//! Placeholders are counted as they are written: the loop refuses the placeholder after the last number. `compile` and `broken` both ask this
//! loop whether a statement has too many, after all other rules, and neither walks over it to count.
#![tactic(auto)]

mod fused;
mod parts;
mod place;
mod sink;
mod steps;
mod whole;
mod words;

pub use fused::{Fused, write_flat};
pub use steps::Steps;
