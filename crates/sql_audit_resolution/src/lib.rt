//! Which table each leaf of a text is, and which column of which leaf each path in it stands for, by the text's tree and the
//! tables of a schema alone. The leaves of a text are the tables and aliases in its FROM clauses.
//!
//! This crate takes trees of texts and declarations, and knows no statement and no rule. Leaves are numbered in the order of the whole text: a
//! subselect in a selection stands before the FROM of its own select, so its leaves come first, and an ON comes after the two sides of its
//! join.
//!
//! The selection sees the leaves of its FROM and stands before them, so what stands before FROM is counted first. A text is counted once for
//! each level in which it stands: the time is its length times its depth.
//!
//! What is known of a text is a list to which each part appends (`specs/inside/After.antt`). So the walk of two parts is that of the first and
//! then of the second, and the number of the next leaf is the length of the list of leaves.
#![tactic(auto)]

mod column_use;
mod count;
mod known;
mod leaf;
mod named;
mod path;
mod resolving;
mod walk;

pub use column_use::{ColumnUse, Meaning};
pub use resolving::{Resolution, resolve};
