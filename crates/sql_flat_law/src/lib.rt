//! Trees of nodes of one kind with any number of children, and their flat lists, in which each node shows the place after its
//! last descendant; and what loops over such a list come to. Each loop is defined on a list of nodes alone, as a recursion that does
//! what a turn of the loop does, so that a loop in Rust is proved without a tree. That the loop over a tree's list gives what the tree
//! gives is said here, once for all trees: definitions and laws alone.
#![tactic(auto)]

mod finished;
mod laws;
mod loops;
mod opened;

pub use finished::{Finished, leave, take};
pub use laws::{
    lists_of_maps_are_maps_of_lists, one_list_has_one_tree, tests_of_maps_are_tests_before,
};
pub use loops::{
    backward_loops_fold, forward_loops_gather, loops_with_a_stack_know_what_is_around,
    writing_loops_tell,
};
pub use opened::{Opened, close};
