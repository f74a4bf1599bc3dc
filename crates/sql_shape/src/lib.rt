//! Shapes of statements, all but their values; tests of all nodes; and which statements have an id.
#![tactic(auto)]

mod laws;
mod nodes;
mod plain;

pub use laws::equal_shapes_have_ids_alike;
pub use nodes::{NodeTest, all_nodes};
pub use plain::statement_leaves_id;
