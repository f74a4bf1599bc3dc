//! Statements as flat lists of nodes; `sql_flat_back` reads them back.
//!
//! Each node stands before its children and shows the index after its last descendant. The list of
//! `SELECT "users"."id" FROM "users" WHERE ("users"."id" = $1)`, which the loops above show their steps on:
//!
//! ```text
//! 0  Select                    ends at 8
//! 1    Column "users"."id"     ends at 2
//! 2    From                    ends at 4
//! 3      Table "users"         ends at 4
//! 4    Where                   ends at 8
//! 5      Compared =            ends at 8
//! 6        Column "users"."id" ends at 7
//! 7        Value 1             ends at 8
//! ```
//!
//! A clause has a node of its own over its expression, and an absent clause has none. So each clause writes its own word, and what a node's
//! children are needs no index.
#![tactic(auto)]

mod building;
mod clause;
mod copies;
mod expr;
mod flat;
mod kind;
mod laws;
mod source;
mod statement;

pub use flat::{Flat, expression_nodes, flatten};
pub use kind::{Combining, FlatKind, FlatNode, Form, Selecting, Uniqueness};
pub use laws::{
    different_expressions_have_different_lists, different_statements_have_different_lists,
};
