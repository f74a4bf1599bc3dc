//! How deep the statement of a query nests, and the depth beyond which the program builds none.
//!
//! Copies, walks and drops recurse over a statement, and calls make it deep, which JSON's own nesting of at most 127 does not bound: without a
//! limit 8,000 `filter` calls ended the program by a signal. With it a run takes at most 1,312 KB of stack (`bench/README.md`), where threads
//! often have 2 MB.
//!
//! The depth is counted in the query, before anything is built, by functions that recurse no deeper than JSON allows. A chain of AND could be
//! walked without recursion, but each other kind of node would still need a limit.
//!
//! The walks leave one clause before they enter the next, so the deepest clause decides: a count for all calls together refused 499 filters
//! beside 499 joins. What a call puts aside was built and is dropped, so it counts as it was.
#![tactic(auto)]

mod depth;
mod leaves;

pub use depth::{
    MAX_DEPTH, is_expr_too_deep, is_too_deep, is_too_deep_restricted, is_too_deep_with,
};
