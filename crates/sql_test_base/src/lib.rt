//! Tests of what the crates below the nodes give to others, a module for each crate: worked texts, bytes, refusals, messages.
//!
//! A crate with tests of its own is proved twice, once with them, so all tests of libraries are in crates of their own: here, in
//! `sql_test_calls` (nodes and the calls on them) and in `sql_test_check` (what is told of a statement). Those of the program are in
//! `sql_tool`. Requests and their lines are no tests: they are the program's stored run, `crates/sql_tool/stdin` and `stdout`.
#![tactic(auto)]

#[cfg(test)]
mod again;
#[cfg(test)]
mod dialect;
#[cfg(test)]
mod every_call;
#[cfg(test)]
mod fixture;
#[cfg(test)]
mod pass;
#[cfg(test)]
mod raw;
#[cfg(test)]
mod schema;
