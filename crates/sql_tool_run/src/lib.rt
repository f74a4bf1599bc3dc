//! The program's commands, and what a run of it does: `run` over any source and sink. `sql_tool` calls it with standard input and output.
//!
//! One function reads the input, within the limit, and hands the bytes to what the command answers (`carry_out`, `answer`). A command that
//! reads nothing is handed no bytes. A number on the command line has one spelling, without a sign or a leading zero, so a count is told by
//! one pair of words.
//!
//! One loop writes the lines of items (`lines.rt`), whatever they are of: a trait says what the lines are, and `build`, `guard` and `audit`
//! give it once each; `tenant` shares that of `guard`. What is pending is written before a run out of memory ends, so the lines of the
//! requests before are there. A sink that fails has a prefix of the output.
//!
//! What is written is a relation (`IsOutput`) and not a function of the document, since the rules are relations. That at most one text
//! satisfies it is a clause of its own (`one_output` of `run`).
#![tactic(auto)]

mod audit;
mod build;
mod command;
mod guard;
mod lines;
mod program;
mod status;

pub use command::{Command, MAX_REQUESTS};
pub use program::{LIMIT, run};
pub use status::Status;
