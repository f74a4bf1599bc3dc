//! Tests of the nodes and of the calls that make them: worked texts, copies, lines for those who debug.
#![tactic(auto)]

#[cfg(test)]
mod debug;
#[cfg(test)]
mod every_call;
#[cfg(test)]
mod expr;
pub mod fixture;
#[cfg(test)]
mod source;
