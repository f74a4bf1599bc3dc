//! Tests of the audit: reports, refusals and the order in which they are told, and texts that are long or nest deeply.
//!
//! A crate with tests of its own is proved twice, once with them, so they are not in `sql_audit`.
#![tactic(auto)]

#[cfg(test)]
mod every_call;
#[cfg(test)]
mod long;
#[cfg(test)]
mod reports;
#[cfg(test)]
mod shown;
