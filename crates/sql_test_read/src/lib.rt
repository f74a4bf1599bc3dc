//! Tests of the reader: texts that are read and written back, texts without a reading, and how deep brackets may nest.
//!
//! A crate with tests of its own is proved twice, once with them, so they are not in `sql_read`.
#![tactic(auto)]

#[cfg(test)]
mod deep;
#[cfg(test)]
mod every_call;
#[cfg(test)]
mod texts;
