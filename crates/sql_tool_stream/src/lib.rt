//! Bytes from outside and to outside, in pieces, with a count of the failures.
//!
//! A contract can say which bytes a memory object gives and holds. Of standard input and output it says only that each
//! failure was counted.
//!
//! `read_all` takes its limit as an argument, so that this crate knows nothing of documents. A source that loses bytes in a failed read
//! reports no bytes from then on: else a caller would know of bytes left that a second try can't give.
#![tactic(auto)]

mod memory;
mod outside;
mod reading;
mod standard;
mod sure;
mod writing;

pub use memory::{MemorySink, MemorySource};
pub use outside::{Failed, Sink, Source};
pub use reading::{ReadError, read_all};
pub use standard::{CountedReader, StdSink, StdSource};
pub use sure::{SureSink, SureSource};
pub use writing::{write_all, write_pending};
