//! The statement that a query of a document stands for: its names looked up in a schema, and its calls made in their order.
#![tactic(auto)]

mod boxed;
mod build;
mod call;
mod combination;
mod name;
mod operator;
mod replaced;
mod select;
mod source;

pub use build::{expression, statement, statement_to_restrict};
