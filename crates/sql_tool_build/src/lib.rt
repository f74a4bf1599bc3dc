//! The lines that are written for a document: what becomes of each request, as JSON, with ids of shapes.
//!
//! A line is of what is made of a request (`Made`), a statement or the name of a refusal. So `build`, `guard` and `tenant` have the same
//! lines, ids and laws, and differ in what is made.
#![tactic(auto)]

mod known;
mod line;
mod object;
mod sent;

pub use known::request_id;
pub use line::{compile_cached_for, request_line, schema_stands, statement_line};
pub use object::refusal_line;
pub use sql_rows::{NamedRequest, Names, StatementCache};
