//! Statements that a number determines, of eight forms over one schema: what `generate` of the program builds, checks and counts.
#![tactic(auto)]

mod form;
mod schema;
mod statements;

pub use form::{Form, dialect_of, form_of};
pub use schema::series_schema;
pub use statements::Named;
