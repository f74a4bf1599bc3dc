//! Queries that are written by hand, and the line that shows a query to those who debug it.
//!
//! A raw query is SQL as it stands, with values bound to the placeholders that stand in it. Nothing checks its text: it is
//! for what no builder writes. It may be shown and walked like any fragment, and does not go through `compile`.
//!
//! The values that `debug_query` gives have a type of their own. The text of a list in `{:?}` follows from the texts of its elements, but a
//! derived `Debug` has no contract. So each value is moved into a thin type that is shown as Rust shows the value, and printing allocates
//! nothing.
#![tactic(auto)]

mod boxed;
mod debug;
mod raw;
mod shown;

pub use boxed::BoxedSqlQuery;
pub use debug::{DebugQuery, debug_query};
pub use raw::{Empty, SqlQuery, UncheckedBind, sql_query};
