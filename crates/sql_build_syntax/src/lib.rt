//! Queries as a document writes them: plain syntax, in which tables and columns are the names that it gives them.
//!
//! It is a crate of its own below the decoder, since what looks names up and builds statements needs the syntax and no JSON.
//!
//! Calls with equal arguments share a variant, such as those without arguments (`Plain`) and those with one expression (`Clause`). `left_join`
//! and `order_by` are other names of `left_outer_join` and `order`, and which one was written is not kept. `into_boxed` without a dialect
//! keeps none: it is the request's, also in a nested statement.
//!
//! An array selects a list, and a column alone selects a column. `["select",{"col":..}]` and `["select",[{"col":..}]]` write one text and have
//! different shapes, as they have different types in diesel.
#![tactic(auto)]

mod call;
mod debug;
mod expr;
mod form;
mod name;
mod order;
mod query;
mod source;

pub use call::{Call, ClauseCall, PlainCall};
pub use expr::{BinaryOperator, Expr, Membership, Quantified, UnaryOperator};
pub use form::{Form, all_stand};
pub use name::{AliasName, ColumnName, FieldName, TableName};
pub use order::OrderItem;
pub use query::{Query, QueryStart};
pub use source::{Join, Source};
