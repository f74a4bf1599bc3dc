//! SQL types, the thin types in which nodes keep text and lists, and schemas: the declarations of tables, checked.
//!
//! A thin type is a `String`, a `Vec<u8>` or a `Vec<T>` that contracts see as the plain list of its elements, so
//! that two values are equal exactly where these lists are.
//!
//! A copy of a table or of a column shares the table's declaration: a column knows its table and its index in it, so a copy takes no memory.
//!
//! Names that come twice, of tables, columns and relations, are found by ordered sets, so a check of a schema takes n log n. Relations, and
//! pairs of tables that may be used together, are found in ordered maps by the indexes of their tables, the lesser first: keys of names would
//! need a copy of each name, and a pair of borrowed names cannot be looked up in a map of owned ones. The definitions search the lists.
//!
//! The hash of a table is that of its name, and the hash of a column that of its own name. Two tables of one name and different declarations
//! do not occur in one schema, and a hash over all columns would be computed for each column of a statement.
//!
//! A table without columns would be refused without a rule of its own, since its key names no column either. NoColumns is there all the same,
//! as the first cause that a reader looks for.
#![tactic(auto)]

mod compared;
mod declaration;
mod error;
mod laws;
mod list;
mod names;
mod pairs;
mod refusal;
mod schema;
mod spelled;
mod table;
mod tables;
mod text;
mod types;

pub use declaration::{ColumnDecl, JoinableDecl, TableDecl};
pub use error::SchemaError;
pub use laws::equality_is_equality;
pub use list::SqlList;
pub use schema::{Schema, SchemaBuilder, TableNotEqual};
pub use table::{Column, SizeRestrictedColumn, Table};
pub use text::{SqlBytes, SqlText};
pub use types::{Base, SqlType};

/// Out of memory.
pub type NoMemory = std::alloc::AllocError;
