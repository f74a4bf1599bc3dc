//! The nodes of a statement that hold each other: expressions, sources, clauses and statements.
//!
//! Each is copied by `try_clone` and written as a fragment. Contracts speak of a node's plain tree.
//!
//! This crate cannot be cut further, since a type's `walk_ast` and `try_clone` have to be in the type's own crate. Nodes are parts also where
//! no statement writes them alone: `InValues` writes its values or its statement, and an `OnClauseWrapper` its source, ` ON ` and its
//! condition.
//!
//! The drops of nodes are written by hand and proved here alone. `Value`, `Bound`, aliases and clauses keep the derived ones, so that users
//! can take them apart by value. Drops and copies are kept out of each other's frames (`#[inline(never)]`): LLVM gives each value of a
//! function a place of its own on the stack, for all functions that it inlines, and a level of a condition took 1,464 bytes before and takes
//! 301 so.
//!
//! In most definitions the parts of a select statement are `default e f u w o rows g h form marks`: whether it selects by default, selection,
//! FROM, DISTINCT, WHERE, ORDER BY, limit and offset, GROUP BY, HAVING, form and marks. Words would read better, but a change would prove most
//! crates again and promise nothing.
#![tactic(auto)]

mod boxed;
mod clause;
mod combination;
mod debug;
mod expr;
mod list;
mod membership;
mod order;
mod source;
mod statement;

pub use boxed::BoxedSelectStatement;
pub use clause::{
    DistinctClause, FromClause, GroupByClause, HavingClause, SelectClause, WhereClause,
};
pub use combination::CombinationClause;
pub use expr::{Expr, InValues};
pub use order::{OrderClause, OrderItem};
pub use source::{Join, JoinOn, Source};
pub use statement::{SelectStatement, Statement};
