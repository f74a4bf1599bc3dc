//! Sources as lists of leaves: how often a table or an alias appears in one, what it selects by default, and joins with the
//! condition that a declared relation gives.
//!
//! Calls that make a lower crate's types are methods of traits (`NewAlias`, `NewTableSource`, `NewOnClauseWrapper`): nodes have crates of
//! their own, and the calls that users know are in the crate that defines what they mean.
//!
//! `fields` makes the new expression beside the old one, and copies a subselect as it is. A walk that takes lists apart as it goes has no
//! measure that the checker finds.
#![tactic(auto)]

mod alias;
mod appearance;
mod count;
mod join;
mod laws;
mod on_clause;
mod relation;
mod selection;
mod table_source;

pub use alias::{AliasFields, AliasSource, NewAlias};
pub use appearance::AppearsInFromClause;
pub use count::{Count, Plus, Side, pick};
pub use join::{InternalJoinDsl, JoinDsl, JoinOnDsl, JoinTo, NewOnClauseWrapper, ToInnerJoin};
pub use laws::{
    counts_add_up, fields_of_the_table_alone, fields_twice_as_once, inner_joins_pad_nothing,
    related_tables_have_a_condition, same_origins_are_equal,
};
pub use selection::{AppendSelection, QuerySource};
pub use table_source::{NewTableSource, OnlyDsl, TablesampleDsl};
