//! The calls on statements. Each changes one clause of its statement, or leaves a mark on it, and keeps all else.
//!
//! `QueryDsl` has all of them; `methods` has a trait for each.
//!
//! Bodies are in the traits of `methods`. `QueryDsl` passes each call on where the statement has it, so a call that a kind of statement lacks
//! does not compile, and its own bodies are final.
//!
//! `Query` gives a statement of a kind as one of any kind (`into_statement`), as combinations and subselects take it.
#![tactic(auto)]

mod accessor;
mod as_query;
mod beside;
mod boxing;
mod combine;
mod condition;
mod distinct;
mod find;
mod has_query;
mod join;
mod laws;
mod limit;
mod locking;
mod order;
mod query;
mod query_dsl;
mod selection;

pub use accessor::SelectStatementAccessor;
pub use as_query::{AsQuery, SimpleSelect, select};
pub use boxing::BoxedQueryHelper;
pub use combine::{CombineDsl, IntoPositionalOrderExpr, OrderColumnMethods, PositionalOrderDsl};
pub use has_query::HasQuery;
pub use laws::{
    filter_and_then_order_by_append, or_filter_is_filter_with_or, the_later_call_stands,
};
pub use query::Query;
pub use query_dsl::QueryDsl;

/// A trait for each call on a statement.
pub mod methods {
    pub use crate::boxing::{BoxedDsl, IntoBoxedClause};
    pub use crate::condition::{FilterDsl, GroupByDsl, HavingDsl, OrFilterDsl};
    pub use crate::distinct::{DistinctDsl, DistinctOnDsl};
    pub use crate::find::FindDsl;
    pub use crate::join::{InternalJoinDsl, JoinWithImplicitOnClause};
    pub use crate::limit::{LimitDsl, OffsetDsl};
    pub use crate::locking::{LockingDsl, ModifyLockDsl};
    pub use crate::order::{OrderDsl, ThenOrderDsl};
    pub use crate::selection::{SelectDsl, SelectNullableDsl, SingleValueDsl};
}
