//! The tenant guard: `restrict_all` puts a predicate beside each leaf of each table, at every depth, so that a statement sees one
//! tenant's rows alone. `restrict` does so with one table and no subselect.
//!
//! The promises are in `docs/GUARD.md`. The definitions and laws are those of `sql_guard_law`, which this crate
//! re-exports.
//!
//! `restrict` refuses a subselect, a COUNT or a GROUP BY anywhere (OutOfKind), also where they read other tables. HAVING alone is not refused,
//! since no group is made by it; such a statement breaks Incompatible. Refusals are asked of the nodes of a flat list, and only what rebuilds
//! a statement recurses.
#![tactic(auto)]

mod error;
mod guard;
mod leaves;
mod policy;
mod refusal;
mod restriction;

pub use error::RestrictError;
pub use policy::Policy;
pub use refusal::count_predicates;
pub use restriction::{restrict, restrict_all};
pub use sql_guard_law::{
    guard_is_exact, guard_keeps_the_rules, guarded_statements_have_answers, on_is_needed,
    only_seen_rows_matter, other_rows_do_not_matter, restriction_is_exact,
    restriction_keeps_the_rules, without_subselects_restricting_is_enough,
};
