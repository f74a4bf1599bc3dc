//! The rules that a statement may break: what each clause sees, the types and verdicts of expressions, and which rules are
//! broken. Definitions alone; the checks stand in `sql_rules_check`.
//!
//! Whether an order begins as its DISTINCT ON is asked of the shapes of expressions (`expr_shape`). The definition is that of the shapes of
//! statements (`erased_expr`), but lists of values are alike whatever their lengths.
#![tactic(auto)]

mod rule;

pub use rule::{RULES, Rule};
