//! Expressions, sources, clauses and statements, and the calls that make expressions of expressions.
//!
//! The nodes themselves stand in `sql_node` and `sql_leaf`, and are given on from here.
#![tactic(auto)]

mod as_expression;
mod as_in_expression;
mod calls;
mod columns;
mod conditions;
mod join_side;
mod listing;
mod methods;
mod on_clause;

pub use as_expression::AsExpression;
pub use as_in_expression::AsInExpression;
pub use calls::{count, count_star, exists, not, value};
pub use conditions::{WhereAnd, WhereOr};
pub use join_side::IntoJoinRhs;
pub use listing::{IntoExpressions, IntoOrder, IntoOrderItem, list, order_by};
pub use methods::{ExpressionMethods, OrderDecorator};
pub use on_clause::{JoinRhs, OnClauseWrapper};
pub use sql_leaf::{
    Alias, AliasedField, BoxedLimitOffset, Comparison, Direction, JoinKind, LimitOffsetClause,
    LockMode, LockingClause, Logic, Marks, Modifier, OrderColumn, PositionalItem, TableSource,
    Tablesample, TablesampleMethod, Unary,
};
pub use sql_node::{
    BoxedSelectStatement, CombinationClause, DistinctClause, Expr, FromClause, GroupByClause,
    HavingClause, InValues, Join, JoinOn, OrderClause, OrderItem, SelectClause, SelectStatement,
    Source, Statement, WhereClause,
};
