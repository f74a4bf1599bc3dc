ghost use Rattle.std.specs.Prelude.{◌≡◌, Some, option_map};
ghost use Rattle.sql_node.specs.Tree.{unboxed};
ghost use Rattle.sql_node.specs.View.{distinct_clause_tree, from_clause_tree, group_by_clause_tree, having_clause_tree, order_clause_tree, select_clause_tree, where_clause_tree};
ghost use Rattle.sql_select.specs.Parts.{clauses_of};

use crate::query::Query;
use sql_expr::{
    DistinctClause, FromClause, GroupByClause, HavingClause, LimitOffsetClause, LockingClause,
    OrderClause, SelectClause, SelectStatement, WhereClause,
};

/// The clauses of a statement, to read.
pub trait SelectStatementAccessor: Query {
    /// Returns the selection, by default or as given.
    fn select_clause(&self) -> &SelectClause
        ensures { Some (select_clause_tree result.now)
            ≡ option_map (λ c. c.selection) (clauses_of (Self.statement self.now)) };

    /// The source, where there is one.
    fn from_clause(&self) -> &FromClause
        ensures { Some (from_clause_tree result.now)
            ≡ option_map (λ c. c.source) (clauses_of (Self.statement self.now)) };

    /// Whether equal rows are given once.
    fn distinct_clause(&self) -> &DistinctClause
        ensures { Some (distinct_clause_tree result.now)
            ≡ option_map (λ c. c.distinct) (clauses_of (Self.statement self.now)) };

    /// The condition on rows, where there is one.
    fn where_clause(&self) -> &WhereClause
        ensures { Some (where_clause_tree result.now)
            ≡ option_map (λ c. c.condition) (clauses_of (Self.statement self.now)) };

    /// The order, where there is one.
    fn order_clause(&self) -> &OrderClause
        ensures { Some (order_clause_tree result.now)
            ≡ option_map (λ c. c.order) (clauses_of (Self.statement self.now)) };

    /// Limit and offset, each where there is one.
    fn limit_offset_clause(&self) -> &LimitOffsetClause
        ensures { Some result.now
            ≡ option_map (λ c. c.rows) (clauses_of (Self.statement self.now)) };

    /// Returns the expressions by which rows are grouped, where they are.
    fn group_by_clause(&self) -> &GroupByClause
        ensures { Some (group_by_clause_tree result.now)
            ≡ option_map (λ c. c.group_by) (clauses_of (Self.statement self.now)) };

    /// The condition on groups, where there is one.
    fn having_clause(&self) -> &HavingClause
        ensures { Some (having_clause_tree result.now)
            ≡ option_map (λ c. c.having) (clauses_of (Self.statement self.now)) };

    /// The lock, where there is one.
    fn locking_clause(&self) -> &LockingClause
        ensures { Some (unboxed result.now)
            ≡ option_map (λ c. c.form) (clauses_of (Self.statement self.now)) };
}

impl SelectStatementAccessor for SelectStatement {
    fn select_clause(&self) -> &SelectClause {
        &self.select
    }

    fn from_clause(&self) -> &FromClause {
        &self.from
    }

    fn distinct_clause(&self) -> &DistinctClause {
        &self.distinct
    }

    fn where_clause(&self) -> &WhereClause {
        &self.where_clause
    }

    fn order_clause(&self) -> &OrderClause {
        &self.order
    }

    fn limit_offset_clause(&self) -> &LimitOffsetClause {
        &self.limit_offset
    }

    fn group_by_clause(&self) -> &GroupByClause {
        &self.group_by
    }

    fn having_clause(&self) -> &HavingClause {
        &self.having
    }

    fn locking_clause(&self) -> &LockingClause {
        &self.locking
    }
}
