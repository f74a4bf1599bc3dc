#![tactic(auto, using(sql_node::proofs::Trees::opens_select_statement, sql_node::proofs::Trees::opens_boxed_select_statement, sql_node::proofs::Trees::opens_combination_clause))]

ghost use Rattle.std.specs.Prelude.{◌≡◌};
ghost use Rattle.sql_select.specs.Changes.{limited, offset_by};

use crate::query::Query;
use sql_expr::{BoxedSelectStatement, CombinationClause, SelectStatement};

/// How many rows are given.
pub trait LimitDsl: Query {
    /// ` LIMIT $1`. A later limit stands in place of an earlier one.
    fn limit(self, limit: i64) -> Self
        ensures { Self.statement result ≡ limited limit (Self.statement self) };
}

/// How many rows are left out first.
pub trait OffsetDsl: Query {
    /// ` OFFSET $1`. A later offset stands in place of an earlier one.
    fn offset(self, offset: i64) -> Self
        ensures { Self.statement result ≡ offset_by offset (Self.statement self) };
}

impl LimitDsl for SelectStatement {
    fn limit(mut self, limit: i64) -> SelectStatement {
        self.limit_offset.limit_clause = Some(limit);
        self
    }
}

impl OffsetDsl for SelectStatement {
    fn offset(mut self, offset: i64) -> SelectStatement {
        self.limit_offset.offset_clause = Some(offset);
        self
    }
}

impl LimitDsl for BoxedSelectStatement {
    fn limit(mut self, limit: i64) -> BoxedSelectStatement {
        self.limit_offset.limit_clause = Some(limit);
        self
    }
}

impl OffsetDsl for BoxedSelectStatement {
    fn offset(mut self, offset: i64) -> BoxedSelectStatement {
        self.limit_offset.offset_clause = Some(offset);
        self
    }
}

impl LimitDsl for CombinationClause {
    fn limit(mut self, limit: i64) -> CombinationClause {
        self.limit_offset.limit_clause = Some(limit);
        self
    }
}

impl OffsetDsl for CombinationClause {
    fn offset(mut self, offset: i64) -> CombinationClause {
        self.limit_offset.offset_clause = Some(offset);
        self
    }
}
