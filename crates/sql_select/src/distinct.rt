#![tactic(auto, using(sql_node::proofs::Trees::opens_select_statement, sql_node::proofs::Trees::opens_boxed_select_statement, sql_node::proofs::Trees::opens_distinct_clause))]

ghost use Rattle.std.specs.Prelude.{◌≡◌};
ghost use Rattle.sql_node.specs.Tree as tree;
ghost use Rattle.sql_node.specs.View.{expr_tree};
ghost use Rattle.sql_select.specs.Changes.{with_distinct};

use crate::query::Query;
use sql_expr::{BoxedSelectStatement, DistinctClause, Expr, SelectStatement};

/// Equal rows once.
pub trait DistinctDsl: Query {
    /// `SELECT DISTINCT ..`, in place of an earlier DISTINCT or DISTINCT ON.
    fn distinct(self) -> Self
        ensures { Self.statement result ≡ with_distinct tree.distinct (Self.statement self) };
}

/// One row for each value of an expression.
pub trait DistinctOnDsl: Query {
    /// `SELECT DISTINCT ON (a) ..`, in place of an earlier DISTINCT or DISTINCT ON. PostgreSQL alone has it.
    fn distinct_on(self, on: Expr) -> Self
        ensures { Self.statement result
            ≡ with_distinct (tree.distinct_on (expr_tree on)) (Self.statement self) };
}

impl DistinctDsl for SelectStatement {
    fn distinct(mut self) -> SelectStatement {
        self.distinct = DistinctClause::DistinctClause;
        self
    }
}

impl DistinctDsl for BoxedSelectStatement {
    fn distinct(mut self) -> BoxedSelectStatement {
        self.distinct = DistinctClause::DistinctClause;
        self
    }
}

impl DistinctOnDsl for SelectStatement {
    fn distinct_on(mut self, on: Expr) -> SelectStatement {
        self.distinct = DistinctClause::DistinctOnClause(on);
        self
    }
}
