ghost use Rattle.std.specs.Prelude.{◌≡◌};
ghost use Rattle.sql_node.specs.Tree as tree;
ghost use Rattle.sql_node.specs.View.{boxed_select_statement_tree, combination_clause_tree, select_statement_tree, statement_tree};

use sql_expr::{BoxedSelectStatement, CombinationClause, SelectStatement, Statement};

/// A statement of one kind.
pub trait Query: Sized {
    /// Its plain tree.
    ghost statement: { Self → tree.Statement };

    /// The same statement as one of any kind, as combinations, subselects and `compile` take it.
    fn into_statement(self) -> Statement
        ensures { statement_tree result ≡ statement self };
}

impl Query for SelectStatement {
    ghost statement = { select_statement_tree };

    fn into_statement(self) -> Statement {
        Statement::Select(self)
    }
}

impl Query for BoxedSelectStatement {
    ghost statement = { boxed_select_statement_tree };

    fn into_statement(self) -> Statement {
        Statement::Boxed(self)
    }
}

impl Query for CombinationClause {
    ghost statement = { combination_clause_tree };

    fn into_statement(self) -> Statement {
        Statement::Combination(self)
    }
}
