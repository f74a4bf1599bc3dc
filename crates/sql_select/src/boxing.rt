#![tactic(auto, using(sql_pass::proofs::Walking::walking, sql_node::proofs::Trees::opens_select_statement, sql_node::proofs::Trees::opens_boxed_select_statement))]

ghost use Rattle.std.specs.Prelude.{◌≡◌};
ghost use Rattle.sql_node.specs.Pieces.{pieces};
ghost use Rattle.sql_node.specs.View.{boxed_select_statement_tree};
ghost use Rattle.sql_pass.specs.Held.{held};
ghost use Rattle.sql_pass.specs.Walks.{Walks};
ghost use Rattle.sql_select.specs.Changes.{boxed_for, dropped_lock};

use crate::query::Query;
use sql_dialect::Backend;
use sql_expr::{BoxedSelectStatement, LockingClause, Marks, SelectStatement};
use sql_pass::{AstPass, PassError, QueryFragment};

/// All clauses of a statement as those of a statement for one dialect.
pub trait IntoBoxedClause: Query {
    /// The same statement for the backend's dialect. A lock is dropped and leaves a mark, for which `compile` refuses the
    /// statement. On MySQL an offset alone then follows the greatest limit: ` LIMIT 18446744073709551615  OFFSET ?`.
    fn into_boxed<DB: Backend>(self, backend: &DB) -> BoxedSelectStatement
        ensures { boxed_select_statement_tree result ≡ boxed_for DB.speaks (Self.statement self) };
}

/// A statement for one dialect.
pub trait BoxedDsl: Query {
    /// As `IntoBoxedClause::into_boxed`.
    fn internal_into_boxed<DB: Backend>(self, backend: &DB) -> BoxedSelectStatement
        ensures { boxed_select_statement_tree result ≡ boxed_for DB.speaks (Self.statement self) };
}

/// The walk of a boxed statement.
pub trait BoxedQueryHelper: Query {
    /// Writes the statement, as `walk_ast` does.
    fn build_query<DB: Backend>(&self, pass: &mut AstPass<DB>) -> Result<(), PassError>
        ensures { Walks DB.speaks (held DB.QueryBuilder.text DB.QueryBuilder.count pass.old)
            (pieces DB.speaks (Self.statement self.now)) result
            (held DB.QueryBuilder.text DB.QueryBuilder.count pass.new) };
}

fn without_lock(marks: Marks, lock: LockingClause) -> Marks
    ensures { result ≡ dropped_lock lock marks }
{
    match lock {
        LockingClause::NoLockingClause => marks,
        LockingClause::LockingClause(_, _) => Marks {
            boxed_lock: true,
            ..marks
        },
    }
}

impl IntoBoxedClause for SelectStatement {
    fn into_boxed<DB: Backend>(self, backend: &DB) -> BoxedSelectStatement {
        let marks = without_lock(self.marks, self.locking);
        self.boxed_as(backend.dialect(), marks)
    }
}

impl BoxedDsl for SelectStatement {
    fn internal_into_boxed<DB: Backend>(self, backend: &DB) -> BoxedSelectStatement {
        self.into_boxed(backend)
    }
}

impl BoxedQueryHelper for BoxedSelectStatement {
    fn build_query<DB: Backend>(&self, pass: &mut AstPass<DB>) -> Result<(), PassError> {
        self.walk_ast(pass)
    }
}
