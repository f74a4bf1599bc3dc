#![tactic(auto, using(sql_node::proofs::Trees::opens_select_statement))]

ghost use Rattle.std.specs.Prelude.{◌≡◌};
ghost use Rattle.sql_select.specs.Changes.{locked, modified};

use crate::query::Query;
use sql_expr::{LockMode, LockingClause, Modifier, SelectStatement};

/// A lock on the rows that are read.
pub trait LockingDsl: Query {
    /// ` FOR UPDATE`, without a modifier. Over an earlier lock it leaves a mark, and the statement is refused once it is
    /// checked.
    fn with_lock(self, mode: LockMode) -> Self
        ensures { Self.statement result ≡ locked mode (Self.statement self) };
}

/// The call that says what is done where a row is locked already.
pub trait ModifyLockDsl: Query {
    /// ` SKIP LOCKED` or ` NOWAIT` after the lock, in place of an earlier one. Without a lock it leaves a mark, and the
    /// statement is refused once it is checked.
    fn modify_lock(self, modifier: Modifier) -> Self
        ensures { Self.statement result ≡ modified modifier (Self.statement self) };
}

impl LockingDsl for SelectStatement {
    fn with_lock(mut self, mode: LockMode) -> SelectStatement {
        match self.locking {
            LockingClause::NoLockingClause => {}
            LockingClause::LockingClause(_, _) => self.marks.second_lock = true,
        }
        self.locking = LockingClause::LockingClause(mode, Modifier::NoModifier);
        self
    }
}

impl ModifyLockDsl for SelectStatement {
    fn modify_lock(mut self, modifier: Modifier) -> SelectStatement {
        match self.locking {
            LockingClause::NoLockingClause => self.marks.no_lock = true,
            LockingClause::LockingClause(mode, _) => {
                self.locking = LockingClause::LockingClause(mode, modifier);
            }
        }
        self
    }
}
