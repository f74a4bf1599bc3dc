#![tactic(auto, using(sql_pass::proofs::Walking::walking))]

ghost use Rattle.std.specs.Prelude.{◌≡◌, ◌++◌, Ok};
ghost use Rattle.sql_pass.specs.Held.{held};
ghost use Rattle.sql_pass.specs.Pieces.{one, Text};
ghost use Rattle.sql_pass.specs.Walks.{Walks};
ghost use Rattle.sql_leaf.specs.Locks.{lock_sql, skip_locked, modifier_pieces, locking_pieces};

use sql_dialect::Backend;
use sql_pass::{AstPass, PassError, QueryFragment};
use sql_schema::NoMemory;
use std::alloc::Global;

/// How strongly the rows are locked.
#[derive(Debug, Clone, Copy, PartialEq, Eq, PartialOrd, Ord, Hash)]
pub enum LockMode {
    ForUpdate,
    ForNoKeyUpdate,
    ForShare,
    ForKeyShare,
}

/// The modifier of a lock, which says what is done where a row is locked already.
#[derive(Debug, Clone, Copy, PartialEq, Eq, PartialOrd, Ord, Hash)]
pub enum Modifier {
    NoModifier,
    SkipLocked,
    NoWait,
}

/// The lock that a statement takes on its rows: ` FOR UPDATE SKIP LOCKED`.
#[derive(Debug, Clone, Copy, PartialEq, Eq, PartialOrd, Ord, Hash)]
pub enum LockingClause {
    NoLockingClause,
    LockingClause(LockMode, Modifier),
}

impl LockMode {
    /// An equal mode. It takes no memory.
    pub fn try_clone(&self, _alloc: Global) -> Result<LockMode, NoMemory>
        ensures { result ≡ Ok self.now }
    {
        Ok(*self)
    }
}

impl Modifier {
    /// An equal modifier. It takes no memory.
    pub fn try_clone(&self, _alloc: Global) -> Result<Modifier, NoMemory>
        ensures { result ≡ Ok self.now }
    {
        Ok(*self)
    }
}

impl LockingClause {
    /// An equal clause. It takes no memory.
    pub fn try_clone(&self, _alloc: Global) -> Result<LockingClause, NoMemory>
        ensures { result ≡ Ok self.now }
    {
        Ok(*self)
    }
}

fn mode_word(mode: LockMode) -> &'static str
    ensures { result.now ≡ lock_sql mode }
{
    match mode {
        LockMode::ForUpdate => " FOR UPDATE",
        LockMode::ForNoKeyUpdate => " FOR NO KEY UPDATE",
        LockMode::ForShare => " FOR SHARE",
        LockMode::ForKeyShare => " FOR KEY SHARE",
    }
}

#[tactic(auto, unfolding(crate::specs::Locks::skip_locked))]
fn push_skip_locked<DB: Backend>(pass: &mut AstPass<DB>) -> Result<(), PassError>
    ensures { Walks DB.speaks (held DB.QueryBuilder.text DB.QueryBuilder.count pass.old)
        (one (Text skip_locked)) result (held DB.QueryBuilder.text DB.QueryBuilder.count pass.new) }
{
    pass.push_sql(" SKIP LOCKED")
}

/// ` FOR UPDATE`, ` FOR NO KEY UPDATE`, ` FOR SHARE` or ` FOR KEY SHARE`.
impl<DB: Backend> QueryFragment<DB> for LockMode {
    ghost pieces = { λ m. one (Text (lock_sql m)) };

    fn walk_ast(&self, pass: &mut AstPass<DB>) -> Result<(), PassError> {
        pass.push_sql(mode_word(*self))
    }
}

/// Nothing, ` SKIP LOCKED` or ` NOWAIT`.
impl<DB: Backend> QueryFragment<DB> for Modifier {
    ghost pieces = { modifier_pieces };

    fn walk_ast(&self, pass: &mut AstPass<DB>) -> Result<(), PassError> {
        match self {
            Modifier::NoModifier => Ok(()),
            Modifier::SkipLocked => push_skip_locked(pass),
            Modifier::NoWait => pass.push_sql(" NOWAIT"),
        }
    }
}

/// Nothing, or the mode and its modifier.
impl<DB: Backend> QueryFragment<DB> for LockingClause {
    ghost pieces = { locking_pieces };

    fn walk_ast(&self, pass: &mut AstPass<DB>) -> Result<(), PassError> {
        match self {
            LockingClause::NoLockingClause => Ok(()),
            LockingClause::LockingClause(mode, modifier) => {
                mode.walk_ast(pass)?;
                modifier.walk_ast(pass)
            }
        }
    }
}
