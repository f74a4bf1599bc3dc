#![tactic(auto, using(sql_pass::proofs::Walking::walking))]

ghost use Rattle.std.specs.Prelude.{◌≡◌, [], Ok};

use sql_dialect::Backend;
use sql_pass::{AstPass, PassError, QueryFragment};
use sql_schema::NoMemory;
use std::alloc::Global;

/// The marks that calls leave on a statement that they can't act on. A statement with a mark is refused once it is checked,
/// and a mark stays for good. A mark is not written.
#[derive(Debug, Clone, Copy, PartialEq, Eq, PartialOrd, Ord, Hash)]
pub struct Marks {
    /// A join on a statement without a source.
    pub no_source: bool,
    /// `find` on a statement whose source is not a single table or alias.
    pub find_source: bool,
    /// `find` with another number of values than the key has columns.
    pub key_count: bool,
    /// A lock over a lock.
    pub second_lock: bool,
    /// A modifier without a lock.
    pub no_lock: bool,
    /// A lock that was dropped by boxing.
    pub boxed_lock: bool,
}

impl Marks {
    ghost use Rattle.sql_leaf.specs.Marking.{unmarked};

    /// No mark.
    pub fn none() -> Marks
        ensures { result ≡ unmarked }
    {
        Marks {
            no_source: false,
            find_source: false,
            key_count: false,
            second_lock: false,
            no_lock: false,
            boxed_lock: false,
        }
    }

    /// Equal marks. It takes no memory.
    pub fn try_clone(&self, _alloc: Global) -> Result<Marks, NoMemory>
        ensures { result ≡ Ok self.now }
    {
        Ok(*self)
    }
}

/// Nothing is written.
impl<DB: Backend> QueryFragment<DB> for Marks {
    ghost pieces = { λ _. [] };

    fn walk_ast(&self, _pass: &mut AstPass<DB>) -> Result<(), PassError> {
        Ok(())
    }
}
