ghost use Rattle.std.specs.Prelude.{◌≡◌};
ghost use Rattle.sql_guard.specs.declared.error.RestrictError.TheVariants as error;

use std::alloc::AllocError;
use thiserror::Error;

/// Why a statement is not restricted, or not guarded: the first of these that holds, in this order. A message is the variant's name.
#[derive(Debug, Error, Clone, Copy, PartialEq, Eq)]
pub enum RestrictError {
    /// A predicate is no condition on the rows of its table alone.
    #[error("BadPredicate")]
    BadPredicate,
    /// The statement holds an aggregate, a subselect or a `GROUP BY`.
    #[error("OutOfKind")]
    OutOfKind,
    /// A join has no condition.
    #[error("NoRelation")]
    NoRelation,
    /// A table that the statement reads has no policy.
    #[error("LacksPolicy")]
    LacksPolicy,
    /// Out of memory.
    #[error("NoMemory")]
    NoMemory,
}

impl From<AllocError> for RestrictError {
    ghost from_gives = { λ _ e. e ≡ error.NoMemory };

    fn from(_: AllocError) -> RestrictError {
        RestrictError::NoMemory
    }
}
