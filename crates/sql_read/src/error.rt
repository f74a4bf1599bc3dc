ghost use Rattle.std.specs.Prelude.{◌≡◌};
ghost use Rattle.sql_read.specs.declared.error.ReadError.TheVariants as error;

use std::alloc::AllocError;
use thiserror::Error;

/// Why a text is not read. A message is the variant's name.
#[derive(Debug, Error, Clone, Copy, PartialEq, Eq)]
pub enum ReadError {
    /// The text has no reading in the dialect.
    #[error("NotInGrammar")]
    NotInGrammar,
    /// Out of memory. A text whose brackets nest deeper than [`MAX_DEPTH`](crate::MAX_DEPTH) counts as one for which the
    /// memory of the stack doesn't suffice.
    #[error("NoMemory")]
    NoMemory,
}

impl From<AllocError> for ReadError {
    ghost from_gives = { λ _ e. e ≡ error.NoMemory };

    fn from(_: AllocError) -> ReadError {
        ReadError::NoMemory
    }
}
