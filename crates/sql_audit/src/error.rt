ghost use Rattle.std.specs.Prelude.{◌≡◌};
ghost use Rattle.sql_audit.specs.declared.error.AuditError.TheVariants as error;

use std::alloc::AllocError;
use thiserror::Error;

/// Why a text has no report, in the order in which it is told: the first that holds of the text. A message is the variant's name.
#[derive(Debug, Error, Clone, Copy, PartialEq, Eq)]
pub enum AuditError {
    /// The text has no reading in the dialect.
    #[error("NotInGrammar")]
    NotInGrammar,
    /// A name in a FROM is none of the schema's tables.
    #[error("UnknownTable")]
    UnknownTable,
    /// A column path names no leaf that its clause sees.
    #[error("NotInScope")]
    NotInScope,
    /// A column path names two leaves where it first names any.
    #[error("Ambiguous")]
    Ambiguous,
    /// Out of memory, the stack's too: a text whose brackets nest deeper than the reader reads.
    #[error("NoMemory")]
    NoMemory,
}

impl From<AllocError> for AuditError {
    ghost from_gives = { λ _ e. e ≡ error.NoMemory };

    fn from(_: AllocError) -> AuditError {
        AuditError::NoMemory
    }
}
