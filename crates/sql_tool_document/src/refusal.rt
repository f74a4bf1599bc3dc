ghost use Rattle.std.specs.Prelude.{◌≡◌};
ghost use Rattle.sql_tool_document.specs.declared.refusal.Refusal.TheVariants.{NoMemory};

use std::alloc::{AllocError, AllocFailed};
use thiserror::Error;

/// Why there is no document. A message is the variant's name.
#[derive(Debug, Error, Clone, Copy, PartialEq, Eq)]
pub enum Refusal {
    /// Out of memory, whatever the bytes are.
    #[error("NoMemory")]
    NoMemory,
    /// The bytes are no JSON, no JSON of a document's form, or no schema can have its declarations.
    #[error("NotADocument")]
    NotADocument,
}

impl From<AllocError> for Refusal {
    ghost from_gives = { λ _ e. e ≡ NoMemory };

    fn from(_: AllocError) -> Refusal {
        Refusal::NoMemory
    }
}

impl<T: Drop> From<AllocFailed<T>> for Refusal {
    ghost from_gives = { λ _ e. e ≡ NoMemory };

    fn from(_: AllocFailed<T>) -> Refusal {
        Refusal::NoMemory
    }
}
