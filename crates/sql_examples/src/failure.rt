use hardieflax::documents::Refusal;
use hardieflax::{CompileError, PassError, RestrictError, SchemaError};
use std::alloc::AllocError;
use std::io;
use thiserror::Error;

/// Why the program stops.
#[derive(Debug, Drop, Error)]
pub enum Failure {
    #[error("no {0}")]
    Missing(&'static str),
    #[error(transparent)]
    Schema(#[from] SchemaError),
    #[error(transparent)]
    Refused(#[from] CompileError),
    #[error("no line for debugging")]
    Shown(PassError),
    #[error(transparent)]
    Document(#[from] Refusal),
    #[error(transparent)]
    Restricted(#[from] RestrictError),
    #[error(transparent)]
    Output(#[from] io::Error),
    #[error(transparent)]
    Memory(#[from(alloc)] AllocError),
}
