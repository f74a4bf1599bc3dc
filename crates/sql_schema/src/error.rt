ghost use Rattle.std.specs.Prelude.{◌≡◌};
ghost use Rattle.sql_schema.specs.declared.error.SchemaError.TheVariants.{NoMemory};

use std::alloc::AllocError;
use thiserror::Error;

/// Why declarations are not a schema. Where several refusals hold, the error is the first of them in this order.
#[derive(Debug, Drop, PartialEq, Eq, Error)]
pub enum SchemaError {
    /// Two tables have one `name`, or one schema and one `sql_name`.
    #[error("DuplicateTable")]
    DuplicateTable,
    /// A table has no columns.
    #[error("NoColumns")]
    NoColumns,
    /// Two columns of a table have one `name`, or one `sql_name`.
    #[error("DuplicateColumn")]
    DuplicateColumn,
    /// A primary key is empty, or names no column of its table.
    #[error("UnknownKey")]
    UnknownKey,
    /// `joinable` or `together` names no table.
    #[error("UnknownTable")]
    UnknownTable,
    /// A relation of a table to itself, by a column that its child lacks or whose base type isn't that of the parent's
    /// key, to a key of more columns than one, or of two tables that are related already.
    #[error("BadJoinable")]
    BadJoinable,
    /// Memory ran out.
    #[error("NoMemory")]
    NoMemory,
}

impl From<AllocError> for SchemaError {
    ghost from_gives = { λ _ e. e ≡ NoMemory };

    fn from(_error: AllocError) -> SchemaError {
        SchemaError::NoMemory
    }
}
