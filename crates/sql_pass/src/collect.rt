ghost use Rattle.std.specs.Prelude.{◌≡◌, [], ◌∷◌, ◌++◌, length, List, ℕ, None, OnOk, OnErr, IsErr, IsErrOf, IsTrue};
ghost use Rattle.sql_dialect.specs.declared.backend.Dialect.{Dialect};
ghost use Rattle.sql_pass.specs.Bounds.{bound_of, type_of};
ghost use Rattle.sql_pass.specs.Bytes.{bytes_of, is_too_long};
ghost use Rattle.sql_pass.specs.Collected.{Collected, with_bind, plain, plain_one};
ghost use Rattle.sql_pass.specs.declared.collect.BindType.TheVariants as K;

use crate::bytes::bound_bytes;
use crate::value::BoundRef;
use sql_dialect::{Backend, NoMemory};
use sql_schema::SqlType;
use std::alloc::{AllocError, Global};
use std::fmt;
use std::marker::Model;
use thiserror::Error;

/// The type of what was bound: of a value, or of each value of a list.
#[derive(Debug, Clone, Copy, PartialEq, Eq)]
pub enum BindType {
    Value(SqlType),
    List(SqlType),
}

/// Why a collector takes no further value. It then holds what it held.
#[derive(Debug, Clone, Copy, PartialEq, Eq, Error)]
pub enum CollectError {
    /// The list, or an element of it, is longer than 2147483647: its length has four bytes.
    #[error("TooLong")]
    TooLong,
    #[error("NoMemory")]
    NoMemory,
}

impl From<AllocError> for CollectError {
    ghost use Rattle.sql_pass.specs.declared.collect.CollectError.TheVariants.{NoMemory};

    ghost from_gives = { λ _ e. e ≡ NoMemory };

    fn from(_error: AllocError) -> CollectError {
        CollectError::NoMemory
    }
}

/// The bytes of a statement's values, None for a NULL.
pub type Binds = Vec<Option<Vec<u8>>>;

/// Takes the values of a statement, in the order of their placeholders.
pub trait BindCollector {
    /// The dialect in whose form it keeps bytes.
    ghost dialect: { Dialect };

    /// The types and the bytes that it holds.
    ghost holds: { Self → Collected };

    /// Appends a value, or a list of values as one.
    fn push_bound_value(&mut self, bound: BoundRef<'_>) -> Result<(), CollectError>
        ensures ok { OnOk result
            (holds self.new
            ≡ with_bind (holds self.old) (type_of (bound_of bound.entry))
            (bytes_of dialect (bound_of bound.entry))) }
        ensures err { OnErr result (holds self.new ≡ holds self.old) }
        ensures long { IsErrOf result CollectError.TooLong
            → IsTrue (is_too_long (bound_of bound.entry)) }
        // `NoMemory` may be the answer instead.
        ensures refused { IsTrue (is_too_long (bound_of bound.entry)) → IsErr result };

    /// Appends a NULL of that type.
    fn push_null_value(&mut self, ty: SqlType) -> Result<(), NoMemory>
        ensures ok { OnOk result (holds self.new ≡ with_bind (holds self.old) (K.Value ty) None) }
        ensures err { OnErr result (holds self.new ≡ holds self.old) };
}

/// Keeps the bytes in which a backend takes values, and the type of each.
#[derive(Drop)]
pub struct RawBytesBindCollector<DB: Backend> {
    backend: DB,
    alloc: Global,
    metadata: Vec<BindType>,
    binds: Binds,
}

impl<DB: Backend> Model for RawBytesBindCollector<DB> {
    ghost use Rattle.std.specs.Prelude.{◌≡◌, length};
    ghost use Rattle.sql_pass.specs.Collected.{Collected, plain};

    ghost Value = { Collected };

    ghost view = { λ c. record { types = c.metadata.items; bytes = plain c.binds.items } };

    ghost invariant = { λ c. length c.metadata.items ≡ length c.binds.items };
}

impl<DB: Backend> RawBytesBindCollector<DB> {
    /// An empty collector. It takes no memory before its first value.
    pub fn new(alloc: Global, backend: DB) -> RawBytesBindCollector<DB>
        ensures { result ≡ record { types = []; bytes = [] } }
    {
        RawBytesBindCollector {
            backend,
            alloc,
            metadata: Vec::new(alloc),
            binds: Vec::new(alloc),
        }
    }

    /// The types of the values, one for each of `binds`.
    pub fn metadata(&self) -> &[BindType]
        ensures types { result.now ≡ self.now.types }
        ensures one_length { length result.now ≡ length self.now.bytes }
    {
        self.metadata.as_slice()
    }

    /// The bytes of the values, one for each of `metadata`.
    pub fn binds(&self) -> &[Option<Vec<u8>>]
        ensures bytes { plain result.now ≡ self.now.bytes }
        ensures one_length { length result.now ≡ length self.now.types }
    {
        self.binds.as_slice()
    }

    /// Appends to both lists, or to none.
    fn push(&mut self, ty: BindType, bytes: Option<Vec<u8>>) -> Result<(), NoMemory>
        ensures ok { OnOk result (self.new ≡ with_bind self.old ty (plain_one bytes)) }
        ensures err { OnErr result (self.new ≡ self.old) }
    {
        self.metadata.reserve(1)?;
        self.binds.push(bytes)?;
        self.metadata.push(ty).unwrap();
        Ok(())
    }
}

impl<DB: Backend> fmt::Debug for RawBytesBindCollector<DB> {
    fn fmt<W: fmt::Write>(&self, f: &mut fmt::Formatter<W>) -> fmt::Result {
        f.write_str("RawBytesBindCollector { .. }")
    }
}

impl<DB: Backend> BindCollector for RawBytesBindCollector<DB> {
    ghost dialect = { DB.speaks };

    ghost holds = { λ c. c };

    fn push_bound_value(&mut self, bound: BoundRef<'_>) -> Result<(), CollectError> {
        let bytes = bound_bytes(self.alloc, self.backend.dialect(), bound)?;
        self.push(bind_type(bound), bytes)?;
        Ok(())
    }

    fn push_null_value(&mut self, ty: SqlType) -> Result<(), NoMemory> {
        self.push(BindType::Value(ty), None)
    }
}

fn bind_type(bound: BoundRef<'_>) -> BindType
    ensures { result ≡ type_of (bound_of bound.entry) }
{
    match bound {
        BoundRef::Value(ty, _) => BindType::Value(ty),
        BoundRef::List(ty, _) => BindType::List(ty),
    }
}
