//! The sink to which the loop writes: the text, the values and the flag.
#![tactic(auto, using(crate::proofs::Pouring::pouring))]

ghost use Rattle.std.specs.Prelude.{◌≡◌, ◌∷◌, [], Ok, OnOk, IsErrOf};
ghost use Rattle.sql_pass.specs.Pieces.{one, Text, Ident, Bind, Unsafe};
ghost use Rattle.sql_pass.specs.declared.value.Bound.{Bound};
ghost use Rattle.sql_flat_text.specs.inside.Kept.{IsPlain};
ghost use Rattle.sql_flat_text.specs.inside.Sinks.{Pours, keeping, nothing, sunk, Writes};

use crate::Fused;
use sql_dialect::{Backend, BindError, Dialect, QueryBuilder};
use sql_pass::{Bound, PassError, QueryFragment};
use sql_schema::{SqlList, SqlText};
use std::alloc::Global;
use std::mem;

/// The text, the values and the flag that are written so far.
#[derive(Drop)]
pub(crate) struct Sink<DB: Backend> {
    pub(crate) builder: DB::QueryBuilder,
    pub(crate) binds: Vec<Bound>,
    /// Whether the statement, prepared once, serves for other values.
    pub(crate) safe: bool,
    pub(crate) backend: DB,
}

impl<DB: Backend> Sink<DB> {
    /// Nothing is written yet.
    pub(crate) fn new(alloc: Global, backend: DB) -> Sink<DB>
        ensures { sunk DB.QueryBuilder.text DB.QueryBuilder.count result ≡ nothing }
    {
        Sink {
            builder: backend.query_builder(alloc),
            binds: Vec::new(alloc),
            safe: true,
            backend,
        }
    }

    pub(crate) fn dialect(&self) -> Dialect
        ensures { result ≡ DB.speaks }
    {
        self.backend.dialect()
    }

    /// Appends SQL as it is.
    #[tactic(auto, unfolding(crate::specs::inside::Sinks::Poured, crate::specs::inside::Sinks::Fits, crate::specs::inside::Sinks::poured, sql_pass::specs::Pieces::one))]
    pub(crate) fn push_sql(&mut self, sql: &str) -> Result<(), BindError>
        ensures { Pours DB.speaks (sunk DB.QueryBuilder.text DB.QueryBuilder.count self.old)
            (one (Text sql.now)) result
            (sunk DB.QueryBuilder.text DB.QueryBuilder.count self.new) }
    {
        match self.builder.push_sql(sql) {
            Ok(()) => Ok(()),
            Err(_) => Err(BindError::NoMemory),
        }
    }

    /// Appends a name, which the dialect quotes.
    #[tactic(auto, unfolding(crate::specs::inside::Sinks::Poured, crate::specs::inside::Sinks::Fits, crate::specs::inside::Sinks::poured, sql_pass::specs::Pieces::one))]
    pub(crate) fn push_identifier(&mut self, name: &str) -> Result<(), BindError>
        ensures { Pours DB.speaks (sunk DB.QueryBuilder.text DB.QueryBuilder.count self.old)
            (one (Ident name.now)) result
            (sunk DB.QueryBuilder.text DB.QueryBuilder.count self.new) }
    {
        match self.builder.push_identifier(name) {
            Ok(()) => Ok(()),
            Err(_) => Err(BindError::NoMemory),
        }
    }

    /// Says that the text depends on a value.
    #[tactic(auto, unfolding(crate::specs::inside::Sinks::Poured, crate::specs::inside::Sinks::Fits, crate::specs::inside::Sinks::poured, sql_pass::specs::Pieces::one))]
    pub(crate) fn mark_unsafe(&mut self)
        ensures { Pours DB.speaks (sunk DB.QueryBuilder.text DB.QueryBuilder.count self.old)
            (one Unsafe) (Ok tt)
            (sunk DB.QueryBuilder.text DB.QueryBuilder.count self.new) }
    {
        self.safe = false;
    }

    /// Appends a value to those that are bound.
    #[tactic(auto, unfolding(crate::specs::inside::Sinks::keeping))]
    pub(crate) fn keep(&mut self, value: Bound) -> Result<(), BindError>
        ensures ok { OnOk result (sunk DB.QueryBuilder.text DB.QueryBuilder.count self.new
            ≡ keeping (sunk DB.QueryBuilder.text DB.QueryBuilder.count self.old) (value ∷ [])) }
        ensures err { ¬ IsErrOf result BindError.TooManyBinds }
    {
        match self.binds.push(value) {
            Ok(()) => Ok(()),
            Err(_) => Err(BindError::NoMemory),
        }
    }

    /// Appends a placeholder.
    #[tactic(auto, using(crate::proofs::Pouring::placing), unfolding(crate::specs::inside::Sinks::Texted, crate::specs::inside::Sinks::texted, sql_pass::specs::Pieces::one))]
    fn push_placeholder(&mut self) -> Result<(), BindError>
        ensures { (b : Bound) → Writes DB.speaks
            (sunk DB.QueryBuilder.text DB.QueryBuilder.count self.old) (one (Bind b)) result
            (sunk DB.QueryBuilder.text DB.QueryBuilder.count self.new) }
    {
        self.builder.push_bind_param()?;
        Ok(())
    }

    /// Appends a placeholder, and the value to those that are bound.
    #[tactic(auto, using(crate::proofs::Pouring::keeps))]
    pub(crate) fn push_bind(&mut self, value: Bound) -> Result<(), BindError>
        ensures { Pours DB.speaks (sunk DB.QueryBuilder.text DB.QueryBuilder.count self.old)
            (one (Bind value)) result
            (sunk DB.QueryBuilder.text DB.QueryBuilder.count self.new) }
    {
        self.push_placeholder()?;
        self.keep(value)?;
        Ok(())
    }

    /// Appends the part's text.
    #[tactic(auto, using(crate::proofs::Pouring::placing), unfolding(crate::specs::inside::Sinks::Texted, crate::specs::inside::Sinks::texted))]
    pub(crate) fn write<T: QueryFragment<DB>>(&mut self, part: &T) -> Result<(), BindError>
        ensures { Writes DB.speaks (sunk DB.QueryBuilder.text DB.QueryBuilder.count self.old)
            (T.pieces part.now) result
            (sunk DB.QueryBuilder.text DB.QueryBuilder.count self.new) }
    {
        let empty = self.backend.query_builder(*self.binds.allocator());
        let builder = mem::replace(&mut self.builder, empty);
        match part.to_sql(builder, &self.backend) {
            Ok(builder) => {
                self.builder = builder;
                Ok(())
            }
            Err(PassError::NoMemory) => Err(BindError::NoMemory),
            Err(PassError::TooManyBinds) => Err(BindError::TooManyBinds),
            Err(PassError::TooLong) => unreachable!(),
        }
    }

    /// Appends a part that binds nothing.
    #[tactic(auto, using(crate::proofs::Pouring::keeps))]
    pub(crate) fn push_part<T: QueryFragment<DB>>(&mut self, part: &T) -> Result<(), BindError>
        requires { IsPlain (T.pieces part.now) }
        ensures { Pours DB.speaks (sunk DB.QueryBuilder.text DB.QueryBuilder.count self.old)
            (T.pieces part.now) result
            (sunk DB.QueryBuilder.text DB.QueryBuilder.count self.new) }
    {
        self.write(part)
    }

    /// The text, the values and the flag.
    pub(crate) fn finish(self) -> Fused
        ensures sql { result.sql ≡ (sunk DB.QueryBuilder.text DB.QueryBuilder.count self).text }
        ensures binds { result.binds
            ≡ (sunk DB.QueryBuilder.text DB.QueryBuilder.count self).values }
        ensures safe { result.safe ≡ (sunk DB.QueryBuilder.text DB.QueryBuilder.count self).safe }
    {
        let Sink {
            builder,
            binds,
            safe,
            backend: _,
        } = self;
        Fused {
            sql: SqlText::from(builder.finish()),
            binds: SqlList::from(binds),
            safe,
        }
    }
}
