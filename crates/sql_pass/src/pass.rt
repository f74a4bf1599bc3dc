ghost use Rattle.std.specs.Prelude.{◌≡◌, [], ◌∷◌, ◌++◌, true, OnOk, OnErr, IsErr, IsErrOf, IsTrue};
ghost use Rattle.sql_pass.specs.Bytes.{is_too_long};
ghost use Rattle.sql_pass.specs.Collected.{with_values};
ghost use Rattle.sql_pass.specs.Bounds.{bound_of};
ghost use Rattle.sql_pass.specs.Held.{held, backend_of, text_so_far, collected, safe, shown, noop};
ghost use Rattle.sql_pass.specs.Pieces.{one, Text, Ident, Bind, ValueOnly, Unsafe};
ghost use Rattle.sql_pass.specs.Walks.{Walks};

use crate::collect::{BindCollector, CollectError, RawBytesBindCollector};
use crate::value::{Bound, BoundRef};
use sql_dialect::{Backend, BindError, QueryBuilder};
use std::alloc::{AllocError, Global};
use std::fmt;
use thiserror::Error;

/// Why a push was refused. The pass then holds what the pushes before it gave.
#[derive(Debug, Clone, Copy, PartialEq, Eq, Error)]
pub enum PassError {
    #[error("NoMemory")]
    NoMemory,
    /// The builder's dialect numbers its placeholders, and the last number is taken.
    #[error("TooManyBinds")]
    TooManyBinds,
    /// A list, or an element of one, is longer than the collector's form of a list can say: than 2147483647.
    #[error("TooLong")]
    TooLong,
}

/// One purpose of a walk over a statement, with what it has gathered so far.
#[derive(Drop)]
pub enum AstPass<DB: Backend> {
    ToSql(DB::QueryBuilder, DB),
    CollectBinds(RawBytesBindCollector<DB>, DB),
    IsSafe(bool, DB),
    DebugBinds(Vec<Bound>, DB),
    IsNoop(bool, DB),
}

impl<DB: Backend> fmt::Debug for AstPass<DB> {
    fn fmt<W: fmt::Write>(&self, f: &mut fmt::Formatter<W>) -> fmt::Result {
        f.write_str(match self {
            AstPass::ToSql(_, _) => "ToSql(..)",
            AstPass::CollectBinds(_, _) => "CollectBinds(..)",
            AstPass::IsSafe(_, _) => "IsSafe(..)",
            AstPass::DebugBinds(_, _) => "DebugBinds(..)",
            AstPass::IsNoop(_, _) => "IsNoop(..)",
        })
    }
}

impl<DB: Backend> AstPass<DB> {
    /// Writes the text, after what the builder holds.
    pub fn to_sql(builder: DB::QueryBuilder, backend: DB) -> AstPass<DB>
        ensures holds { held DB.QueryBuilder.text DB.QueryBuilder.count result ≡ text_so_far backend
            (DB.QueryBuilder.text builder) (DB.QueryBuilder.count builder) }
        ensures backend { backend_of result ≡ backend }
    {
        AstPass::ToSql(builder, backend)
    }

    /// Gathers the bytes of the values and their types, after those that the collector holds.
    pub fn collect_binds(collector: RawBytesBindCollector<DB>, backend: DB) -> AstPass<DB>
        ensures holds { held DB.QueryBuilder.text DB.QueryBuilder.count result
            ≡ collected backend collector }
        ensures backend { backend_of result ≡ backend }
    {
        AstPass::CollectBinds(collector, backend)
    }

    /// Finds whether a statement prepared once serves for other values. True at first.
    pub fn is_safe_to_cache_prepared(backend: DB) -> AstPass<DB>
        ensures holds { held DB.QueryBuilder.text DB.QueryBuilder.count result ≡ safe backend true }
        ensures backend { backend_of result ≡ backend }
    {
        AstPass::IsSafe(true, backend)
    }

    /// Gathers the values, in the order of their placeholders.
    pub fn debug_binds(alloc: Global, backend: DB) -> AstPass<DB>
        ensures holds { held DB.QueryBuilder.text DB.QueryBuilder.count result ≡ shown backend [] }
        ensures backend { backend_of result ≡ backend }
    {
        AstPass::DebugBinds(Vec::new(alloc), backend)
    }

    /// Finds whether anything is written. True at first.
    pub fn is_noop(backend: DB) -> AstPass<DB>
        ensures holds { held DB.QueryBuilder.text DB.QueryBuilder.count result ≡ noop backend true }
        ensures backend { backend_of result ≡ backend }
    {
        AstPass::IsNoop(true, backend)
    }

    /// The backend that the walk is for.
    pub fn backend(&self) -> &DB
        ensures { result.now ≡ backend_of self.now }
    {
        match self {
            AstPass::ToSql(_, backend) => backend,
            AstPass::CollectBinds(_, backend) => backend,
            AstPass::IsSafe(_, backend) => backend,
            AstPass::DebugBinds(_, backend) => backend,
            AstPass::IsNoop(_, backend) => backend,
        }
    }

    /// Pushes SQL as it is. The text `""` too makes a walk no no-op.
    #[tactic(auto, unfolding(crate::specs::Walks::Walked, crate::specs::Walks::Stops, crate::specs::Walks::Passes, crate::specs::Held::after, crate::specs::Held::refuses, crate::specs::Held::is_refused, crate::specs::Pieces::one))]
    pub fn push_sql(&mut self, sql: &str) -> Result<(), PassError>
        ensures walks { Walks DB.speaks (held DB.QueryBuilder.text DB.QueryBuilder.count self.old)
            (one (Text sql.now)) result (held DB.QueryBuilder.text DB.QueryBuilder.count self.new) }
        ensures backend { backend_of self.new ≡ backend_of self.old }
    {
        match self {
            AstPass::ToSql(builder, _) => match builder.push_sql(sql) {
                Ok(()) => Ok(()),
                Err(_) => Err(PassError::NoMemory),
            },
            AstPass::IsNoop(noop, _) => {
                *noop = false;
                Ok(())
            }
            _ => Ok(()),
        }
    }

    /// Pushes a name, which the dialect quotes.
    #[tactic(auto, unfolding(crate::specs::Walks::Walked, crate::specs::Walks::Stops, crate::specs::Walks::Passes, crate::specs::Held::after, crate::specs::Held::refuses, crate::specs::Held::is_refused, crate::specs::Pieces::one))]
    pub fn push_identifier(&mut self, name: &str) -> Result<(), PassError>
        ensures walks { Walks DB.speaks (held DB.QueryBuilder.text DB.QueryBuilder.count self.old)
            (one (Ident name.now)) result
            (held DB.QueryBuilder.text DB.QueryBuilder.count self.new) }
        ensures backend { backend_of self.new ≡ backend_of self.old }
    {
        match self {
            AstPass::ToSql(builder, _) => match builder.push_identifier(name) {
                Ok(()) => Ok(()),
                Err(_) => Err(PassError::NoMemory),
            },
            AstPass::IsNoop(noop, _) => {
                *noop = false;
                Ok(())
            }
            _ => Ok(()),
        }
    }

    /// Pushes a value, whose placeholder is written.
    #[tactic(auto, unfolding(crate::specs::Walks::Walked, crate::specs::Walks::Stops, crate::specs::Walks::Passes, crate::specs::Held::after, crate::specs::Held::refuses, crate::specs::Held::is_refused, crate::specs::Pieces::one))]
    pub fn push_bind_param(&mut self, value: BoundRef<'_>) -> Result<(), PassError>
        ensures walks { Walks DB.speaks (held DB.QueryBuilder.text DB.QueryBuilder.count self.old)
            (one (Bind (bound_of value.entry))) result
            (held DB.QueryBuilder.text DB.QueryBuilder.count self.new) }
        ensures backend { backend_of self.new ≡ backend_of self.old }
    {
        match self {
            AstPass::ToSql(builder, _) => match builder.push_bind_param() {
                Ok(()) => Ok(()),
                Err(BindError::TooManyBinds) => Err(PassError::TooManyBinds),
                Err(BindError::NoMemory) => Err(PassError::NoMemory),
            },
            AstPass::CollectBinds(collector, _) => collect(collector, value),
            AstPass::IsSafe(_, _) => Ok(()),
            AstPass::DebugBinds(shown, _) => match show(shown, value) {
                Ok(()) => Ok(()),
                Err(_) => Err(PassError::NoMemory),
            },
            AstPass::IsNoop(noop, _) => {
                *noop = false;
                Ok(())
            }
        }
    }

    /// Pushes a value whose placeholder stands in the text already.
    #[tactic(auto, unfolding(crate::specs::Walks::Walked, crate::specs::Walks::Stops, crate::specs::Walks::Passes, crate::specs::Held::after, crate::specs::Held::refuses, crate::specs::Held::is_refused, crate::specs::Pieces::one))]
    pub fn push_bind_param_value_only(&mut self, value: BoundRef<'_>) -> Result<(), PassError>
        ensures walks { Walks DB.speaks (held DB.QueryBuilder.text DB.QueryBuilder.count self.old)
            (one (ValueOnly (bound_of value.entry))) result
            (held DB.QueryBuilder.text DB.QueryBuilder.count self.new) }
        ensures backend { backend_of self.new ≡ backend_of self.old }
    {
        match self {
            AstPass::ToSql(builder, _) => match builder.push_bind_param_value_only() {
                Ok(()) => Ok(()),
                Err(_) => Err(PassError::TooManyBinds),
            },
            AstPass::CollectBinds(collector, _) => collect(collector, value),
            AstPass::IsSafe(_, _) => Ok(()),
            AstPass::DebugBinds(shown, _) => match show(shown, value) {
                Ok(()) => Ok(()),
                Err(_) => Err(PassError::NoMemory),
            },
            AstPass::IsNoop(_, _) => Ok(()),
        }
    }

    /// Says that the text depends on a value, as on the length of a list.
    #[tactic(auto, unfolding(crate::specs::Walks::Walked, crate::specs::Walks::Stops, crate::specs::Walks::Passes, crate::specs::Held::after, crate::specs::Held::refuses, crate::specs::Held::is_refused, crate::specs::Pieces::one))]
    pub fn unsafe_to_cache_prepared(&mut self)
        ensures walks { Walks DB.speaks (held DB.QueryBuilder.text DB.QueryBuilder.count self.old)
            (one Unsafe) (Ok tt) (held DB.QueryBuilder.text DB.QueryBuilder.count self.new) }
        ensures backend { backend_of self.new ≡ backend_of self.old }
    {
        if let AstPass::IsSafe(safe, _) = self {
            *safe = false;
        }
    }
}

/// Appends the value, owned.
fn show(shown: &mut Vec<Bound>, value: BoundRef<'_>) -> Result<(), AllocError>
    ensures ok { OnOk result (shown.new.items ≡ shown.old.items ++ bound_of value.entry ∷ []) }
    ensures err { OnErr result (shown.new.items ≡ shown.old.items) }
{
    let bound = value.to_bound(*shown.allocator())?;
    shown.push(bound)?;
    Ok(())
}

/// Appends the value's bytes and its type.
fn collect<DB: Backend>(
    collector: &mut RawBytesBindCollector<DB>,
    value: BoundRef<'_>,
) -> Result<(), PassError>
    ensures ok { OnOk result
        (collector.new ≡ with_values DB.speaks collector.old (bound_of value.entry ∷ [])) }
    ensures err { OnErr result (collector.new ≡ collector.old) }
    ensures many { IsErrOf result PassError.TooManyBinds → ⊥ }
    ensures long { IsErrOf result PassError.TooLong → IsTrue (is_too_long (bound_of value.entry)) }
    ensures refused { IsTrue (is_too_long (bound_of value.entry)) → IsErr result }
{
    match collector.push_bound_value(value) {
        Ok(()) => Ok(()),
        Err(CollectError::TooLong) => Err(PassError::TooLong),
        Err(CollectError::NoMemory) => Err(PassError::NoMemory),
    }
}
