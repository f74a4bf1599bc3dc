#![tactic(auto, using(crate::proofs::Walking::walking))]

ghost use Rattle.std.specs.Prelude.{◌≡◌, ◌+◌, ◌++◌, ◌<◌, ◌≤◌, List, [], length, IfOk, IsTrue, IsErr, IsErrOf};
ghost use Rattle.std.specs.List.{list_any};
ghost use Rattle.sql_dialect.specs.Written.{numbers, MAX_BINDS};
ghost use Rattle.sql_pass.specs.Bytes.{is_too_long};
ghost use Rattle.sql_pass.specs.Collected.{with_values};
ghost use Rattle.sql_pass.specs.Held.{held};
ghost use Rattle.sql_pass.specs.Parts.{pieces_of_option};
ghost use Rattle.sql_pass.specs.Pieces.{Piece, text_of, count_of, values_of, is_safe, is_noop};
ghost use Rattle.sql_pass.specs.Walks.{Walks};

use crate::collect::RawBytesBindCollector;
use crate::pass::{AstPass, PassError};
use crate::value::Bound;
use sql_dialect::{Backend, QueryBuilder};
use std::alloc::{AllocError, Global};

/// A part of a statement. It means a list of pieces, and a walk pushes them.
pub trait QueryFragment<DB: Backend> {
    /// The meaning of the part in the backend's dialect, a list of pieces.
    ghost pieces: { Self → List Piece };

    /// Pushes the pieces in order, up to the first refusal.
    fn walk_ast(&self, pass: &mut AstPass<DB>) -> Result<(), PassError>
        ensures { Walks DB.speaks (held DB.QueryBuilder.text DB.QueryBuilder.count pass.old)
            (pieces self.now) result (held DB.QueryBuilder.text DB.QueryBuilder.count pass.new) };

    /// Writes the text after what `out` holds, and gives the builder back. An error drops it.
    #[tactic(auto, using(crate::proofs::Walking::firm), unfolding(crate::specs::Walks::Walked, crate::specs::Held::after))]
    final fn to_sql(
        &self,
        out: DB::QueryBuilder,
        backend: &DB,
    ) -> Result<DB::QueryBuilder, PassError>
        ensures text { IfOk result (λ b. DB.QueryBuilder.text b
            ≡ DB.QueryBuilder.text out
            ++ text_of DB.speaks (DB.QueryBuilder.count out) (pieces self.now)) }
        ensures count { IfOk result (λ b. DB.QueryBuilder.count b
            ≡ count_of DB.speaks (DB.QueryBuilder.count out) (pieces self.now)) }
        // Placeholders run out only where there are more than a dialect that numbers them has numbers left.
        ensures too_many { IsErrOf result PassError.TooManyBinds → IsTrue (numbers DB.speaks)
            × (MAX_BINDS < DB.QueryBuilder.count out + length (values_of (pieces self.now))) }
        ensures room { IsTrue (numbers DB.speaks) → DB.QueryBuilder.count out ≤ MAX_BINDS
            → MAX_BINDS < DB.QueryBuilder.count out + length (values_of (pieces self.now))
            → IsErr result }
        ensures long { ¬ IsErrOf result PassError.TooLong }
    {
        let mut pass = AstPass::to_sql(out, *backend);
        self.walk_ast(&mut pass)?;
        match pass {
            AstPass::ToSql(builder, _backend) => Ok(builder),
            AstPass::CollectBinds(_collector, _backend) => unreachable!(),
            AstPass::IsSafe(_safe, _backend) => unreachable!(),
            AstPass::DebugBinds(_shown, _backend) => unreachable!(),
            AstPass::IsNoop(_noop, _backend) => unreachable!(),
        }
    }

    /// Gathers the values after those that `out` holds, and gives the collector back. An error drops it.
    #[tactic(auto, using(crate::proofs::Walking::firm), unfolding(crate::specs::Walks::Walked, crate::specs::Held::after))]
    final fn collect_binds(
        &self,
        out: RawBytesBindCollector<DB>,
        backend: &DB,
    ) -> Result<RawBytesBindCollector<DB>, PassError>
        ensures binds { IfOk result (λ c. c
            ≡ with_values DB.speaks out (values_of (pieces self.now))) }
        ensures many { ¬ IsErrOf result PassError.TooManyBinds }
        ensures long { IsErrOf result PassError.TooLong
            → IsTrue (list_any is_too_long (values_of (pieces self.now))) }
        // `NoMemory` may be the answer instead.
        ensures refused { IsTrue (list_any is_too_long (values_of (pieces self.now)))
            → IsErr result }
    {
        let mut pass = AstPass::collect_binds(out, *backend);
        self.walk_ast(&mut pass)?;
        match pass {
            AstPass::CollectBinds(collector, _backend) => Ok(collector),
            AstPass::ToSql(_builder, _backend) => unreachable!(),
            AstPass::IsSafe(_safe, _backend) => unreachable!(),
            AstPass::DebugBinds(_shown, _backend) => unreachable!(),
            AstPass::IsNoop(_noop, _backend) => unreachable!(),
        }
    }

    /// Whether the text is the same for all values of the same types: none of its pieces says that it is not, as a list of values
    /// that is written out does, and a raw query.
    #[tactic(auto, using(crate::proofs::Walking::firm), unfolding(crate::specs::Walks::Walked, crate::specs::Held::after))]
    final fn is_safe_to_cache_prepared(&self, backend: &DB) -> bool
        ensures { result ≡ is_safe (pieces self.now) }
    {
        let mut pass = AstPass::is_safe_to_cache_prepared(*backend);
        match self.walk_ast(&mut pass) {
            Ok(()) => {}
            Err(_) => unreachable!(),
        }
        match pass {
            AstPass::IsSafe(safe, _) => safe,
            _other => unreachable!(),
        }
    }

    /// Whether nothing is written.
    #[tactic(auto, using(crate::proofs::Walking::firm), unfolding(crate::specs::Walks::Walked, crate::specs::Held::after))]
    final fn is_noop(&self, backend: &DB) -> bool
        ensures { result ≡ is_noop (pieces self.now) }
    {
        let mut pass = AstPass::is_noop(*backend);
        match self.walk_ast(&mut pass) {
            Ok(()) => {}
            Err(_) => unreachable!(),
        }
        match pass {
            AstPass::IsNoop(noop, _) => noop,
            _other => unreachable!(),
        }
    }
}

/// The values of a part, in the order of their placeholders.
#[tactic(auto, using(crate::proofs::Counting::shows), unfolding(crate::specs::Walks::Walked, crate::specs::Held::after))]
pub fn debug_binds<DB: Backend, T: QueryFragment<DB>>(
    alloc: Global,
    backend: &DB,
    fragment: &T,
) -> Result<Vec<Bound>, AllocError>
    ensures { IfOk result (λ v. v.items ≡ values_of (T.pieces fragment.now)) }
{
    let mut pass = AstPass::debug_binds(alloc, *backend);
    match fragment.walk_ast(&mut pass) {
        Ok(()) => {}
        Err(PassError::NoMemory) => return Err(AllocError),
        Err(PassError::TooManyBinds) => unreachable!(),
        Err(PassError::TooLong) => unreachable!(),
    }
    match pass {
        AstPass::DebugBinds(shown, _backend) => Ok(shown),
        AstPass::ToSql(_builder, _backend) => unreachable!(),
        AstPass::CollectBinds(_collector, _backend) => unreachable!(),
        AstPass::IsSafe(_safe, _backend) => unreachable!(),
        AstPass::IsNoop(_noop, _backend) => unreachable!(),
    }
}

/// The part, or nothing.
impl<DB: Backend, T: QueryFragment<DB>> QueryFragment<DB> for Option<T> {
    ghost pieces = { pieces_of_option T.pieces };

    fn walk_ast(&self, pass: &mut AstPass<DB>) -> Result<(), PassError> {
        match self {
            Some(part) => part.walk_ast(pass),
            None => Ok(()),
        }
    }
}

impl<DB: Backend, T: QueryFragment<DB>> QueryFragment<DB> for Box<T> {
    ghost pieces = { λ b. T.pieces b.value };

    fn walk_ast(&self, pass: &mut AstPass<DB>) -> Result<(), PassError> {
        let part: &T = self;
        part.walk_ast(pass)
    }
}

impl<DB: Backend, T: QueryFragment<DB>> QueryFragment<DB> for &T {
    ghost pieces = { λ r. T.pieces r.now };

    fn walk_ast(&self, pass: &mut AstPass<DB>) -> Result<(), PassError> {
        (**self).walk_ast(pass)
    }
}

/// Nothing.
impl<DB: Backend> QueryFragment<DB> for () {
    ghost pieces = { λ _. [] };

    fn walk_ast(&self, _pass: &mut AstPass<DB>) -> Result<(), PassError> {
        Ok(())
    }
}
