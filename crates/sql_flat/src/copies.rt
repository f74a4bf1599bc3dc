//! Copies of the nodes of a flat list.

ghost use Rattle.std.specs.Prelude.{◌≡◌, IfOk};

use crate::kind::{FlatKind, FlatNode};
use sql_schema::{NoMemory, SqlText};
use std::alloc::Global;

fn clone_alias(alloc: Global, alias: &Option<SqlText>) -> Result<Option<SqlText>, NoMemory>
    ensures { IfOk result (λ a. a ≡ alias.now) }
{
    match alias {
        None => Ok(None),
        Some(alias) => Ok(Some(alias.try_clone(alloc)?)),
    }
}

impl FlatKind {
    /// Returns an equal kind.
    pub fn try_clone(&self, alloc: Global) -> Result<FlatKind, NoMemory>
        ensures { IfOk result (λ k. k ≡ self.now) }
    {
        match self {
            FlatKind::Column(alias, column) => {
                let alias = clone_alias(alloc, alias)?;
                Ok(FlatKind::Column(alias, column.try_clone(alloc)?))
            }
            FlatKind::Value(ty, value) => Ok(FlatKind::Value(*ty, value.try_clone(alloc)?)),
            FlatKind::Element(ty, value) => Ok(FlatKind::Element(*ty, value.try_clone(alloc)?)),
            FlatKind::Table(table) => Ok(FlatKind::Table(table.try_clone(alloc)?)),
            FlatKind::Alias(alias) => Ok(FlatKind::Alias(alias.try_clone(alloc)?)),
            FlatKind::List => Ok(FlatKind::List),
            FlatKind::CountStar => Ok(FlatKind::CountStar),
            FlatKind::Nullable => Ok(FlatKind::Nullable),
            FlatKind::Unary(by) => Ok(FlatKind::Unary(*by)),
            FlatKind::Count => Ok(FlatKind::Count),
            FlatKind::Compared(by) => Ok(FlatKind::Compared(*by)),
            FlatKind::Joined(by) => Ok(FlatKind::Joined(*by)),
            FlatKind::Exists => Ok(FlatKind::Exists),
            FlatKind::Single => Ok(FlatKind::Single),
            FlatKind::Among(negated, listed) => Ok(FlatKind::Among(*negated, *listed)),
            FlatKind::Values(ty) => Ok(FlatKind::Values(*ty)),
            FlatKind::Join(kind, on) => Ok(FlatKind::Join(*kind, *on)),
            FlatKind::On => Ok(FlatKind::On),
            FlatKind::From => Ok(FlatKind::From),
            FlatKind::DistinctOn => Ok(FlatKind::DistinctOn),
            FlatKind::Where => Ok(FlatKind::Where),
            FlatKind::GroupBy => Ok(FlatKind::GroupBy),
            FlatKind::Having => Ok(FlatKind::Having),
            FlatKind::OrderBy => Ok(FlatKind::OrderBy),
            FlatKind::Item(direction) => Ok(FlatKind::Item(*direction)),
            FlatKind::Select(selecting) => Ok(FlatKind::Select(*selecting)),
            FlatKind::Combination(combining) => Ok(FlatKind::Combination(*combining)),
            FlatKind::Side => Ok(FlatKind::Side),
            FlatKind::Positions => Ok(FlatKind::Positions),
            FlatKind::Position(item) => Ok(FlatKind::Position(*item)),
        }
    }
}

impl FlatNode {
    /// Returns an equal node.
    pub fn try_clone(&self, alloc: Global) -> Result<FlatNode, NoMemory>
        ensures { IfOk result (λ n. n ≡ self.now) }
    {
        Ok(FlatNode {
            kind: self.kind.try_clone(alloc)?,
            end: self.end,
        })
    }
}
