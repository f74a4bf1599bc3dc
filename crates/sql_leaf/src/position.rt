#![tactic(auto, using(sql_pass::proofs::Walking::walking))]

ghost use Rattle.std.specs.Prelude.{◌≡◌, ◌++◌, decimal, Ok};
ghost use Rattle.sql_pass.specs.Pieces.{one, Text};
ghost use Rattle.sql_leaf.specs.Positions.{direction_pieces, position_pieces};

use crate::{ASC, DESC};
use itoa::Buffer;
use sql_dialect::Backend;
use sql_pass::{AstPass, PassError, QueryFragment};
use sql_schema::NoMemory;
use std::alloc::Global;

/// Whether an order rises or falls. Without one it rises.
#[derive(Debug, Clone, Copy, PartialEq, Eq, PartialOrd, Ord, Hash)]
pub enum Direction {
    None,
    Asc,
    Desc,
}

/// A column of the answer by its position, counted from 1. Whether there is such a column is not checked.
#[derive(Debug, Clone, Copy, PartialEq, Eq, PartialOrd, Ord, Hash)]
pub struct OrderColumn(pub u32);

impl From<u32> for OrderColumn {
    ghost from_gives = { λ n c. c.0 ≡ n };

    fn from(column: u32) -> OrderColumn {
        OrderColumn(column)
    }
}

/// An item of a combination's order: `1 DESC`.
#[derive(Debug, Clone, Copy, PartialEq, Eq, PartialOrd, Ord, Hash)]
pub struct PositionalItem {
    pub column: OrderColumn,
    pub direction: Direction,
}

impl Direction {
    /// An equal direction. It takes no memory.
    pub fn try_clone(&self, _alloc: Global) -> Result<Direction, NoMemory>
        ensures { result ≡ Ok self.now }
    {
        Ok(*self)
    }
}

impl OrderColumn {
    /// An equal column. It takes no memory.
    pub fn try_clone(&self, _alloc: Global) -> Result<OrderColumn, NoMemory>
        ensures { result ≡ Ok self.now }
    {
        Ok(*self)
    }
}

impl PositionalItem {
    /// An equal item. It takes no memory.
    pub fn try_clone(&self, _alloc: Global) -> Result<PositionalItem, NoMemory>
        ensures { result ≡ Ok self.now }
    {
        Ok(*self)
    }
}

/// Nothing, ` ASC` or ` DESC`.
impl<DB: Backend> QueryFragment<DB> for Direction {
    ghost pieces = { direction_pieces };

    fn walk_ast(&self, pass: &mut AstPass<DB>) -> Result<(), PassError> {
        match self {
            Direction::None => Ok(()),
            Direction::Asc => pass.push_sql(ASC),
            Direction::Desc => pass.push_sql(DESC),
        }
    }
}

/// Its number.
impl<DB: Backend> QueryFragment<DB> for OrderColumn {
    ghost pieces = { λ c. one (Text (decimal c.0)) };

    fn walk_ast(&self, pass: &mut AstPass<DB>) -> Result<(), PassError> {
        let mut buffer = Buffer::new();
        pass.push_sql(buffer.format(self.0))
    }
}

/// `1`, `1 ASC` or `1 DESC`.
impl<DB: Backend> QueryFragment<DB> for PositionalItem {
    ghost pieces = { λ i. position_pieces i.column i.direction };

    fn walk_ast(&self, pass: &mut AstPass<DB>) -> Result<(), PassError> {
        self.column.walk_ast(pass)?;
        self.direction.walk_ast(pass)?;
        Ok(())
    }
}
