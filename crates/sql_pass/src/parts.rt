#![tactic(auto, using(crate::proofs::Walking::walking))]

ghost use Rattle.std.specs.Prelude.{◌≡◌, ◌++◌, List, codes};
ghost use Rattle.sql_pass.specs.Held.{held};
ghost use Rattle.sql_pass.specs.Parts.{side, side_open, from_open};
ghost use Rattle.sql_pass.specs.Pieces.{Piece, one, Text, Ident};
ghost use Rattle.sql_pass.specs.Walks.{Walks};

use crate::fragment::QueryFragment;
use crate::pass::{AstPass, PassError};
use crate::words::{CLOSE, FROM_OPEN, ON, OPEN};
use sql_dialect::{Backend, Dialect};

/// A name, which is written quoted: `"users"`, or `` `users` ``.
#[derive(Debug, Clone, Copy, PartialEq, Eq)]
pub struct Identifier<'a>(pub &'a str);

impl<DB: Backend> QueryFragment<DB> for Identifier<'_> {
    ghost pieces = { λ i. one (Ident i.0.now) };

    fn walk_ast(&self, pass: &mut AstPass<DB>) -> Result<(), PassError> {
        pass.push_identifier(self.0)
    }
}

/// The part in the middle of an `InfixNode`, between its two other parts.
pub trait MiddleFragment<DB: Backend> {
    /// Its meaning in the backend's dialect, a list of pieces.
    ghost middle: { Self → List Piece };

    /// Pushes the pieces in order, up to the first refusal.
    fn push_sql(&self, pass: &mut AstPass<DB>) -> Result<(), PassError>
        ensures { Walks DB.speaks (held DB.QueryBuilder.text DB.QueryBuilder.count pass.old)
            (middle self.now) result (held DB.QueryBuilder.text DB.QueryBuilder.count pass.new) };
}

/// The text as it is.
impl<DB: Backend> MiddleFragment<DB> for &str {
    ghost middle = { λ s. one (Text s.now) };

    fn push_sql(&self, pass: &mut AstPass<DB>) -> Result<(), PassError> {
        pass.push_sql(*self)
    }
}

/// Writes ` ON `, as between a source and its condition.
#[derive(Debug, Clone, Copy, PartialEq, Eq)]
pub struct OnKeyword;

impl<DB: Backend> MiddleFragment<DB> for OnKeyword {
    ghost middle = { λ _. one (Text (codes " ON ")) };

    fn push_sql(&self, pass: &mut AstPass<DB>) -> Result<(), PassError> {
        pass.push_sql(ON)
    }
}

/// Two parts with something between them: of the names `a` and `b` with the text `.` between them, `"a"."b"`.
#[derive(Debug, Drop)]
pub struct InfixNode<T, U, M> {
    pub lhs: T,
    pub rhs: U,
    pub middle: M,
}

impl<T, U, M> InfixNode<T, U, M> {
    /// The left part, the right part and what stands between them.
    pub fn new(lhs: T, rhs: U, middle: M) -> InfixNode<T, U, M>
        ensures { result ≡ record { lhs = lhs; rhs = rhs; middle = middle } }
    {
        InfixNode { lhs, rhs, middle }
    }
}

impl<DB: Backend, T: QueryFragment<DB>, U: QueryFragment<DB>, M: MiddleFragment<DB>> QueryFragment<
    DB,
> for InfixNode<T, U, M> {
    ghost pieces = { λ n. T.pieces n.lhs ++ (M.middle n.middle ++ U.pieces n.rhs) };

    fn walk_ast(&self, pass: &mut AstPass<DB>) -> Result<(), PassError> {
        self.lhs.walk_ast(pass)?;
        self.middle.push_sql(pass)?;
        self.rhs.walk_ast(pass)?;
        Ok(())
    }
}

/// A query as a side of a combination: `(SELECT ..)`, in SQLite `SELECT * FROM (SELECT ..)`.
#[derive(Debug, Drop)]
pub struct ParenthesisWrapper<T> {
    pub inner: T,
}

impl<DB: Backend, T: QueryFragment<DB>> QueryFragment<DB> for ParenthesisWrapper<T> {
    ghost pieces = { λ w. side DB.speaks (T.pieces w.inner) };

    fn walk_ast(&self, pass: &mut AstPass<DB>) -> Result<(), PassError> {
        push_side_open(pass)?;
        self.inner.walk_ast(pass)?;
        pass.push_sql(CLOSE)?;
        Ok(())
    }
}

/// Pushes what stands before a query that is a side of a combination: `(`, in SQLite `SELECT * FROM (`.
#[tactic(auto, unfolding(crate::specs::Parts::side_open))]
pub fn push_side_open<DB: Backend>(pass: &mut AstPass<DB>) -> Result<(), PassError>
    ensures { Walks DB.speaks (held DB.QueryBuilder.text DB.QueryBuilder.count pass.old)
        (one (Text (side_open DB.speaks))) result
        (held DB.QueryBuilder.text DB.QueryBuilder.count pass.new) }
{
    match pass.backend().dialect() {
        Dialect::Pg | Dialect::Mysql | Dialect::Bracket => pass.push_sql(OPEN),
        Dialect::Sqlite => push_from_open(pass),
    }
}

#[tactic(auto, unfolding(crate::specs::Parts::from_open))]
fn push_from_open<DB: Backend>(pass: &mut AstPass<DB>) -> Result<(), PassError>
    ensures { Walks DB.speaks (held DB.QueryBuilder.text DB.QueryBuilder.count pass.old)
        (one (Text from_open)) result (held DB.QueryBuilder.text DB.QueryBuilder.count pass.new) }
{
    pass.push_sql(FROM_OPEN)
}
