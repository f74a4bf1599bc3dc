#![tactic(auto, using(sql_pass::proofs::Walking::walking))]

ghost use Rattle.std.specs.Prelude.{◌≡◌, ◌++◌, IfOk};
ghost use Rattle.sql_expr.specs.Joining.{wrapper_tree, side_tree, side_pieces};

use sql_dialect::Backend;
use sql_leaf::ON;
use sql_node::{Expr, Source};
use sql_pass::{AstPass, PassError, QueryFragment};
use sql_schema::NoMemory;
use std::alloc::Global;

/// A source with the condition on which it is to be joined.
#[derive(Debug, Drop)]
pub struct OnClauseWrapper {
    pub source: Source,
    pub on: Expr,
}

/// The right side of a join.
#[derive(Debug, Drop)]
pub enum JoinRhs {
    /// A source, whose condition is the relation that the schema declares.
    Source(Source),
    On(OnClauseWrapper),
}

impl OnClauseWrapper {
    /// An equal source with an equal condition.
    pub fn try_clone(&self, alloc: Global) -> Result<OnClauseWrapper, NoMemory>
        ensures { IfOk result (λ w. wrapper_tree w ≡ wrapper_tree self.now) }
    {
        Ok(OnClauseWrapper {
            source: self.source.try_clone(alloc)?,
            on: self.on.try_clone(alloc)?,
        })
    }
}

impl JoinRhs {
    /// An equal side.
    pub fn try_clone(&self, alloc: Global) -> Result<JoinRhs, NoMemory>
        ensures { IfOk result (λ s. side_tree s ≡ side_tree self.now) }
    {
        match self {
            JoinRhs::Source(source) => Ok(JoinRhs::Source(source.try_clone(alloc)?)),
            JoinRhs::On(wrapper) => Ok(JoinRhs::On(wrapper.try_clone(alloc)?)),
        }
    }
}

/// `"posts" ON ("posts"."user_id" = "users"."id")`.
impl<DB: Backend> QueryFragment<DB> for OnClauseWrapper {
    ghost pieces = { λ w. side_pieces DB.speaks (wrapper_tree w) };

    fn walk_ast(&self, pass: &mut AstPass<DB>) -> Result<(), PassError> {
        self.source.walk_ast(pass)?;
        pass.push_sql(ON)?;
        self.on.walk_ast(pass)?;
        Ok(())
    }
}

/// The source, and its condition where it has one.
impl<DB: Backend> QueryFragment<DB> for JoinRhs {
    ghost pieces = { λ s. side_pieces DB.speaks (side_tree s) };

    fn walk_ast(&self, pass: &mut AstPass<DB>) -> Result<(), PassError> {
        match self {
            JoinRhs::Source(source) => {
                source.walk_ast(pass)?;
                Ok(())
            }
            JoinRhs::On(wrapper) => wrapper.walk_ast(pass),
        }
    }
}
