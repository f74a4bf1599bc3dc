#![tactic(auto, using(sql_pass::proofs::Walking::walking))]

ghost use Rattle.std.specs.Prelude.{◌≡◌, IfOk};
ghost use Rattle.std.specs.Option.{option_map};
ghost use Rattle.sql_node.specs.Pieces.{sides_pieces, source_pieces};
ghost use Rattle.sql_node.specs.View.{expr_tree, join_tree, join_on_tree, source_tree};

use crate::Expr;
use crate::expr::walk_around;
use sql_dialect::Backend;
use sql_leaf::{Alias, CLOSE, JoinKind, ON, OPEN, TableSource, join_text};
use sql_pass::{AstPass, PassError, QueryFragment};
use sql_schema::NoMemory;
use std::alloc::Global;

/// A source of rows.
#[cycle(ast)]
pub enum Source {
    Table(TableSource),
    Alias(Alias),
    Join(Box<JoinOn>),
}

impl Drop for Source {
    #[cycle(ast)]
    fn drop(self) {
        match self {
            Source::Table(_) => {}
            Source::Alias(_) => {}
            Source::Join(_) => {}
        }
    }
}

/// Two sources side by side: `"users" INNER JOIN "posts"`.
#[cycle(ast)]
pub struct Join {
    pub left: Source,
    pub right: Source,
    pub kind: JoinKind,
}

impl Drop for Join {
    #[cycle(ast)]
    fn drop(self) {
        let Join {
            left: _,
            right: _,
            kind: _,
        } = self;
    }
}

/// A join with its condition: `("users" INNER JOIN "posts" ON ("posts"."user_id" = "users"."id"))`. A join that has none is
/// refused once its statement is checked.
#[cycle(ast)]
pub struct JoinOn {
    pub join: Join,
    pub on: Option<Expr>,
}

impl Drop for JoinOn {
    #[cycle(ast)]
    fn drop(self) {
        let JoinOn { join: _, on: _ } = self;
    }
}

#[cycle(copy)]
fn clone_on(alloc: Global, on: &Option<Expr>) -> Result<Option<Expr>, NoMemory>
    ensures { IfOk result (λ v. option_map expr_tree v ≡ option_map expr_tree on.now) }
{
    match on {
        None => Ok(None),
        Some(on) => Ok(Some(on.try_clone(alloc)?)),
    }
}

impl Source {
    /// An equal source.
    #[cycle(copy)]
    pub fn try_clone(&self, alloc: Global) -> Result<Source, NoMemory>
        ensures { IfOk result (λ v. source_tree v ≡ source_tree self.now) }
    {
        match self {
            Source::Table(table) => Ok(Source::Table(table.try_clone(alloc)?)),
            Source::Alias(alias) => Ok(Source::Alias(alias.try_clone(alloc)?)),
            Source::Join(join) => Ok(Source::Join(Box::new(alloc, join.try_clone(alloc)?)?)),
        }
    }
}

impl Join {
    /// An equal join.
    #[cycle(copy)]
    pub fn try_clone(&self, alloc: Global) -> Result<Join, NoMemory>
        ensures { IfOk result (λ v. join_tree v ≡ join_tree self.now) }
    {
        Ok(Join {
            left: self.left.try_clone(alloc)?,
            right: self.right.try_clone(alloc)?,
            kind: self.kind,
        })
    }
}

impl JoinOn {
    /// An equal join.
    #[cycle(copy)]
    pub fn try_clone(&self, alloc: Global) -> Result<JoinOn, NoMemory>
        ensures { IfOk result (λ v. join_on_tree v ≡ join_on_tree self.now) }
    {
        Ok(JoinOn {
            join: self.join.try_clone(alloc)?,
            on: clone_on(alloc, &self.on)?,
        })
    }
}

/// As its variants.
impl<DB: Backend> QueryFragment<DB> for Source {
    ghost pieces = { λ s. source_pieces DB.speaks (source_tree s) };

    #[cycle(walk)]
    fn walk_ast(&self, pass: &mut AstPass<DB>) -> Result<(), PassError> {
        match self {
            Source::Table(table) => table.walk_ast(pass),
            Source::Alias(alias) => alias.walk_ast(pass),
            Source::Join(join) => (**join).walk_ast(pass),
        }
    }
}

/// `"users" LEFT OUTER JOIN "posts"`.
#[tactic(auto, using(sql_pass::proofs::Walking::walking, crate::proofs::Trees::opens_join))]
impl<DB: Backend> QueryFragment<DB> for Join {
    ghost pieces = { λ j. sides_pieces DB.speaks (join_tree j) };

    #[cycle(walk)]
    fn walk_ast(&self, pass: &mut AstPass<DB>) -> Result<(), PassError> {
        self.left.walk_ast(pass)?;
        pass.push_sql(join_text(self.kind))?;
        self.right.walk_ast(pass)?;
        Ok(())
    }
}

/// In brackets with its condition. Without one, the join alone.
#[tactic(auto, using(sql_pass::proofs::Walking::walking, crate::proofs::Trees::opens_join_on))]
impl<DB: Backend> QueryFragment<DB> for JoinOn {
    ghost pieces = { λ j. source_pieces DB.speaks (join_on_tree j) };

    #[cycle(walk)]
    fn walk_ast(&self, pass: &mut AstPass<DB>) -> Result<(), PassError> {
        match &self.on {
            None => self.join.walk_ast(pass),
            Some(on) => {
                pass.push_sql(OPEN)?;
                self.join.walk_ast(pass)?;
                walk_around(ON, on, CLOSE, pass)
            }
        }
    }
}
