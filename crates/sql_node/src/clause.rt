#![tactic(auto, using(sql_pass::proofs::Walking::walking))]

ghost use Rattle.std.specs.Prelude.{◌≡◌, IfOk, codes, option_map};
ghost use Rattle.sql_pass.specs.Held.{held};
ghost use Rattle.sql_pass.specs.Pieces.{one, Text};
ghost use Rattle.sql_pass.specs.Walks.{Walks};
ghost use Rattle.sql_leaf.specs.Words.{distinct_on_open, group_by};
ghost use Rattle.sql_node.specs.Pieces.{around, distinct_pieces, expr_pieces, from_pieces, maybe_pieces};
ghost use Rattle.sql_node.specs.View.{distinct_clause_tree, expr_tree, from_clause_tree, from_of, group_by_clause_tree, having_clause_tree, select_clause_tree, source_tree, where_clause_tree};

use crate::expr::walk_around;
use crate::{Expr, Source};
use sql_dialect::Backend;
use sql_leaf::{DISTINCT, DISTINCT_ON_CLOSE, DISTINCT_ON_OPEN, FROM, GROUP_BY, HAVING, WHERE};
use sql_pass::{AstPass, PassError, QueryFragment};
use sql_schema::NoMemory;
use std::alloc::Global;

/// ` FROM "users"`.
#[cycle(ast)]
#[derive(Drop)]
pub enum FromClause {
    NoFromClause,
    FromClause(Source),
}

/// The selection, and whether it is the default one: the columns of the source.
#[cycle(ast)]
#[derive(Drop)]
pub enum SelectClause {
    DefaultSelectClause(Expr),
    SelectClause(Expr),
}

/// Nothing, `DISTINCT ` or `DISTINCT ON ("users"."name") `.
#[cycle(ast)]
#[derive(Drop)]
pub enum DistinctClause {
    NoDistinctClause,
    DistinctClause,
    /// PostgreSQL alone has it.
    DistinctOnClause(Expr),
}

/// ` WHERE ("users"."id" = $1)`.
#[cycle(ast)]
#[derive(Drop)]
pub enum WhereClause {
    NoWhereClause,
    WhereClause(Expr),
}

/// ` GROUP BY "users"."id"`.
#[cycle(ast)]
#[derive(Drop)]
pub enum GroupByClause {
    NoGroupByClause,
    GroupByClause(Expr),
}

/// ` HAVING (COUNT(*) > $1)`.
#[cycle(ast)]
#[derive(Drop)]
pub enum HavingClause {
    NoHavingClause,
    HavingClause(Expr),
}

impl FromClause {
    /// The source: of ` FROM "users"` the table `users`.
    #[tactic(auto, using(crate::proofs::Trees::opens_from_clause))]
    pub fn as_query_source(&self) -> Option<&Source>
        ensures { from_of (option_map (λ s. source_tree s.now) result) ≡ from_clause_tree self.now }
    {
        match self {
            FromClause::NoFromClause => None,
            FromClause::FromClause(source) => Some(source),
        }
    }

    /// An equal clause.
    #[cycle(copy)]
    pub fn try_clone(&self, alloc: Global) -> Result<FromClause, NoMemory>
        ensures { IfOk result (λ v. from_clause_tree v ≡ from_clause_tree self.now) }
    {
        match self {
            FromClause::NoFromClause => Ok(FromClause::NoFromClause),
            FromClause::FromClause(source) => Ok(FromClause::FromClause(source.try_clone(alloc)?)),
        }
    }
}

impl SelectClause {
    /// An equal clause.
    #[cycle(copy)]
    pub fn try_clone(&self, alloc: Global) -> Result<SelectClause, NoMemory>
        ensures { IfOk result (λ v. select_clause_tree v ≡ select_clause_tree self.now) }
    {
        match self {
            SelectClause::DefaultSelectClause(selection) => Ok(SelectClause::DefaultSelectClause(
                selection.try_clone(alloc)?,
            )),
            SelectClause::SelectClause(selection) => Ok(SelectClause::SelectClause(
                selection.try_clone(alloc)?,
            )),
        }
    }
}

impl DistinctClause {
    /// An equal clause.
    #[cycle(copy)]
    pub fn try_clone(&self, alloc: Global) -> Result<DistinctClause, NoMemory>
        ensures { IfOk result (λ v. distinct_clause_tree v ≡ distinct_clause_tree self.now) }
    {
        match self {
            DistinctClause::NoDistinctClause => Ok(DistinctClause::NoDistinctClause),
            DistinctClause::DistinctClause => Ok(DistinctClause::DistinctClause),
            DistinctClause::DistinctOnClause(exprs) => Ok(DistinctClause::DistinctOnClause(
                exprs.try_clone(alloc)?,
            )),
        }
    }
}

impl WhereClause {
    /// An equal clause.
    #[cycle(copy)]
    pub fn try_clone(&self, alloc: Global) -> Result<WhereClause, NoMemory>
        ensures { IfOk result (λ v. where_clause_tree v ≡ where_clause_tree self.now) }
    {
        match self {
            WhereClause::NoWhereClause => Ok(WhereClause::NoWhereClause),
            WhereClause::WhereClause(condition) => Ok(WhereClause::WhereClause(condition.try_clone(
                alloc,
            )?)),
        }
    }
}

impl GroupByClause {
    /// An equal clause.
    #[cycle(copy)]
    pub fn try_clone(&self, alloc: Global) -> Result<GroupByClause, NoMemory>
        ensures { IfOk result (λ v. group_by_clause_tree v ≡ group_by_clause_tree self.now) }
    {
        match self {
            GroupByClause::NoGroupByClause => Ok(GroupByClause::NoGroupByClause),
            GroupByClause::GroupByClause(exprs) => Ok(GroupByClause::GroupByClause(exprs.try_clone(
                alloc,
            )?)),
        }
    }
}

impl HavingClause {
    /// An equal clause.
    #[cycle(copy)]
    pub fn try_clone(&self, alloc: Global) -> Result<HavingClause, NoMemory>
        ensures { IfOk result (λ v. having_clause_tree v ≡ having_clause_tree self.now) }
    {
        match self {
            HavingClause::NoHavingClause => Ok(HavingClause::NoHavingClause),
            HavingClause::HavingClause(condition) => Ok(HavingClause::HavingClause(
                condition.try_clone(alloc)?,
            )),
        }
    }
}

/// Nothing, or ` FROM ` and the source.
#[tactic(auto, using(sql_pass::proofs::Walking::walking, crate::proofs::Trees::opens_from_clause))]
impl<DB: Backend> QueryFragment<DB> for FromClause {
    ghost pieces = { λ c. from_pieces DB.speaks (from_clause_tree c) };

    #[cycle(walk)]
    fn walk_ast(&self, pass: &mut AstPass<DB>) -> Result<(), PassError> {
        match self {
            FromClause::NoFromClause => Ok(()),
            FromClause::FromClause(source) => {
                pass.push_sql(FROM)?;
                source.walk_ast(pass)
            }
        }
    }
}

/// The selection.
impl<DB: Backend> QueryFragment<DB> for SelectClause {
    ghost pieces = { λ c. expr_pieces DB.speaks (select_clause_tree c).1 };

    #[cycle(walk)]
    fn walk_ast(&self, pass: &mut AstPass<DB>) -> Result<(), PassError> {
        match self {
            SelectClause::DefaultSelectClause(selection) => selection.walk_ast(pass),
            SelectClause::SelectClause(selection) => selection.walk_ast(pass),
        }
    }
}

#[tactic(auto, unfolding(sql_leaf::specs::Words::distinct_on_open))]
#[cycle(walk)]
fn walk_distinct_on<DB: Backend>(exprs: &Expr, pass: &mut AstPass<DB>) -> Result<(), PassError>
    ensures { Walks DB.speaks (held DB.QueryBuilder.text DB.QueryBuilder.count pass.old)
        (around distinct_on_open (expr_pieces DB.speaks (expr_tree exprs.now)) (codes ") ")) result
        (held DB.QueryBuilder.text DB.QueryBuilder.count pass.new) }
{
    walk_around(DISTINCT_ON_OPEN, exprs, DISTINCT_ON_CLOSE, pass)
}

/// As its variants.
#[tactic(auto, using(sql_pass::proofs::Walking::walking, crate::proofs::Trees::opens_distinct_clause))]
impl<DB: Backend> QueryFragment<DB> for DistinctClause {
    ghost pieces = { λ c. distinct_pieces DB.speaks (distinct_clause_tree c) };

    #[cycle(walk)]
    fn walk_ast(&self, pass: &mut AstPass<DB>) -> Result<(), PassError> {
        match self {
            DistinctClause::NoDistinctClause => Ok(()),
            DistinctClause::DistinctClause => pass.push_sql(DISTINCT),
            DistinctClause::DistinctOnClause(exprs) => walk_distinct_on(exprs, pass),
        }
    }
}

/// Nothing, or ` WHERE ` and the condition.
#[tactic(auto, using(sql_pass::proofs::Walking::walking, crate::proofs::Trees::opens_where_clause))]
impl<DB: Backend> QueryFragment<DB> for WhereClause {
    ghost pieces = { λ c. maybe_pieces DB.speaks (codes " WHERE ") (where_clause_tree c) };

    #[cycle(walk)]
    fn walk_ast(&self, pass: &mut AstPass<DB>) -> Result<(), PassError> {
        match self {
            WhereClause::NoWhereClause => Ok(()),
            WhereClause::WhereClause(condition) => {
                pass.push_sql(WHERE)?;
                condition.walk_ast(pass)
            }
        }
    }
}

#[tactic(auto, unfolding(sql_leaf::specs::Words::group_by))]
fn push_group_by<DB: Backend>(pass: &mut AstPass<DB>) -> Result<(), PassError>
    ensures { Walks DB.speaks (held DB.QueryBuilder.text DB.QueryBuilder.count pass.old)
        (one (Text group_by)) result (held DB.QueryBuilder.text DB.QueryBuilder.count pass.new) }
{
    pass.push_sql(GROUP_BY)
}

/// Nothing, or ` GROUP BY ` and the list.
#[tactic(auto, using(sql_pass::proofs::Walking::walking, crate::proofs::Trees::opens_group_by_clause))]
impl<DB: Backend> QueryFragment<DB> for GroupByClause {
    ghost pieces = { λ c. maybe_pieces DB.speaks group_by (group_by_clause_tree c) };

    #[cycle(walk)]
    fn walk_ast(&self, pass: &mut AstPass<DB>) -> Result<(), PassError> {
        match self {
            GroupByClause::NoGroupByClause => Ok(()),
            GroupByClause::GroupByClause(exprs) => {
                push_group_by(pass)?;
                exprs.walk_ast(pass)
            }
        }
    }
}

/// Nothing, or ` HAVING ` and the condition.
#[tactic(auto, using(sql_pass::proofs::Walking::walking, crate::proofs::Trees::opens_having_clause))]
impl<DB: Backend> QueryFragment<DB> for HavingClause {
    ghost pieces = { λ c. maybe_pieces DB.speaks (codes " HAVING ") (having_clause_tree c) };

    #[cycle(walk)]
    fn walk_ast(&self, pass: &mut AstPass<DB>) -> Result<(), PassError> {
        match self {
            HavingClause::NoHavingClause => Ok(()),
            HavingClause::HavingClause(condition) => {
                pass.push_sql(HAVING)?;
                condition.walk_ast(pass)
            }
        }
    }
}
