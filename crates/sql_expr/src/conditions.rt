#![tactic(auto, using(sql_node::proofs::Trees::opens_where_clause, sql_node::proofs::Trees::opens_expr))]

ghost use Rattle.std.specs.Prelude.{◌≡◌, IfOk, IsOk};
ghost use Rattle.sql_node.specs.Tree.{MaybeExpr, an_expr, no_expr};
ghost use Rattle.sql_node.specs.View.{expr_tree, where_clause_tree};
ghost use Rattle.sql_leaf.specs.declared.operator.Logic.TheVariants as by;
ghost use Rattle.sql_expr.specs.Calls.{beside};

use crate::calls::boxed_pair;
use sql_node::{Expr, WhereClause};
use sql_schema::NoMemory;
use std::alloc::Global;

/// Conditions that all have to hold.
pub trait WhereAnd: Sized {
    /// The condition so far, where there is one.
    ghost condition: { Self → MaybeExpr };

    /// The clause with one more condition: ` WHERE (old AND new)`. The first stands alone and takes no memory.
    fn and(self, alloc: Global, new: Expr) -> Result<WhereClause, NoMemory>
        ensures whole { IfOk result (λ c. where_clause_tree c
            ≡ an_expr (beside by.And (condition self) (expr_tree new))) }
        ensures first { condition self ≡ no_expr → IsOk result };
}

/// Conditions of which one has to hold.
pub trait WhereOr: Sized {
    /// The condition so far, where there is one.
    ghost condition: { Self → MaybeExpr };

    /// The clause with one more condition: ` WHERE (old OR new)`. The first stands alone and takes no memory.
    fn or(self, alloc: Global, new: Expr) -> Result<WhereClause, NoMemory>
        ensures whole { IfOk result (λ c. where_clause_tree c
            ≡ an_expr (beside by.Or (condition self) (expr_tree new))) }
        ensures first { condition self ≡ no_expr → IsOk result };
}

impl WhereAnd for WhereClause {
    ghost condition = { where_clause_tree };

    fn and(self, alloc: Global, new: Expr) -> Result<WhereClause, NoMemory> {
        match self {
            WhereClause::NoWhereClause => Ok(WhereClause::WhereClause(new)),
            WhereClause::WhereClause(old) => {
                let (old, new) = boxed_pair(alloc, old, new)?;
                Ok(WhereClause::WhereClause(Expr::And(old, new)))
            }
        }
    }
}

impl WhereOr for WhereClause {
    ghost condition = { where_clause_tree };

    fn or(self, alloc: Global, new: Expr) -> Result<WhereClause, NoMemory> {
        match self {
            WhereClause::NoWhereClause => Ok(WhereClause::WhereClause(new)),
            WhereClause::WhereClause(old) => {
                let (old, new) = boxed_pair(alloc, old, new)?;
                Ok(WhereClause::WhereClause(Expr::Or(old, new)))
            }
        }
    }
}
