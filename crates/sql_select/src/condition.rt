#![tactic(auto, using(sql_node::proofs::Trees::opens_select_statement, sql_node::proofs::Trees::opens_boxed_select_statement, sql_node::proofs::Trees::opens_group_by_clause, sql_node::proofs::Trees::opens_having_clause))]

ghost use Rattle.std.specs.Prelude.{◌≡◌, IfOk, IsOk};
ghost use Rattle.sql_node.specs.Tree.{no_expr};
ghost use Rattle.sql_node.specs.View.{expr_tree};
ghost use Rattle.sql_leaf.specs.declared.operator.Logic.TheVariants as by;
ghost use Rattle.sql_select.specs.Changes.{filtered, grouped, with_having};
ghost use Rattle.sql_select.specs.Parts.{condition_of};

use crate::beside::beside;
use crate::query::Query;
use sql_expr::{
    BoxedSelectStatement, Expr, GroupByClause, HavingClause, SelectStatement, WhereAnd,
    WhereClause, WhereOr,
};
use sql_schema::NoMemory;
use std::alloc::Global;
use std::mem;

/// Conditions that all have to hold.
pub trait FilterDsl: Query {
    /// ` WHERE (old AND new)`. The first condition stands alone and takes no memory.
    fn filter(self, alloc: Global, predicate: Expr) -> Result<Self, NoMemory>
        ensures whole { IfOk result (λ s. Self.statement s
            ≡ filtered by.And (expr_tree predicate) (Self.statement self)) }
        ensures first { condition_of (Self.statement self) ≡ no_expr → IsOk result };
}

/// Conditions of which one has to hold.
pub trait OrFilterDsl: Query {
    /// ` WHERE (old OR new)`. The first condition stands alone and takes no memory.
    fn or_filter(self, alloc: Global, predicate: Expr) -> Result<Self, NoMemory>
        ensures whole { IfOk result (λ s. Self.statement s
            ≡ filtered by.Or (expr_tree predicate) (Self.statement self)) }
        ensures first { condition_of (Self.statement self) ≡ no_expr → IsOk result };
}

/// One row for each group.
pub trait GroupByDsl: Query {
    /// ` GROUP BY a`, in place of an earlier one.
    fn group_by(self, expr: Expr) -> Self
        ensures { Self.statement result ≡ grouped (expr_tree expr) (Self.statement self) };
}

/// A condition on groups.
pub trait HavingDsl: Query {
    /// ` HAVING a`, in place of an earlier one.
    fn having(self, predicate: Expr) -> Self
        ensures { Self.statement result ≡ with_having (expr_tree predicate) (Self.statement self) };
}

impl FilterDsl for SelectStatement {
    fn filter(mut self, alloc: Global, predicate: Expr) -> Result<SelectStatement, NoMemory> {
        let old = mem::replace(&mut self.where_clause, WhereClause::NoWhereClause);
        let (mut statement, both) = beside(self, WhereAnd::and(old, alloc, predicate))?;
        statement.where_clause = both;
        Ok(statement)
    }
}

impl OrFilterDsl for SelectStatement {
    fn or_filter(mut self, alloc: Global, predicate: Expr) -> Result<SelectStatement, NoMemory> {
        let old = mem::replace(&mut self.where_clause, WhereClause::NoWhereClause);
        let (mut statement, either) = beside(self, WhereOr::or(old, alloc, predicate))?;
        statement.where_clause = either;
        Ok(statement)
    }
}

impl HavingDsl for SelectStatement {
    fn having(mut self, predicate: Expr) -> SelectStatement {
        self.having = HavingClause::HavingClause(predicate);
        self
    }
}

impl FilterDsl for BoxedSelectStatement {
    fn filter(mut self, alloc: Global, predicate: Expr) -> Result<BoxedSelectStatement, NoMemory> {
        let old = mem::replace(&mut self.where_clause, WhereClause::NoWhereClause);
        let (mut statement, both) = beside(self, WhereAnd::and(old, alloc, predicate))?;
        statement.where_clause = both;
        Ok(statement)
    }
}

impl OrFilterDsl for BoxedSelectStatement {
    fn or_filter(
        mut self,
        alloc: Global,
        predicate: Expr,
    ) -> Result<BoxedSelectStatement, NoMemory> {
        let old = mem::replace(&mut self.where_clause, WhereClause::NoWhereClause);
        let (mut statement, either) = beside(self, WhereOr::or(old, alloc, predicate))?;
        statement.where_clause = either;
        Ok(statement)
    }
}

impl HavingDsl for BoxedSelectStatement {
    fn having(mut self, predicate: Expr) -> BoxedSelectStatement {
        self.having = HavingClause::HavingClause(predicate);
        self
    }
}

impl GroupByDsl for SelectStatement {
    fn group_by(mut self, expr: Expr) -> SelectStatement {
        self.group_by = GroupByClause::GroupByClause(expr);
        self
    }
}
