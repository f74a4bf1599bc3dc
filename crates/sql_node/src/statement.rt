#![tactic(auto, using(sql_pass::proofs::Walking::walking))]

ghost use Rattle.std.specs.Prelude.{◌≡◌, ◌++◌, IfOk, false};
ghost use Rattle.sql_pass.specs.Held.{held};
ghost use Rattle.sql_pass.specs.Walks.{Walks};
ghost use Rattle.sql_leaf.specs.Limits.{limit_offset_pieces};
ghost use Rattle.sql_leaf.specs.Locks.{locking_pieces};
ghost use Rattle.sql_node.specs.Pieces.{order_pieces, pieces};
ghost use Rattle.sql_node.specs.View.{order_clause_tree, select_statement_tree, statement_tree};

use crate::{
    BoxedSelectStatement, CombinationClause, DistinctClause, FromClause, GroupByClause,
    HavingClause, OrderClause, SelectClause, WhereClause,
};
use sql_dialect::{Backend, Dialect};
use sql_leaf::{LimitOffsetClause, LockingClause, Marks, SELECT};
use sql_pass::{AstPass, PassError, QueryFragment};
use sql_schema::NoMemory;
use std::alloc::Global;

/// A statement.
#[cycle(ast)]
#[derive(Drop)]
pub enum Statement {
    Select(SelectStatement),
    Boxed(BoxedSelectStatement),
    Combination(CombinationClause),
}

/// `SELECT .. FROM ..`.
#[cycle(ast)]
pub struct SelectStatement {
    pub select: SelectClause,
    pub from: FromClause,
    pub distinct: DistinctClause,
    pub where_clause: WhereClause,
    pub order: OrderClause,
    pub limit_offset: LimitOffsetClause,
    pub group_by: GroupByClause,
    pub having: HavingClause,
    pub locking: LockingClause,
    pub marks: Marks,
}

impl Drop for SelectStatement {
    // (not inlined: see `drop_expr`)
    #[inline(never)]
    #[cycle(ast)]
    fn drop(self) {
        let SelectStatement {
            select,
            from,
            distinct,
            where_clause,
            order,
            limit_offset: _,
            group_by,
            having,
            locking: _,
            marks: _,
        } = self;
        drop(select);
        drop(from);
        drop(distinct);
        drop(where_clause);
        drop(order);
        drop(group_by);
        drop(having);
    }
}

impl Statement {
    /// An equal statement.
    #[cycle(copy)]
    pub fn try_clone(&self, alloc: Global) -> Result<Statement, NoMemory>
        ensures { IfOk result (λ v. statement_tree v ≡ statement_tree self.now) }
    {
        match self {
            Statement::Select(statement) => Ok(Statement::Select(statement.try_clone(alloc)?)),
            Statement::Boxed(statement) => Ok(Statement::Boxed(statement.try_clone(alloc)?)),
            Statement::Combination(statement) => Ok(Statement::Combination(statement.try_clone(
                alloc,
            )?)),
        }
    }
}

impl SelectStatement {
    /// Its clauses as those of a boxed statement for a dialect, with these marks. The lock is dropped.
    pub fn boxed_as(self, dialect: Dialect, marks: Marks) -> BoxedSelectStatement
        ensures select { result.select ≡ self.select }
        ensures from { result.from ≡ self.from }
        ensures distinct { result.distinct ≡ self.distinct }
        ensures where_clause { result.where_clause ≡ self.where_clause }
        ensures order { result.order ≡ self.order }
        ensures limit_offset { result.limit_offset ≡ self.limit_offset }
        ensures group_by { result.group_by ≡ self.group_by }
        ensures having { result.having ≡ self.having }
        ensures marks { result.marks ≡ marks }
        ensures dialect { result.dialect ≡ dialect }
        ensures nullable { result.nullable ≡ false }
    {
        let SelectStatement {
            select,
            from,
            distinct,
            where_clause,
            order,
            limit_offset,
            group_by,
            having,
            locking: _,
            marks: _,
        } = self;
        BoxedSelectStatement {
            select,
            from,
            distinct,
            where_clause,
            order,
            limit_offset,
            group_by,
            having,
            marks,
            dialect,
            nullable: false,
        }
    }

    /// An equal statement.
    // (not inlined: what nests keeps a small frame)
    #[inline(never)]
    #[cycle(copy)]
    pub fn try_clone(&self, alloc: Global) -> Result<SelectStatement, NoMemory>
        ensures { IfOk result (λ v. select_statement_tree v ≡ select_statement_tree self.now) }
    {
        Ok(SelectStatement {
            select: self.select.try_clone(alloc)?,
            from: self.from.try_clone(alloc)?,
            distinct: self.distinct.try_clone(alloc)?,
            where_clause: self.where_clause.try_clone(alloc)?,
            order: self.order.try_clone(alloc)?,
            limit_offset: self.limit_offset,
            group_by: self.group_by.try_clone(alloc)?,
            having: self.having.try_clone(alloc)?,
            locking: self.locking,
            marks: self.marks,
        })
    }
}

/// As its variants.
impl<DB: Backend> QueryFragment<DB> for Statement {
    ghost pieces = { λ s. pieces DB.speaks (statement_tree s) };

    #[cycle(walk)]
    fn walk_ast(&self, pass: &mut AstPass<DB>) -> Result<(), PassError> {
        match self {
            Statement::Select(select) => select.walk_ast(pass),
            Statement::Boxed(select) => select.walk_ast(pass),
            Statement::Combination(both) => both.walk_ast(pass),
        }
    }
}

/// As `walk_boxed_end`, and `push_select_end` of `sql_flat_text`, which change with it.
fn walk_page<DB: Backend>(
    rows: LimitOffsetClause,
    locking: LockingClause,
    pass: &mut AstPass<DB>,
) -> Result<(), PassError>
    ensures { Walks DB.speaks (held DB.QueryBuilder.text DB.QueryBuilder.count pass.old)
        (limit_offset_pieces DB.speaks false rows.limit_clause rows.offset_clause
        ++ locking_pieces locking)
        result (held DB.QueryBuilder.text DB.QueryBuilder.count pass.new) }
{
    rows.walk_ast(pass)?;
    locking.walk_ast(pass)?;
    Ok(())
}

/// Pushes the order and what follows it.
#[cycle(walk)]
fn walk_end<DB: Backend>(
    order: &OrderClause,
    rows: LimitOffsetClause,
    locking: LockingClause,
    pass: &mut AstPass<DB>,
) -> Result<(), PassError>
    ensures { Walks DB.speaks (held DB.QueryBuilder.text DB.QueryBuilder.count pass.old)
        (order_pieces DB.speaks (order_clause_tree order.now)
        ++ (limit_offset_pieces DB.speaks false rows.limit_clause rows.offset_clause
        ++ locking_pieces locking))
        result (held DB.QueryBuilder.text DB.QueryBuilder.count pass.new) }
{
    order.walk_ast(pass)?;
    walk_page(rows, locking, pass)?;
    Ok(())
}

/// `SELECT `, distinct, selection, from, where, group by, having, order, limit and offset, lock.
#[tactic(auto, using(sql_pass::proofs::Walking::walking, crate::proofs::Trees::opens_select_statement))]
impl<DB: Backend> QueryFragment<DB> for SelectStatement {
    ghost pieces = { λ s. pieces DB.speaks (select_statement_tree s) };

    #[cycle(walk)]
    fn walk_ast(&self, pass: &mut AstPass<DB>) -> Result<(), PassError> {
        pass.push_sql(SELECT)?;
        self.distinct.walk_ast(pass)?;
        self.select.walk_ast(pass)?;
        self.from.walk_ast(pass)?;
        self.where_clause.walk_ast(pass)?;
        self.group_by.walk_ast(pass)?;
        self.having.walk_ast(pass)?;
        walk_end(&self.order, self.limit_offset, self.locking, pass)?;
        Ok(())
    }
}
