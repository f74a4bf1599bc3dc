#![tactic(auto, using(sql_pass::proofs::Walking::walking))]

ghost use Rattle.std.specs.Prelude.{◌≡◌, ◌++◌, IfOk, true};
ghost use Rattle.sql_pass.specs.Held.{held};
ghost use Rattle.sql_pass.specs.Walks.{Walks};
ghost use Rattle.sql_leaf.specs.Limits.{limit_offset_pieces};
ghost use Rattle.sql_node.specs.Pieces.{order_pieces, pieces};
ghost use Rattle.sql_node.specs.View.{boxed_select_statement_tree, order_clause_tree};

use crate::{
    DistinctClause, FromClause, GroupByClause, HavingClause, OrderClause, SelectClause, WhereClause,
};
use sql_dialect::{Backend, Dialect};
use sql_leaf::{BoxedLimitOffset, LimitOffsetClause, Marks, SELECT};
use sql_pass::{AstPass, PassError, QueryFragment};
use sql_schema::NoMemory;
use std::alloc::Global;

/// A select statement for one dialect, without a lock.
#[cycle(ast)]
pub struct BoxedSelectStatement {
    pub select: SelectClause,
    pub from: FromClause,
    pub distinct: DistinctClause,
    pub where_clause: WhereClause,
    pub order: OrderClause,
    pub limit_offset: LimitOffsetClause,
    pub group_by: GroupByClause,
    pub having: HavingClause,
    pub marks: Marks,
    pub dialect: Dialect,
    /// Whether all its columns are nullable.
    pub nullable: bool,
}

impl Drop for BoxedSelectStatement {
    // (not inlined: see `drop_expr`)
    #[inline(never)]
    #[cycle(ast)]
    fn drop(self) {
        let BoxedSelectStatement {
            select,
            from,
            distinct,
            where_clause,
            order,
            limit_offset: _,
            group_by,
            having,
            marks: _,
            dialect: _,
            nullable: _,
        } = self;
        drop(select);
        drop(from);
        drop(distinct);
        drop(where_clause);
        drop(order);
        drop(group_by);
        drop(having);
    }
}

impl BoxedSelectStatement {
    /// An equal statement.
    // (not inlined: what nests keeps a small frame)
    #[inline(never)]
    #[cycle(copy)]
    pub fn try_clone(&self, alloc: Global) -> Result<BoxedSelectStatement, NoMemory>
        ensures { IfOk result (λ v. boxed_select_statement_tree v
            ≡ boxed_select_statement_tree self.now) }
    {
        Ok(BoxedSelectStatement {
            select: self.select.try_clone(alloc)?,
            from: self.from.try_clone(alloc)?,
            distinct: self.distinct.try_clone(alloc)?,
            where_clause: self.where_clause.try_clone(alloc)?,
            order: self.order.try_clone(alloc)?,
            limit_offset: self.limit_offset,
            group_by: self.group_by.try_clone(alloc)?,
            having: self.having.try_clone(alloc)?,
            marks: self.marks,
            dialect: self.dialect,
            nullable: self.nullable,
        })
    }
}

/// Pushes the order of a boxed statement and what follows it. `walk_page`, and `push_select_end` of `sql_flat_text`, change with it.
#[cycle(walk)]
fn walk_boxed_end<DB: Backend>(
    order: &OrderClause,
    rows: LimitOffsetClause,
    pass: &mut AstPass<DB>,
) -> Result<(), PassError>
    ensures { Walks DB.speaks (held DB.QueryBuilder.text DB.QueryBuilder.count pass.old)
        (order_pieces DB.speaks (order_clause_tree order.now)
        ++ limit_offset_pieces DB.speaks true rows.limit_clause rows.offset_clause)
        result (held DB.QueryBuilder.text DB.QueryBuilder.count pass.new) }
{
    order.walk_ast(pass)?;
    BoxedLimitOffset(rows).walk_ast(pass)?;
    Ok(())
}

/// As a select statement, without a lock.
#[tactic(auto, using(sql_pass::proofs::Walking::walking, crate::proofs::Trees::opens_boxed_select_statement))]
impl<DB: Backend> QueryFragment<DB> for BoxedSelectStatement {
    ghost pieces = { λ s. pieces DB.speaks (boxed_select_statement_tree s) };

    #[cycle(walk)]
    fn walk_ast(&self, pass: &mut AstPass<DB>) -> Result<(), PassError> {
        pass.push_sql(SELECT)?;
        self.distinct.walk_ast(pass)?;
        self.select.walk_ast(pass)?;
        self.from.walk_ast(pass)?;
        self.where_clause.walk_ast(pass)?;
        self.group_by.walk_ast(pass)?;
        self.having.walk_ast(pass)?;
        walk_boxed_end(&self.order, self.limit_offset, pass)?;
        Ok(())
    }
}
