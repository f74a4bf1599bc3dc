//! The clauses of a statement that is read.
#![tactic(auto)]

ghost use Rattle.std.specs.Prelude.{◌≡◌, IfOk};
ghost use Rattle.sql_flat.specs.inside.Parts.{no_clauses, over_clauses, plainly, selected};
ghost use Rattle.sql_flat_back.specs.inside.Stacks.{clauses_of, part_of};
ghost use Rattle.sql_node.specs.View.{distinct_clause_tree, expr_tree, select_clause_tree, statement_tree};

use crate::part::Part;
use sql_flat::{Form, Selecting, Uniqueness};
use sql_node::{
    BoxedSelectStatement, DistinctClause, Expr, FromClause, GroupByClause, HavingClause,
    OrderClause, SelectClause, SelectStatement, Statement, WhereClause,
};
use sql_schema::NoMemory;
use std::alloc::Global;

/// The clauses of a statement, as far as they are read.
pub(crate) struct Clauses {
    pub(crate) distinct: DistinctClause,
    pub(crate) selection: Option<Expr>,
    pub(crate) from: FromClause,
    pub(crate) where_clause: WhereClause,
    pub(crate) group_by: GroupByClause,
    pub(crate) having: HavingClause,
    pub(crate) order: OrderClause,
}

impl Drop for Clauses {
    fn drop(self) {
        let Clauses {
            distinct,
            selection,
            from,
            where_clause,
            group_by,
            having,
            order,
        } = self;
        drop(distinct);
        drop(selection);
        drop(from);
        drop(where_clause);
        drop(group_by);
        drop(having);
        drop(order);
    }
}

/// The clause where no DISTINCT ON follows.
#[tactic(auto, using(sql_node::proofs::Trees::opens_distinct_clause))]
fn plain_distinct(unique: Uniqueness) -> DistinctClause
    ensures { distinct_clause_tree result ≡ plainly unique }
{
    match unique {
        Uniqueness::Every => DistinctClause::NoDistinctClause,
        Uniqueness::Distinct => DistinctClause::DistinctClause,
        Uniqueness::DistinctOn => DistinctClause::NoDistinctClause,
    }
}

/// The selection as a clause.
#[tactic(auto, using(sql_node::proofs::Trees::opens_select_clause))]
fn select_clause(default: bool, selection: Expr) -> SelectClause
    ensures { select_clause_tree result ≡ (default, expr_tree selection) }
{
    if default {
        SelectClause::DefaultSelectClause(selection)
    } else {
        SelectClause::SelectClause(selection)
    }
}

impl Clauses {
    /// None yet.
    #[tactic(auto, using(sql_node::proofs::Trees::opens_from_clause, sql_node::proofs::Trees::opens_distinct_clause, sql_node::proofs::Trees::opens_where_clause, sql_node::proofs::Trees::opens_group_by_clause, sql_node::proofs::Trees::opens_having_clause, sql_node::proofs::Trees::opens_order_clause))]
    pub(crate) fn none(unique: Uniqueness) -> Clauses
        ensures { clauses_of result ≡ no_clauses unique }
    {
        Clauses {
            distinct: plain_distinct(unique),
            selection: None,
            from: FromClause::NoFromClause,
            where_clause: WhereClause::NoWhereClause,
            group_by: GroupByClause::NoGroupByClause,
            having: HavingClause::NoHavingClause,
            order: OrderClause::NoOrderClause,
        }
    }

    /// The statement of these clauses and that selection.
    #[tactic(auto, using(sql_node::proofs::Trees::opens_statement, sql_node::proofs::Trees::opens_select_statement, sql_node::proofs::Trees::opens_boxed_select_statement))]
    fn into_statement(self, selecting: Selecting, select: SelectClause) -> Statement
        ensures { statement_tree result
            ≡ selected selecting (select_clause_tree select) (clauses_of self) }
    {
        let Clauses {
            distinct,
            selection,
            from,
            where_clause,
            group_by,
            having,
            order,
        } = self;
        drop(selection);
        let limit_offset = selecting.rows;
        let marks = selecting.marks;
        match selecting.form {
            Form::Unboxed(locking) => Statement::Select(SelectStatement {
                select,
                from,
                distinct,
                where_clause,
                order,
                limit_offset,
                group_by,
                having,
                locking,
                marks,
            }),
            Form::Boxed(dialect, nullable) => Statement::Boxed(BoxedSelectStatement {
                select,
                from,
                distinct,
                where_clause,
                order,
                limit_offset,
                group_by,
                having,
                marks,
                dialect,
                nullable,
            }),
        }
    }

    /// The statement of these clauses, where the selection is among them.
    pub(crate) fn into_part(mut self, alloc: Global, selecting: Selecting) -> Result<Part, NoMemory>
        ensures { IfOk result (λ p. part_of p ≡ over_clauses selecting (clauses_of self)) }
    {
        let Some(selection) = self.selection.take() else {
            return Ok(Part::Unfit);
        };
        let select = select_clause(selecting.default, selection);
        let statement = self.into_statement(selecting, select);
        Ok(Part::Statement(Box::new(alloc, statement)?))
    }
}
