#![tactic(auto, using(sql_node::proofs::Trees::opens_expr, sql_node::proofs::Trees::opens_select_clause, sql_node::proofs::Trees::opens_select_statement, sql_node::proofs::Trees::opens_boxed_select_statement))]

ghost use Rattle.std.specs.Prelude.{◌≡◌, IfOk};
ghost use Rattle.sql_node.specs.View.{expr_tree, select_clause_tree};
ghost use Rattle.sql_select.specs.Changes.{nulled, selected, single_value_of};

use crate::beside::beside;
use crate::limit::LimitDsl;
use crate::query::Query;
use sql_expr::{
    BoxedSelectStatement, CombinationClause, Expr, ExpressionMethods, SelectClause, SelectStatement,
};
use sql_schema::NoMemory;
use std::alloc::Global;
use std::mem;

/// The call that sets the selection.
pub trait SelectDsl: Query {
    /// `SELECT a`, in place of an earlier selection.
    fn select(self, selection: Expr) -> Self
        ensures { Self.statement result ≡ selected (expr_tree selection) (Self.statement self) };
}

/// The same rows with all columns nullable.
pub trait SelectNullableDsl: Query {
    /// The selection under nullable, which is written as it was.
    fn nullable(self, alloc: Global) -> Result<Self, NoMemory>
        ensures { IfOk result (λ s. Self.statement s ≡ nulled (Self.statement self)) };
}

/// A statement as an expression.
pub trait SingleValueDsl: Query {
    /// `(SELECT a .. LIMIT $1)`: the value of its first row, and NULL where it gives none.
    fn single_value(self, alloc: Global) -> Result<Expr, NoMemory>
        ensures { IfOk result (λ e. expr_tree e ≡ single_value_of (Self.statement self)) };
}

impl SelectDsl for SelectStatement {
    fn select(mut self, selection: Expr) -> SelectStatement {
        self.select = SelectClause::SelectClause(selection);
        self
    }
}

impl SelectDsl for BoxedSelectStatement {
    fn select(mut self, selection: Expr) -> BoxedSelectStatement {
        self.select = SelectClause::SelectClause(selection);
        self.nullable = false;
        self
    }
}

fn selection_in(clause: SelectClause) -> Expr
    ensures { expr_tree result ≡ (select_clause_tree clause).1 }
{
    match clause {
        SelectClause::DefaultSelectClause(selection) => selection,
        SelectClause::SelectClause(selection) => selection,
    }
}

impl SelectNullableDsl for SelectStatement {
    fn nullable(mut self, alloc: Global) -> Result<SelectStatement, NoMemory> {
        let meanwhile = SelectClause::SelectClause(Expr::CountStar);
        let selection = selection_in(mem::replace(&mut self.select, meanwhile));
        let (mut statement, selection) = beside(self, selection.nullable(alloc))?;
        statement.select = SelectClause::SelectClause(selection);
        Ok(statement)
    }
}

impl SelectNullableDsl for BoxedSelectStatement {
    fn nullable(mut self, _alloc: Global) -> Result<BoxedSelectStatement, NoMemory> {
        self.nullable = true;
        Ok(self)
    }
}

impl SingleValueDsl for SelectStatement {
    fn single_value(self, alloc: Global) -> Result<Expr, NoMemory> {
        let select = self.limit(1).into_statement();
        Ok(Expr::Subselect(Box::new(alloc, select)?))
    }
}

impl SingleValueDsl for BoxedSelectStatement {
    fn single_value(self, alloc: Global) -> Result<Expr, NoMemory> {
        let boxed = self.limit(1).into_statement();
        Ok(Expr::Subselect(Box::new(alloc, boxed)?))
    }
}

impl SingleValueDsl for CombinationClause {
    fn single_value(self, alloc: Global) -> Result<Expr, NoMemory> {
        let combined = self.limit(1).into_statement();
        Ok(Expr::Subselect(Box::new(alloc, combined)?))
    }
}
