//! The parts of statements that trees of nodes stand for.
#![tactic(auto)]

ghost use Rattle.std.specs.Prelude.{◌≡◌, ◌++◌, OnOk, option_map, map};
ghost use Rattle.sql_node.specs.View.{expr_tree, in_values_tree, order_item_tree, source_tree, statement_tree};
ghost use Rattle.sql_flat.specs.inside.Parts.{among_in, expr_of, exprs_at, items_at, on_of, positions_at, positions_of, put_clause, source_of, statement_of, values_at};
ghost use Rattle.sql_flat_back.specs.inside.Stacks.{clauses_of, part_of};

use crate::clauses::Clauses;
use sql_leaf::PositionalItem;
use sql_node::{
    DistinctClause, Expr, FromClause, GroupByClause, HavingClause, InValues, OrderClause,
    OrderItem, Source, Statement, WhereClause,
};
use sql_pass::Value;
use sql_schema::{NoMemory, SqlList, SqlType};

/// The part of a statement that a tree of nodes stands for.
pub(crate) enum Part {
    Expr(Expr),
    /// A value of a list.
    Element(Value),
    Values(SqlType, SqlList<Value>),
    Source(Source),
    On(Expr),
    From(Source),
    DistinctOn(Expr),
    Where(Expr),
    GroupBy(Expr),
    Having(Expr),
    Item(OrderItem),
    OrderBy(SqlList<OrderItem>),
    Statement(Box<Statement>),
    Position(PositionalItem),
    Positions(SqlList<PositionalItem>),
    /// Of no statement.
    Unfit,
}

impl Drop for Part {
    fn drop(self) {
        match self {
            Part::Expr(_) => {}
            Part::Element(_) => {}
            Part::Values(_, values) => drop(values),
            Part::Source(_) => {}
            Part::On(_) => {}
            Part::From(_) => {}
            Part::DistinctOn(_) => {}
            Part::Where(_) => {}
            Part::GroupBy(_) => {}
            Part::Having(_) => {}
            Part::Item(_) => {}
            Part::OrderBy(items) => drop(items),
            Part::Statement(_) => {}
            Part::Position(_) => {}
            Part::Positions(items) => drop(items),
            Part::Unfit => {}
        }
    }
}

impl Part {
    pub(crate) fn expr(self) -> Option<Expr>
        ensures { option_map expr_tree result ≡ expr_of (part_of self) }
    {
        match self {
            Part::Expr(expr) => Some(expr),
            _ => None,
        }
    }

    pub(crate) fn source(self) -> Option<Source>
        ensures { option_map source_tree result ≡ source_of (part_of self) }
    {
        match self {
            Part::Source(source) => Some(source),
            _ => None,
        }
    }

    pub(crate) fn statement(self) -> Option<Box<Statement>>
        ensures { option_map (λ s. statement_tree s.value) result ≡ statement_of (part_of self) }
    {
        match self {
            Part::Statement(statement) => Some(statement),
            _ => None,
        }
    }

    pub(crate) fn on(self) -> Option<Expr>
        ensures { option_map expr_tree result ≡ on_of (part_of self) }
    {
        match self {
            Part::On(on) => Some(on),
            _ => None,
        }
    }

    pub(crate) fn positions(self) -> Option<SqlList<PositionalItem>>
        ensures { result ≡ positions_of (part_of self) }
    {
        match self {
            Part::Positions(items) => Some(items),
            _ => None,
        }
    }

    /// Returns the values or the subquery of a membership, where the part is one of these.
    #[tactic(auto, using(sql_node::proofs::Trees::opens_in_values))]
    pub(crate) fn in_values(self) -> Option<InValues>
        ensures { option_map in_values_tree result ≡ among_in (part_of self) }
    {
        match self {
            Part::Values(ty, values) => Some(InValues::List(ty, values)),
            Part::Statement(query) => Some(InValues::Query(query)),
            _ => None,
        }
    }

    /// Appends the expression where it is one.
    pub(crate) fn push_expr(self, all: &mut Vec<Expr>) -> Result<(), NoMemory>
        ensures { OnOk result
            (map expr_tree all.new.items
            ≡ map expr_tree all.old.items ++ exprs_at (part_of self)) }
    {
        match self {
            Part::Expr(expr) => {
                all.push(expr)?;
                Ok(())
            }
            _ => Ok(()),
        }
    }

    /// Appends the item where it is one.
    pub(crate) fn push_item(self, all: &mut Vec<OrderItem>) -> Result<(), NoMemory>
        ensures { OnOk result
            (map order_item_tree all.new.items
            ≡ map order_item_tree all.old.items ++ items_at (part_of self)) }
    {
        match self {
            Part::Item(item) => {
                all.push(item)?;
                Ok(())
            }
            _ => Ok(()),
        }
    }

    /// Appends the value where it is one of a list.
    pub(crate) fn push_value(self, all: &mut Vec<Value>) -> Result<(), NoMemory>
        ensures { OnOk result (all.new.items ≡ all.old.items ++ values_at (part_of self)) }
    {
        match self {
            Part::Element(value) => {
                all.push(value)?;
                Ok(())
            }
            _ => Ok(()),
        }
    }

    /// Appends the position where it is one.
    pub(crate) fn push_position(self, all: &mut Vec<PositionalItem>) -> Result<(), NoMemory>
        ensures { OnOk result (all.new.items ≡ all.old.items ++ positions_at (part_of self)) }
    {
        match self {
            Part::Position(item) => {
                all.push(item)?;
                Ok(())
            }
            _ => Ok(()),
        }
    }

    /// Puts a clause, or the selection, among the clauses of its statement.
    #[tactic(auto, using(sql_node::proofs::Trees::opens_from_clause, sql_node::proofs::Trees::opens_distinct_clause, sql_node::proofs::Trees::opens_where_clause, sql_node::proofs::Trees::opens_group_by_clause, sql_node::proofs::Trees::opens_having_clause, sql_node::proofs::Trees::opens_order_clause))]
    pub(crate) fn put_in(self, clauses: &mut Clauses)
        ensures { clauses_of clauses.new ≡ put_clause (clauses_of clauses.old) (part_of self) }
    {
        match self {
            Part::DistinctOn(exprs) => clauses.distinct = DistinctClause::DistinctOnClause(exprs),
            Part::Expr(selection) => clauses.selection = Some(selection),
            Part::From(source) => clauses.from = FromClause::FromClause(source),
            Part::Where(condition) => clauses.where_clause = WhereClause::WhereClause(condition),
            Part::GroupBy(exprs) => clauses.group_by = GroupByClause::GroupByClause(exprs),
            Part::Having(condition) => clauses.having = HavingClause::HavingClause(condition),
            Part::OrderBy(items) => clauses.order = OrderClause::OrderClause(items),
            _ => {}
        }
    }
}
