#![tactic(auto, using(sql_node::proofs::Trees::opens_select_statement, sql_node::proofs::Trees::opens_boxed_select_statement, sql_node::proofs::Trees::opens_order_clause))]

ghost use Rattle.std.specs.Prelude.{◌≡◌, IfOk, map};
ghost use Rattle.sql_node.specs.Tree as tree;
ghost use Rattle.sql_node.specs.View.{items_of, order_clause_tree, order_item_tree};
ghost use Rattle.sql_select.specs.Changes.{items_in, items_then, ordered, ordered_then};

use crate::beside::beside;
use crate::query::Query;
use sql_expr::{BoxedSelectStatement, OrderClause, OrderItem, SelectStatement};
use sql_schema::{NoMemory, SqlList};
use std::alloc::Global;
use std::mem;

/// The order of rows.
pub trait OrderDsl: Query {
    /// ` ORDER BY a, b DESC`, in place of an earlier order.
    fn order(self, items: Vec<OrderItem>) -> Self
        ensures { Self.statement result
            ≡ ordered (items_of (map order_item_tree items.items)) (Self.statement self) };
}

/// The order of rows that are alike so far.
pub trait ThenOrderDsl: Query {
    /// ` ORDER BY old, a, b DESC`: more items after those that the order has, where it has any.
    fn then_order_by(self, alloc: Global, items: Vec<OrderItem>) -> Result<Self, NoMemory>
        ensures { IfOk result (λ s. Self.statement s
            ≡ ordered_then (items_of (map order_item_tree items.items)) (Self.statement self)) };
}

#[tactic(auto, using(sql_node::proofs::Trees::opens_order_clause, crate::proofs::OrderLaws::appends))]
fn order_then(order: OrderClause, mut items: Vec<OrderItem>) -> Result<OrderClause, NoMemory>
    ensures { IfOk result (λ o. order_clause_tree o
        ≡ tree.order_by (items_then (items_in (order_clause_tree order))
        (items_of (map order_item_tree items.items)))) }
{
    match order {
        OrderClause::NoOrderClause => Ok(OrderClause::OrderClause(SqlList::from(items))),
        OrderClause::OrderClause(old) => {
            let mut all = old.into_inner();
            all.append(&mut items)?;
            Ok(OrderClause::OrderClause(SqlList::from(all)))
        }
    }
}

impl OrderDsl for SelectStatement {
    fn order(mut self, items: Vec<OrderItem>) -> SelectStatement {
        self.order = OrderClause::OrderClause(SqlList::from(items));
        self
    }
}

impl ThenOrderDsl for SelectStatement {
    fn then_order_by(
        mut self,
        _alloc: Global,
        items: Vec<OrderItem>,
    ) -> Result<SelectStatement, NoMemory> {
        let old = mem::replace(&mut self.order, OrderClause::NoOrderClause);
        let (mut statement, order) = beside(self, order_then(old, items))?;
        statement.order = order;
        Ok(statement)
    }
}

impl OrderDsl for BoxedSelectStatement {
    fn order(mut self, items: Vec<OrderItem>) -> BoxedSelectStatement {
        self.order = OrderClause::OrderClause(SqlList::from(items));
        self
    }
}

impl ThenOrderDsl for BoxedSelectStatement {
    fn then_order_by(
        mut self,
        _alloc: Global,
        items: Vec<OrderItem>,
    ) -> Result<BoxedSelectStatement, NoMemory> {
        let old = mem::replace(&mut self.order, OrderClause::NoOrderClause);
        let (mut statement, order) = beside(self, order_then(old, items))?;
        statement.order = order;
        Ok(statement)
    }
}
