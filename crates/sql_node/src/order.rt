#![tactic(auto, using(sql_pass::proofs::Walking::walking))]

ghost use Rattle.std.specs.Prelude.{◌≡◌, ◌++◌, IfOk, map, true};
ghost use Rattle.sql_pass.specs.Commas.{next_of, commas};
ghost use Rattle.sql_pass.specs.Held.{held};
ghost use Rattle.sql_pass.specs.Pieces.{one, Text};
ghost use Rattle.sql_pass.specs.Walks.{Walks};
ghost use Rattle.sql_leaf.specs.Words.{order_by_sql};
ghost use Rattle.sql_node.specs.Pieces.{item_pieces, items_pieces, order_pieces};
ghost use Rattle.sql_node.specs.View.{items_of, order_clause_tree, order_item_tree};

use crate::Expr;
use sql_dialect::Backend;
use sql_leaf::{COMMA, Direction, ORDER_BY};
use sql_pass::{AstPass, PassError, QueryFragment};
use sql_schema::{NoMemory, SqlList};
use std::alloc::Global;

/// An item of an order: `"users"."name" DESC`.
#[cycle(ast)]
pub struct OrderItem {
    pub expr: Expr,
    pub direction: Direction,
}

impl Drop for OrderItem {
    #[cycle(ast)]
    fn drop(self) {
        let OrderItem {
            expr: _,
            direction: _,
        } = self;
    }
}

/// ` ORDER BY "users"."name" DESC, "users"."id"`.
#[cycle(ast)]
#[derive(Drop)]
pub enum OrderClause {
    NoOrderClause,
    OrderClause(SqlList<OrderItem>),
}

#[cycle(copy)]
fn clone_items(alloc: Global, items: &[OrderItem]) -> Result<Vec<OrderItem>, NoMemory>
    ensures { IfOk result (λ v. map order_item_tree v.items ≡ map order_item_tree items.now) }
{
    let mut all = Vec::new(alloc);
    for item in items {
        all.push(item.try_clone(alloc)?)?;
    }
    Ok(all)
}

impl OrderItem {
    /// An equal item.
    #[cycle(copy)]
    pub fn try_clone(&self, alloc: Global) -> Result<OrderItem, NoMemory>
        ensures { IfOk result (λ v. order_item_tree v ≡ order_item_tree self.now) }
    {
        Ok(OrderItem {
            expr: self.expr.try_clone(alloc)?,
            direction: self.direction,
        })
    }
}

impl OrderClause {
    /// An equal clause.
    #[cycle(copy)]
    pub fn try_clone(&self, alloc: Global) -> Result<OrderClause, NoMemory>
        ensures { IfOk result (λ v. order_clause_tree v ≡ order_clause_tree self.now) }
    {
        match self {
            OrderClause::NoOrderClause => Ok(OrderClause::NoOrderClause),
            OrderClause::OrderClause(items) => Ok(OrderClause::OrderClause(SqlList::from(
                clone_items(alloc, items.as_slice())?,
            ))),
        }
    }
}

#[cycle(walk)]
fn walk_next_item<DB: Backend>(
    first: bool,
    item: &OrderItem,
    pass: &mut AstPass<DB>,
) -> Result<(), PassError>
    ensures { Walks DB.speaks (held DB.QueryBuilder.text DB.QueryBuilder.count pass.old)
        (next_of first (item_pieces DB.speaks (order_item_tree item.now))) result
        (held DB.QueryBuilder.text DB.QueryBuilder.count pass.new) }
{
    if !first {
        pass.push_sql(COMMA)?;
    }
    item.walk_ast(pass)
}

#[cycle(walk)]
fn walk_items<DB: Backend>(
    list: &SqlList<OrderItem>,
    pass: &mut AstPass<DB>,
) -> Result<(), PassError>
    ensures { Walks DB.speaks (held DB.QueryBuilder.text DB.QueryBuilder.count pass.old)
        (commas true (items_pieces DB.speaks (items_of (map order_item_tree list.now)))) result
        (held DB.QueryBuilder.text DB.QueryBuilder.count pass.new) }
{
    let items = list.as_slice();
    let mut first = true;
    for item in items {
        walk_next_item(first, item, pass)?;
        first = false;
    }
    Ok(())
}

/// `"users"."name"`, `"users"."name" ASC` or `"users"."name" DESC`.
#[tactic(auto, using(sql_pass::proofs::Walking::walking, crate::proofs::Trees::opens_order_item))]
impl<DB: Backend> QueryFragment<DB> for OrderItem {
    ghost pieces = { λ i. item_pieces DB.speaks (order_item_tree i) };

    #[cycle(walk)]
    fn walk_ast(&self, pass: &mut AstPass<DB>) -> Result<(), PassError> {
        self.expr.walk_ast(pass)?;
        self.direction.walk_ast(pass)?;
        Ok(())
    }
}

#[tactic(auto, unfolding(sql_leaf::specs::Words::order_by_sql))]
pub(crate) fn push_order_by<DB: Backend>(pass: &mut AstPass<DB>) -> Result<(), PassError>
    ensures { Walks DB.speaks (held DB.QueryBuilder.text DB.QueryBuilder.count pass.old)
        (one (Text order_by_sql)) result
        (held DB.QueryBuilder.text DB.QueryBuilder.count pass.new) }
{
    pass.push_sql(ORDER_BY)
}

/// Nothing, or ` ORDER BY ` and its items.
#[tactic(auto, using(sql_pass::proofs::Walking::walking, crate::proofs::Trees::opens_order_clause))]
impl<DB: Backend> QueryFragment<DB> for OrderClause {
    ghost pieces = { λ c. order_pieces DB.speaks (order_clause_tree c) };

    #[cycle(walk)]
    fn walk_ast(&self, pass: &mut AstPass<DB>) -> Result<(), PassError> {
        match self {
            OrderClause::NoOrderClause => Ok(()),
            OrderClause::OrderClause(items) => {
                push_order_by(pass)?;
                walk_items(items, pass)
            }
        }
    }
}
