#![tactic(auto, using(sql_node::proofs::Trees::opens_expr, sql_node::proofs::Trees::opens_order_item))]

ghost use Rattle.std.specs.Prelude.{◌≡◌, [], ◌∷◌, List, IfOk, map};
ghost use Rattle.sql_leaf.specs.declared.position.Direction.TheVariants as direction;
ghost use Rattle.sql_node.specs.Tree as tree;
ghost use Rattle.sql_node.specs.View.{Item, column_of, expr_tree, exprs_of, field_of, order_item_tree};

use crate::as_expression::AsExpression;
use sql_leaf::{AliasedField, Direction};
use sql_node::{Expr, OrderItem};
use sql_schema::{Column, NoMemory, SqlList};
use std::alloc::Global;

/// Several things that stand for expressions: a tuple of two to four of them, or a `Vec` of expressions.
pub trait IntoExpressions: Sized {
    /// The expressions, in order.
    ghost expressions: { Self → List tree.Expr };

    /// Returns the expressions, in order.
    fn into_expressions(self, alloc: Global) -> Result<Vec<Expr>, NoMemory>
        ensures { IfOk result (λ v. map expr_tree v.items ≡ expressions self) };
}

/// What an order can have as an item: an expression, a column or a field, which rises, or an item with its direction.
pub trait IntoOrderItem: Sized {
    /// The expression and its direction.
    ghost item: { Self → Item };

    /// Returns it as an item of an order: `"users"."id"`, or `"users"."name" DESC`.
    fn into_order_item(self, alloc: Global) -> Result<OrderItem, NoMemory>
        ensures { IfOk result (λ i. order_item_tree i ≡ item self) };
}

/// What an order can be made of: an item, a tuple of two or three of them, or a `Vec` of items.
pub trait IntoOrder: Sized {
    /// The items, in order.
    ghost items: { Self → List Item };

    /// Returns the items, in order.
    fn into_order(self, alloc: Global) -> Result<Vec<OrderItem>, NoMemory>
        ensures { IfOk result (λ v. map order_item_tree v.items ≡ items self) };
}

impl IntoExpressions for Vec<Expr> {
    ghost expressions = { λ v. map expr_tree v.items };

    fn into_expressions(self, _alloc: Global) -> Result<Vec<Expr>, NoMemory> {
        Ok(self)
    }
}

impl<A: AsExpression, B: AsExpression + Drop> IntoExpressions for (A, B) {
    ghost expressions = { λ t. A.expression t.0 ∷ B.expression t.1 ∷ [] };

    fn into_expressions(self, alloc: Global) -> Result<Vec<Expr>, NoMemory> {
        let (a, b) = self;
        let a = a.as_expression(alloc)?;
        let b = b.as_expression(alloc)?;
        Ok(vec![in alloc; a, b]?)
    }
}

impl<A: AsExpression, B: AsExpression + Drop, C: AsExpression + Drop> IntoExpressions
    for (A, B, C) {
    ghost expressions = { λ t. A.expression t.0 ∷ B.expression t.1 ∷ C.expression t.2 ∷ [] };

    fn into_expressions(self, alloc: Global) -> Result<Vec<Expr>, NoMemory> {
        let (a, b, c) = self;
        let a = a.as_expression(alloc)?;
        let b = b.as_expression(alloc)?;
        let c = c.as_expression(alloc)?;
        Ok(vec![in alloc; a, b, c]?)
    }
}

impl<
    A: AsExpression,
    B: AsExpression + Drop,
    C: AsExpression + Drop,
    D: AsExpression + Drop,
> IntoExpressions for (A, B, C, D) {
    ghost expressions = { λ t. A.expression t.0 ∷ B.expression t.1 ∷ C.expression t.2
        ∷ D.expression t.3 ∷ [] };

    fn into_expressions(self, alloc: Global) -> Result<Vec<Expr>, NoMemory> {
        let (a, b, c, d) = self;
        let a = a.as_expression(alloc)?;
        let b = b.as_expression(alloc)?;
        let c = c.as_expression(alloc)?;
        let d = d.as_expression(alloc)?;
        Ok(vec![in alloc; a, b, c, d]?)
    }
}

/// The expression as an item that rises.
fn rising(expr: Expr) -> OrderItem
    ensures { order_item_tree result ≡ (expr_tree expr, direction.None) }
{
    OrderItem {
        expr,
        direction: Direction::None,
    }
}

impl IntoOrderItem for OrderItem {
    ghost item = { order_item_tree };

    fn into_order_item(self, _alloc: Global) -> Result<OrderItem, NoMemory> {
        Ok(self)
    }
}

impl IntoOrderItem for Expr {
    ghost item = { λ e. (expr_tree e, direction.None) };

    fn into_order_item(self, _alloc: Global) -> Result<OrderItem, NoMemory> {
        Ok(rising(self))
    }
}

impl IntoOrderItem for Column {
    ghost item = { λ c. (column_of c, direction.None) };

    fn into_order_item(self, _alloc: Global) -> Result<OrderItem, NoMemory> {
        Ok(rising(Expr::Column(self)))
    }
}

impl IntoOrderItem for &Column {
    ghost item = { λ c. (column_of c.now, direction.None) };

    fn into_order_item(self, alloc: Global) -> Result<OrderItem, NoMemory> {
        Ok(rising(Expr::Column(self.try_clone(alloc)?)))
    }
}

impl IntoOrderItem for AliasedField {
    ghost item = { λ f. (field_of f, direction.None) };

    fn into_order_item(self, _alloc: Global) -> Result<OrderItem, NoMemory> {
        Ok(rising(Expr::Field(self)))
    }
}

impl IntoOrder for Vec<OrderItem> {
    ghost items = { λ v. map order_item_tree v.items };

    fn into_order(self, _alloc: Global) -> Result<Vec<OrderItem>, NoMemory> {
        Ok(self)
    }
}

/// The item alone.
fn one_item(alloc: Global, item: OrderItem) -> Result<Vec<OrderItem>, NoMemory>
    ensures { IfOk result (λ v. map order_item_tree v.items ≡ order_item_tree item ∷ []) }
{
    Ok(vec![in alloc; item]?)
}

impl IntoOrder for OrderItem {
    ghost items = { λ i. order_item_tree i ∷ [] };

    fn into_order(self, alloc: Global) -> Result<Vec<OrderItem>, NoMemory> {
        one_item(alloc, self)
    }
}

impl IntoOrder for Expr {
    ghost items = { λ e. (expr_tree e, direction.None) ∷ [] };

    fn into_order(self, alloc: Global) -> Result<Vec<OrderItem>, NoMemory> {
        one_item(alloc, rising(self))
    }
}

impl IntoOrder for Column {
    ghost items = { λ c. (column_of c, direction.None) ∷ [] };

    fn into_order(self, alloc: Global) -> Result<Vec<OrderItem>, NoMemory> {
        one_item(alloc, rising(Expr::Column(self)))
    }
}

impl IntoOrder for &Column {
    ghost items = { λ c. (column_of c.now, direction.None) ∷ [] };

    fn into_order(self, alloc: Global) -> Result<Vec<OrderItem>, NoMemory> {
        let column = self.try_clone(alloc)?;
        one_item(alloc, rising(Expr::Column(column)))
    }
}

impl IntoOrder for AliasedField {
    ghost items = { λ f. (field_of f, direction.None) ∷ [] };

    fn into_order(self, alloc: Global) -> Result<Vec<OrderItem>, NoMemory> {
        one_item(alloc, rising(Expr::Field(self)))
    }
}

impl<A: IntoOrderItem, B: IntoOrderItem + Drop> IntoOrder for (A, B) {
    ghost items = { λ t. A.item t.0 ∷ B.item t.1 ∷ [] };

    fn into_order(self, alloc: Global) -> Result<Vec<OrderItem>, NoMemory> {
        let (a, b) = self;
        let a = a.into_order_item(alloc)?;
        let b = b.into_order_item(alloc)?;
        Ok(vec![in alloc; a, b]?)
    }
}

impl<A: IntoOrderItem, B: IntoOrderItem + Drop, C: IntoOrderItem + Drop> IntoOrder for (A, B, C) {
    ghost items = { λ t. A.item t.0 ∷ B.item t.1 ∷ C.item t.2 ∷ [] };

    fn into_order(self, alloc: Global) -> Result<Vec<OrderItem>, NoMemory> {
        let (a, b, c) = self;
        let a = a.into_order_item(alloc)?;
        let b = b.into_order_item(alloc)?;
        let c = c.into_order_item(alloc)?;
        Ok(vec![in alloc; a, b, c]?)
    }
}

/// Returns the list of expressions, as a selection, a group or an order of columns takes it: of two columns
/// `"users"."name", "posts"."title"`.
pub fn list<L: IntoExpressions>(alloc: Global, expressions: L) -> Result<Expr, NoMemory>
    ensures { IfOk result (λ e. expr_tree e ≡ tree.list (exprs_of (L.expressions expressions))) }
{
    Ok(Expr::List(SqlList::from(expressions.into_expressions(alloc)?)))
}

/// Returns the items of an order, as `order` and `then_order_by` take them: of a column and a falling one
/// `"users"."name", "users"."id" DESC`.
pub fn order_by<O: IntoOrder>(alloc: Global, items: O) -> Result<Vec<OrderItem>, NoMemory>
    ensures { IfOk result (λ v. map order_item_tree v.items ≡ O.items items) }
{
    items.into_order(alloc)
}
