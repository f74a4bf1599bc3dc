#![tactic(auto, using(sql_node::proofs::Trees::opens_expr, sql_node::proofs::Trees::opens_order_item))]

ghost use Rattle.std.specs.Prelude.{◌≡◌, true, false, IfOk, Option, option_map};
ghost use Rattle.sql_schema.specs.Columns.{DeclaredColumn};
ghost use Rattle.sql_leaf.specs.declared.position.Direction.{Direction};
ghost use Rattle.sql_node.specs.Tree as tree;
ghost use Rattle.sql_node.specs.View.{among_of, expr_tree, in_values_tree, order_item_tree};
ghost use Rattle.sql_leaf.specs.declared.operator.Unary.TheVariants as operator;
ghost use Rattle.sql_leaf.specs.declared.operator.Comparison.TheVariants as comparison;
ghost use Rattle.sql_leaf.specs.declared.operator.Logic.TheVariants as logic;
ghost use Rattle.sql_expr.specs.Calls.{bare_column};

use crate::as_expression::AsExpression;
use crate::as_in_expression::AsInExpression;
use crate::calls::boxed_pair;
use sql_leaf::Direction;
use sql_node::{Expr, InValues, OrderItem};
use sql_schema::{Column, NoMemory};
use std::alloc::Global;

/// Methods that make an expression from another.
pub trait ExpressionMethods: Sized {
    /// The expression.
    ghost expression: { Self → tree.Expr };

    /// `(a = b)`: whether both are equal.
    fn eq<T: AsExpression>(self, alloc: Global, other: T) -> Result<Expr, NoMemory>
        ensures { IfOk result (λ e. expr_tree e
            ≡ tree.compared comparison.Eq (expression self) (T.expression other)) };

    /// `(a != b)`: whether they differ.
    fn ne<T: AsExpression>(self, alloc: Global, other: T) -> Result<Expr, NoMemory>
        ensures { IfOk result (λ e. expr_tree e
            ≡ tree.compared comparison.Ne (expression self) (T.expression other)) };

    /// `(a > b)`: whether it is greater.
    fn gt<T: AsExpression>(self, alloc: Global, other: T) -> Result<Expr, NoMemory>
        ensures { IfOk result (λ e. expr_tree e
            ≡ tree.compared comparison.Gt (expression self) (T.expression other)) };

    /// `(a >= b)`: whether it is greater or equal.
    fn ge<T: AsExpression>(self, alloc: Global, other: T) -> Result<Expr, NoMemory>
        ensures { IfOk result (λ e. expr_tree e
            ≡ tree.compared comparison.Ge (expression self) (T.expression other)) };

    /// `(a < b)`: whether it is less.
    fn lt<T: AsExpression>(self, alloc: Global, other: T) -> Result<Expr, NoMemory>
        ensures { IfOk result (λ e. expr_tree e
            ≡ tree.compared comparison.Lt (expression self) (T.expression other)) };

    /// `(a <= b)`: whether it is less or equal.
    fn le<T: AsExpression>(self, alloc: Global, other: T) -> Result<Expr, NoMemory>
        ensures { IfOk result (λ e. expr_tree e
            ≡ tree.compared comparison.Le (expression self) (T.expression other)) };

    /// `(a AND b)`: whether both hold.
    fn and<T: AsExpression>(self, alloc: Global, other: T) -> Result<Expr, NoMemory>
        ensures { IfOk result (λ e. expr_tree e
            ≡ tree.joined logic.And (expression self) (T.expression other)) };

    /// `(a OR b)`: whether one of them holds.
    fn or<T: AsExpression>(self, alloc: Global, other: T) -> Result<Expr, NoMemory>
        ensures { IfOk result (λ e. expr_tree e
            ≡ tree.joined logic.Or (expression self) (T.expression other)) };

    /// `(a IS NULL)`.
    fn is_null(self, alloc: Global) -> Result<Expr, NoMemory>
        ensures { IfOk result (λ e. expr_tree e ≡ tree.unary operator.IsNull (expression self)) };

    /// `(a IS NOT NULL)`.
    fn is_not_null(self, alloc: Global) -> Result<Expr, NoMemory>
        ensures { IfOk result (λ e. expr_tree e ≡ tree.unary operator.IsNotNull (expression self)) };

    /// The same as a nullable expression. It is written as it is.
    fn nullable(self, alloc: Global) -> Result<Expr, NoMemory>
        ensures { IfOk result (λ e. expr_tree e ≡ tree.nullable (expression self)) };

    /// `(a = ANY(..))` in PostgreSQL, elsewhere `(a IN (..))`: whether it is one of them.
    fn eq_any<T: AsInExpression>(self, alloc: Global, among: T) -> Result<Expr, NoMemory>
        ensures { IfOk result (λ e. expr_tree e
            ≡ among_of false (expression self) (T.looks_in among)) };

    /// `(a != ALL(..))` in PostgreSQL, elsewhere `(a NOT IN (..))`: whether it is none of them.
    fn ne_all<T: AsInExpression>(self, alloc: Global, among: T) -> Result<Expr, NoMemory>
        ensures { IfOk result (λ e. expr_tree e
            ≡ among_of true (expression self) (T.looks_in among)) };

    /// `a ASC`, in an order.
    fn asc(self) -> OrderItem
        ensures { order_item_tree result ≡ (expression self, Direction.Asc) };

    /// `a DESC`, in an order.
    fn desc(self) -> OrderItem
        ensures { order_item_tree result ≡ (expression self, Direction.Desc) };
}

/// Both operands of a call.
fn operands<T: AsExpression>(
    alloc: Global,
    left: Expr,
    other: T,
) -> Result<(Box<Expr>, Box<Expr>), NoMemory>
    ensures left { IfOk result (λ p. p.0.value ≡ left) }
    ensures right { IfOk result (λ p. expr_tree p.1.value ≡ T.expression other) }
{
    let right = other.as_expression(alloc)?;
    boxed_pair(alloc, left, right)
}

/// What is sought, and where.
fn sought_in<T: AsInExpression>(
    alloc: Global,
    sought: Expr,
    among: T,
) -> Result<(Box<Expr>, InValues), NoMemory>
    ensures sought { IfOk result (λ p. p.0.value ≡ sought) }
    ensures among { IfOk result (λ p. in_values_tree p.1 ≡ T.looks_in among) }
{
    let among = among.as_in_expression(alloc)?;
    Ok((Box::new(alloc, sought)?, among))
}

impl ExpressionMethods for Expr {
    ghost expression = { expr_tree };

    fn eq<T: AsExpression>(self, alloc: Global, other: T) -> Result<Expr, NoMemory> {
        let (left, right) = operands(alloc, self, other)?;
        Ok(Expr::Eq(left, right))
    }

    fn ne<T: AsExpression>(self, alloc: Global, other: T) -> Result<Expr, NoMemory> {
        let (left, right) = operands(alloc, self, other)?;
        Ok(Expr::Ne(left, right))
    }

    fn gt<T: AsExpression>(self, alloc: Global, other: T) -> Result<Expr, NoMemory> {
        let (left, right) = operands(alloc, self, other)?;
        Ok(Expr::Gt(left, right))
    }

    fn ge<T: AsExpression>(self, alloc: Global, other: T) -> Result<Expr, NoMemory> {
        let (left, right) = operands(alloc, self, other)?;
        Ok(Expr::Ge(left, right))
    }

    fn lt<T: AsExpression>(self, alloc: Global, other: T) -> Result<Expr, NoMemory> {
        let (left, right) = operands(alloc, self, other)?;
        Ok(Expr::Lt(left, right))
    }

    fn le<T: AsExpression>(self, alloc: Global, other: T) -> Result<Expr, NoMemory> {
        let (left, right) = operands(alloc, self, other)?;
        Ok(Expr::Le(left, right))
    }

    fn and<T: AsExpression>(self, alloc: Global, other: T) -> Result<Expr, NoMemory> {
        let (left, right) = operands(alloc, self, other)?;
        Ok(Expr::And(left, right))
    }

    fn or<T: AsExpression>(self, alloc: Global, other: T) -> Result<Expr, NoMemory> {
        let (left, right) = operands(alloc, self, other)?;
        Ok(Expr::Or(left, right))
    }

    fn is_null(self, alloc: Global) -> Result<Expr, NoMemory> {
        Ok(Expr::IsNull(Box::new(alloc, self)?))
    }

    fn is_not_null(self, alloc: Global) -> Result<Expr, NoMemory> {
        Ok(Expr::IsNotNull(Box::new(alloc, self)?))
    }

    fn nullable(self, alloc: Global) -> Result<Expr, NoMemory> {
        Ok(Expr::Nullable(Box::new(alloc, self)?))
    }

    fn eq_any<T: AsInExpression>(self, alloc: Global, among: T) -> Result<Expr, NoMemory> {
        let (sought, among) = sought_in(alloc, self, among)?;
        Ok(Expr::EqAny(sought, among))
    }

    fn ne_all<T: AsInExpression>(self, alloc: Global, among: T) -> Result<Expr, NoMemory> {
        let (sought, among) = sought_in(alloc, self, among)?;
        Ok(Expr::NeAll(sought, among))
    }

    fn asc(self) -> OrderItem {
        OrderItem {
            expr: self,
            direction: Direction::Asc,
        }
    }

    fn desc(self) -> OrderItem {
        OrderItem {
            expr: self,
            direction: Direction::Desc,
        }
    }
}

/// An item of an order that may be a column.
pub trait OrderDecorator {
    /// The column, where it is one of a table.
    ghost ordered_column: { Self → Option DeclaredColumn };

    /// The column that the item is, if it is a column of a table: of `"users"."name" DESC` the column `name` of `users`.
    fn column(&self) -> Option<&Column>
        ensures { option_map (λ c. c.now) result ≡ ordered_column self.now };
}

impl OrderDecorator for OrderItem {
    ghost ordered_column = { λ i. bare_column (order_item_tree i).0 };

    fn column(&self) -> Option<&Column> {
        match &self.expr {
            Expr::Column(column) => Some(column),
            _ => None,
        }
    }
}
