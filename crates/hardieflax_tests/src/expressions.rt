//! The calls that make expressions, conditions and items of an order.

ghost use Rattle.std.specs.Prelude.{◌≡◌, IfOk, IsOk, map, option_map};
ghost use Rattle.hardieflax.specs.Calls.{beside, value_of};
ghost use Rattle.hardieflax.specs.Tree as tree;
ghost use Rattle.hardieflax.specs.View.{expr_tree, exprs_of, in_values_tree, order_item_tree, statement_tree, where_clause_tree};
ghost use Rattle.hardieflax.specs.Comparison.TheVariants as comparison;
ghost use Rattle.hardieflax.specs.Logic.TheVariants as logic;
ghost use Rattle.hardieflax.specs.Unary.TheVariants as operator;

use hardieflax::{
    AsExpression, AsInExpression, Bound, Column, Expr, ExpressionMethods, InValues,
    IntoExpressions, IntoOrder, IntoOrderItem, NoMemory, OrderDecorator, OrderItem, Statement,
    ToSql, WhereAnd, WhereClause, WhereOr, count, count_star, exists, list, not, order_by, value,
};
use std::alloc::Global;

/// `(a = b)`.
pub fn equal<E: ExpressionMethods, T: AsExpression>(
    alloc: Global,
    left: E,
    right: T,
) -> Result<Expr, NoMemory>
    ensures { IfOk result (λ e. expr_tree e
        ≡ tree.compared comparison.Eq (E.expression left) (T.expression right)) }
{
    left.eq(alloc, right)
}

/// `NOT (a)`.
pub fn negated(alloc: Global, operand: Expr) -> Result<Expr, NoMemory>
    ensures { IfOk result (λ e. expr_tree e ≡ tree.unary operator.Not (expr_tree operand)) }
{
    not(alloc, operand)
}

/// `COUNT(a)`.
pub fn counted(alloc: Global, operand: Expr) -> Result<Expr, NoMemory>
    ensures { IfOk result (λ e. expr_tree e ≡ tree.count (expr_tree operand)) }
{
    count(alloc, operand)
}

/// `COUNT(*)`.
pub fn all_counted() -> Expr
    ensures { expr_tree result ≡ tree.count_star }
{
    count_star()
}

/// `EXISTS (SELECT ..)`.
pub fn has_rows(alloc: Global, statement: Statement) -> Result<Expr, NoMemory>
    ensures { IfOk result (λ e. expr_tree e ≡ tree.exists (statement_tree statement)) }
{
    exists(alloc, statement)
}

/// `$1`.
pub fn bound<V: ToSql>(alloc: Global, of: &V) -> Result<Option<Expr>, NoMemory>
    ensures { IfOk result (λ o. option_map expr_tree o ≡ value_of (V.binds of.now)) }
{
    value(alloc, of)
}

/// Returns what is bound for a value.
pub fn bound_value<V: ToSql>(alloc: Global, of: &V) -> Result<Bound, NoMemory>
    ensures { IfOk result (λ b. b ≡ V.binds of.now) }
{
    of.bound(alloc)
}

/// ` WHERE (a AND b)`.
pub fn both<C: WhereAnd>(alloc: Global, first: C, second: Expr) -> Result<WhereClause, NoMemory>
    ensures whole { IfOk result (λ c. where_clause_tree c
        ≡ tree.an_expr (beside logic.And (C.condition first) (expr_tree second))) }
    ensures first { C.condition first ≡ tree.no_expr → IsOk result }
{
    first.and(alloc, second)
}

/// ` WHERE (a OR b)`.
pub fn either<C: WhereOr>(alloc: Global, first: C, second: Expr) -> Result<WhereClause, NoMemory>
    ensures whole { IfOk result (λ c. where_clause_tree c
        ≡ tree.an_expr (beside logic.Or (C.condition first) (expr_tree second))) }
    ensures first { C.condition first ≡ tree.no_expr → IsOk result }
{
    first.or(alloc, second)
}

/// The column of an item, where it is one.
pub fn ordered_column<I: OrderDecorator>(item: &I) -> Option<&Column>
    ensures { option_map (λ c. c.now) result ≡ I.ordered_column item.now }
{
    item.column()
}

/// Returns where a membership looks.
pub fn looked_in<T: AsInExpression>(alloc: Global, of: T) -> Result<InValues, NoMemory>
    ensures { IfOk result (λ v. in_values_tree v ≡ T.looks_in of) }
{
    of.as_in_expression(alloc)
}

/// `"users"."id"`, or `$1`.
pub fn as_one<E: AsExpression>(alloc: Global, of: E) -> Result<Expr, NoMemory>
    ensures { IfOk result (λ e. expr_tree e ≡ E.expression of) }
{
    of.as_expression(alloc)
}

/// Returns the expressions, in order.
pub fn several<L: IntoExpressions>(alloc: Global, of: L) -> Result<Vec<Expr>, NoMemory>
    ensures { IfOk result (λ v. map expr_tree v.items ≡ L.expressions of) }
{
    of.into_expressions(alloc)
}

/// `"users"."id", "users"."name"`.
pub fn listed<L: IntoExpressions>(alloc: Global, of: L) -> Result<Expr, NoMemory>
    ensures { IfOk result (λ e. expr_tree e ≡ tree.list (exprs_of (L.expressions of))) }
{
    list(alloc, of)
}

/// `"users"."id" DESC`.
pub fn item<I: IntoOrderItem>(alloc: Global, of: I) -> Result<OrderItem, NoMemory>
    ensures { IfOk result (λ i. order_item_tree i ≡ I.item of) }
{
    of.into_order_item(alloc)
}

/// Returns the items of an order.
pub fn items<O: IntoOrder>(alloc: Global, of: O) -> Result<Vec<OrderItem>, NoMemory>
    ensures { IfOk result (λ v. map order_item_tree v.items ≡ O.items of) }
{
    of.into_order(alloc)
}

/// `"users"."name", "users"."id" DESC`.
pub fn ordered_by<O: IntoOrder>(alloc: Global, of: O) -> Result<Vec<OrderItem>, NoMemory>
    ensures { IfOk result (λ v. map order_item_tree v.items ≡ O.items of) }
{
    order_by(alloc, of)
}
