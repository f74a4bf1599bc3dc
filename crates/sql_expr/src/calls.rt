#![tactic(auto, using(sql_node::proofs::Trees::opens_expr))]

ghost use Rattle.std.specs.Prelude.{◌≡◌, IfOk, option_map};
ghost use Rattle.sql_leaf.specs.declared.operator.Unary.TheVariants as by;
ghost use Rattle.sql_node.specs.Tree as tree;
ghost use Rattle.sql_node.specs.View.{expr_tree, statement_tree};
ghost use Rattle.sql_expr.specs.Calls.{value_of};

use crate::as_expression::AsExpression;
use sql_node::{Expr, Statement};
use sql_pass::{Bound, ToSql};
use sql_schema::NoMemory;
use std::alloc::Global;

/// Both operands of an expression.
pub(crate) fn boxed_pair(
    alloc: Global,
    left: Expr,
    right: Expr,
) -> Result<(Box<Expr>, Box<Expr>), NoMemory>
    ensures left { IfOk result (λ p. p.0.value ≡ left) }
    ensures right { IfOk result (λ p. p.1.value ≡ right) }
{
    let left = Box::new(alloc, left)?;
    let right = Box::new(alloc, right)?;
    Ok((left, right))
}

/// `NOT (a)`.
pub fn not<T: AsExpression>(alloc: Global, operand: T) -> Result<Expr, NoMemory>
    ensures { IfOk result (λ e. expr_tree e ≡ tree.unary by.Not (T.expression operand)) }
{
    let operand = operand.as_expression(alloc)?;
    Ok(Expr::Not(Box::new(alloc, operand)?))
}

/// `COUNT(a)`: the number of rows in which it is not NULL.
pub fn count<T: AsExpression>(alloc: Global, operand: T) -> Result<Expr, NoMemory>
    ensures { IfOk result (λ e. expr_tree e ≡ tree.count (T.expression operand)) }
{
    let operand = operand.as_expression(alloc)?;
    Ok(Expr::Count(Box::new(alloc, operand)?))
}

/// `EXISTS (SELECT ..)`: whether the statement gives a row.
pub fn exists(alloc: Global, statement: Statement) -> Result<Expr, NoMemory>
    ensures { IfOk result (λ e. expr_tree e ≡ tree.exists (statement_tree statement)) }
{
    Ok(Expr::Exists(Box::new(alloc, statement)?))
}

/// `COUNT(*)`: the number of rows.
pub fn count_star() -> Expr
    ensures { expr_tree result ≡ tree.count_star }
{
    Expr::CountStar
}

/// The value, to be bound: `$1`. None where it is a list, which stands in memberships alone.
pub fn value<V: ToSql>(alloc: Global, value: &V) -> Result<Option<Expr>, NoMemory>
    ensures { IfOk result (λ o. option_map expr_tree o ≡ value_of (V.binds value.now)) }
{
    match value.bound(alloc)? {
        Bound::Value(ty, value) => Ok(Some(Expr::Value(ty, value))),
        Bound::List(_, _) => Ok(None),
    }
}
