#![tactic(auto, using(sql_node::proofs::Trees::opens_expr))]

ghost use Rattle.std.specs.Prelude.{◌≡◌, IfOk, map, option_map};
ghost use Rattle.sql_node.specs.Tree as tree;
ghost use Rattle.sql_node.specs.View.{among_list, among_of, among_query, expr_tree, exprs_of, in_values_tree, statement_tree};
ghost use Rattle.sql_select.specs.Changes.{single_value_of};
ghost use Rattle.sql_build.specs.Made.{is_negated, made_of_one, made_of_two};
ghost use Rattle.sql_build.specs.Named.{both};

use sql_build_syntax::{BinaryOperator, Quantified, UnaryOperator};
use sql_expr::{Expr, ExpressionMethods, InValues, Statement, count, exists, not};
use sql_leaf::{Comparison, Logic, Unary};
use sql_pass::Value;
use sql_schema::{NoMemory, SqlList, SqlType};
use sql_select::QueryDsl;
use std::alloc::Global;

/// `"users"."id", $1`.
pub(crate) fn list(exprs: Option<Vec<Expr>>) -> Option<Expr>
    ensures { option_map expr_tree result
        ≡ option_map (λ all. tree.list (exprs_of all))
        (option_map (λ v. map expr_tree v.items) exprs) }
{
    match exprs {
        None => None,
        Some(exprs) => Some(Expr::List(SqlList::from(exprs))),
    }
}

/// `$1`.
pub(crate) fn bind(alloc: Global, ty: SqlType, value: &Value) -> Result<Expr, NoMemory>
    ensures { IfOk result (λ e. expr_tree e ≡ tree.value ty value.now) }
{
    Ok(Expr::Value(ty, value.try_clone(alloc)?))
}

fn conditional(alloc: Global, operator: Unary, operand: Expr) -> Result<Expr, NoMemory>
    ensures { IfOk result (λ e. expr_tree e ≡ tree.unary operator (expr_tree operand)) }
{
    match operator {
        Unary::Not => not(alloc, operand),
        Unary::IsNull => operand.is_null(alloc),
        Unary::IsNotNull => operand.is_not_null(alloc),
    }
}

fn unary_expr(alloc: Global, operator: UnaryOperator, operand: Expr) -> Result<Expr, NoMemory>
    ensures { IfOk result (λ e. expr_tree e ≡ made_of_one operator (expr_tree operand)) }
{
    match operator {
        UnaryOperator::Condition(by) => conditional(alloc, by, operand),
        UnaryOperator::Nullable => operand.nullable(alloc),
        UnaryOperator::Count => count(alloc, operand),
    }
}

/// `NOT (a)`.
pub(crate) fn unary(
    alloc: Global,
    operator: UnaryOperator,
    operand: Option<Expr>,
) -> Result<Option<Expr>, NoMemory>
    ensures { IfOk result (λ o. option_map expr_tree o
        ≡ option_map (made_of_one operator) (option_map expr_tree operand)) }
{
    match operand {
        None => Ok(None),
        Some(operand) => Ok(Some(unary_expr(alloc, operator, operand)?)),
    }
}

fn compared(alloc: Global, by: Comparison, left: Expr, right: Expr) -> Result<Expr, NoMemory>
    ensures { IfOk result (λ e. expr_tree e
        ≡ tree.compared by (expr_tree left) (expr_tree right)) }
{
    match by {
        Comparison::Eq => left.eq(alloc, right),
        Comparison::Ne => left.ne(alloc, right),
        Comparison::Gt => left.gt(alloc, right),
        Comparison::Ge => left.ge(alloc, right),
        Comparison::Lt => left.lt(alloc, right),
        Comparison::Le => left.le(alloc, right),
    }
}

fn joined(alloc: Global, by: Logic, left: Expr, right: Expr) -> Result<Expr, NoMemory>
    ensures { IfOk result (λ e. expr_tree e ≡ tree.joined by (expr_tree left) (expr_tree right)) }
{
    match by {
        Logic::And => left.and(alloc, right),
        Logic::Or => left.or(alloc, right),
    }
}

fn binary_expr(
    alloc: Global,
    operator: BinaryOperator,
    left: Expr,
    right: Expr,
) -> Result<Expr, NoMemory>
    ensures { IfOk result (λ e. expr_tree e
        ≡ made_of_two operator (expr_tree left) (expr_tree right)) }
{
    match operator {
        BinaryOperator::Compare(by) => compared(alloc, by, left, right),
        BinaryOperator::Join(by) => joined(alloc, by, left, right),
    }
}

/// `(a = b)`.
pub(crate) fn binary(
    alloc: Global,
    operator: BinaryOperator,
    left: Option<Expr>,
    right: Option<Expr>,
) -> Result<Option<Expr>, NoMemory>
    ensures { IfOk result (λ o. option_map expr_tree o
        ≡ both (made_of_two operator) (option_map expr_tree left) (option_map expr_tree right)) }
{
    let Some(left) = left else {
        return Ok(None);
    };
    let Some(right) = right else {
        return Ok(None);
    };
    Ok(Some(binary_expr(alloc, operator, left, right)?))
}

/// `EXISTS (SELECT ..)`.
pub(crate) fn existence(
    alloc: Global,
    statement: Option<Statement>,
) -> Result<Option<Expr>, NoMemory>
    ensures { IfOk result (λ o. option_map expr_tree o
        ≡ option_map tree.exists (option_map statement_tree statement)) }
{
    match statement {
        None => Ok(None),
        Some(statement) => Ok(Some(exists(alloc, statement)?)),
    }
}

fn first_value(alloc: Global, statement: Statement) -> Result<Expr, NoMemory>
    ensures { IfOk result (λ e. expr_tree e ≡ single_value_of (statement_tree statement)) }
{
    match statement {
        Statement::Select(select) => select.single_value(alloc),
        Statement::Boxed(select) => select.single_value(alloc),
        Statement::Combination(combination) => combination.single_value(alloc),
    }
}

/// `(SELECT .. LIMIT $1)`.
pub(crate) fn single_value(
    alloc: Global,
    statement: Option<Statement>,
) -> Result<Option<Expr>, NoMemory>
    ensures { IfOk result (λ o. option_map expr_tree o
        ≡ option_map single_value_of (option_map statement_tree statement)) }
{
    match statement {
        None => Ok(None),
        Some(statement) => Ok(Some(first_value(alloc, statement)?)),
    }
}

fn clone_values(alloc: Global, values: &[Value]) -> Result<Vec<Value>, NoMemory>
    ensures { IfOk result (λ v. v.items ≡ values.now) }
{
    let mut all = Vec::new(alloc);
    for value in values {
        all.push(value.try_clone(alloc)?)?;
    }
    Ok(all)
}

/// `($1, $2)`.
pub(crate) fn among_values(
    alloc: Global,
    ty: SqlType,
    values: &[Value],
) -> Result<InValues, NoMemory>
    ensures { IfOk result (λ m. in_values_tree m ≡ among_list ty values.now) }
{
    let values = clone_values(alloc, values)?;
    Ok(InValues::List(ty, SqlList::from(values)))
}

/// `(SELECT ..)`.
pub(crate) fn among_rows(
    alloc: Global,
    statement: Option<Statement>,
) -> Result<Option<InValues>, NoMemory>
    ensures { IfOk result (λ o. option_map in_values_tree o
        ≡ option_map among_query (option_map statement_tree statement)) }
{
    match statement {
        None => Ok(None),
        Some(statement) => Ok(Some(InValues::Query(Box::new(alloc, statement)?))),
    }
}

fn quantified_expr(
    alloc: Global,
    quantified: Quantified,
    sought: Expr,
    among: InValues,
) -> Result<Expr, NoMemory>
    ensures { IfOk result (λ e. expr_tree e
        ≡ among_of (is_negated quantified) (expr_tree sought) (in_values_tree among)) }
{
    match quantified {
        Quantified::EqAny => sought.eq_any(alloc, among),
        Quantified::NeAll => sought.ne_all(alloc, among),
    }
}

/// `(a = ANY(..))`.
pub(crate) fn quantified(
    alloc: Global,
    quantified: Quantified,
    sought: Option<Expr>,
    among: Option<InValues>,
) -> Result<Option<Expr>, NoMemory>
    ensures { IfOk result (λ o. option_map expr_tree o
        ≡ both (among_of (is_negated quantified)) (option_map expr_tree sought)
        (option_map in_values_tree among)) }
{
    let Some(sought) = sought else {
        return Ok(None);
    };
    let Some(among) = among else {
        return Ok(None);
    };
    Ok(Some(quantified_expr(alloc, quantified, sought, among)?))
}
