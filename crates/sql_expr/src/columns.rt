#![tactic(auto, using(sql_node::proofs::Trees::opens_expr))]

ghost use Rattle.std.specs.Prelude.{◌≡◌};
ghost use Rattle.sql_node.specs.View.{column_of, field_of};

use crate::as_expression::AsExpression;
use crate::as_in_expression::AsInExpression;
use crate::methods::ExpressionMethods;
use sql_leaf::AliasedField;
use sql_node::{Expr, OrderItem};
use sql_schema::{Column, NoMemory};
use std::alloc::Global;

/// A column as the expression that it is: `"users"."id"`.
impl ExpressionMethods for Column {
    ghost expression = { column_of };

    fn eq<T: AsExpression>(self, alloc: Global, other: T) -> Result<Expr, NoMemory> {
        Expr::Column(self).eq(alloc, other)
    }

    fn ne<T: AsExpression>(self, alloc: Global, other: T) -> Result<Expr, NoMemory> {
        Expr::Column(self).ne(alloc, other)
    }

    fn gt<T: AsExpression>(self, alloc: Global, other: T) -> Result<Expr, NoMemory> {
        Expr::Column(self).gt(alloc, other)
    }

    fn ge<T: AsExpression>(self, alloc: Global, other: T) -> Result<Expr, NoMemory> {
        Expr::Column(self).ge(alloc, other)
    }

    fn lt<T: AsExpression>(self, alloc: Global, other: T) -> Result<Expr, NoMemory> {
        Expr::Column(self).lt(alloc, other)
    }

    fn le<T: AsExpression>(self, alloc: Global, other: T) -> Result<Expr, NoMemory> {
        Expr::Column(self).le(alloc, other)
    }

    fn and<T: AsExpression>(self, alloc: Global, other: T) -> Result<Expr, NoMemory> {
        Expr::Column(self).and(alloc, other)
    }

    fn or<T: AsExpression>(self, alloc: Global, other: T) -> Result<Expr, NoMemory> {
        Expr::Column(self).or(alloc, other)
    }

    fn is_null(self, alloc: Global) -> Result<Expr, NoMemory> {
        Expr::Column(self).is_null(alloc)
    }

    fn is_not_null(self, alloc: Global) -> Result<Expr, NoMemory> {
        Expr::Column(self).is_not_null(alloc)
    }

    fn nullable(self, alloc: Global) -> Result<Expr, NoMemory> {
        Expr::Column(self).nullable(alloc)
    }

    fn eq_any<T: AsInExpression>(self, alloc: Global, among: T) -> Result<Expr, NoMemory> {
        Expr::Column(self).eq_any(alloc, among)
    }

    fn ne_all<T: AsInExpression>(self, alloc: Global, among: T) -> Result<Expr, NoMemory> {
        Expr::Column(self).ne_all(alloc, among)
    }

    fn asc(self) -> OrderItem {
        Expr::Column(self).asc()
    }

    fn desc(self) -> OrderItem {
        Expr::Column(self).desc()
    }
}

/// A field of an alias as the expression that it is: `"u2"."id"`.
impl ExpressionMethods for AliasedField {
    ghost expression = { field_of };

    fn eq<T: AsExpression>(self, alloc: Global, other: T) -> Result<Expr, NoMemory> {
        Expr::Field(self).eq(alloc, other)
    }

    fn ne<T: AsExpression>(self, alloc: Global, other: T) -> Result<Expr, NoMemory> {
        Expr::Field(self).ne(alloc, other)
    }

    fn gt<T: AsExpression>(self, alloc: Global, other: T) -> Result<Expr, NoMemory> {
        Expr::Field(self).gt(alloc, other)
    }

    fn ge<T: AsExpression>(self, alloc: Global, other: T) -> Result<Expr, NoMemory> {
        Expr::Field(self).ge(alloc, other)
    }

    fn lt<T: AsExpression>(self, alloc: Global, other: T) -> Result<Expr, NoMemory> {
        Expr::Field(self).lt(alloc, other)
    }

    fn le<T: AsExpression>(self, alloc: Global, other: T) -> Result<Expr, NoMemory> {
        Expr::Field(self).le(alloc, other)
    }

    fn and<T: AsExpression>(self, alloc: Global, other: T) -> Result<Expr, NoMemory> {
        Expr::Field(self).and(alloc, other)
    }

    fn or<T: AsExpression>(self, alloc: Global, other: T) -> Result<Expr, NoMemory> {
        Expr::Field(self).or(alloc, other)
    }

    fn is_null(self, alloc: Global) -> Result<Expr, NoMemory> {
        Expr::Field(self).is_null(alloc)
    }

    fn is_not_null(self, alloc: Global) -> Result<Expr, NoMemory> {
        Expr::Field(self).is_not_null(alloc)
    }

    fn nullable(self, alloc: Global) -> Result<Expr, NoMemory> {
        Expr::Field(self).nullable(alloc)
    }

    fn eq_any<T: AsInExpression>(self, alloc: Global, among: T) -> Result<Expr, NoMemory> {
        Expr::Field(self).eq_any(alloc, among)
    }

    fn ne_all<T: AsInExpression>(self, alloc: Global, among: T) -> Result<Expr, NoMemory> {
        Expr::Field(self).ne_all(alloc, among)
    }

    fn asc(self) -> OrderItem {
        Expr::Field(self).asc()
    }

    fn desc(self) -> OrderItem {
        Expr::Field(self).desc()
    }
}
