use crate::{ColumnName, FieldName, Query};
use sql_leaf::{Comparison, Logic, Unary};
use sql_pass::Value;
use sql_schema::{SqlList, SqlType};

/// An operator on one expression.
#[derive(Debug, Clone, Copy, PartialEq, Eq)]
pub enum UnaryOperator {
    /// `NOT (a)`
    Condition(Unary),
    /// The same as a nullable expression.
    Nullable,
    /// `COUNT(a)`
    Count,
}

/// An operator on two expressions.
#[derive(Debug, Clone, Copy, PartialEq, Eq)]
pub enum BinaryOperator {
    /// `(a = b)`
    Compare(Comparison),
    /// `(a AND b)`
    Join(Logic),
}

/// How an expression is compared with many.
#[derive(Debug, Clone, Copy, PartialEq, Eq)]
pub enum Quantified {
    /// Whether it is one of them: `(a = ANY(..))`.
    EqAny,
    /// Whether it is none of them: `(a != ALL(..))`.
    NeAll,
}

/// An expression.
#[cycle(syntax)]
pub enum Expr {
    /// `[EXPR..]`
    List(SqlList<Expr>),
    /// `"count_star"`
    CountStar,
    /// `{"col":["users","id"]}`
    Column(ColumnName),
    /// `{"field":["u2","users","id"]}`
    Field(FieldName),
    /// `{"bind":["Integer",1]}`
    Bind(SqlType, Value),
    /// `{"not":EXPR}`
    Unary(UnaryOperator, Box<Expr>),
    /// `{"eq":[EXPR,EXPR]}`
    Binary(BinaryOperator, Box<Expr>, Box<Expr>),
    /// `{"exists":QUERY}`
    Exists(Box<Query>),
    /// `{"single_value":QUERY}`
    SingleValue(Box<Query>),
    /// `{"eq_any":[EXPR,MEMBERSHIP]}`
    Quantified(Quantified, Box<Expr>, Membership),
}

impl Drop for Expr {
    #[cycle(syntax)]
    fn drop(self) {
        match self {
            Expr::List(exprs) => drop(exprs),
            Expr::CountStar => {}
            Expr::Column(_) => {}
            Expr::Field(_) => {}
            Expr::Bind(_, _) => {}
            Expr::Unary(_, _) => {}
            Expr::Binary(_, _, _) => {}
            Expr::Exists(_) => {}
            Expr::SingleValue(_) => {}
            Expr::Quantified(_, _, _) => {}
        }
    }
}

/// The many that an expression is compared with.
#[cycle(syntax)]
pub enum Membership {
    /// `{"list":["Integer",[1,2]]}`
    Values(SqlType, SqlList<Value>),
    /// A query, which gives a column.
    Rows(Box<Query>),
}

impl Drop for Membership {
    #[cycle(syntax)]
    fn drop(self) {
        match self {
            Membership::Values(_, _) => {}
            Membership::Rows(_) => {}
        }
    }
}
