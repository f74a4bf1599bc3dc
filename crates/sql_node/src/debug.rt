//! What each node prints for those who debug: its kind alone, `Eq(..)`. `debug_query` prints the whole of it, as SQL.

use crate::{
    BoxedSelectStatement, CombinationClause, DistinctClause, Expr, FromClause, GroupByClause,
    HavingClause, InValues, Join, JoinOn, OrderClause, OrderItem, SelectClause, SelectStatement,
    Source, Statement, WhereClause,
};
use std::fmt;

/// The name of an expression's kind: `Eq(..)`.
fn expr_kind(expr: &Expr) -> &'static str {
    match expr {
        Expr::Column(_) => "Column(..)",
        Expr::Field(_) => "Field(..)",
        Expr::Value(_, _) => "Value(..)",
        Expr::List(_) => "List(..)",
        Expr::CountStar => "CountStar",
        Expr::Nullable(_) => "Nullable(..)",
        Expr::Not(_) => "Not(..)",
        Expr::IsNull(_) => "IsNull(..)",
        Expr::IsNotNull(_) => "IsNotNull(..)",
        Expr::Count(_) => "Count(..)",
        Expr::Eq(_, _) => "Eq(..)",
        Expr::Ne(_, _) => "Ne(..)",
        Expr::Gt(_, _) => "Gt(..)",
        Expr::Ge(_, _) => "Ge(..)",
        Expr::Lt(_, _) => "Lt(..)",
        Expr::Le(_, _) => "Le(..)",
        Expr::And(_, _) => "And(..)",
        Expr::Or(_, _) => "Or(..)",
        Expr::Exists(_) => "Exists(..)",
        Expr::Subselect(_) => "Subselect(..)",
        Expr::EqAny(_, _) => "EqAny(..)",
        Expr::NeAll(_, _) => "NeAll(..)",
    }
}

impl fmt::Debug for Expr {
    fn fmt<W: fmt::Write>(&self, f: &mut fmt::Formatter<W>) -> fmt::Result {
        f.write_str(expr_kind(self))
    }
}

impl fmt::Debug for InValues {
    fn fmt<W: fmt::Write>(&self, f: &mut fmt::Formatter<W>) -> fmt::Result {
        f.write_str(match self {
            InValues::List(_, _) => "List(..)",
            InValues::Query(_) => "Query(..)",
        })
    }
}

impl fmt::Debug for Source {
    fn fmt<W: fmt::Write>(&self, f: &mut fmt::Formatter<W>) -> fmt::Result {
        f.write_str(match self {
            Source::Table(_) => "Table(..)",
            Source::Alias(_) => "Alias(..)",
            Source::Join(_) => "Join(..)",
        })
    }
}

impl fmt::Debug for Statement {
    fn fmt<W: fmt::Write>(&self, f: &mut fmt::Formatter<W>) -> fmt::Result {
        f.write_str(match self {
            Statement::Select(_) => "Select(..)",
            Statement::Boxed(_) => "Boxed(..)",
            Statement::Combination(_) => "Combination(..)",
        })
    }
}

impl fmt::Debug for SelectClause {
    fn fmt<W: fmt::Write>(&self, f: &mut fmt::Formatter<W>) -> fmt::Result {
        f.write_str(match self {
            SelectClause::DefaultSelectClause(_) => "DefaultSelectClause(..)",
            SelectClause::SelectClause(_) => "SelectClause(..)",
        })
    }
}

impl fmt::Debug for FromClause {
    fn fmt<W: fmt::Write>(&self, f: &mut fmt::Formatter<W>) -> fmt::Result {
        f.write_str(match self {
            FromClause::NoFromClause => "NoFromClause",
            FromClause::FromClause(_) => "FromClause(..)",
        })
    }
}

impl fmt::Debug for DistinctClause {
    fn fmt<W: fmt::Write>(&self, f: &mut fmt::Formatter<W>) -> fmt::Result {
        f.write_str(match self {
            DistinctClause::NoDistinctClause => "NoDistinctClause",
            DistinctClause::DistinctClause => "DistinctClause",
            DistinctClause::DistinctOnClause(_) => "DistinctOnClause(..)",
        })
    }
}

impl fmt::Debug for WhereClause {
    fn fmt<W: fmt::Write>(&self, f: &mut fmt::Formatter<W>) -> fmt::Result {
        f.write_str(match self {
            WhereClause::NoWhereClause => "NoWhereClause",
            WhereClause::WhereClause(_) => "WhereClause(..)",
        })
    }
}

impl fmt::Debug for GroupByClause {
    fn fmt<W: fmt::Write>(&self, f: &mut fmt::Formatter<W>) -> fmt::Result {
        f.write_str(match self {
            GroupByClause::NoGroupByClause => "NoGroupByClause",
            GroupByClause::GroupByClause(_) => "GroupByClause(..)",
        })
    }
}

impl fmt::Debug for HavingClause {
    fn fmt<W: fmt::Write>(&self, f: &mut fmt::Formatter<W>) -> fmt::Result {
        f.write_str(match self {
            HavingClause::NoHavingClause => "NoHavingClause",
            HavingClause::HavingClause(_) => "HavingClause(..)",
        })
    }
}

impl fmt::Debug for OrderClause {
    fn fmt<W: fmt::Write>(&self, f: &mut fmt::Formatter<W>) -> fmt::Result {
        f.write_str(match self {
            OrderClause::NoOrderClause => "NoOrderClause",
            OrderClause::OrderClause(_) => "OrderClause(..)",
        })
    }
}

impl fmt::Debug for OrderItem {
    fn fmt<W: fmt::Write>(&self, f: &mut fmt::Formatter<W>) -> fmt::Result {
        f.write_str("OrderItem { .. }")
    }
}

impl fmt::Debug for Join {
    fn fmt<W: fmt::Write>(&self, f: &mut fmt::Formatter<W>) -> fmt::Result {
        f.write_str("Join { .. }")
    }
}

impl fmt::Debug for JoinOn {
    fn fmt<W: fmt::Write>(&self, f: &mut fmt::Formatter<W>) -> fmt::Result {
        f.write_str("JoinOn { .. }")
    }
}

impl fmt::Debug for SelectStatement {
    fn fmt<W: fmt::Write>(&self, f: &mut fmt::Formatter<W>) -> fmt::Result {
        f.write_str("SelectStatement { .. }")
    }
}

impl fmt::Debug for BoxedSelectStatement {
    fn fmt<W: fmt::Write>(&self, f: &mut fmt::Formatter<W>) -> fmt::Result {
        f.write_str("BoxedSelectStatement { .. }")
    }
}

impl fmt::Debug for CombinationClause {
    fn fmt<W: fmt::Write>(&self, f: &mut fmt::Formatter<W>) -> fmt::Result {
        f.write_str("CombinationClause { .. }")
    }
}
