//! What each part of a query prints for those who debug: its kind alone, `Binary(..)`.

use crate::{Call, Expr, Join, Membership, OrderItem, Query, QueryStart, Source};
use std::fmt;

impl fmt::Debug for Call {
    fn fmt<W: fmt::Write>(&self, f: &mut fmt::Formatter<W>) -> fmt::Result {
        f.write_str(match self {
            Call::Plain(_) => "Plain(..)",
            Call::Clause(_, _) => "Clause(..)",
            Call::Join(_, _, _) => "Join(..)",
            Call::Find(_) => "Find(..)",
            Call::Order(_) => "Order(..)",
            Call::ThenOrderBy(_) => "ThenOrderBy(..)",
            Call::Limit(_) => "Limit(..)",
            Call::Offset(_) => "Offset(..)",
            Call::IntoBoxed(_) => "IntoBoxed(..)",
            Call::Combine(_, _, _) => "Combine(..)",
            Call::PositionalOrderBy(_) => "PositionalOrderBy(..)",
        })
    }
}

impl fmt::Debug for Expr {
    fn fmt<W: fmt::Write>(&self, f: &mut fmt::Formatter<W>) -> fmt::Result {
        f.write_str(match self {
            Expr::List(_) => "List(..)",
            Expr::CountStar => "CountStar",
            Expr::Column(_) => "Column(..)",
            Expr::Field(_) => "Field(..)",
            Expr::Bind(_, _) => "Bind(..)",
            Expr::Unary(_, _) => "Unary(..)",
            Expr::Binary(_, _, _) => "Binary(..)",
            Expr::Exists(_) => "Exists(..)",
            Expr::SingleValue(_) => "SingleValue(..)",
            Expr::Quantified(_, _, _) => "Quantified(..)",
        })
    }
}

impl fmt::Debug for Membership {
    fn fmt<W: fmt::Write>(&self, f: &mut fmt::Formatter<W>) -> fmt::Result {
        f.write_str(match self {
            Membership::Values(_, _) => "Values(..)",
            Membership::Rows(_) => "Rows(..)",
        })
    }
}

impl fmt::Debug for QueryStart {
    fn fmt<W: fmt::Write>(&self, f: &mut fmt::Formatter<W>) -> fmt::Result {
        f.write_str(match self {
            QueryStart::From(_) => "From(..)",
            QueryStart::Select(_) => "Select(..)",
        })
    }
}

impl fmt::Debug for Source {
    fn fmt<W: fmt::Write>(&self, f: &mut fmt::Formatter<W>) -> fmt::Result {
        f.write_str(match self {
            Source::Table(_) => "Table(..)",
            Source::Alias(_) => "Alias(..)",
            Source::Join(_) => "Join(..)",
        })
    }
}

impl fmt::Debug for OrderItem {
    fn fmt<W: fmt::Write>(&self, f: &mut fmt::Formatter<W>) -> fmt::Result {
        f.write_str("OrderItem { .. }")
    }
}

impl fmt::Debug for Query {
    fn fmt<W: fmt::Write>(&self, f: &mut fmt::Formatter<W>) -> fmt::Result {
        f.write_str("Query { .. }")
    }
}

impl fmt::Debug for Join {
    fn fmt<W: fmt::Write>(&self, f: &mut fmt::Formatter<W>) -> fmt::Result {
        f.write_str("Join { .. }")
    }
}
