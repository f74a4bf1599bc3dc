//! What each node prints for those who debug: its kind alone, `Compared(..)`. `write` of `sql_read` gives the text of a tree.

use crate::tree::{Distinctness, Expression, Item, Query, Source};
use std::fmt;

impl fmt::Debug for Expression {
    fn fmt<W: fmt::Write>(&self, f: &mut fmt::Formatter<W>) -> fmt::Result {
        f.write_str(match self {
            Expression::Path(_) => "Path(..)",
            Expression::Placeholder(_) => "Placeholder(..)",
            Expression::SingleValue(_) => "SingleValue(..)",
            Expression::Exists(_) => "Exists(..)",
            Expression::Compared(_, _, _) => "Compared(..)",
            Expression::Connected(_, _, _) => "Connected(..)",
            Expression::Not(_) => "Not(..)",
            Expression::NullTest(_, _) => "NullTest(..)",
            Expression::CountAll => "CountAll",
            Expression::Count(_) => "Count(..)",
            Expression::InList(_, _, _, _) => "InList(..)",
            Expression::InQuery(_, _, _) => "InQuery(..)",
            Expression::Constant(_) => "Constant(..)",
        })
    }
}

impl fmt::Debug for Item {
    fn fmt<W: fmt::Write>(&self, f: &mut fmt::Formatter<W>) -> fmt::Result {
        f.write_str(match self {
            Item::Plain(_) => "Plain(..)",
            Item::Ascending(_) => "Ascending(..)",
            Item::Descending(_) => "Descending(..)",
        })
    }
}

impl fmt::Debug for Source {
    fn fmt<W: fmt::Write>(&self, f: &mut fmt::Formatter<W>) -> fmt::Result {
        f.write_str(match self {
            Source::Table(_, _, _) => "Table(..)",
            Source::Alias(_, _) => "Alias(..)",
            Source::Join(_, _, _, _) => "Join(..)",
        })
    }
}

impl fmt::Debug for Distinctness {
    fn fmt<W: fmt::Write>(&self, f: &mut fmt::Formatter<W>) -> fmt::Result {
        f.write_str(match self {
            Distinctness::Every => "Every",
            Distinctness::Distinct => "Distinct",
            Distinctness::DistinctOn(_, _) => "DistinctOn(..)",
        })
    }
}

impl fmt::Debug for Query {
    fn fmt<W: fmt::Write>(&self, f: &mut fmt::Formatter<W>) -> fmt::Result {
        f.write_str(match self {
            Query::Select(_, _, _, _, _, _, _, _, _, _) => "Select(..)",
            Query::Combined(_, _, _, _, _, _) => "Combined(..)",
        })
    }
}
