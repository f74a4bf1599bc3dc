//! The words that are written between the parts of a statement, each once: a walk over nodes and a loop over their flat list both take
//! them from here. Those that `sql_pass` writes too are its own, and this crate hands them on.

ghost use Rattle.std.specs.Prelude.{◌≡◌};
ghost use Rattle.sql_leaf.specs.Words.{among_word, combinator_sql, constant_sql, join_sql};

use crate::JoinKind;
use sql_dialect::{ArrayComparison, Combinator};

/// After what a membership looks in.
pub const CLOSE_BOTH: &str = "))";
/// Before each part of a list but the first.
pub const COMMA: &str = ", ";

pub const COUNT_STAR: &str = "COUNT(*)";

pub const COUNT_OPEN: &str = "COUNT(";

pub const EXISTS_OPEN: &str = "EXISTS (";

pub const SELECT: &str = "SELECT ";

pub const DISTINCT: &str = "DISTINCT ";

pub const DISTINCT_ON_OPEN: &str = "DISTINCT ON (";

pub const DISTINCT_ON_CLOSE: &str = ") ";

pub const FROM: &str = " FROM ";

pub const WHERE: &str = " WHERE ";

pub const GROUP_BY: &str = " GROUP BY ";

pub const HAVING: &str = " HAVING ";

pub const ORDER_BY: &str = " ORDER BY ";

pub const ASC: &str = " ASC";

pub const DESC: &str = " DESC";
/// Behind the operator of a combination that keeps equal rows.
pub const ALL: &str = "ALL ";

/// Returns the text between an expression and the values among which it is sought, with the bracket that opens there: ` IN (`.
pub fn among_text(comparison: ArrayComparison, negated: bool) -> &'static str
    ensures { result.now ≡ among_word comparison negated }
{
    match comparison {
        ArrayComparison::PgStyleArrayComparison => match negated {
            false => " = ANY(",
            true => " != ALL(",
        },
        ArrayComparison::AnsiSqlArrayComparison => match negated {
            false => " IN (",
            true => " NOT IN (",
        },
    }
}

/// Returns the text that is written for a membership in no values: `(1=0)`.
pub fn constant_text(negated: bool) -> &'static str
    ensures { result.now ≡ constant_sql negated }
{
    match negated {
        false => "(1=0)",
        true => "(1=1)",
    }
}

/// Returns the text between the sides of a join: ` INNER JOIN `.
pub fn join_text(kind: JoinKind) -> &'static str
    ensures { result.now ≡ join_sql kind }
{
    match kind {
        JoinKind::Inner => " INNER JOIN ",
        JoinKind::LeftOuter => " LEFT OUTER JOIN ",
    }
}

/// Returns the text between the sides of a combination: ` UNION `.
pub fn combinator_text(combinator: Combinator) -> &'static str
    ensures { result.now ≡ combinator_sql combinator }
{
    match combinator {
        Combinator::Union => " UNION ",
        Combinator::Intersect => " INTERSECT ",
        Combinator::Except => " EXCEPT ",
    }
}
