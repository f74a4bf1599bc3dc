#![tactic(auto, using(sql_pass::proofs::Walking::walking))]

ghost use Rattle.std.specs.Prelude.{◌≡◌, ◌++◌, Ok, true, false};
ghost use Rattle.sql_pass.specs.Held.{held};
ghost use Rattle.sql_pass.specs.Bounds.{of_i64};
ghost use Rattle.sql_pass.specs.Pieces.{one, Text, Bind};
ghost use Rattle.sql_pass.specs.Walks.{Walks};
ghost use Rattle.sql_leaf.specs.Limits.{least_limit, largest_limit, fetch_from_the_first, fetch_next, rows_only, limit_pieces, offset_pieces, offset_rows_pieces, limit_alone, offset_alone, limit_and_offset, limit_offset_pieces};

use crate::bound::push_big;
use sql_dialect::{Backend, Dialect};
use sql_pass::{AstPass, PassError, QueryFragment};
use sql_schema::NoMemory;
use std::alloc::Global;

const OFFSET: &str = " OFFSET ";

/// How many rows are given, and how many are left out before them.
#[derive(Debug, Clone, Copy, PartialEq, Eq, PartialOrd, Ord, Hash)]
pub struct LimitOffsetClause {
    pub limit_clause: Option<i64>,
    pub offset_clause: Option<i64>,
}

/// The same clause in a boxed statement, where MySQL too can write an offset without a limit.
#[derive(Debug, Clone, Copy, PartialEq, Eq)]
pub struct BoxedLimitOffset(pub LimitOffsetClause);

impl LimitOffsetClause {
    /// An equal clause. It takes no memory.
    pub fn try_clone(&self, _alloc: Global) -> Result<LimitOffsetClause, NoMemory>
        ensures { result ≡ Ok self.now }
    {
        Ok(*self)
    }
}

impl BoxedLimitOffset {
    /// An equal clause. It takes no memory.
    pub fn try_clone(&self, _alloc: Global) -> Result<BoxedLimitOffset, NoMemory>
        ensures { result ≡ Ok self.now }
    {
        Ok(*self)
    }
}

#[tactic(auto, unfolding(crate::specs::Limits::least_limit))]
fn push_least_limit<DB: Backend>(pass: &mut AstPass<DB>) -> Result<(), PassError>
    ensures { Walks DB.speaks (held DB.QueryBuilder.text DB.QueryBuilder.count pass.old)
        (one (Text least_limit)) result (held DB.QueryBuilder.text DB.QueryBuilder.count pass.new) }
{
    pass.push_sql(" LIMIT -1 ")
}

#[tactic(auto, unfolding(crate::specs::Limits::largest_limit))]
fn push_largest_limit<DB: Backend>(pass: &mut AstPass<DB>) -> Result<(), PassError>
    ensures { Walks DB.speaks (held DB.QueryBuilder.text DB.QueryBuilder.count pass.old)
        (one (Text largest_limit)) result
        (held DB.QueryBuilder.text DB.QueryBuilder.count pass.new) }
{
    pass.push_sql(" LIMIT 18446744073709551615 ")
}

#[tactic(auto, unfolding(crate::specs::Limits::fetch_from_the_first))]
fn push_fetch_from_the_first<DB: Backend>(pass: &mut AstPass<DB>) -> Result<(), PassError>
    ensures { Walks DB.speaks (held DB.QueryBuilder.text DB.QueryBuilder.count pass.old)
        (one (Text fetch_from_the_first)) result
        (held DB.QueryBuilder.text DB.QueryBuilder.count pass.new) }
{
    pass.push_sql(" OFFSET 0 ROWS FETCH NEXT ")
}

#[tactic(auto, unfolding(crate::specs::Limits::fetch_next))]
fn push_fetch_next<DB: Backend>(pass: &mut AstPass<DB>) -> Result<(), PassError>
    ensures { Walks DB.speaks (held DB.QueryBuilder.text DB.QueryBuilder.count pass.old)
        (one (Text fetch_next)) result
        (held DB.QueryBuilder.text DB.QueryBuilder.count pass.new) }
{
    pass.push_sql(" FETCH NEXT ")
}

#[tactic(auto, unfolding(crate::specs::Limits::rows_only))]
fn push_rows_only<DB: Backend>(pass: &mut AstPass<DB>) -> Result<(), PassError>
    ensures { Walks DB.speaks (held DB.QueryBuilder.text DB.QueryBuilder.count pass.old)
        (one (Text rows_only)) result
        (held DB.QueryBuilder.text DB.QueryBuilder.count pass.new) }
{
    pass.push_sql(" ROWS ONLY")
}

fn walk_limit<DB: Backend>(limit: i64, pass: &mut AstPass<DB>) -> Result<(), PassError>
    ensures { Walks DB.speaks (held DB.QueryBuilder.text DB.QueryBuilder.count pass.old)
        (limit_pieces limit) result
        (held DB.QueryBuilder.text DB.QueryBuilder.count pass.new) }
{
    pass.push_sql(" LIMIT ")?;
    push_big(limit, pass)?;
    Ok(())
}

fn walk_offset<DB: Backend>(offset: i64, pass: &mut AstPass<DB>) -> Result<(), PassError>
    ensures { Walks DB.speaks (held DB.QueryBuilder.text DB.QueryBuilder.count pass.old)
        (offset_pieces offset) result
        (held DB.QueryBuilder.text DB.QueryBuilder.count pass.new) }
{
    pass.push_sql(OFFSET)?;
    push_big(offset, pass)?;
    Ok(())
}

fn walk_offset_rows<DB: Backend>(offset: i64, pass: &mut AstPass<DB>) -> Result<(), PassError>
    ensures { Walks DB.speaks (held DB.QueryBuilder.text DB.QueryBuilder.count pass.old)
        (offset_rows_pieces offset) result
        (held DB.QueryBuilder.text DB.QueryBuilder.count pass.new) }
{
    pass.push_sql(OFFSET)?;
    push_big(offset, pass)?;
    pass.push_sql(" ROWS")?;
    Ok(())
}

/// Pushes the limit and the words after it.
fn walk_fetched<DB: Backend>(limit: i64, pass: &mut AstPass<DB>) -> Result<(), PassError>
    ensures { Walks DB.speaks (held DB.QueryBuilder.text DB.QueryBuilder.count pass.old)
        (one (Bind (of_i64 limit)) ++ one (Text rows_only)) result
        (held DB.QueryBuilder.text DB.QueryBuilder.count pass.new) }
{
    push_big(limit, pass)?;
    push_rows_only(pass)?;
    Ok(())
}

fn walk_limit_alone<DB: Backend>(limit: i64, pass: &mut AstPass<DB>) -> Result<(), PassError>
    ensures { Walks DB.speaks (held DB.QueryBuilder.text DB.QueryBuilder.count pass.old)
        (limit_alone DB.speaks limit) result
        (held DB.QueryBuilder.text DB.QueryBuilder.count pass.new) }
{
    match pass.backend().dialect() {
        Dialect::Pg | Dialect::Mysql | Dialect::Sqlite => walk_limit(limit, pass),
        Dialect::Bracket => {
            push_fetch_from_the_first(pass)?;
            walk_fetched(limit, pass)
        }
    }
}

fn walk_offset_alone<DB: Backend>(
    boxed: bool,
    offset: i64,
    pass: &mut AstPass<DB>,
) -> Result<(), PassError>
    ensures { Walks DB.speaks (held DB.QueryBuilder.text DB.QueryBuilder.count pass.old)
        (offset_alone DB.speaks boxed offset) result
        (held DB.QueryBuilder.text DB.QueryBuilder.count pass.new) }
{
    match pass.backend().dialect() {
        Dialect::Pg => walk_offset(offset, pass),
        Dialect::Mysql => match boxed {
            false => walk_offset(offset, pass),
            true => {
                push_largest_limit(pass)?;
                walk_offset(offset, pass)
            }
        },
        Dialect::Sqlite => {
            push_least_limit(pass)?;
            walk_offset(offset, pass)
        }
        Dialect::Bracket => walk_offset_rows(offset, pass),
    }
}

fn walk_limit_and_offset<DB: Backend>(
    limit: i64,
    offset: i64,
    pass: &mut AstPass<DB>,
) -> Result<(), PassError>
    ensures { Walks DB.speaks (held DB.QueryBuilder.text DB.QueryBuilder.count pass.old)
        (limit_and_offset DB.speaks limit offset) result
        (held DB.QueryBuilder.text DB.QueryBuilder.count pass.new) }
{
    match pass.backend().dialect() {
        Dialect::Pg | Dialect::Mysql | Dialect::Sqlite => {
            walk_limit(limit, pass)?;
            walk_offset(offset, pass)
        }
        Dialect::Bracket => {
            walk_offset_rows(offset, pass)?;
            push_fetch_next(pass)?;
            walk_fetched(limit, pass)
        }
    }
}

fn walk_rows<DB: Backend>(
    boxed: bool,
    rows: LimitOffsetClause,
    pass: &mut AstPass<DB>,
) -> Result<(), PassError>
    ensures { Walks DB.speaks (held DB.QueryBuilder.text DB.QueryBuilder.count pass.old)
        (limit_offset_pieces DB.speaks boxed rows.limit_clause rows.offset_clause) result
        (held DB.QueryBuilder.text DB.QueryBuilder.count pass.new) }
{
    match rows.limit_clause {
        None => match rows.offset_clause {
            None => Ok(()),
            Some(offset) => walk_offset_alone(boxed, offset, pass),
        },
        Some(limit) => match rows.offset_clause {
            None => walk_limit_alone(limit, pass),
            Some(offset) => walk_limit_and_offset(limit, offset, pass),
        },
    }
}

/// ` LIMIT $1 OFFSET $2`, or one of the two. An offset alone is ` OFFSET $1`, in SQLite ` LIMIT -1  OFFSET ?`. On Bracket both
/// are ` OFFSET @p1 ROWS FETCH NEXT @p2 ROWS ONLY`, and a limit alone has `0` in place of the offset.
impl<DB: Backend> QueryFragment<DB> for LimitOffsetClause {
    ghost pieces = { λ r. limit_offset_pieces DB.speaks false r.limit_clause r.offset_clause };

    fn walk_ast(&self, pass: &mut AstPass<DB>) -> Result<(), PassError> {
        walk_rows(false, *self, pass)
    }
}

/// As the clause itself, but an offset alone is ` LIMIT 18446744073709551615  OFFSET ?` in MySQL.
impl<DB: Backend> QueryFragment<DB> for BoxedLimitOffset {
    ghost pieces = { λ r. limit_offset_pieces DB.speaks true r.0.limit_clause r.0.offset_clause };

    fn walk_ast(&self, pass: &mut AstPass<DB>) -> Result<(), PassError> {
        walk_rows(true, self.0, pass)
    }
}
