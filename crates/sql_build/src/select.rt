//! Calls on a select statement that is not boxed.

ghost use Rattle.std.specs.Prelude.{◌≡◌, IfOk};
ghost use Rattle.sql_node.specs.View.{boxed_select_statement_tree, expr_tree, select_statement_tree};
ghost use Rattle.sql_select.specs.Changes.{boxed_for};
ghost use Rattle.sql_build.specs.Made.{clause_made, plain_made};

use sql_build_syntax::{ClauseCall, PlainCall};
use sql_dialect::{Bracket, Dialect, Mysql, Pg, Sqlite};
use sql_expr::{BoxedSelectStatement, Expr, SelectStatement};
use sql_schema::NoMemory;
use sql_select::QueryDsl;
use std::alloc::Global;

pub(crate) fn plain(
    alloc: Global,
    call: PlainCall,
    select: SelectStatement,
) -> Result<SelectStatement, NoMemory>
    ensures { IfOk result (λ s. select_statement_tree s
        ≡ plain_made call (select_statement_tree select)) }
{
    match call {
        PlainCall::Distinct => Ok(select.distinct()),
        PlainCall::Count => Ok(select.count()),
        PlainCall::Nullable => select.nullable(alloc),
        PlainCall::ForUpdate => Ok(select.for_update()),
        PlainCall::ForNoKeyUpdate => Ok(select.for_no_key_update()),
        PlainCall::ForShare => Ok(select.for_share()),
        PlainCall::ForKeyShare => Ok(select.for_key_share()),
        PlainCall::SkipLocked => Ok(select.skip_locked()),
        PlainCall::NoWait => Ok(select.no_wait()),
    }
}

pub(crate) fn clause(
    alloc: Global,
    call: ClauseCall,
    expr: Expr,
    select: SelectStatement,
) -> Result<SelectStatement, NoMemory>
    ensures { IfOk result (λ s. select_statement_tree s
        ≡ clause_made call (expr_tree expr) (select_statement_tree select)) }
{
    match call {
        ClauseCall::DistinctOn => Ok(select.distinct_on(expr)),
        ClauseCall::GroupBy => Ok(select.group_by(expr)),
        ClauseCall::Select => Ok(select.select(expr)),
        ClauseCall::Filter => select.filter(alloc, expr),
        ClauseCall::OrFilter => select.or_filter(alloc, expr),
        ClauseCall::Having => Ok(select.having(expr)),
    }
}

pub(crate) fn boxed(dialect: Dialect, select: SelectStatement) -> BoxedSelectStatement
    ensures { boxed_select_statement_tree result
        ≡ boxed_for dialect (select_statement_tree select) }
{
    match dialect {
        Dialect::Pg => select.into_boxed(&Pg),
        Dialect::Mysql => select.into_boxed(&Mysql),
        Dialect::Sqlite => select.into_boxed(&Sqlite),
        Dialect::Bracket => select.into_boxed(&Bracket),
    }
}
