//! Calls on a boxed select statement. None where it lacks the call; it is then dropped as in `call`.

ghost use Rattle.std.specs.Prelude.{◌≡◌, IfOk, Some, option_map};
ghost use Rattle.sql_node.specs.View.{boxed_select_statement_tree, expr_tree};
ghost use Rattle.sql_build_syntax.specs.Forms.{clause_stands, plain_stands};
ghost use Rattle.sql_build_syntax.specs.declared.form.Form.TheVariants as form;
ghost use Rattle.sql_build.specs.Made.{clause_made, plain_made};
ghost use Rattle.sql_build.specs.Named.{only_where};

use sql_build_syntax::{ClauseCall, PlainCall};
use sql_expr::{BoxedSelectStatement, Expr};
use sql_schema::NoMemory;
use sql_select::QueryDsl;
use std::alloc::Global;

pub(crate) fn plain(
    alloc: Global,
    call: PlainCall,
    select: BoxedSelectStatement,
) -> Result<Option<BoxedSelectStatement>, NoMemory>
    ensures { IfOk result (λ o. option_map boxed_select_statement_tree o
        ≡ only_where (Some (plain_made call (boxed_select_statement_tree select)))
        (plain_stands form.Boxed call)) }
{
    match call {
        PlainCall::Distinct => Ok(Some(select.distinct())),
        PlainCall::Count => Ok(Some(select.count())),
        PlainCall::Nullable => Ok(Some(select.nullable(alloc)?)),
        PlainCall::ForUpdate
        | PlainCall::ForNoKeyUpdate
        | PlainCall::ForShare
        | PlainCall::ForKeyShare
        | PlainCall::SkipLocked
        | PlainCall::NoWait => {
            drop(select);
            Ok(None)
        }
    }
}

pub(crate) fn clause(
    alloc: Global,
    call: ClauseCall,
    expr: Expr,
    select: BoxedSelectStatement,
) -> Result<Option<BoxedSelectStatement>, NoMemory>
    ensures { IfOk result (λ o. option_map boxed_select_statement_tree o
        ≡ only_where (Some (clause_made call (expr_tree expr) (boxed_select_statement_tree select)))
        (clause_stands form.Boxed call)) }
{
    match call {
        ClauseCall::DistinctOn | ClauseCall::GroupBy => {
            drop(select);
            Ok(None)
        }
        ClauseCall::Select => Ok(Some(select.select(expr))),
        ClauseCall::Filter => Ok(Some(select.filter(alloc, expr)?)),
        ClauseCall::OrFilter => Ok(Some(select.or_filter(alloc, expr)?)),
        ClauseCall::Having => Ok(Some(select.having(expr))),
    }
}
