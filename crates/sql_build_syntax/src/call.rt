use crate::{Expr, OrderItem, Query, Source};
use sql_dialect::{Combinator, Dialect, DuplicateRule};
use sql_leaf::{JoinKind, PositionalItem};
use sql_schema::SqlList;

/// A call without arguments: `["distinct"]`, `["for_update"]`. Each has the name of its variant, in small letters.
#[derive(Debug, Clone, Copy, PartialEq, Eq)]
pub enum PlainCall {
    Distinct,
    Count,
    Nullable,
    ForUpdate,
    ForNoKeyUpdate,
    ForShare,
    ForKeyShare,
    SkipLocked,
    NoWait,
}

/// A call that gives a clause its expression: `["filter",EXPR]`. Each has the name of its variant, in small letters.
#[derive(Debug, Clone, Copy, PartialEq, Eq)]
pub enum ClauseCall {
    DistinctOn,
    GroupBy,
    Select,
    Filter,
    OrFilter,
    Having,
}

/// A call of a query.
#[cycle(syntax)]
pub enum Call {
    /// `["distinct"]`
    Plain(PlainCall),
    /// `["filter",EXPR]`
    Clause(ClauseCall, Expr),
    /// `["inner_join",SOURCE]` or `["inner_join",SOURCE,EXPR]`. `left_join` is another name of `left_outer_join`.
    Join(JoinKind, Source, Option<Expr>),
    /// `["find",[EXPR..]]`
    Find(SqlList<Expr>),
    /// `["order",[ITEM..]]`. `order_by` is another name of it.
    Order(SqlList<OrderItem>),
    /// `["then_order_by",[ITEM..]]`
    ThenOrderBy(SqlList<OrderItem>),
    /// `["limit",5]`
    Limit(i64),
    /// `["offset",5]`
    Offset(i64),
    /// `["into_boxed"]`, for the dialect of the request, or `["into_boxed","Pg"]`.
    IntoBoxed(Option<Dialect>),
    /// `["union",QUERY]`
    Combine(Combinator, DuplicateRule, Query),
    /// `["positional_order_by",[PLACE..]]`
    PositionalOrderBy(SqlList<PositionalItem>),
}

impl Drop for Call {
    #[cycle(syntax)]
    fn drop(self) {
        match self {
            Call::Plain(_) => {}
            Call::Clause(_, _) => {}
            Call::Join(_, _, _) => {}
            Call::Find(key) => drop(key),
            Call::Order(items) => drop(items),
            Call::ThenOrderBy(items) => drop(items),
            Call::Limit(_) => {}
            Call::Offset(_) => {}
            Call::IntoBoxed(_) => {}
            Call::Combine(_, _, _) => {}
            Call::PositionalOrderBy(_) => {}
        }
    }
}
