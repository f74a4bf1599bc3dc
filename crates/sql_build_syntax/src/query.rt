use crate::{Call, Expr, Source};
use sql_schema::SqlList;

/// The beginning of a query.
#[cycle(syntax)]
pub enum QueryStart {
    /// `"from":SOURCE`
    From(Source),
    /// `"select":EXPR`, a selection without a source.
    Select(Expr),
}

impl Drop for QueryStart {
    #[cycle(syntax)]
    fn drop(self) {
        match self {
            QueryStart::From(_) => {}
            QueryStart::Select(_) => {}
        }
    }
}

/// A query: `{"from":{"table":"users"},"calls":[["limit",5]]}`. Its calls are made in their order.
#[cycle(syntax)]
pub struct Query {
    pub start: QueryStart,
    pub calls: SqlList<Call>,
}

impl Drop for Query {
    #[cycle(syntax)]
    fn drop(self) {
        let Query { start: _, calls } = self;
        drop(calls);
    }
}
