//! The four dialects, and the builders that write a statement's text in each.
//!
//! Bracket numbers placeholders as PostgreSQL does, and takes lists and the bytes of values as MySQL does. So each case by dialect is tried by
//! a second dialect.
#![tactic(auto)]

mod backend;
mod bracket;
mod builder;
mod combination;
mod laws;
mod markers;
mod mysql;
mod number;
mod pg;
mod quote;
mod sqlite;
mod syntax;

pub use backend::{Backend, Dialect};
pub use bracket::{Bracket, BracketQueryBuilder};
pub use builder::{BindError, NoMemory, QueryBuilder};
pub use combination::{Combinator, DuplicateRule};
pub use laws::quoted_names_differ;
pub use markers::{
    AggregateFunctionExpressions, BatchInsertSupport, BuiltInWindowFunctionRequireOrder,
    ConcatClause, DefaultValueClauseForInsert, InsertWithDefaultKeyword, OnConflictClause,
    ReturningClause, WindowFrameClauseGroupSupport, WindowFrameExclusionSupport,
};
pub use mysql::{Mysql, MysqlQueryBuilder};
pub use pg::{Pg, PgQueryBuilder};
pub use quote::quote_name;
pub use sqlite::{Sqlite, SqliteQueryBuilder};
pub use syntax::{
    AliasSyntax, ArrayComparison, EmptyFromClauseSyntax, ExistsSyntax, SelectStatementSyntax,
    SqlDialect,
};
