//! The parts of a statement that hold no expression: tables as they are read from, aliases, aliased fields, samples, limits,
//! locks, positions in an order, the marks that calls leave, operators, and the words that are written between parts.
//!
//! Each is written as a fragment and copied by `try_clone`. What holds no text is `Copy` too.
//!
//! A limit is bound as a BigInt, also where it is written as a number, and a negative one is bound as it is: PostgreSQL refuses it, and SQLite
//! takes all rows. A boxed statement's limit and offset are a part of their own (`BoxedLimitOffset`), since MySQL writes an offset without a
//! limit there and nowhere else. Bracket writes a page as SQL Server does, also without an ORDER BY, which that server refuses.
//!
//! The words of operators stand in tables by the operator, which walks and loops read: an operator is copied and owns nothing. A table by the
//! kinds of a flat list could not be read so, since these own texts.
#![tactic(auto)]

mod alias;
mod bound;
mod limit_offset;
mod locking;
mod marks;
mod operator;
mod position;
mod table_source;
mod words;

pub use alias::{Alias, AliasedField};
pub use limit_offset::{BoxedLimitOffset, LimitOffsetClause};
pub use locking::{LockMode, LockingClause, Modifier};
pub use marks::Marks;
pub use operator::{Comparison, Logic, Unary};
pub use position::{Direction, OrderColumn, PositionalItem};
pub use sql_pass::{CLOSE, DOT, FROM_OPEN, ON, OPEN};
pub use table_source::{JoinKind, TableSource, Tablesample, TablesampleMethod};
pub use words::{
    ALL, ASC, CLOSE_BOTH, COMMA, COUNT_OPEN, COUNT_STAR, DESC, DISTINCT, DISTINCT_ON_CLOSE,
    DISTINCT_ON_OPEN, EXISTS_OPEN, FROM, GROUP_BY, HAVING, ORDER_BY, SELECT, WHERE, among_text,
    combinator_text, constant_text, join_text,
};
