//! The meaning of a part of a statement, a list of pieces, and the passes that walk over it.
//!
//! One walk serves every purpose: it pushes a part's pieces into a pass, which makes of them the text, the bytes of the
//! values, the list of values, the flag that says whether a prepared statement may be kept, or the test whether anything
//! is written.
//!
//! A list that is bound as one has one form in every dialect, that of PostgreSQL's arrays. MySQL and SQLite have no lists: there a membership
//! has a placeholder for each value, and only a part of a user's own can push a list.
//!
//! In definitions the pieces of a list come with a flag that says whether something was written before (`commas`), as a walk knows it. Without
//! the flag each list would need a lemma that says the same, and each walk one more.
#![tactic(auto)]

mod bytes;
mod collect;
mod fragment;
mod parts;
mod pass;
mod path;
mod to_sql;
mod value;
mod words;

pub use collect::{BindCollector, BindType, Binds, CollectError, RawBytesBindCollector};
pub use fragment::{QueryFragment, debug_binds};
pub use parts::{
    Identifier, InfixNode, MiddleFragment, OnKeyword, ParenthesisWrapper, push_side_open,
};
pub use pass::{AstPass, PassError};
pub use path::push_dotted;
pub use to_sql::ToSql;
pub use value::{Bound, BoundRef, Value};
pub use words::{CLOSE, DOT, FROM_OPEN, ON, OPEN};
