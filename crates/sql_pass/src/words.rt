//! The words that this crate writes, each once. `sql_leaf` hands them on beside its own.

/// Before one expression or a query, and before two expressions, between which an operator stands: without brackets a condition that is
/// added later would regroup them.
pub const OPEN: &str = "(";

pub const CLOSE: &str = ")";

/// Between a name and the name of what holds it.
pub const DOT: &str = ".";

pub const ON: &str = " ON ";

/// Before a query that is read from as a table, with the bracket that opens there.
pub const FROM_OPEN: &str = "SELECT * FROM (";
