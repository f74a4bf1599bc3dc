//! Which tables and columns a text uses, by the text and a schema alone.
//!
//! The first refusal is told by kind and not by place: an unknown table anywhere comes before a path out of scope anywhere, and that before an
//! ambiguous one. What a path stands for is not known where a table is not.
#![tactic(auto)]

mod auditing;
mod error;
mod report;
mod settled;

pub use auditing::audit;
pub use error::AuditError;
pub use report::AuditReport;
pub use sql_audit_resolution::ColumnUse;
