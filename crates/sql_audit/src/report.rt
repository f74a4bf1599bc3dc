use sql_audit_resolution::ColumnUse;
use sql_schema::{SqlList, SqlText};

/// Which tables and columns a text uses, by the names by which they are looked up.
#[derive(Debug, Drop)]
pub struct AuditReport {
    /// The table of each leaf, which is a table or an alias in a FROM, in the order of the text.
    pub tables: SqlList<SqlText>,
    /// The column of each column path, in the order of the text, with the leaf that it comes from.
    pub uses: SqlList<ColumnUse>,
}
