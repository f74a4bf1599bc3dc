use sql_schema::SqlText;

/// The column that a column path of a text stands for.
#[derive(Debug, Drop, PartialEq, Eq)]
pub struct ColumnUse {
    /// The name by which the table is looked up.
    pub table: SqlText,
    /// The name by which the column is looked up.
    pub column: SqlText,
    /// Of which leaf it is a column, by the leaf's place in the text, from 0.
    pub leaf: usize,
}

/// The meaning of a column path of a text, which may stand for nothing.
#[derive(Debug, Drop, PartialEq, Eq)]
pub enum Meaning {
    /// It names no leaf that its clause sees.
    Nothing,
    /// It names two leaves or more where it first names any.
    Several,
    /// It names one.
    Column(ColumnUse),
}
