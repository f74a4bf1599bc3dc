use sql_leaf::Tablesample;
use sql_schema::SqlText;

/// A column by its lookup names: `["users","id"]`.
#[derive(Debug, Drop)]
pub struct ColumnName {
    pub table: SqlText,
    pub column: SqlText,
}

/// A column of an aliased table: `["u2","users","id"]`.
#[derive(Debug, Drop)]
pub struct FieldName {
    pub alias: SqlText,
    pub table: SqlText,
    pub column: SqlText,
}

/// A table by its lookup name, and its marks: `{"table":"users","only":true,"sample":["system",10]}`.
#[derive(Debug, Drop)]
pub struct TableName {
    pub table: SqlText,
    pub only: bool,
    pub sample: Option<Tablesample>,
}

/// A table under a name of its own: `{"alias":"u2","of":"users"}`.
#[derive(Debug, Drop)]
pub struct AliasName {
    pub alias: SqlText,
    pub of: SqlText,
}
