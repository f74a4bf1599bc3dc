use crate::{AliasName, Expr, TableName};
use sql_leaf::JoinKind;

/// A source of rows.
#[cycle(syntax)]
pub enum Source {
    /// `{"table":"users"}`
    Table(TableName),
    /// `{"alias":"u2","of":"users"}`
    Alias(AliasName),
    /// `{"join":["inner",SOURCE,SOURCE]}`
    Join(Box<Join>),
}

impl Drop for Source {
    #[cycle(syntax)]
    fn drop(self) {
        match self {
            Source::Table(_) => {}
            Source::Alias(_) => {}
            Source::Join(_) => {}
        }
    }
}

/// Two sources side by side. Without `on` the condition is the one that a declared relation gives.
#[cycle(syntax)]
pub struct Join {
    pub kind: JoinKind,
    pub left: Source,
    pub right: Source,
    pub on: Option<Expr>,
}

impl Drop for Join {
    #[cycle(syntax)]
    fn drop(self) {
        let Join {
            kind: _,
            left: _,
            right: _,
            on: _,
        } = self;
    }
}
