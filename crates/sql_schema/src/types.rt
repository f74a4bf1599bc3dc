/// The kind of value that a column or an expression has.
#[derive(Debug, Clone, Copy, PartialEq, Eq, PartialOrd, Ord, Hash)]
pub enum Base {
    SmallInt,
    Integer,
    BigInt,
    Text,
    Binary,
    Bool,
}

/// The type of a column or an expression: its base, and whether it may be NULL.
#[derive(Debug, Clone, Copy, PartialEq, Eq, PartialOrd, Ord, Hash)]
pub struct SqlType {
    pub base: Base,
    pub nullable: bool,
}
