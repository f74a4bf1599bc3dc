/// `=`, `!=`, `<`, `<=`, `>` and `>=`.
#[derive(Debug, Clone, Copy, PartialEq, Eq)]
pub enum Comparison {
    Equal,
    NotEqual,
    Less,
    LessOrEqual,
    Greater,
    GreaterOrEqual,
}

/// The words of the grammar.
#[derive(Debug, Clone, Copy, PartialEq, Eq)]
pub enum Keyword {
    Select,
    Distinct,
    On,
    From,
    Where,
    Group,
    By,
    Having,
    Order,
    Asc,
    Desc,
    Limit,
    Offset,
    For,
    Update,
    Share,
    No,
    Key,
    Skip,
    Locked,
    NoWait,
    Union,
    Intersect,
    Except,
    All,
    As,
    Only,
    TableSample,
    Bernoulli,
    System,
    Repeatable,
    Inner,
    Left,
    Outer,
    Join,
    Exists,
    And,
    Or,
    Not,
    Is,
    Null,
    Count,
    Any,
    In,
    Rows,
    Fetch,
    Next,
}

/// A token of a text.
#[derive(Debug, Drop)]
pub enum Token {
    /// A quoted identifier, by its name.
    Quoted(String),
    Word(Keyword),
    /// A word that the grammar doesn't have, by its letters.
    Unknown(Vec<u8>),
    /// A number, by its digits.
    Number(String),
    /// The place of a value, with its number where it has one.
    Mark(Option<u32>),
    Sign(Comparison),
    Open,
    Close,
    Comma,
    Dot,
    Star,
    Minus,
}
