use sql_read_lexer::{Comparison, Token};
use sql_read_tree::{
    Direction, Distinctness, Expression, Item, JoinKind, Lock, LockMode, LockWait, Logic, Mark,
    Names, Page, Place, Query, Sample, SetOperator, Source,
};

/// The items of a list as it is read from its end: the first, and those after it from the last to the second.
#[derive(Drop)]
pub struct Items {
    pub first: Item,
    pub later: Vec<Item>,
}

/// The same of places.
#[derive(Drop)]
pub struct Places {
    pub first: Place,
    pub later: Vec<Place>,
}

/// The part of a bracket after its first part, with the bracket's end.
#[derive(Drop)]
pub enum Right {
    Compares(Comparison, Expression),
    Joins(Logic, Expression),
    IsNull(bool),
    IsIn(bool, Items),
    IsInQuery(bool, Box<Query>),
    Equals(String),
    JoinsTo(JoinKind, Source, Expression),
}

/// The clauses after a selection.
#[derive(Drop)]
pub struct Clauses {
    pub source: Option<Source>,
    pub filter: Option<Expression>,
    pub group: Vec<Expression>,
    pub having: Option<Expression>,
    pub order: Vec<Item>,
    pub places: Vec<Place>,
    pub page: Page,
    pub lock: Lock,
}

/// An entry of the stack: what some tokens have come to.
#[derive(Drop)]
pub enum Entry {
    /// A token as it is.
    Raw(Token),
    /// A dot and the path after it.
    Dotted(Names),
    E(Expression),
    /// A comma and the list after it.
    Listed(Items),
    Numbered(Places),
    Ordered(Direction),
    /// A list in brackets.
    Row(Items),
    StarRow,
    RightPart(Right),
    Q(Box<Query>),
    /// The right side of a combination, with its operator.
    Combines(SetOperator, bool, Box<Query>),
    /// A side as Sqlite has it, and without its first two tokens.
    Side(Box<Query>),
    FromQuery(Box<Query>),
    S(Source),
    AliasAs(String),
    SampledBy(Sample),
    Seeded(Mark),
    OnExpression(Expression),
    OnRow(Items),
    JoinTo(Source, Expression),
    Distinctly(Distinctness),
    Waiting(LockWait),
    Locking(LockMode, LockWait),
    /// `ROWS ONLY` without and with its first word, and the number of rows to fetch.
    OnlyLast,
    RowsOnly,
    Fetches(Mark),
    Tail(Box<Clauses>),
}

/// The stack of what the tokens so far have come to. The last entry is the top.
#[derive(Drop)]
pub struct Stack {
    pub entries: Vec<Entry>,
}
