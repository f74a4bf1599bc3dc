use sql_dialect::{Combinator, Dialect, DuplicateRule};
use sql_leaf::{
    Alias, Comparison, Direction, JoinKind, LimitOffsetClause, LockingClause, Logic, Marks,
    PositionalItem, TableSource, Unary,
};
use sql_pass::Value;
use sql_schema::{Column, SqlText, SqlType};

/// A select statement's lock, or the dialect that it is boxed for and whether all its columns are nullable.
#[derive(Debug, Clone, Copy, PartialEq, Eq, PartialOrd, Ord, Hash)]
pub enum Form {
    Unboxed(LockingClause),
    Boxed(Dialect, bool),
}

/// Which of equal rows a select statement gives.
#[derive(Debug, Clone, Copy, PartialEq, Eq, PartialOrd, Ord, Hash)]
pub enum Uniqueness {
    Every,
    Distinct,
    DistinctOn,
}

/// The properties of a select statement beside its clauses.
#[derive(Debug, Clone, Copy, PartialEq, Eq, PartialOrd, Ord, Hash)]
pub struct Selecting {
    /// Whether the selection is the default one.
    pub default: bool,
    pub unique: Uniqueness,
    pub rows: LimitOffsetClause,
    pub form: Form,
    pub marks: Marks,
}

/// The properties of a combination beside its sides and its order.
#[derive(Debug, Clone, Copy, PartialEq, Eq, PartialOrd, Ord, Hash)]
pub struct Combining {
    pub combinator: Combinator,
    pub duplicates: DuplicateRule,
    pub rows: LimitOffsetClause,
}

/// A node of a statement without its children, which follow it in the order in which they are written.
#[derive(Debug, PartialEq, Eq, PartialOrd, Ord, Hash)]
pub enum FlatKind {
    /// `"users"."id"`, or of the alias `"u2"."id"`.
    Column(Option<SqlText>, Column),
    /// A value of that type, which is bound.
    Value(SqlType, Value),
    /// Over its elements.
    List,
    CountStar,
    Nullable,
    /// Over one expression.
    Unary(Unary),
    Count,
    Compared(Comparison),
    Joined(Logic),
    Exists,
    Single,
    /// A membership: whether it is negated, and whether it looks in a list of values. Over what is sought, and the list or the
    /// statement.
    Among(bool, bool),
    /// A list of values of that type, over them.
    Values(SqlType),
    /// A value of a list.
    Element(SqlType, Value),
    Table(TableSource),
    Alias(Alias),
    /// Whether it has a condition. Over two sources, and `On` where it has one.
    Join(JoinKind, bool),
    /// The condition of a join, over it.
    On,
    /// Over a source.
    From,
    /// Each clause over its expression.
    DistinctOn,
    Where,
    GroupBy,
    Having,
    /// Over its items.
    OrderBy,
    /// Over one expression.
    Item(Direction),
    /// Over DISTINCT ON, the selection, FROM, WHERE, GROUP BY, HAVING and ORDER BY. A clause that is absent has no node.
    Select(Selecting),
    /// Over two sides, and `Positions` where it has an order.
    Combination(Combining),
    /// Over a statement.
    Side,
    /// An order by columns' numbers, over its items.
    Positions,
    Position(PositionalItem),
}

impl Drop for FlatKind {
    fn drop(self) {
        match self {
            FlatKind::Column(alias, _) => drop(alias),
            FlatKind::Value(_, _) => {}
            FlatKind::List => {}
            FlatKind::CountStar => {}
            FlatKind::Nullable => {}
            FlatKind::Unary(_) => {}
            FlatKind::Count => {}
            FlatKind::Compared(_) => {}
            FlatKind::Joined(_) => {}
            FlatKind::Exists => {}
            FlatKind::Single => {}
            FlatKind::Among(_, _) => {}
            FlatKind::Values(_) => {}
            FlatKind::Element(_, _) => {}
            FlatKind::Table(_) => {}
            FlatKind::Alias(_) => {}
            FlatKind::Join(_, _) => {}
            FlatKind::On => {}
            FlatKind::From => {}
            FlatKind::DistinctOn => {}
            FlatKind::Where => {}
            FlatKind::GroupBy => {}
            FlatKind::Having => {}
            FlatKind::OrderBy => {}
            FlatKind::Item(_) => {}
            FlatKind::Select(_) => {}
            FlatKind::Combination(_) => {}
            FlatKind::Side => {}
            FlatKind::Positions => {}
            FlatKind::Position(_) => {}
        }
    }
}

/// A node in a flat list, with the index after its last descendant.
#[derive(Debug, Drop, PartialEq, Eq, PartialOrd, Ord, Hash)]
pub struct FlatNode {
    pub kind: FlatKind,
    pub end: usize,
}
