/// How a statement combines the rows of its two sides.
#[derive(Debug, Clone, Copy, PartialEq, Eq, PartialOrd, Ord, Hash)]
pub enum Combinator {
    /// The rows of either side: `UNION`.
    Union,
    /// The rows of both sides: `INTERSECT`.
    Intersect,
    /// The rows of the left side that the right one lacks: `EXCEPT`.
    Except,
}

/// The rule for equal rows of a combination.
#[derive(Debug, Clone, Copy, PartialEq, Eq, PartialOrd, Ord, Hash)]
pub enum DuplicateRule {
    /// Keeps one of them, as `UNION` alone does.
    Distinct,
    /// Counts each of them, as `UNION ALL` does.
    All,
}
