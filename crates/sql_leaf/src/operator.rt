ghost use Rattle.std.specs.Prelude.{◌≡◌};
ghost use Rattle.sql_leaf.specs.Operators.{comparison_sql, logic_sql, unary_after, unary_before};

use sql_pass::{CLOSE, OPEN};

/// A condition on one expression.
#[derive(Debug, Clone, Copy, PartialEq, Eq, PartialOrd, Ord, Hash)]
pub enum Unary {
    /// `NOT (a)`.
    Not,
    /// `(a IS NULL)`.
    IsNull,
    /// `(a IS NOT NULL)`.
    IsNotNull,
}

impl Unary {
    /// Returns the text before the expression: `NOT (`.
    pub fn before(self) -> &'static str
        ensures { result.now ≡ unary_before self }
    {
        match self {
            Unary::Not => "NOT (",
            Unary::IsNull | Unary::IsNotNull => OPEN,
        }
    }

    /// Returns the text after the expression: ` IS NULL)`.
    #[tactic(auto, unfolding(crate::specs::Operators::is_not_null))]
    pub fn after(self) -> &'static str
        ensures { result.now ≡ unary_after self }
    {
        match self {
            Unary::Not => CLOSE,
            Unary::IsNull => " IS NULL)",
            Unary::IsNotNull => " IS NOT NULL)",
        }
    }
}

/// How two expressions are compared.
#[derive(Debug, Clone, Copy, PartialEq, Eq, PartialOrd, Ord, Hash)]
pub enum Comparison {
    Eq,
    Ne,
    Gt,
    Ge,
    Lt,
    Le,
}

impl Comparison {
    /// Returns the text between the two sides: ` = `.
    pub fn text(self) -> &'static str
        ensures { result.now ≡ comparison_sql self }
    {
        match self {
            Comparison::Eq => " = ",
            Comparison::Ne => " != ",
            Comparison::Gt => " > ",
            Comparison::Ge => " >= ",
            Comparison::Lt => " < ",
            Comparison::Le => " <= ",
        }
    }
}

/// How two conditions are joined.
#[derive(Debug, Clone, Copy, PartialEq, Eq, PartialOrd, Ord, Hash)]
pub enum Logic {
    And,
    Or,
}

impl Logic {
    /// Returns the text between the two sides: ` AND `.
    pub fn text(self) -> &'static str
        ensures { result.now ≡ logic_sql self }
    {
        match self {
            Logic::And => " AND ",
            Logic::Or => " OR ",
        }
    }
}
