ghost use Rattle.std.specs.Prelude.{◌≡◌};
ghost use Rattle.sql_rules.specs.Texts.{rule_text};

/// A rule that a statement has to keep. The one of least number that is broken is the answer.
#[derive(Debug, Clone, Copy, PartialEq, Eq)]
pub enum Rule {
    /// A table or a column is none of the schema's.
    UnknownName,
    /// Clauses or calls that do not go together, as a lock with `DISTINCT`.
    Incompatible,
    /// A list without elements.
    EmptyList,
    /// A join without a condition.
    NoRelation,
    /// One source twice in what a `WHERE` sees.
    Ambiguous,
    /// Two tables that may not stand in one statement.
    NotTogether,
    /// Two sources of which one can be named as the other.
    NameClash,
    /// A column of a source that its clause does not see.
    NotInScope,
    /// An expression without a type, a value that does not fit, or a condition that is not Bool.
    TypeMismatch,
    /// A selected column whose row an outer join may lack, under no nullable.
    NeedsNullable,
    /// An aggregate where none may stand, or a selection without one value in a group.
    Grouping,
    /// An order that does not begin as `DISTINCT ON`.
    InvalidDistinctOrder,
    /// A form that the dialect lacks.
    Unsupported,
    /// More values than PostgreSQL has numbers for placeholders.
    TooManyBinds,
}

/// All rules, in order.
pub const RULES: [Rule; 14] = [
    Rule::UnknownName,
    Rule::Incompatible,
    Rule::EmptyList,
    Rule::NoRelation,
    Rule::Ambiguous,
    Rule::NotTogether,
    Rule::NameClash,
    Rule::NotInScope,
    Rule::TypeMismatch,
    Rule::NeedsNullable,
    Rule::Grouping,
    Rule::InvalidDistinctOrder,
    Rule::Unsupported,
    Rule::TooManyBinds,
];

impl Rule {
    /// The rule's name, as answers have it.
    pub fn name(self) -> &'static str
        ensures { result.now ≡ rule_text self }
    {
        match self {
            Rule::UnknownName => "UnknownName",
            Rule::Incompatible => "Incompatible",
            Rule::EmptyList => "EmptyList",
            Rule::NoRelation => "NoRelation",
            Rule::Ambiguous => "Ambiguous",
            Rule::NotTogether => "NotTogether",
            Rule::NameClash => "NameClash",
            Rule::NotInScope => "NotInScope",
            Rule::TypeMismatch => "TypeMismatch",
            Rule::NeedsNullable => "NeedsNullable",
            Rule::Grouping => "Grouping",
            Rule::InvalidDistinctOrder => "InvalidDistinctOrder",
            Rule::Unsupported => "Unsupported",
            Rule::TooManyBinds => "TooManyBinds",
        }
    }
}
