ghost use Rattle.std.specs.Prelude.{◌≡◌, Some};
ghost use Rattle.sql_check.specs.Errors.{rule_of};
ghost use Rattle.sql_check.specs.declared.error.CompileError.TheVariants as error;
ghost use Rattle.sql_dialect.specs.declared.builder.BindError.TheVariants as bind;
ghost use Rattle.sql_rules.specs.declared.rule.Rule.{Rule};
ghost use Rattle.sql_rules.specs.declared.rule.Rule.TheVariants as rule;

use sql_dialect::BindError;
use sql_rules::Rule;
use std::alloc::AllocError;
use thiserror::Error;

/// Why a statement is not compiled: the first rule that it breaks, which is the `Rule` of the variant's name, or out of memory.
/// A message is the rule's name.
#[derive(Debug, Error, Clone, Copy, PartialEq, Eq)]
pub enum CompileError {
    #[error("UnknownName")]
    UnknownName,
    #[error("Incompatible")]
    Incompatible,
    #[error("EmptyList")]
    EmptyList,
    #[error("NoRelation")]
    NoRelation,
    #[error("Ambiguous")]
    Ambiguous,
    #[error("NotTogether")]
    NotTogether,
    #[error("NameClash")]
    NameClash,
    #[error("NotInScope")]
    NotInScope,
    #[error("TypeMismatch")]
    TypeMismatch,
    #[error("NeedsNullable")]
    NeedsNullable,
    #[error("Grouping")]
    Grouping,
    #[error("InvalidDistinctOrder")]
    InvalidDistinctOrder,
    #[error("Unsupported")]
    Unsupported,
    #[error("TooManyBinds")]
    TooManyBinds,
    #[error("NoMemory")]
    NoMemory,
}

impl CompileError {
    /// The rule that is broken; none for out of memory.
    pub fn rule(self) -> Option<Rule>
        ensures { result ≡ rule_of self }
    {
        match self {
            CompileError::UnknownName => Some(Rule::UnknownName),
            CompileError::Incompatible => Some(Rule::Incompatible),
            CompileError::EmptyList => Some(Rule::EmptyList),
            CompileError::NoRelation => Some(Rule::NoRelation),
            CompileError::Ambiguous => Some(Rule::Ambiguous),
            CompileError::NotTogether => Some(Rule::NotTogether),
            CompileError::NameClash => Some(Rule::NameClash),
            CompileError::NotInScope => Some(Rule::NotInScope),
            CompileError::TypeMismatch => Some(Rule::TypeMismatch),
            CompileError::NeedsNullable => Some(Rule::NeedsNullable),
            CompileError::Grouping => Some(Rule::Grouping),
            CompileError::InvalidDistinctOrder => Some(Rule::InvalidDistinctOrder),
            CompileError::Unsupported => Some(Rule::Unsupported),
            CompileError::TooManyBinds => Some(Rule::TooManyBinds),
            CompileError::NoMemory => None,
        }
    }
}

impl From<Rule> for CompileError {
    ghost from_gives = { λ r e. rule_of e ≡ Some r };

    fn from(rule: Rule) -> CompileError {
        match rule {
            Rule::UnknownName => CompileError::UnknownName,
            Rule::Incompatible => CompileError::Incompatible,
            Rule::EmptyList => CompileError::EmptyList,
            Rule::NoRelation => CompileError::NoRelation,
            Rule::Ambiguous => CompileError::Ambiguous,
            Rule::NotTogether => CompileError::NotTogether,
            Rule::NameClash => CompileError::NameClash,
            Rule::NotInScope => CompileError::NotInScope,
            Rule::TypeMismatch => CompileError::TypeMismatch,
            Rule::NeedsNullable => CompileError::NeedsNullable,
            Rule::Grouping => CompileError::Grouping,
            Rule::InvalidDistinctOrder => CompileError::InvalidDistinctOrder,
            Rule::Unsupported => CompileError::Unsupported,
            Rule::TooManyBinds => CompileError::TooManyBinds,
        }
    }
}

impl From<AllocError> for CompileError {
    ghost from_gives = { λ _ e. e ≡ error.NoMemory };

    fn from(_: AllocError) -> CompileError {
        CompileError::NoMemory
    }
}

impl From<BindError> for CompileError {
    ghost from_gives = { λ b e. (r : Rule) → rule_of e ≡ Some r
        → (b ≡ bind.TooManyBinds) × (r ≡ rule.TooManyBinds) };

    fn from(error: BindError) -> CompileError {
        match error {
            BindError::TooManyBinds => CompileError::TooManyBinds,
            BindError::NoMemory => CompileError::NoMemory,
        }
    }
}
