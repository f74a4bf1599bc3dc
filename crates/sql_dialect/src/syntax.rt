ghost use Rattle.std.specs.Prelude.{◌≡◌};
ghost use Rattle.sql_dialect.specs.Supports.{combines};
ghost use Rattle.sql_dialect.specs.Syntax.{empty_from, exists, array, select, alias};
ghost use Rattle.sql_dialect.specs.declared.backend.Dialect.{Dialect};

use crate::combination::{Combinator, DuplicateRule};

/// How a statement without a source is written.
#[derive(Debug, Clone, Copy, PartialEq, Eq)]
pub enum EmptyFromClauseSyntax {
    /// Without a FROM clause: `SELECT 1`.
    AnsiSqlFromClauseSyntax,
}

/// How it is asked whether a subselect has rows.
#[derive(Debug, Clone, Copy, PartialEq, Eq)]
pub enum ExistsSyntax {
    /// `EXISTS (SELECT ..)`.
    AnsiSqlExistsSyntax,
}

/// How a value is compared with those of a list.
#[derive(Debug, Clone, Copy, PartialEq, Eq)]
pub enum ArrayComparison {
    /// Each value has a placeholder: `x IN (?, ?)`.
    AnsiSqlArrayComparison,
    /// The list is one value: `x = ANY($1)`.
    PgStyleArrayComparison,
}

/// How the clauses of a statement follow each other.
#[derive(Debug, Clone, Copy, PartialEq, Eq)]
pub enum SelectStatementSyntax {
    /// As the standard has them.
    AnsiSqlSelectStatement,
}

/// How an alias is named.
#[derive(Debug, Clone, Copy, PartialEq, Eq)]
pub enum AliasSyntax {
    /// `"users" AS "u"`.
    AsAliasSyntax,
}

/// The SQL that a database understands, and the form in which it does.
pub trait SqlDialect {
    /// The dialect as which all values of the type answer.
    ghost answers_as: { Dialect };

    /// Whether two statements may be combined so, as by `UNION ALL`.
    fn supports(&self, combinator: Combinator, rule: DuplicateRule) -> bool
        ensures { result ≡ combines answers_as combinator rule };

    /// The form of a statement without a source.
    fn empty_from_clause_syntax(&self) -> EmptyFromClauseSyntax
        ensures { result ≡ empty_from answers_as };

    /// The form of the question whether a subselect has rows.
    fn exists_syntax(&self) -> ExistsSyntax
        ensures { result ≡ exists answers_as };

    /// The form of a comparison with the values of a list.
    fn array_comparison(&self) -> ArrayComparison
        ensures { result ≡ array answers_as };

    /// The form of a whole statement.
    fn select_statement_syntax(&self) -> SelectStatementSyntax
        ensures { result ≡ select answers_as };

    /// The form of an alias.
    fn alias_syntax(&self) -> AliasSyntax
        ensures { result ≡ alias answers_as };
}
