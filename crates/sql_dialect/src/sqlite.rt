ghost use Rattle.std.specs.Prelude.{◌≡◌, [], refl};
ghost use Rattle.sql_dialect.specs.declared.backend.Dialect.TheVariants as D;

use crate::backend::{Backend, Dialect};
use crate::builder::{BindError, NoMemory, QueryBuilder};
use crate::combination::{Combinator, DuplicateRule};
use crate::quote::push_quoted;
use crate::syntax::{
    AliasSyntax, ArrayComparison, EmptyFromClauseSyntax, ExistsSyntax, SelectStatementSyntax,
    SqlDialect,
};
use std::alloc::Global;
use std::marker::Model;

/// SQLite.
#[derive(Debug, Clone, Copy, PartialEq, Eq)]
pub struct Sqlite;

impl SqlDialect for Sqlite {
    ghost answers_as = { D.Sqlite };

    fn supports(&self, combinator: Combinator, rule: DuplicateRule) -> bool {
        match (combinator, rule) {
            (Combinator::Union, _) => true,
            (_, DuplicateRule::Distinct) => true,
            (_, DuplicateRule::All) => false,
        }
    }

    fn empty_from_clause_syntax(&self) -> EmptyFromClauseSyntax {
        EmptyFromClauseSyntax::AnsiSqlFromClauseSyntax
    }

    fn exists_syntax(&self) -> ExistsSyntax {
        ExistsSyntax::AnsiSqlExistsSyntax
    }

    fn array_comparison(&self) -> ArrayComparison {
        ArrayComparison::AnsiSqlArrayComparison
    }

    fn select_statement_syntax(&self) -> SelectStatementSyntax {
        SelectStatementSyntax::AnsiSqlSelectStatement
    }

    fn alias_syntax(&self) -> AliasSyntax {
        AliasSyntax::AsAliasSyntax
    }
}

impl Backend for Sqlite {
    type QueryBuilder = SqliteQueryBuilder;

    ghost speaks = { D.Sqlite };

    fn dialect(&self) -> Dialect {
        Dialect::Sqlite
    }

    fn query_builder(&self, alloc: Global) -> SqliteQueryBuilder {
        SqliteQueryBuilder::new(alloc)
    }

    ghost builds = { refl };

    ghost answers = { refl };
}

/// Writes text as SQLite reads it: names in backticks, each placeholder a `?`.
#[derive(Debug, Drop)]
pub struct SqliteQueryBuilder {
    sql: String,
}

impl Model for SqliteQueryBuilder {
    ghost use Rattle.std.specs.Prelude.{ℕ, List, string_bytes};

    ghost Value = { List ℕ };

    ghost view = { λ b. string_bytes b.sql };
}

impl SqliteQueryBuilder {
    /// An empty builder.
    pub fn new(alloc: Global) -> SqliteQueryBuilder
        ensures { result ≡ [] }
    {
        SqliteQueryBuilder {
            sql: String::new(alloc),
        }
    }
}

impl QueryBuilder for SqliteQueryBuilder {
    ghost dialect = { D.Sqlite };

    ghost text = { λ b. b };

    ghost count = { λ _. 0 };

    fn push_sql(&mut self, sql: &str) -> Result<(), NoMemory> {
        self.sql.push_str(sql)
    }

    fn push_identifier(&mut self, name: &str) -> Result<(), NoMemory> {
        push_quoted(&mut self.sql, '`', '`', name)
    }

    fn push_bind_param(&mut self) -> Result<(), BindError> {
        match self.sql.push_str("?") {
            Ok(()) => Ok(()),
            Err(_) => Err(BindError::NoMemory),
        }
    }

    fn push_bind_param_value_only(&mut self) -> Result<(), BindError> {
        Ok(())
    }

    fn finish(self) -> String {
        let SqliteQueryBuilder { sql } = self;
        sql
    }
}
