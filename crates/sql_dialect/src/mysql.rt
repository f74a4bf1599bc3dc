ghost use Rattle.std.specs.Prelude.{◌≡◌, [], refl};
ghost use Rattle.sql_dialect.specs.declared.backend.Dialect.TheVariants as D;

use crate::backend::{Backend, Dialect};
use crate::builder::{BindError, NoMemory, QueryBuilder};
use crate::combination::{Combinator, DuplicateRule};
use crate::quote::push_quoted;
use crate::syntax::{
    AliasSyntax, ArrayComparison, EmptyFromClauseSyntax, ExistsSyntax, SelectStatementSyntax,
    SqlDialect,
};
use std::alloc::Global;
use std::marker::Model;

/// MySQL.
#[derive(Debug, Clone, Copy, PartialEq, Eq)]
pub struct Mysql;

impl SqlDialect for Mysql {
    ghost answers_as = { D.Mysql };

    fn supports(&self, _combinator: Combinator, _rule: DuplicateRule) -> bool {
        true
    }

    fn empty_from_clause_syntax(&self) -> EmptyFromClauseSyntax {
        EmptyFromClauseSyntax::AnsiSqlFromClauseSyntax
    }

    fn exists_syntax(&self) -> ExistsSyntax {
        ExistsSyntax::AnsiSqlExistsSyntax
    }

    fn array_comparison(&self) -> ArrayComparison {
        ArrayComparison::AnsiSqlArrayComparison
    }

    fn select_statement_syntax(&self) -> SelectStatementSyntax {
        SelectStatementSyntax::AnsiSqlSelectStatement
    }

    fn alias_syntax(&self) -> AliasSyntax {
        AliasSyntax::AsAliasSyntax
    }
}

impl Backend for Mysql {
    type QueryBuilder = MysqlQueryBuilder;

    ghost speaks = { D.Mysql };

    fn dialect(&self) -> Dialect {
        Dialect::Mysql
    }

    fn query_builder(&self, alloc: Global) -> MysqlQueryBuilder {
        MysqlQueryBuilder::new(alloc)
    }

    ghost builds = { refl };

    ghost answers = { refl };
}

/// Writes text as MySQL reads it: names in backticks, each placeholder a `?`.
#[derive(Debug, Drop)]
pub struct MysqlQueryBuilder {
    sql: String,
}

impl Model for MysqlQueryBuilder {
    ghost use Rattle.std.specs.Prelude.{ℕ, List, string_bytes};

    ghost Value = { List ℕ };

    ghost view = { λ b. string_bytes b.sql };
}

impl MysqlQueryBuilder {
    /// An empty builder.
    pub fn new(alloc: Global) -> MysqlQueryBuilder
        ensures { result ≡ [] }
    {
        MysqlQueryBuilder {
            sql: String::new(alloc),
        }
    }
}

impl QueryBuilder for MysqlQueryBuilder {
    ghost dialect = { D.Mysql };

    ghost text = { λ b. b };

    ghost count = { λ _. 0 };

    fn push_sql(&mut self, sql: &str) -> Result<(), NoMemory> {
        self.sql.push_str(sql)
    }

    fn push_identifier(&mut self, name: &str) -> Result<(), NoMemory> {
        push_quoted(&mut self.sql, '`', '`', name)
    }

    fn push_bind_param(&mut self) -> Result<(), BindError> {
        match self.sql.push_str("?") {
            Ok(()) => Ok(()),
            Err(_) => Err(BindError::NoMemory),
        }
    }

    fn push_bind_param_value_only(&mut self) -> Result<(), BindError> {
        Ok(())
    }

    fn finish(self) -> String {
        let MysqlQueryBuilder { sql } = self;
        sql
    }
}
