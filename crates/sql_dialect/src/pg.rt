ghost use Rattle.std.specs.Prelude.{◌≡◌, ◌+◌, ◌++◌, [], ◌∷◌, ◌<◌, ◌^◌, IfOk};
ghost use Rattle.std.specs.Prelude.{refl};
ghost use Rattle.sql_dialect.specs.declared.backend.Dialect.TheVariants as D;

use crate::backend::{Backend, Dialect};
use crate::builder::{BindError, NoMemory, QueryBuilder};
use crate::combination::{Combinator, DuplicateRule};
use crate::number::push_number;
use crate::quote::push_quoted;
use crate::syntax::{
    AliasSyntax, ArrayComparison, EmptyFromClauseSyntax, ExistsSyntax, SelectStatementSyntax,
    SqlDialect,
};
use std::alloc::Global;
use std::marker::Model;

/// PostgreSQL.
#[derive(Debug, Clone, Copy, PartialEq, Eq)]
pub struct Pg;

impl SqlDialect for Pg {
    ghost answers_as = { D.Pg };

    fn supports(&self, _combinator: Combinator, _rule: DuplicateRule) -> bool {
        true
    }

    fn empty_from_clause_syntax(&self) -> EmptyFromClauseSyntax {
        EmptyFromClauseSyntax::AnsiSqlFromClauseSyntax
    }

    fn exists_syntax(&self) -> ExistsSyntax {
        ExistsSyntax::AnsiSqlExistsSyntax
    }

    fn array_comparison(&self) -> ArrayComparison {
        ArrayComparison::PgStyleArrayComparison
    }

    fn select_statement_syntax(&self) -> SelectStatementSyntax {
        SelectStatementSyntax::AnsiSqlSelectStatement
    }

    fn alias_syntax(&self) -> AliasSyntax {
        AliasSyntax::AsAliasSyntax
    }
}

impl Backend for Pg {
    type QueryBuilder = PgQueryBuilder;

    ghost speaks = { D.Pg };

    fn dialect(&self) -> Dialect {
        Dialect::Pg
    }

    fn query_builder(&self, alloc: Global) -> PgQueryBuilder {
        PgQueryBuilder::new(alloc)
    }

    ghost builds = { refl };

    ghost answers = { refl };
}

/// Writes text as PostgreSQL reads it: names in double quotes, placeholders `$1`, `$2` and so on.
#[derive(Debug, Drop)]
pub struct PgQueryBuilder {
    sql: String,
    bind_idx: u32,
}

impl Model for PgQueryBuilder {
    ghost use Rattle.std.specs.Prelude.{ℕ, List, string_bytes};
    ghost use Rattle.sql_dialect.specs.Built.{Built};

    ghost Value = { Built };

    ghost view = { λ b. record { text = string_bytes b.sql; count = b.bind_idx } };
}

impl PgQueryBuilder {
    /// An empty builder, whose first placeholder will be `$1`.
    pub fn new(alloc: Global) -> PgQueryBuilder
        ensures { result ≡ record { text = []; count = 0 } }
    {
        PgQueryBuilder::with_bind_idx(alloc, 0)
    }

    /// A builder of the text after some other that has numbered `bind_idx` placeholders.
    pub fn with_bind_idx(alloc: Global, bind_idx: u32) -> PgQueryBuilder
        ensures { result ≡ record { text = []; count = bind_idx } }
    {
        PgQueryBuilder {
            sql: String::new(alloc),
            bind_idx,
        }
    }

    /// The number of the last placeholder, or 0.
    pub fn bind_idx(&self) -> u32
        ensures { result ≡ self.now.count }
    {
        self.bind_idx
    }
}

impl QueryBuilder for PgQueryBuilder {
    ghost dialect = { D.Pg };

    ghost text = { λ b. b.text };

    ghost count = { λ b. b.count };

    fn push_sql(&mut self, sql: &str) -> Result<(), NoMemory> {
        self.sql.push_str(sql)
    }

    fn push_identifier(&mut self, name: &str) -> Result<(), NoMemory> {
        push_quoted(&mut self.sql, '"', '"', name)
    }

    fn push_bind_param(&mut self) -> Result<(), BindError> {
        if self.bind_idx == u32::MAX {
            return Err(BindError::TooManyBinds);
        }
        let next = self.bind_idx + 1;
        if push_number(&mut self.sql, "$", next).is_err() {
            return Err(BindError::NoMemory);
        }
        self.bind_idx = next;
        Ok(())
    }

    fn push_bind_param_value_only(&mut self) -> Result<(), BindError> {
        if self.bind_idx == u32::MAX {
            return Err(BindError::TooManyBinds);
        }
        self.bind_idx += 1;
        Ok(())
    }

    fn finish(self) -> String {
        let PgQueryBuilder { sql, bind_idx: _ } = self;
        sql
    }
}
