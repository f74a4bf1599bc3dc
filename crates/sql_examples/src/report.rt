ghost use Rattle.std.specs.Prelude.{◌≡◌, IfErr, IfOk, IsErrOf, None, Some};
ghost use Rattle.hardieflax.specs.Tree as tree;
ghost use Rattle.hardieflax.specs.View.{expr_tree, statement_tree};
ghost use Rattle.hardieflax.specs.Dialect.TheVariants.{Pg as PgDialect};
ghost use Rattle.hardieflax.specs.Rule.{Rule};
ghost use Rattle.hardieflax.specs.Compiled.{IsBuilt, IsLeast, IsRead};
ghost use Rattle.hardieflax.specs.CompileError.TheVariants.{NoMemory as OutOfMemory};
ghost use Rattle.sql_examples.specs.Report.{first_ten, is_text, refusal, report};
ghost use Rattle.sql_examples.specs.declared.report.ReportError.TheVariants.{Refused};

use hardieflax::{
    AsQuery, Built, Column, CompileError, Expr, ExpressionMethods, NoMemory, Pg, Query, QueryDsl,
    Schema, Statement, Table, compile,
};
use std::alloc::{AllocError, Global};
use thiserror::Error;

/// Why there is no report.
#[derive(Debug, Error, Clone, Copy, PartialEq, Eq)]
pub enum ReportError {
    #[error("the schema has no table users, or that has no column name")]
    NoUsers,
    #[error("{0}")]
    Refused(CompileError),
}

impl From<AllocError> for ReportError {
    ghost from_gives = { λ _ e. e ≡ Refused OutOfMemory };

    fn from(_: AllocError) -> ReportError {
        ReportError::Refused(CompileError::NoMemory)
    }
}

/// The first ten users of a name, as PostgreSQL reads them:
/// `SELECT "users"."id", "users"."name" FROM "users" WHERE ("users"."name" = $1) LIMIT $2`.
pub fn users_named(alloc: Global, schema: &Schema, name: &str) -> Result<Built, ReportError>
    // The answer is about the report's statement, which breaks no rule, and the text is read as that and as nothing else.
    ensures built { IfOk result (λ b. (s : tree.Statement) × (report schema.now name.now ≡ Some s)
        × IsBuilt schema.now PgDialect s b
        × IsRead PgDialect s b.sql b.binds) }
    ensures no_users { IsErrOf result ReportError.NoUsers → report schema.now name.now ≡ None }
    // An error that names a rule names the first that the statement breaks. Any other says that memory ran out.
    ensures refused { IfErr result (λ e. (r : Rule) → refusal e ≡ Some r
        → (s : tree.Statement) × (report schema.now name.now ≡ Some s)
        × IsLeast r schema.now PgDialect s) }
{
    let statement = statement(alloc, schema, name)?;
    match compile(alloc, &Pg, schema, &statement) {
        Ok(built) => Ok(built),
        Err(error) => Err(ReportError::Refused(error)),
    }
}

/// The report's statement.
pub fn statement(alloc: Global, schema: &Schema, name: &str) -> Result<Statement, ReportError>
    ensures statement { IfOk result (λ s. report schema.now name.now ≡ Some (statement_tree s)) }
    ensures no_users { IsErrOf result ReportError.NoUsers → report schema.now name.now ≡ None }
    ensures memory { IfErr result (λ e. refusal e ≡ None) }
{
    let Some(users) = schema.table("users") else {
        return Err(ReportError::NoUsers);
    };
    let Some(column) = users.column(alloc, "name")? else {
        return Err(ReportError::NoUsers);
    };
    Ok(of_name(alloc, users, column, name)?)
}

fn of_name(alloc: Global, users: &Table, column: Column, name: &str) -> Result<Statement, NoMemory>
    ensures { IfOk result (λ s. statement_tree s ≡ first_ten users.now name.now column) }
{
    let condition = name_is(alloc, column, name)?;
    let query = users.as_query(alloc)?;
    Ok(query.filter(alloc, condition)?.limit(10).into_statement())
}

fn name_is(alloc: Global, column: Column, name: &str) -> Result<Expr, NoMemory>
    ensures { IfOk result (λ e. expr_tree e ≡ is_text name.now column) }
{
    column.eq(alloc, name)
}
