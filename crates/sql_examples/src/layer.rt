ghost use Rattle.std.specs.Prelude.{◌≡◌, IfOk, Some};
ghost use Rattle.hardieflax.specs.Tree as tree;
ghost use Rattle.hardieflax.specs.Dialect.TheVariants.{Pg as PgDialect};
ghost use Rattle.hardieflax.specs.Compiled.{IsBuilt, IsRead};
ghost use Rattle.sql_examples.specs.Report.{report};

use crate::report::{ReportError, statement};
use hardieflax::{Built, Pg, StatementCache};
use std::alloc::Global;

/// The report of `users_named`, through a cache: once it is there, another name checks no rule and writes no text.
pub fn users_named_again(
    alloc: Global,
    cache: &mut StatementCache,
    name: &str,
) -> Result<Built, ReportError>
    ensures built { IfOk result (λ b. (s : tree.Statement)
        × (report cache.old.schema name.now ≡ Some s)
        × IsBuilt cache.old.schema PgDialect s b
        × IsRead PgDialect s b.sql b.binds) }
    ensures schema { cache.new.schema ≡ cache.old.schema }
{
    let statement = statement(alloc, cache.schema(), name)?;
    match cache.compile_cached(alloc, &Pg, &statement) {
        Ok(built) => Ok(built),
        Err(error) => Err(ReportError::Refused(error)),
    }
}
