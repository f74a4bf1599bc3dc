ghost use Rattle.std.specs.Prelude.{◌≡◌, ◌<◌, length, map, IfOk, IsErr, IsErrOf, IsTrue};
ghost use Rattle.sql_dialect.specs.Written.{numbers, MAX_BINDS};
ghost use Rattle.sql_pass.specs.Pieces.{text_of, values_of};
ghost use Rattle.sql_raw.specs.Debug.{bound_debug, debug_line};
ghost use Rattle.sql_raw.specs.Shown.{shown_debug, shown_line, shown_text};

use crate::shown::{ShownBound, show_all};
use sql_dialect::{Backend, QueryBuilder};
use sql_pass::{PassError, QueryFragment, debug_binds};
use std::alloc::{AllocError, Global};
use std::fmt;

/// A query's text and its values, for those who debug.
///
/// `{}` writes them on one line, the values in Rust's debug form of a list:
/// `SELECT "users"."id" FROM "users" WHERE ("users"."name" = $1) -- binds: ["x"]`. `{:?}` writes them as a struct:
/// `Query { sql: "SELECT ..", binds: ["x"] }`.
#[derive(Drop)]
pub struct DebugQuery {
    sql: String,
    binds: Vec<ShownBound>,
}

impl fmt::Display for DebugQuery {
    ghost output = { shown_line };

    fn fmt<W: fmt::Write>(&self, f: &mut fmt::Formatter<W>) -> fmt::Result {
        write!(f, "{} -- binds: {:?}", self.sql, self.binds)
    }
}

impl fmt::Debug for DebugQuery {
    fn fmt<W: fmt::Write>(&self, f: &mut fmt::Formatter<W>) -> fmt::Result {
        f.debug_struct("Query")
            .field("sql", &self.sql)
            .field("binds", &self.binds)
            .finish()
    }
}

/// The query as the backend writes it, with its values after it: of a text `x` on PostgreSQL, `.. = $1) -- binds: ["x"]`.
///
/// A whole number, a truth value and a text stand as Rust shows them, NULL as `None`, bytes and a list that is bound as one as
/// lists: `[7, true, "x", None, [1, 255], [1, 2]]`. The line is the one of the clause where each text among the values
/// is ASCII; how other texts are escaped is left to Rust's form of them.
pub fn debug_query<DB: Backend, T: QueryFragment<DB>>(
    alloc: Global,
    backend: &DB,
    query: &T,
) -> Result<DebugQuery, PassError>
    ensures line { IfOk result (λ q. shown_line q
        ≡ debug_line (text_of DB.speaks 0 (T.pieces query.now)) (values_of (T.pieces query.now))) }
    // Whatever the values are, the text is that of the pieces.
    ensures text { IfOk result (λ q. shown_text q ≡ text_of DB.speaks 0 (T.pieces query.now)) }
    // Placeholders run out only where there are more than a dialect that numbers them has numbers.
    ensures too_many { IsErrOf result PassError.TooManyBinds
        → IsTrue (numbers DB.speaks) × (MAX_BINDS < length (values_of (T.pieces query.now))) }
    ensures room { IsTrue (numbers DB.speaks) → MAX_BINDS < length (values_of (T.pieces query.now))
        → IsErr result }
    ensures long { ¬ IsErrOf result PassError.TooLong }
{
    let sql = query
        .to_sql(backend.query_builder(alloc), backend)?
        .finish();
    match shown_binds(alloc, backend, query) {
        Ok(binds) => Ok(DebugQuery { sql, binds }),
        Err(_) => Err(PassError::NoMemory),
    }
}

fn shown_binds<DB: Backend, T: QueryFragment<DB>>(
    alloc: Global,
    backend: &DB,
    query: &T,
) -> Result<Vec<ShownBound>, AllocError>
    ensures { IfOk result (λ v. map shown_debug v.items
        ≡ map bound_debug (values_of (T.pieces query.now))) }
{
    let binds = debug_binds(alloc, backend, query)?;
    show_all(alloc, binds)
}
