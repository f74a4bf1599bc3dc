ghost use Rattle.std.specs.Prelude.{◌≡◌, []};
ghost use Rattle.sql_dialect.specs.declared.backend.Dialect.{Dialect};

use crate::builder::QueryBuilder;
use crate::syntax::SqlDialect;
use std::alloc::Global;

/// The SQL of a database: PostgreSQL's, MySQL's or SQLite's, or a fourth of this project's own.
#[derive(Debug, Clone, Copy, PartialEq, Eq, PartialOrd, Ord, Hash)]
pub enum Dialect {
    Pg,
    Mysql,
    Sqlite,
    Bracket,
}

/// A database that statements are written for. It speaks one dialect, and its builders write that dialect.
pub trait Backend: SqlDialect + Copy {
    type QueryBuilder: QueryBuilder + Drop;

    /// The dialect of all values of the type.
    ghost speaks: { Dialect };

    /// The dialect that this backend speaks.
    fn dialect(&self) -> Dialect
        ensures { result ≡ speaks };

    /// An empty builder, which has numbered no placeholder. It takes no memory before its first growth.
    fn query_builder(&self, alloc: Global) -> Self::QueryBuilder
        ensures text { Self.QueryBuilder.text result ≡ [] }
        ensures count { Self.QueryBuilder.count result ≡ 0 };

    /// The builders quote and number as the backend's dialect does.
    ghost builds: { Self.QueryBuilder.dialect ≡ speaks };

    /// It supports what its dialect has, in the forms of that dialect.
    ghost answers: { Self.answers_as ≡ speaks };
}
