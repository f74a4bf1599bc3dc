ghost use Rattle.std.specs.Prelude.{◌≡◌, ◌+◌, ◌++◌, ◌↔◌, ℕ, List, IsTrue, OnOk, OnErr, IsErrOf, string_bytes};
ghost use Rattle.sql_dialect.specs.Written.{quoted, placeholder, raised, numbers, MAX_BINDS};
ghost use Rattle.sql_dialect.specs.declared.backend.Dialect.{Dialect};

use std::alloc::AllocError;
use thiserror::Error;

/// Out of memory.
pub type NoMemory = AllocError;

/// Why a builder takes no further placeholder. Its text and its count are then as they were.
#[derive(Debug, Clone, Copy, PartialEq, Eq, Error)]
pub enum BindError {
    /// The dialect numbers its placeholders, and the last number, 4294967295, is taken.
    #[error("TooManyBinds")]
    TooManyBinds,
    #[error("NoMemory")]
    NoMemory,
}

/// Writes the text of a statement in one dialect.
pub trait QueryBuilder {
    /// The dialect in which it quotes and numbers.
    ghost dialect: { Dialect };

    /// The text that has been written.
    ghost text: { Self → List ℕ };

    /// How many placeholders have been numbered. It stays 0 in a dialect that numbers none.
    ghost count: { Self → ℕ };

    /// Appends SQL as it is: keywords, punctuation and spaces.
    fn push_sql(&mut self, sql: &str) -> Result<(), NoMemory>
        ensures count { count self.new ≡ count self.old }
        ensures ok { OnOk result (text self.new ≡ text self.old ++ sql.now) }
        ensures err { OnErr result (text self.new ≡ text self.old) };

    /// Appends a name between the dialect's quotes, each closing quote in it doubled: `"a""b"`, `` `a"b` ``, or `[a"b]`.
    fn push_identifier(&mut self, name: &str) -> Result<(), NoMemory>
        ensures count { count self.new ≡ count self.old }
        ensures ok { OnOk result (text self.new ≡ text self.old ++ quoted dialect name.now) }
        ensures err { OnErr result (text self.new ≡ text self.old) };

    /// Appends the placeholder of one more value: `$1`, `$2` .. in PostgreSQL, `?` in MySQL and SQLite,
    /// `@p1`, `@p2` .. in Bracket.
    fn push_bind_param(&mut self) -> Result<(), BindError>
        ensures text { OnOk result
            (text self.new ≡ text self.old ++ placeholder dialect (count self.old + 1)) }
        ensures count { OnOk result (count self.new ≡ raised dialect (count self.old)) }
        ensures err { OnErr result
            ((text self.new ≡ text self.old) × (count self.new ≡ count self.old)) }
        ensures full { IsErrOf result BindError.TooManyBinds
            ↔ (IsTrue (numbers dialect) × (count self.old ≡ MAX_BINDS)) };

    /// Counts one more value whose placeholder stands in the text already, as in a query that was given whole.
    fn push_bind_param_value_only(&mut self) -> Result<(), BindError>
        ensures text { text self.new ≡ text self.old }
        ensures count { OnOk result (count self.new ≡ raised dialect (count self.old)) }
        ensures err { OnErr result (count self.new ≡ count self.old) }
        ensures full { IsErrOf result BindError.TooManyBinds
            ↔ (IsTrue (numbers dialect) × (count self.old ≡ MAX_BINDS)) }
        // It takes no memory.
        ensures only { OnErr result (IsErrOf result BindError.TooManyBinds) };

    /// The text.
    fn finish(self) -> String
        ensures { string_bytes result ≡ text self };
}
