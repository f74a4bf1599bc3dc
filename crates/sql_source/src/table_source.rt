ghost use Rattle.std.specs.Prelude.{◌≡◌, true, false, Some, None};
ghost use Rattle.sql_leaf.specs.declared.table_source.TableSource.{TableSource as Seen};
ghost use Rattle.sql_leaf.specs.declared.table_source.TablesampleMethod.TheVariants as method;
ghost use Rattle.sql_source.specs.Samples.{sampled, seeded};

use sql_leaf::{TableSource, Tablesample, TablesampleMethod};
use sql_schema::Table;

/// Tables as sources.
pub trait NewTableSource {
    /// The table whole: `"users"`.
    fn new(table: Table) -> TableSource
        ensures { result ≡ record { table = table; only = false; sample = None } };
}

/// Tables without those that inherit from them. PostgreSQL alone has it.
pub trait OnlyDsl {
    ghost whole: { Self → Seen };

    /// ` ONLY "users"`.
    fn only(self) -> TableSource
        ensures { result ≡ record (whole self) { only = true } };
}

/// Samples of tables. PostgreSQL alone has them.
pub trait TablesampleDsl {
    ghost whole: { Self → Seen };

    /// `"users" TABLESAMPLE BERNOULLI($1)`, in place of an earlier sample: each row for itself, about `portion` of a hundred.
    fn tablesample_bernoulli(self, portion: i16) -> TableSource
        ensures { result ≡ sampled method.BernoulliMethod portion (whole self) };

    /// `"users" TABLESAMPLE SYSTEM($1)`, in place of an earlier sample: whole blocks of rows, about `portion` of a hundred.
    fn tablesample_system(self, portion: i16) -> TableSource
        ensures { result ≡ sampled method.SystemMethod portion (whole self) };

    /// `"users" TABLESAMPLE SYSTEM($1) REPEATABLE($2)`: one seed gives one sample. Without a sample nothing changes.
    fn with_seed(self, seed: i32) -> TableSource
        ensures { result ≡ seeded seed (whole self) };
}

impl NewTableSource for TableSource {
    fn new(table: Table) -> TableSource {
        TableSource {
            table,
            only: false,
            sample: None,
        }
    }
}

impl OnlyDsl for TableSource {
    ghost whole = { λ s. s };

    fn only(self) -> TableSource {
        TableSource { only: true, ..self }
    }
}

/// A sample without a seed.
fn sample(method: TablesampleMethod, portion: i16) -> Option<Tablesample>
    ensures { result ≡ Some (record { method = method; portion = portion; seed = None }) }
{
    Some(Tablesample {
        method,
        portion,
        seed: None,
    })
}

impl TablesampleDsl for TableSource {
    ghost whole = { λ s. s };

    fn tablesample_bernoulli(self, portion: i16) -> TableSource {
        let sample = sample(TablesampleMethod::BernoulliMethod, portion);
        TableSource { sample, ..self }
    }

    fn tablesample_system(self, portion: i16) -> TableSource {
        let sample = sample(TablesampleMethod::SystemMethod, portion);
        TableSource { sample, ..self }
    }

    fn with_seed(self, seed: i32) -> TableSource {
        let sample = self.sample.map(|sample| Tablesample {
            seed: Some(seed),
            ..sample
        });
        TableSource { sample, ..self }
    }
}
