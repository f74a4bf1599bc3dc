//! The parts that bind numbers of their own: limits and offsets, and samples of tables.
#![tactic(auto, using(crate::proofs::Pouring::keeping_on))]

ghost use Rattle.std.specs.Prelude.{◌≡◌, ◌++◌, true, false, OnOk, IsErrOf};
ghost use Rattle.sql_leaf.specs.Limits.{limit_offset_pieces};
ghost use Rattle.sql_leaf.specs.Sources.{table_source_pieces};
ghost use Rattle.sql_flat_text.specs.inside.Kept.{big_values, row_values, sample_values, seed_values};
ghost use Rattle.sql_flat_text.specs.inside.Sinks.{Pours, keeping, sunk};

use crate::sink::Sink;
use sql_dialect::{Backend, BindError, Dialect};
use sql_leaf::{BoxedLimitOffset, LimitOffsetClause, TableSource, Tablesample};
use sql_pass::{Bound, Value};
use sql_schema::{Base, SqlType};

fn not_null(base: Base) -> SqlType
    ensures { result ≡ record { base = base; nullable = false } }
{
    SqlType {
        base,
        nullable: false,
    }
}

/// The limit and the offset, in the order of their placeholders.
fn in_order(dialect: Dialect, rows: LimitOffsetClause) -> (Option<i64>, Option<i64>)
    ensures { big_values result.0 ++ big_values result.1
        ≡ row_values dialect rows.limit_clause rows.offset_clause }
{
    match dialect {
        Dialect::Pg | Dialect::Mysql | Dialect::Sqlite => (rows.limit_clause, rows.offset_clause),
        Dialect::Bracket => (rows.offset_clause, rows.limit_clause),
    }
}

impl<DB: Backend> Sink<DB> {
    fn keep_big(&mut self, number: Option<i64>) -> Result<(), BindError>
        ensures ok { OnOk result (sunk DB.QueryBuilder.text DB.QueryBuilder.count self.new
            ≡ keeping (sunk DB.QueryBuilder.text DB.QueryBuilder.count self.old)
            (big_values number)) }
        ensures err { ¬ IsErrOf result BindError.TooManyBinds }
    {
        match number {
            None => Ok(()),
            Some(number) => {
                self.keep(Bound::Value(not_null(Base::BigInt), Value::BigInt(number)))
            }
        }
    }

    fn keep_rows(&mut self, rows: LimitOffsetClause) -> Result<(), BindError>
        ensures ok { OnOk result (sunk DB.QueryBuilder.text DB.QueryBuilder.count self.new
            ≡ keeping (sunk DB.QueryBuilder.text DB.QueryBuilder.count self.old)
            (row_values DB.speaks rows.limit_clause rows.offset_clause)) }
        ensures err { ¬ IsErrOf result BindError.TooManyBinds }
    {
        let (first, second) = in_order(self.dialect(), rows);
        self.keep_big(first)?;
        self.keep_big(second)?;
        Ok(())
    }

    /// Appends the limit and the offset.
    #[tactic(auto, using(crate::proofs::Pouring::keeps, crate::proofs::Keeping::kept, crate::proofs::Pouring::pouring))]
    pub(crate) fn push_rows(&mut self, rows: LimitOffsetClause) -> Result<(), BindError>
        ensures { Pours DB.speaks (sunk DB.QueryBuilder.text DB.QueryBuilder.count self.old)
            (limit_offset_pieces DB.speaks false rows.limit_clause rows.offset_clause) result
            (sunk DB.QueryBuilder.text DB.QueryBuilder.count self.new) }
    {
        match rows {
            LimitOffsetClause {
                limit_clause: None,
                offset_clause: None,
            } => Ok(()),
            _ => {
                self.write(&rows)?;
                self.keep_rows(rows)?;
                Ok(())
            }
        }
    }

    /// Appends the limit and the offset of a boxed statement.
    #[tactic(auto, using(crate::proofs::Pouring::keeps, crate::proofs::Keeping::kept))]
    pub(crate) fn push_boxed_rows(&mut self, rows: LimitOffsetClause) -> Result<(), BindError>
        ensures { Pours DB.speaks (sunk DB.QueryBuilder.text DB.QueryBuilder.count self.old)
            (limit_offset_pieces DB.speaks true rows.limit_clause rows.offset_clause) result
            (sunk DB.QueryBuilder.text DB.QueryBuilder.count self.new) }
    {
        self.write(&BoxedLimitOffset(rows))?;
        self.keep_rows(rows)?;
        Ok(())
    }

    fn keep_seed(&mut self, seed: Option<i32>) -> Result<(), BindError>
        ensures ok { OnOk result (sunk DB.QueryBuilder.text DB.QueryBuilder.count self.new
            ≡ keeping (sunk DB.QueryBuilder.text DB.QueryBuilder.count self.old)
            (seed_values seed)) }
        ensures err { ¬ IsErrOf result BindError.TooManyBinds }
    {
        match seed {
            None => Ok(()),
            Some(seed) => self.keep(Bound::Value(not_null(Base::Integer), Value::Integer(seed))),
        }
    }

    fn keep_sample(&mut self, sample: Option<Tablesample>) -> Result<(), BindError>
        ensures ok { OnOk result (sunk DB.QueryBuilder.text DB.QueryBuilder.count self.new
            ≡ keeping (sunk DB.QueryBuilder.text DB.QueryBuilder.count self.old)
            (sample_values sample)) }
        ensures err { ¬ IsErrOf result BindError.TooManyBinds }
    {
        match sample {
            None => Ok(()),
            Some(sample) => {
                let portion = Value::SmallInt(sample.portion);
                self.keep(Bound::Value(not_null(Base::SmallInt), portion))?;
                self.keep_seed(sample.seed)
            }
        }
    }

    /// Appends a table as it is read from.
    #[tactic(auto, using(crate::proofs::Pouring::keeps, crate::proofs::Keeping::kept))]
    pub(crate) fn push_table(&mut self, source: &TableSource) -> Result<(), BindError>
        ensures { Pours DB.speaks (sunk DB.QueryBuilder.text DB.QueryBuilder.count self.old)
            (table_source_pieces source.now.table source.now.only source.now.sample) result
            (sunk DB.QueryBuilder.text DB.QueryBuilder.count self.new) }
    {
        self.write(source)?;
        self.keep_sample(source.sample)?;
        Ok(())
    }
}
