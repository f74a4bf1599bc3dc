#![tactic(auto, using(sql_pass::proofs::Walking::walking))]

ghost use Rattle.std.specs.Prelude.{◌≡◌, ◌++◌, IfOk, Ok};
ghost use Rattle.sql_pass.specs.Held.{held};
ghost use Rattle.sql_pass.specs.Pieces.{one, Text};
ghost use Rattle.sql_pass.specs.Walks.{Walks};
ghost use Rattle.sql_leaf.specs.Sources.{join_kind_sql, only_pieces, method_sql, method_open, repeatable, seed_pieces, sample_pieces, table_source_pieces};

use crate::bound::{push_integer, push_small};
use sql_dialect::Backend;
use sql_pass::{AstPass, CLOSE, PassError, QueryFragment};
use sql_schema::{NoMemory, Table};
use std::alloc::Global;

/// How two sources are joined.
#[derive(Debug, Clone, Copy, PartialEq, Eq, PartialOrd, Ord, Hash)]
pub enum JoinKind {
    Inner,
    LeftOuter,
}

/// How PostgreSQL takes a sample of a table.
#[derive(Debug, Clone, Copy, PartialEq, Eq, PartialOrd, Ord, Hash)]
pub enum TablesampleMethod {
    /// Each row for itself.
    BernoulliMethod,
    /// Whole blocks of rows.
    SystemMethod,
}

/// A sample of a table: ` TABLESAMPLE SYSTEM($1) REPEATABLE($2)`. PostgreSQL alone has it.
#[derive(Debug, Clone, Copy, PartialEq, Eq, PartialOrd, Ord, Hash)]
pub struct Tablesample {
    pub method: TablesampleMethod,
    /// How many rows of a hundred.
    pub portion: i16,
    /// With one seed, one sample.
    pub seed: Option<i32>,
}

/// A table as it is read from: ` ONLY "users" TABLESAMPLE SYSTEM($1)`.
#[derive(Debug, Drop, PartialEq, Eq, PartialOrd, Ord, Hash)]
pub struct TableSource {
    pub table: Table,
    /// Without the rows of tables that inherit from it. PostgreSQL alone has it.
    pub only: bool,
    pub sample: Option<Tablesample>,
}

impl TablesampleMethod {
    /// The method's word in SQL: `BERNOULLI` or `SYSTEM`.
    pub fn method_name_sql(self) -> &'static str
        ensures { result.now ≡ method_sql self }
    {
        match self {
            TablesampleMethod::BernoulliMethod => "BERNOULLI",
            TablesampleMethod::SystemMethod => "SYSTEM",
        }
    }

    /// An equal method. It takes no memory.
    pub fn try_clone(&self, _alloc: Global) -> Result<TablesampleMethod, NoMemory>
        ensures { result ≡ Ok self.now }
    {
        Ok(*self)
    }
}

impl JoinKind {
    /// An equal kind. It takes no memory.
    pub fn try_clone(&self, _alloc: Global) -> Result<JoinKind, NoMemory>
        ensures { result ≡ Ok self.now }
    {
        Ok(*self)
    }
}

impl Tablesample {
    /// An equal sample. It takes no memory.
    pub fn try_clone(&self, _alloc: Global) -> Result<Tablesample, NoMemory>
        ensures { result ≡ Ok self.now }
    {
        Ok(*self)
    }
}

impl TableSource {
    /// An equal source.
    pub fn try_clone(&self, alloc: Global) -> Result<TableSource, NoMemory>
        ensures { IfOk result (λ v. v ≡ self.now) }
    {
        let table = self.table.try_clone(alloc)?;
        Ok(TableSource {
            table,
            only: self.only,
            sample: self.sample,
        })
    }
}

fn walk_only<DB: Backend>(only: bool, pass: &mut AstPass<DB>) -> Result<(), PassError>
    ensures { Walks DB.speaks (held DB.QueryBuilder.text DB.QueryBuilder.count pass.old)
        (only_pieces only) result (held DB.QueryBuilder.text DB.QueryBuilder.count pass.new) }
{
    if only {
        pass.push_sql(" ONLY ")
    } else {
        Ok(())
    }
}

#[tactic(auto, unfolding(crate::specs::Sources::repeatable))]
fn push_repeatable<DB: Backend>(pass: &mut AstPass<DB>) -> Result<(), PassError>
    ensures { Walks DB.speaks (held DB.QueryBuilder.text DB.QueryBuilder.count pass.old)
        (one (Text repeatable)) result (held DB.QueryBuilder.text DB.QueryBuilder.count pass.new) }
{
    pass.push_sql(" REPEATABLE(")
}

fn method_word(method: TablesampleMethod) -> &'static str
    ensures { result.now ≡ method_open method }
{
    match method {
        TablesampleMethod::BernoulliMethod => " TABLESAMPLE BERNOULLI(",
        TablesampleMethod::SystemMethod => " TABLESAMPLE SYSTEM(",
    }
}

fn walk_seed<DB: Backend>(seed: Option<i32>, pass: &mut AstPass<DB>) -> Result<(), PassError>
    ensures { Walks DB.speaks (held DB.QueryBuilder.text DB.QueryBuilder.count pass.old)
        (seed_pieces seed) result (held DB.QueryBuilder.text DB.QueryBuilder.count pass.new) }
{
    match seed {
        None => Ok(()),
        Some(seed) => {
            push_repeatable(pass)?;
            push_integer(seed, pass)?;
            pass.push_sql(CLOSE)
        }
    }
}

fn join_kind_word(kind: JoinKind) -> &'static str
    ensures { result.now ≡ join_kind_sql kind }
{
    match kind {
        JoinKind::Inner => " INNER",
        JoinKind::LeftOuter => " LEFT OUTER",
    }
}

/// ` INNER` or ` LEFT OUTER`: a join without its word `JOIN`.
impl<DB: Backend> QueryFragment<DB> for JoinKind {
    ghost pieces = { λ k. one (Text (join_kind_sql k)) };

    fn walk_ast(&self, pass: &mut AstPass<DB>) -> Result<(), PassError> {
        pass.push_sql(join_kind_word(*self))
    }
}

/// ` TABLESAMPLE BERNOULLI($1)`, with a seed also ` REPEATABLE($2)`.
impl<DB: Backend> QueryFragment<DB> for Tablesample {
    ghost pieces = { sample_pieces };

    fn walk_ast(&self, pass: &mut AstPass<DB>) -> Result<(), PassError> {
        pass.push_sql(method_word(self.method))?;
        push_small(self.portion, pass)?;
        pass.push_sql(CLOSE)?;
        walk_seed(self.seed, pass)?;
        Ok(())
    }
}

/// `"users"`, ` ONLY "users"` or `"users" TABLESAMPLE SYSTEM($1)`.
impl<DB: Backend> QueryFragment<DB> for TableSource {
    ghost pieces = { λ s. table_source_pieces s.table s.only s.sample };

    fn walk_ast(&self, pass: &mut AstPass<DB>) -> Result<(), PassError> {
        walk_only(self.only, pass)?;
        self.table.walk_ast(pass)?;
        self.sample.walk_ast(pass)?;
        Ok(())
    }
}
