ghost use Rattle.std.specs.Prelude.{◌≡◌, ◌≢◌, ◌↔◌, ◌≤◌, [], length, false, slice_get, Contains, AllPairs, IfOk, IfErr, OnOk, OnErr, IsTrue, Some};
ghost use Rattle.std.specs.List.{list_any};
ghost use Rattle.std.specs.NonZero.{non_zero_usize_get};
ghost use Rattle.sql_schema.specs.Declarations.{Declarations};
ghost use Rattle.sql_node.specs.Tree.{Statement as Tree};
ghost use Rattle.sql_node.specs.View.{statement_tree};
ghost use Rattle.sql_flat.specs.Flat.{flat_of};
ghost use Rattle.sql_key.specs.Keys.{id_of};
ghost use Rattle.sql_rules_check.specs.declared.names.Names.TheVariants as name;
ghost use Rattle.sql_rules_check.specs.inside.Sites.{is_unknown};
ghost use Rattle.sql_rules.specs.Rules.{Broken};
ghost use Rattle.sql_rules.specs.declared.rule.Rule.{Rule};
ghost use Rattle.sql_rules.specs.declared.rule.Rule.TheVariants as rule;
ghost use Rattle.sql_check.specs.Compiled.{IsBuilt, IsLeast, IsRead};
ghost use Rattle.sql_check.specs.Errors.{rule_of};
ghost use Rattle.sql_check.specs.declared.error.CompileError.TheVariants as error;
ghost use Rattle.sql_rows_meaning.specs.Fitting.{AnswersFit};
ghost use Rattle.sql_rows.specs.Entries.{IsHit, IsLookedUp, IsNext, put};
ghost use Rattle.sql_rows.specs.Sound.{CompilesSoundly};
ghost use Rattle.sql_rows.specs.declared.cache.RequestKey.{RequestKey as Pair};
ghost use Rattle.sql_rows.specs.inside.Known.{AreKnown, IsKnown};
ghost use Rattle.sql_rows.specs.inside.Served.{Serves, Tells, kept_of};

use crate::sound::compile_sound_flat_by;
use lru::LruCache;
use sql_check::{Built, CompileError, Names, values_fit};
use sql_dialect::{Backend, Dialect};
use sql_flat::{Flat, FlatNode, flatten};
use sql_key::{QueryKey, flat_query_id};
use sql_key_names::NamedKey;
use sql_node::Statement;
use sql_pass::debug_binds;
use sql_rows_meaning::types_are_sound;
use sql_rules_check::any_unknown_name;
use sql_rules_law::{accepted_are_read, names_one_leaf};
use sql_schema::{NoMemory, Schema, SqlList, SqlText, SqlType};
use std::alloc::{AllocError, Global};
use std::fmt;
use std::marker::Model;
use std::num::NonZeroUsize;

/// By what a cache knows a request: its dialect, and the key of its statement.
#[derive(Debug, Drop, PartialEq, Eq, PartialOrd, Ord, Hash)]
pub struct RequestKey {
    pub dialect: Dialect,
    pub key: QueryKey,
}

/// The same among requests over one schema: two are compared by the names of tables and columns.
#[derive(Debug, Drop, PartialEq, Eq, PartialOrd, Ord, Hash)]
pub struct NamedRequest {
    dialect: Dialect,
    key: NamedKey,
}

impl Model for NamedRequest {
    ghost use Rattle.sql_rows.specs.declared.cache.RequestKey.{RequestKey};

    ghost Value = { RequestKey };

    ghost view = { λ n. record { dialect = n.dialect; key = n.key } };

    ghost inverse = { λ k. record { dialect = k.dialect; key = k.key } };
}

impl NamedRequest {
    /// The key of the statement.
    fn into_key(self) -> QueryKey
        ensures { result ≡ self.key }
    {
        self.key.into_inner()
    }
}

impl From<RequestKey> for NamedRequest {
    ghost from_gives = { λ k n. n ≡ k };

    fn from(request: RequestKey) -> NamedRequest {
        NamedRequest {
            dialect: request.dialect,
            key: NamedKey::from(request.key),
        }
    }
}

/// The part of an answer that is the same for all statements of one key.
#[derive(Drop)]
struct Kept {
    sql: SqlText,
    sql_types: SqlList<SqlType>,
    safe: bool,
}

/// Compiled statements of one schema, the one that was used last first. A full cache loses the one that was used least recently.
#[derive(Drop)]
pub struct StatementCache {
    schema: Schema,
    kept: LruCache<NamedRequest, Kept>,
    hits: u64,
}

impl fmt::Debug for StatementCache {
    fn fmt<W: fmt::Write>(&self, f: &mut fmt::Formatter<W>) -> fmt::Result {
        f.write_str("StatementCache { .. }")
    }
}

impl Model for StatementCache {
    ghost use Rattle.std.specs.Map.{keys_of};
    ghost use Rattle.sql_rows.specs.Entries.{Entries};
    ghost use Rattle.std.specs.Prelude.{◌≡◌, None};
    ghost use Rattle.sql_schema.specs.Refusals.{least_refusal};
    ghost use Rattle.sql_rows.specs.inside.Known.{AllKnown};
    ghost use Rattle.sql_rows.specs.inside.Served.{AllServe};

    ghost Value = { Entries };

    ghost view = { λ c. record {
      schema = c.schema;
      keys = keys_of c.kept.entries;
      capacity = c.kept.cap;
      hits = c.hits;
    } };

    ghost invariant = { λ c. AllServe c.schema c.kept.entries
        × (AllKnown c.schema c.kept.entries × (least_refusal c.schema ≡ None)) };
}

/// Text, types and flag in memory of their own.
fn copied(
    alloc: Global,
    sql: &SqlText,
    sql_types: &SqlList<SqlType>,
    safe: bool,
) -> Result<Kept, NoMemory>
    ensures { IfOk result (λ k. k
        ≡ record { sql = sql.now; sql_types = sql_types.now; safe = safe }) }
{
    let sql = sql.try_clone(alloc)?;
    let sql_types = Vec::from_slice(alloc, sql_types.as_slice())?;
    Ok(Kept {
        sql,
        sql_types: SqlList::from(sql_types),
        safe,
    })
}

/// A statement that is asked for, and its flat list.
#[derive(Clone, Copy)]
struct Asked<'s> {
    statement: &'s Statement,
    flat: &'s Flat,
}

/// The pair that is looked up for a statement.
fn pair_of<DB: Backend>(
    alloc: Global,
    backend: &DB,
    asked: Asked<'_>,
) -> Result<Option<NamedRequest>, NoMemory>
    requires { asked.flat.now ≡ flat_of (statement_tree asked.statement.now) }
    ensures { IfOk result (λ found. (pair : RequestKey) → (found ≡ Some pair)
        ↔ IsLookedUp DB.speaks (statement_tree asked.entry.statement.now) pair) }
{
    let fit = values_fit(asked.statement);
    if !fit {
        return Ok(None);
    }
    let dialect = backend.dialect();
    match flat_query_id(alloc, asked.flat)? {
        Some(key) => Ok(Some(NamedRequest::from(RequestKey { dialect, key }))),
        None => Ok(None),
    }
}

/// Whether a name of the statement of these nodes is not the schema's.
fn lacks_name(schema: &Schema, names: Names, nodes: &[FlatNode]) -> bool
    requires { names ≡ name.Known → AreKnown schema.now nodes.now }
    ensures { result ≡ list_any (λ x. is_unknown schema.now x.kind) nodes.now }
{
    match names {
        Names::Asked => any_unknown_name(schema, nodes),
        Names::Known => false,
    }
}

/// Returns the answer for the statement whose key this is: what was kept with its pair, and its own values.
fn tell<DB: Backend>(
    alloc: Global,
    backend: &DB,
    statement: &Statement,
    key: QueryKey,
    kept: Kept,
) -> Result<Built, CompileError>
    requires id { id_of (statement_tree statement.now) ≡ Some key }
    ensures built { IfOk result (λ b. (schema : Declarations)
        → Tells schema DB.speaks (statement_tree statement.now) kept
        → IsBuilt schema DB.speaks (statement_tree statement.now) b) }
    ensures read { IfOk result (λ b. (schema : Declarations)
        → Tells schema DB.speaks (statement_tree statement.now) kept
        → IsRead DB.speaks (statement_tree statement.now) b.sql b.binds) }
    ensures sound { IfOk result (λ b. (schema : Declarations)
        → Tells schema DB.speaks (statement_tree statement.now) kept
        → AnswersFit schema (statement_tree statement.now) b.sql_types) }
    ensures refused { IfErr result (λ e. e ≡ error.NoMemory) }
{
    let binds = debug_binds(alloc, backend, statement)?;
    accepted_are_read();
    names_one_leaf();
    types_are_sound();
    let Kept {
        sql,
        sql_types,
        safe,
    } = kept;
    Ok(Built {
        sql,
        binds: SqlList::from(binds),
        sql_types,
        safe,
        id: Some(key),
    })
}

impl StatementCache {
    /// A cache without entries, which will hold as many as its capacity.
    pub fn new(
        alloc: Global,
        schema: Schema,
        capacity: NonZeroUsize,
    ) -> Result<StatementCache, NoMemory>
        ensures { IfOk result (λ c. c
            ≡ record { schema = schema; keys = []; capacity = non_zero_usize_get capacity; hits = 0 }) }
    {
        let kept = LruCache::new(alloc, capacity)?;
        let _sound = schema.tables();
        Ok(StatementCache {
            schema,
            kept,
            hits: 0,
        })
    }

    /// The schema that statements are compiled for.
    pub fn schema(&self) -> &Schema
        ensures { result.now ≡ self.now.schema }
    {
        &self.schema
    }

    /// How many calls found what they looked up.
    pub fn hits(&self) -> u64
        ensures { result ≡ self.now.hits }
    {
        self.hits
    }

    /// How many entries there are: at most as many as the capacity, for different pairs.
    pub fn len(&self) -> usize
        ensures len { result ≡ length self.now.keys }
        ensures within { result ≤ self.now.capacity }
        ensures different { AllPairs (λ a b. a ≢ b) self.now.keys }
    {
        self.kept.len()
    }

    /// Whether there are no entries.
    pub fn is_empty(&self) -> bool
        ensures { IsTrue result ↔ (self.now.keys ≡ []) }
    {
        self.len() == 0
    }

    fn look_up(&mut self, pair: &NamedRequest) -> bool
        requires { IsKnown self.old.schema pair.now }
        ensures found { IsTrue result ↔ Contains self.old.keys pair.now }
        ensures hit { IsTrue result → IsHit self.old pair.now self.new }
        ensures unchanged { result ≡ false → self.new ≡ self.old }
    {
        if self.kept.promote(pair) {
            self.hits = self.hits.saturating_add(1);
            return true;
        }
        false
    }

    /// Returns what is kept with the first pair, in memory of its own.
    fn recall(&self, alloc: Global) -> Result<Kept, NoMemory>
        requires { self.now.keys ≢ [] }
        ensures { IfOk result (λ kept. (pair : RequestKey)
            → slice_get self.now.keys 0 ≡ Some pair → Serves self.now.schema (pair, kept)) }
    {
        match self.kept.peek_mru() {
            None => unreachable!(),
            Some((_, kept)) => copied(alloc, &kept.sql, &kept.sql_types, kept.safe),
        }
    }

    fn keep(&mut self, alloc: Global, pair: NamedRequest, built: &Built) -> Result<(), NoMemory>
        requires known { IsKnown self.old.schema pair }
        requires new { ¬ Contains self.old.keys pair }
        requires serves { Serves self.old.schema (pair, kept_of built.now) }
        ensures kept { OnOk result (self.new ≡ put self.old pair) }
        ensures unchanged { OnErr result (self.new ≡ self.old) }
    {
        let kept = copied(alloc, &built.sql, &built.sql_types, built.safe)?;
        match self.kept.put(pair, kept) {
            Ok(_) => Ok(()),
            Err(_) => Err(AllocError),
        }
    }

    /// The answer for the statement of a flat list that nothing kept is used for.
    fn compile_alone<DB: Backend>(
        &self,
        alloc: Global,
        names: Names,
        backend: &DB,
        flat: &Flat,
    ) -> Result<Built, CompileError>
        requires { names ≡ name.Known → (s : Tree) → flat.now ≡ flat_of s
            → ¬ Broken rule.UnknownName self.now.schema DB.speaks s }
        ensures { (s : Tree) → flat.now ≡ flat_of s
            → CompilesSoundly self.now.schema DB.speaks s result }
    {
        compile_sound_flat_by(alloc, names, backend, self.schema(), flat)
    }

    /// The answer by what is kept with the first pair, which is the statement's.
    fn answer_kept<DB: Backend>(
        &self,
        alloc: Global,
        backend: &DB,
        statement: &Statement,
        pair: NamedRequest,
    ) -> Result<Built, CompileError>
        requires looked_up { IsLookedUp DB.speaks (statement_tree statement.now) pair }
        requires first { slice_get self.now.keys 0 ≡ Some pair }
        ensures { CompilesSoundly self.now.schema DB.speaks (statement_tree statement.now) result }
    {
        let kept = self.recall(alloc)?;
        tell(alloc, backend, statement, pair.into_key(), kept)
    }

    /// The answer for a pair that is not there, which is put first.
    fn answer_new<DB: Backend>(
        &mut self,
        alloc: Global,
        backend: &DB,
        asked: Asked<'_>,
        pair: NamedRequest,
    ) -> Result<Built, CompileError>
        requires known { ¬ Broken rule.UnknownName self.old.schema DB.speaks (statement_tree asked.statement.now) }
        requires flat { asked.flat.now ≡ flat_of (statement_tree asked.statement.now) }
        requires looked_up { IsLookedUp DB.speaks (statement_tree asked.statement.now) pair }
        requires new { ¬ Contains self.old.keys pair }
        ensures compiled { CompilesSoundly self.old.schema DB.speaks
            (statement_tree asked.entry.statement.now) result }
        ensures put { OnOk result (self.new ≡ put self.old pair) }
        ensures unchanged { OnErr result (self.new ≡ self.old) }
    {
        match self.compile_alone(alloc, Names::Known, backend, asked.flat) {
            Ok(built) => {
                self.keep(alloc, pair, &built)?;
                Ok(built)
            }
            Err(error) => Err(error),
        }
    }

    /// Proves that the entries name tables and columns of the schema alone.
    fn keeps_known_names(&self)
        ensures { (pair : Pair) → Contains self.now.keys pair → IsKnown self.now.schema pair }
    {
        let _len = self.kept.len();
    }

    /// The refusal of a statement of which a name is not the schema's. None of its pair is kept.
    fn refuse<DB: Backend>(
        &self,
        alloc: Global,
        backend: &DB,
        asked: Asked<'_>,
    ) -> Result<Built, CompileError>
        requires unknown { Broken rule.UnknownName self.now.schema DB.speaks (statement_tree asked.statement.now) }
        requires flat { asked.flat.now ≡ flat_of (statement_tree asked.statement.now) }
        ensures compiled { CompilesSoundly self.now.schema DB.speaks
            (statement_tree asked.entry.statement.now) result }
        ensures entries { IsNext DB.speaks (statement_tree asked.entry.statement.now)
            self.now result self.now }
    {
        self.keeps_known_names();
        self.compile_alone(alloc, Names::Asked, backend, asked.flat)
    }

    /// The answer for a statement whose names are the schema's, by what is kept where its pair is there.
    fn compile_known<DB: Backend>(
        &mut self,
        alloc: Global,
        backend: &DB,
        asked: Asked<'_>,
    ) -> Result<Built, CompileError>
        requires known { ¬ Broken rule.UnknownName self.old.schema DB.speaks (statement_tree asked.statement.now) }
        requires flat { asked.flat.now ≡ flat_of (statement_tree asked.statement.now) }
        ensures compiled { CompilesSoundly self.old.schema DB.speaks
            (statement_tree asked.entry.statement.now) result }
        ensures schema { self.new.schema ≡ self.old.schema }
        ensures entries { IsNext DB.speaks (statement_tree asked.entry.statement.now)
            self.old result self.new }
    {
        match pair_of(alloc, backend, asked)? {
            None => self.compile_alone(alloc, Names::Known, backend, asked.flat),
            Some(pair) => {
                if self.look_up(&pair) {
                    self.answer_kept(alloc, backend, asked.statement, pair)
                } else {
                    self.answer_new(alloc, backend, asked, pair)
                }
            }
        }
    }

    /// Returns the answer of `compile_sound_by` for the statement, whatever was asked before.
    ///
    /// Where the statement has an id and its values fit, what an earlier statement of that id was told serves for it: only the values
    /// are its own. `IsNext` says what becomes of the entries.
    pub fn compile_cached_by<DB: Backend>(
        &mut self,
        alloc: Global,
        names: Names,
        backend: &DB,
        statement: &Statement,
    ) -> Result<Built, CompileError>
        requires { names ≡ name.Known
            → ¬ Broken rule.UnknownName self.old.schema DB.speaks (statement_tree statement.now) }
        ensures compiled { CompilesSoundly self.old.schema DB.speaks
            (statement_tree statement.now) result }
        ensures schema { self.new.schema ≡ self.old.schema }
        ensures entries { IsNext DB.speaks (statement_tree statement.now)
            self.old result self.new }
    {
        let flat = flatten(alloc, statement)?;
        let asked = Asked {
            statement,
            flat: &flat,
        };
        if lacks_name(self.schema(), names, flat.nodes()) {
            self.refuse(alloc, backend, asked)
        } else {
            self.compile_known(alloc, backend, asked)
        }
    }

    /// Returns the answer of `compile_sound` for the statement, whatever was asked before.
    /// Each name is looked up.
    pub fn compile_cached<DB: Backend>(
        &mut self,
        alloc: Global,
        backend: &DB,
        statement: &Statement,
    ) -> Result<Built, CompileError>
        ensures built { IfOk result (λ b.
            IsBuilt self.old.schema DB.speaks (statement_tree statement.now) b) }
        ensures read { IfOk result (λ b.
            IsRead DB.speaks (statement_tree statement.now) b.sql b.binds) }
        ensures sound { IfOk result (λ b.
            AnswersFit self.old.schema (statement_tree statement.now) b.sql_types) }
        ensures refused { IfErr result (λ e. (r : Rule) → rule_of e ≡ Some r
            → IsLeast r self.old.schema DB.speaks (statement_tree statement.now)) }
        ensures schema { self.new.schema ≡ self.old.schema }
        ensures entries { IsNext DB.speaks (statement_tree statement.now)
            self.old result self.new }
    {
        self.compile_cached_by(alloc, Names::Asked, backend, statement)
    }
}
