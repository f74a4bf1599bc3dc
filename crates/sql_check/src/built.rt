ghost use Rattle.std.specs.Prelude.{◌≡◌, ◌<◌, None, Some, IfOk, IfErr, IsErrOf};
ghost use Rattle.sql_schema.specs.Declarations.{Declarations};
ghost use Rattle.sql_node.specs.Tree as t;
ghost use Rattle.sql_node.specs.View.{statement_tree};
ghost use Rattle.sql_flat.specs.Flat.{flat_of};
ghost use Rattle.sql_rules_check.specs.First.{IsFirst, inner_rules};
ghost use Rattle.sql_rules_check.specs.declared.names.Names.TheVariants as name;
ghost use Rattle.sql_check.specs.Compiled.{Compiles, IsBuilt, IsLeast, IsRead};
ghost use Rattle.sql_check.specs.Errors.{rule_of};
ghost use Rattle.sql_check.specs.Fused.{IsFused};
ghost use Rattle.sql_check.specs.Typed.{known};
ghost use Rattle.sql_rules.specs.Counted.{PlacesAreCounted};
ghost use Rattle.sql_rules.specs.Rules.{Broken, HasTooManyBinds};
ghost use Rattle.sql_rules.specs.Types.{columns as columns_of};
ghost use Rattle.sql_rules.specs.declared.rule.Rule.{Rule};
ghost use Rattle.sql_rules.specs.declared.rule.Rule.TheVariants as rule;

use crate::answer::{FusedAnswer, fused};
use crate::error::CompileError;
use sql_dialect::{Backend, BindError};
use sql_flat::{Flat, flatten};
use sql_flat_text::Steps;
use sql_key::QueryKey;
use sql_node::Statement;
use sql_pass::Bound;
use sql_rules_check::{Judgement, Names, judge};
use sql_rules_law::{accepted_are_read, names_one_leaf};
use sql_schema::{NoMemory, Schema, SqlList, SqlText, SqlType};
use std::alloc::Global;
use std::marker::Brand;
use std::sync::ledger::{Blank, Ledger};

/// The answer of `compile` for a statement that breaks no rule.
#[derive(Debug, Drop, PartialEq, Eq)]
pub struct Built {
    /// The text: `SELECT "users"."id" FROM "users" WHERE ("users"."id" = $1)`.
    pub sql: SqlText,
    /// The values, in the order of their placeholders.
    pub binds: SqlList<Bound>,
    /// The type of each column of the answer.
    pub sql_types: SqlList<SqlType>,
    /// Whether the statement, prepared once, serves for other values.
    pub safe: bool,
    /// The key by which a cache finds the statement, where it has an id.
    pub id: Option<QueryKey>,
}

fn clone_binds(alloc: Global, binds: &[Bound]) -> Result<SqlList<Bound>, NoMemory>
    ensures { IfOk result (λ l. l ≡ binds.now) }
{
    let mut all = Vec::new(alloc);
    for bound in binds {
        all.push(bound.try_clone(alloc)?)?;
    }
    Ok(SqlList::from(all))
}

fn clone_id(alloc: Global, id: &Option<QueryKey>) -> Result<Option<QueryKey>, NoMemory>
    ensures { IfOk result (λ i. i ≡ id.now) }
{
    match id {
        None => Ok(None),
        Some(key) => Ok(Some(key.try_clone(alloc)?)),
    }
}

impl Built {
    /// Returns an equal answer.
    pub fn try_clone(&self, alloc: Global) -> Result<Built, NoMemory>
        ensures { IfOk result (λ b. b ≡ self.now) }
    {
        Ok(Built {
            sql: self.sql.try_clone(alloc)?,
            binds: clone_binds(alloc, self.binds.as_slice())?,
            sql_types: SqlList::from(Vec::from_slice(alloc, self.sql_types.as_slice())?),
            safe: self.safe,
            id: clone_id(alloc, &self.id)?,
        })
    }
}

/// The types that there are.
fn known_types(alloc: Global, types: &[Option<SqlType>]) -> Result<Vec<SqlType>, NoMemory>
    ensures { IfOk result (λ v. v.items ≡ known types.now) }
{
    let mut all = Vec::new(alloc);
    for ty in types {
        if let Some(ty) = ty {
            all.push(*ty)?;
        }
    }
    Ok(all)
}

/// Returns the answer of `fused`, with a count of its own.
fn fused_from<DB: Backend, L: Ledger>(
    alloc: Global,
    backend: &DB,
    flat: &Flat,
    blank: Blank,
) -> Result<FusedAnswer, BindError>
    requires name { blank.name ≡ L.name }
    requires parts { (blank.parts ≡ L.parts) × (0 < L.parts) }
    ensures fused { IfOk result (λ a. (s : t.Statement) → flat.now ≡ flat_of s
        → IsFused DB.speaks s a) }
    ensures few { IfOk result (λ a. (s : t.Statement) → flat.now ≡ flat_of s
        → ¬ HasTooManyBinds DB.speaks s) }
    ensures many { (s : t.Statement) → flat.now ≡ flat_of s
        → IsErrOf result BindError.TooManyBinds → HasTooManyBinds DB.speaks s }
{
    fused(alloc, backend, flat, &mut Steps::<L>::new(blank))
}

/// Returns the answer of `fused`, whose steps nobody counts.
pub(crate) fn uncounted<DB: Backend>(
    alloc: Global,
    backend: &DB,
    flat: &Flat,
    blank: Blank,
) -> Result<FusedAnswer, BindError>
    requires { 0 < blank.parts }
    ensures fused { IfOk result (λ a. (s : t.Statement) → flat.now ≡ flat_of s
        → IsFused DB.speaks s a) }
    ensures few { IfOk result (λ a. (s : t.Statement) → flat.now ≡ flat_of s
        → ¬ HasTooManyBinds DB.speaks s) }
    ensures many { (s : t.Statement) → flat.now ≡ flat_of s
        → IsErrOf result BindError.TooManyBinds → HasTooManyBinds DB.speaks s }
{
    fused_from::<DB, Brand>(alloc, backend, flat, blank)
}

/// The answer for a statement that breaks no rule but perhaps the last.
fn build<DB: Backend>(
    alloc: Global,
    backend: &DB,
    flat: &Flat,
    columns: &[Option<SqlType>],
) -> Result<Built, CompileError>
    requires { (s : t.Statement) → flat.now ≡ flat_of s → columns.now ≡ columns_of s }
    ensures built { IfOk result (λ b. (s : t.Statement) → flat.now ≡ flat_of s
        → (schema : Declarations) → IsFirst (λ r. Broken r schema DB.speaks s) inner_rules None
        → IsBuilt schema DB.speaks s b) }
    ensures read { IfOk result (λ b. (s : t.Statement) → flat.now ≡ flat_of s
        → (schema : Declarations) → IsFirst (λ r. Broken r schema DB.speaks s) inner_rules None
        → PlacesAreCounted s → IsRead DB.speaks s b.sql b.binds) }
    ensures refused { IfErr result (λ e. (r : Rule) → rule_of e ≡ Some r
        → (s : t.Statement) → flat.now ≡ flat_of s
        → (r ≡ rule.TooManyBinds) × HasTooManyBinds DB.speaks s) }
{
    let told = uncounted(alloc, backend, flat, Blank::new(1))?;
    let sql_types = known_types(alloc, columns)?;
    accepted_are_read();
    names_one_leaf();
    Ok(Built {
        sql: told.sql,
        binds: told.binds,
        sql_types: SqlList::from(sql_types),
        safe: told.safe,
        id: told.id,
    })
}

/// Returns the answer of `compile_by` for the statement whose flat list this is.
///
/// List and schema stay as they are. `NoMemory` may stand in place of any answer.
pub fn compile_flat_by<DB: Backend>(
    alloc: Global,
    names: Names,
    backend: &DB,
    schema: &Schema,
    flat: &Flat,
) -> Result<Built, CompileError>
    requires { names ≡ name.Known → (s : t.Statement) → flat.now ≡ flat_of s
        → ¬ Broken rule.UnknownName schema.now DB.speaks s }
    ensures { (s : t.Statement) → flat.now ≡ flat_of s → Compiles schema.now DB.speaks s result }
{
    let Judgement { first, columns } = judge(alloc, names, backend, schema, flat)?;
    match first {
        Some(rule) => Err(CompileError::from(rule)),
        None => build(alloc, backend, flat, columns.as_slice()),
    }
}

/// Compiles a statement that breaks no rule, or answers the first rule that it breaks. Names that are known to be the schema's are not
/// looked up.
///
/// Statement and schema stay as they are. `NoMemory` may stand in place of any answer.
pub fn compile_by<DB: Backend>(
    alloc: Global,
    names: Names,
    backend: &DB,
    schema: &Schema,
    statement: &Statement,
) -> Result<Built, CompileError>
    requires { names ≡ name.Known
        → ¬ Broken rule.UnknownName schema.now DB.speaks (statement_tree statement.now) }
    ensures { Compiles schema.now DB.speaks (statement_tree statement.now) result }
{
    let flat = flatten(alloc, statement)?;
    compile_flat_by(alloc, names, backend, schema, &flat)
}

/// Compiles a statement that breaks no rule, or answers the first rule that it breaks.
///
/// Statement and schema stay as they are. `NoMemory` may stand in place of any answer.
pub fn compile<DB: Backend>(
    alloc: Global,
    backend: &DB,
    schema: &Schema,
    statement: &Statement,
) -> Result<Built, CompileError>
    ensures built { IfOk result (λ b. IsBuilt schema.now DB.speaks (statement_tree statement.now)
        b) }
    ensures read { IfOk result (λ b. IsRead DB.speaks (statement_tree statement.now)
        b.sql b.binds) }
    ensures refused { IfErr result (λ e. (r : Rule) → rule_of e ≡ Some r
        → IsLeast r schema.now DB.speaks (statement_tree statement.now)) }
{
    compile_by(alloc, Names::Asked, backend, schema, statement)
}
