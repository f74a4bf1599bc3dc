//! Which rules a statement breaks, and the types of its columns, from its flat list.
#![tactic(auto)]

ghost use Rattle.std.specs.Prelude.{◌≡◌, IfOk};
ghost use Rattle.sql_node.specs.Tree.{Statement};
ghost use Rattle.sql_rules.specs.Counted.{PlacesAreCounted};
ghost use Rattle.sql_rules.specs.Lists.{Selects};
ghost use Rattle.sql_rules.specs.Rules.{Broken};
ghost use Rattle.sql_rules.specs.Types.{columns as columns_of};
ghost use Rattle.sql_rules.specs.declared.rule.Rule.TheVariants as rule;
ghost use Rattle.sql_flat.specs.Flat.{flat_of};
ghost use Rattle.sql_rules_check.specs.First.{IsFirst, inner_rules};
ghost use Rattle.sql_rules_check.specs.declared.names.Names.TheVariants as name;
ghost use Rattle.sql_rules_check.specs.inside.Flags.{AreOf};

use crate::clauses::is_flat_incompatible;
use crate::counted::flat_positions_are_counted;
use crate::dialects::is_flat_unsupported;
use crate::flags::Flags;
use crate::grouping::is_flat_misgrouped;
use crate::names::{Names, names_of_flat};
use crate::order::is_flat_order_invalid;
use crate::padding::lacks_flat_nullable;
use crate::typing::{Typed, types_of_flat};
use sql_dialect::Backend;
use sql_flat::Flat;
use sql_rules::{RULES, Rule};
use sql_schema::{NoMemory, Schema, SqlType};
use std::alloc::Global;

/// The answer of `judge`.
#[derive(Debug, Drop)]
pub struct Judgement {
    /// The first rule that the statement breaks, of all but the last.
    pub first: Option<Rule>,
    /// The type of each column, where it has one.
    pub columns: Vec<Option<SqlType>>,
}

/// The flags, and the types of the columns.
fn flags_of<DB: Backend>(
    alloc: Global,
    names: Names,
    backend: &DB,
    schema: &Schema,
    flat: &Flat,
) -> Result<(Flags, Vec<Option<SqlType>>), NoMemory>
    requires { names ≡ name.Known → (s : Statement) → flat.now ≡ flat_of s
        → ¬ Broken rule.UnknownName schema.now DB.speaks s }
    ensures flags { (s : Statement) → flat.now ≡ flat_of s
        → IfOk result (λ f. AreOf schema.now DB.speaks s f.0) }
    ensures columns { (s : Statement) → flat.now ≡ flat_of s
        → IfOk result (λ f. f.1.items ≡ columns_of s) }
{
    let scoped = names_of_flat(alloc, names, schema, flat)?;
    let Typed {
        columns,
        mismatched,
        empty,
    } = types_of_flat(alloc, flat)?;
    let lacks_nullable = lacks_flat_nullable(alloc, flat)?;
    let misgrouped = is_flat_misgrouped(flat);
    let order_invalid = is_flat_order_invalid(alloc, flat)?;
    let flags = Flags {
        scoped,
        incompatible: is_flat_incompatible(flat),
        empty,
        mismatched,
        lacks_nullable,
        misgrouped,
        order_invalid,
        unsupported: is_flat_unsupported(backend, flat),
    };
    Ok((flags, columns))
}

/// The first rule that the statement of a flat list breaks, of all but the last, and the types of its columns: of the list that `flatten`
/// gives as its example `SELECT "users"."id" FROM "users" WHERE ("users"."id" = $1)` no rule, and one column, an integer. `TooManyBinds` is
/// of the statement's values, which are not made here. Names that are known to be the schema's are not looked up. Loops over the list
/// alone. Fails only for memory.
pub fn judge<DB: Backend>(
    alloc: Global,
    names: Names,
    backend: &DB,
    schema: &Schema,
    flat: &Flat,
) -> Result<Judgement, NoMemory>
    requires { names ≡ name.Known → (s : Statement) → flat.now ≡ flat_of s
        → ¬ Broken rule.UnknownName schema.now DB.speaks s }
    ensures first { (s : Statement) → flat.now ≡ flat_of s → IfOk result (λ j. IsFirst
        (λ r. Broken r schema.now DB.speaks s) inner_rules j.first) }
    ensures columns { (s : Statement) → flat.now ≡ flat_of s
        → IfOk result (λ j. j.columns.items ≡ columns_of s) }
    ensures counted { (s : Statement) → flat.now ≡ flat_of s → PlacesAreCounted s }
{
    flat_positions_are_counted(flat);
    let (flags, columns) = flags_of(alloc, names, backend, schema, flat)?;
    Ok(Judgement {
        first: flags.first_of(&RULES[..13]),
        columns,
    })
}

/// All rules that the statement of a flat list breaks but for the last, in the order of their declaration. Loops over the list alone. Fails
/// only for memory.
pub fn broken_but_the_last<DB: Backend>(
    alloc: Global,
    backend: &DB,
    schema: &Schema,
    flat: &Flat,
) -> Result<Vec<Rule>, NoMemory>
    ensures { (s : Statement) → flat.now ≡ flat_of s → IfOk result (λ v. Selects
        (λ r. Broken r schema.now DB.speaks s) inner_rules v.items) }
{
    let (flags, _columns) = flags_of(alloc, Names::Asked, backend, schema, flat)?;
    flags.all_of(alloc, &RULES[..13])
}
