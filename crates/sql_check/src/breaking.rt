//! All rules that a statement breaks.
#![tactic(auto)]

ghost use Rattle.std.specs.Prelude.{◌≡◌, IfOk};
ghost use Rattle.std.specs.Bool.{Decides};
ghost use Rattle.sql_node.specs.Tree as t;
ghost use Rattle.sql_node.specs.View.{statement_tree};
ghost use Rattle.sql_flat.specs.Flat.{flat_of};
ghost use Rattle.sql_rules.specs.Lists.{Selects};
ghost use Rattle.sql_rules.specs.Rules.{Broken, HasTooManyBinds, all_rules};

use crate::built::uncounted;
use sql_dialect::{Backend, BindError};
use sql_flat::{Flat, flatten};
use sql_node::Statement;
use sql_rules::Rule;
use sql_rules_check::broken_but_the_last;
use sql_schema::{NoMemory, Schema};
use std::alloc::{AllocError, Global};
use std::sync::ledger::Blank;

fn has_too_many<DB: Backend>(alloc: Global, backend: &DB, flat: &Flat) -> Result<bool, NoMemory>
    ensures { (s : t.Statement) → flat.now ≡ flat_of s
        → IfOk result (λ b. Decides b (HasTooManyBinds DB.speaks s)) }
{
    match uncounted(alloc, backend, flat, Blank::new(1)) {
        Ok(_) => Ok(false),
        Err(BindError::TooManyBinds) => Ok(true),
        Err(BindError::NoMemory) => Err(AllocError),
    }
}

/// All rules that the statement breaks, in the order of their declaration. `compile` answers the first of them. Of `SELECT "users"."id"
/// FROM "users" FOR UPDATE` in SQLite that is `Unsupported` alone. Fails only for memory.
pub fn broken<DB: Backend>(
    alloc: Global,
    backend: &DB,
    schema: &Schema,
    statement: &Statement,
) -> Result<Vec<Rule>, NoMemory>
    ensures { IfOk result (λ v. Selects
        (λ r. Broken r schema.now DB.speaks (statement_tree statement.now)) all_rules v.items) }
{
    let flat = flatten(alloc, statement)?;
    let mut rules = broken_but_the_last(alloc, backend, schema, &flat)?;
    if has_too_many(alloc, backend, &flat)? {
        rules.push(Rule::TooManyBinds)?;
    }
    Ok(rules)
}
