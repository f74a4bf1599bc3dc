//! Text, values, flag and key of a flat statement.

ghost use Rattle.std.specs.Prelude.{◌≡◌, ◌+◌, ◌*◌, ◌≤◌, IfOk, IsErrOf, OnOk, length};
ghost use Rattle.sql_node.specs.Tree.{Statement};
ghost use Rattle.sql_flat.specs.Flat.{flat_of};
ghost use Rattle.sql_flat_text.specs.Steps.{steps_of};
ghost use Rattle.sql_key.specs.Keys.{id_of};
ghost use Rattle.sql_rules.specs.Rules.{HasTooManyBinds};
ghost use Rattle.sql_check.specs.Fused.{IsFused};

use sql_dialect::{Backend, BindError};
use sql_flat::Flat;
use sql_flat_text::{Steps, write_flat};
use sql_key::{QueryKey, flat_query_id};
use sql_pass::Bound;
use sql_schema::{NoMemory, SqlList, SqlText};
use std::alloc::Global;
use std::sync::ledger::Ledger;

/// The answer of `fused`.
#[derive(Debug, Drop, PartialEq, Eq)]
pub struct FusedAnswer {
    /// The text: `SELECT "users"."id" FROM "users" WHERE ("users"."id" = $1)`.
    pub sql: SqlText,
    /// The values, in the order of their placeholders.
    pub binds: SqlList<Bound>,
    /// Whether the statement, prepared once, serves for other values.
    pub safe: bool,
    /// The key by which a cache finds the statement, where it has an id.
    pub id: Option<QueryKey>,
}

fn key_of(alloc: Global, flat: &Flat) -> Result<Option<QueryKey>, BindError>
    ensures id { IfOk result (λ id. (s : Statement) → flat.now ≡ flat_of s → id ≡ id_of s) }
    ensures refused { ¬ IsErrOf result BindError.TooManyBinds }
{
    match flat_query_id(alloc, flat) {
        Ok(id) => Ok(id),
        Err(_) => Err(BindError::NoMemory),
    }
}

/// Text, values, flag and key of the statement of a flat list. Of the nodes Select, Column, From, Table, Where, Compared, Column, Value the
/// text is `SELECT "users"."id" FROM "users" WHERE ("users"."id" = $1)`, with its one value and its key, and the flag is true. A step is a
/// turn of the loop that writes; there are at most two a node, and after an error those that were taken stay counted. Here they are twelve:
/// one for each Column, Table and Value, which are written whole, and two for each other node, which is begun and ended.
///
/// `TooManyBinds` comes exactly where PostgreSQL and Bracket have more placeholders than numbers, 4294967295. `NoMemory` may stand in place
/// of any answer.
pub fn fused<DB: Backend, L: Ledger>(
    alloc: Global,
    backend: &DB,
    flat: &Flat,
    steps: &mut Steps<L>,
) -> Result<FusedAnswer, BindError>
    ensures fused { IfOk result (λ a. (s : Statement) → flat.now ≡ flat_of s
        → IsFused DB.speaks s a) }
    ensures few { IfOk result (λ a. (s : Statement) → flat.now ≡ flat_of s
        → ¬ HasTooManyBinds DB.speaks s) }
    ensures many { (s : Statement) → flat.now ≡ flat_of s → IsErrOf result BindError.TooManyBinds
        → HasTooManyBinds DB.speaks s }
    ensures exact { OnOk result (steps.new ≡ steps.old + steps_of DB.speaks flat.now) }
    // After an error some of them were taken, or all.
    ensures counted { (steps.old ≤ steps.new)
        × (steps.new ≤ steps.old + steps_of DB.speaks flat.now) }
    ensures cost { steps.new ≤ steps.old + 2 * length flat.now }
{
    let written = write_flat(alloc, backend, flat, steps)?;
    let id = key_of(alloc, flat)?;
    Ok(FusedAnswer {
        sql: written.sql,
        binds: written.binds,
        safe: written.safe,
        id,
    })
}
