ghost use Rattle.std.specs.Prelude.{◌≡◌, ◌+◌, ◌*◌, ◌<◌, ◌≤◌, IfOk, IsErr, IsErrOf, IsTrue, OnOk, length};
ghost use Rattle.sql_dialect.specs.Written.{numbers, MAX_BINDS};
ghost use Rattle.sql_pass.specs.Pieces.{is_safe, text_of, values_of};
ghost use Rattle.sql_node.specs.Pieces.{pieces};
ghost use Rattle.sql_node.specs.Tree.{Statement};
ghost use Rattle.sql_flat.specs.Flat.{flat_of};
ghost use Rattle.sql_flat_text.specs.Steps.{steps_of};

use crate::Steps;
use crate::place::write;
use crate::sink::Sink;
use sql_dialect::{Backend, BindError};
use sql_flat::Flat;
use sql_pass::Bound;
use sql_schema::{SqlList, SqlText};
use std::alloc::Global;
use std::sync::ledger::Ledger;

/// The text and the values of a statement, as one loop over its nodes writes them.
#[derive(Debug, Drop)]
pub struct Fused {
    /// The text: `SELECT "users"."id" FROM "users" WHERE ("users"."id" = $1)`.
    pub sql: SqlText,
    /// The values, in the order of their placeholders.
    pub binds: SqlList<Bound>,
    /// Whether the statement, prepared once, serves for other values.
    pub safe: bool,
}

/// Writes the text of a flat statement for the backend, gathers its values and finds its flag, all in one loop over its nodes that takes
/// at most two steps a node. Of the nodes Select, Column, From, Table, Where, Compared, Column, Value the text is
/// `SELECT "users"."id" FROM "users" WHERE ("users"."id" = $1)`, with the one value, and the flag is true. That takes twelve steps: one for
/// each Column, Table and Value, which are written whole, and two for each other node, which is begun and ended.
///
/// `TooManyBinds` only where the dialect numbers its placeholders and there are more values than numbers. `NoMemory` may stand in place
/// of any answer.
#[tactic(auto, using(crate::proofs::Fusing::fusing))]
pub fn write_flat<DB: Backend, L: Ledger>(
    alloc: Global,
    backend: &DB,
    flat: &Flat,
    steps: &mut Steps<L>,
) -> Result<Fused, BindError>
    ensures sql { (s : Statement) → flat.now ≡ flat_of s
        → IfOk result (λ f. f.sql ≡ text_of DB.speaks 0 (pieces DB.speaks s)) }
    ensures binds { (s : Statement) → flat.now ≡ flat_of s
        → IfOk result (λ f. f.binds ≡ values_of (pieces DB.speaks s)) }
    ensures safe { (s : Statement) → flat.now ≡ flat_of s
        → IfOk result (λ f. f.safe ≡ is_safe (pieces DB.speaks s)) }
    ensures exact { OnOk result (steps.new ≡ steps.old + steps_of DB.speaks flat.now) }
    // After an error some of them were taken, or all.
    ensures counted { (steps.old ≤ steps.new)
        × (steps.new ≤ steps.old + steps_of DB.speaks flat.now) }
    // This holds after an error too.
    ensures cost { steps.new ≤ steps.old + 2 * length flat.now }
    // Placeholders run out only where there are more than a dialect that numbers them has numbers.
    ensures too_many { (s : Statement) → flat.now ≡ flat_of s
        → IsErrOf result BindError.TooManyBinds
        → IsTrue (numbers DB.speaks) × (MAX_BINDS < length (values_of (pieces DB.speaks s))) }
    ensures room { (s : Statement) → flat.now ≡ flat_of s
        → IsTrue (numbers DB.speaks) → MAX_BINDS < length (values_of (pieces DB.speaks s))
        → IsErr result }
{
    let mut sink = Sink::new(alloc, *backend);
    write(alloc, flat.nodes(), &mut sink, steps)?;
    Ok(sink.finish())
}
