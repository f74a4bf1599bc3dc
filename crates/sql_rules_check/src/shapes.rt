//! Whether nodes are alike but for their values.
#![tactic(auto)]

ghost use Rattle.std.specs.Prelude.{◌≡◌, IfOk};
ghost use Rattle.sql_key.specs.Blank.{blank_kind};
ghost use Rattle.sql_rules_check.specs.inside.Shapes.{same_kind};

use sql_flat::FlatKind;
use sql_key::erased_kind;
use sql_schema::NoMemory;
use std::alloc::Global;

/// Whether the kinds are equal but for their values.
pub(crate) fn is_same_kind(
    alloc: Global,
    one: &FlatKind,
    other: &FlatKind,
) -> Result<bool, NoMemory>
    ensures { IfOk result (λ b. b ≡ same_kind (blank_kind one.now) (blank_kind other.now)) }
{
    let one = erased_kind(alloc, one)?;
    let other = erased_kind(alloc, other)?;
    Ok(one == other)
}
