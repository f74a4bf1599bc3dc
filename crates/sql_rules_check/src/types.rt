//! Types beside each other.
#![tactic(auto)]

ghost use Rattle.std.specs.Prelude.{◌≡◌, Some, None, if◌then◌else◌};
ghost use Rattle.sql_rules.specs.Types.{fits as value_fits};
ghost use Rattle.sql_rules_check.specs.inside.Typing.{both as both_of, differ, is_condition as a_condition};

use sql_pass::Value;
use sql_schema::SqlType;
use sql_types::{fits, is_bool};

/// The type, where the other is one too.
pub(crate) fn both(ty: Option<SqlType>, other: Option<SqlType>) -> Option<SqlType>
    ensures { result ≡ both_of ty other }
{
    match other {
        None => None,
        Some(_) => ty,
    }
}

/// Whether it is Bool, nullable or not.
pub(crate) fn is_condition(ty: Option<SqlType>) -> bool
    ensures { result ≡ a_condition ty }
{
    match ty {
        None => false,
        Some(ty) => is_bool(ty),
    }
}

/// A value's type in a list, where the value fits.
pub(crate) fn element_type(ty: SqlType, value: &Value) -> Option<SqlType>
    ensures { result ≡ (if value_fits ty value.now then Some ty else None) }
{
    if fits(ty, value) { Some(ty) } else { None }
}

pub(crate) fn types_differ(types: &[Option<SqlType>], others: &[Option<SqlType>]) -> bool
    ensures { result ≡ differ types.now others.now }
{
    types != others
}
