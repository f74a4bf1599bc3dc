//! The results of the loop over types for one node: its type, or the types of a list's elements.
#![tactic(auto)]

ghost use Rattle.std.specs.Prelude.{◌≡◌, ◌++◌, None, Some, false, not, IfOk, OnOk, map};
ghost use Rattle.std.specs.Option.{is_none};
ghost use Rattle.sql_rules.specs.Types.{all_nullable, as_nullable as nullable_of, element_types, fits as value_fits, one, only_type};
ghost use Rattle.sql_rules_check.specs.inside.Stacks.{given_of, judged_of};
ghost use Rattle.sql_rules_check.specs.inside.Typing.{any_untyped, column_type, is_condition as a_condition, is_nil, sound as sound_of};

use crate::types::is_condition;
use sql_pass::Value;
use sql_schema::{NoMemory, SqlType};
use sql_types::{as_nullable, fits, single_type};
use std::alloc::Global;

/// A type or none; or, of a list and of nullables over one, those of its elements.
#[derive(Debug, Drop)]
pub(crate) enum Given {
    One(Option<SqlType>),
    Many(Vec<Option<SqlType>>),
}

/// The type or the types of a node, and whether it is ill-typed or a list without elements.
#[derive(Debug, Drop)]
pub(crate) struct Judged {
    pub(crate) given: Given,
    pub(crate) mismatched: bool,
    pub(crate) empty: bool,
}

impl Given {
    pub(crate) fn only(self) -> Option<SqlType>
        ensures { result ≡ only_type (given_of self) }
    {
        match self {
            Given::One(ty) => ty,
            Given::Many(_) => None,
        }
    }

    /// The type of the one column of a statement, or of a list of values.
    pub(crate) fn column(self) -> Option<SqlType>
        ensures { result ≡ column_type (given_of self) }
    {
        match self {
            Given::One(ty) => ty,
            Given::Many(types) => single_type(types.as_slice()),
        }
    }

    pub(crate) fn add_to(self, all: &mut Vec<Option<SqlType>>) -> Result<(), NoMemory>
        ensures { OnOk result
            (all.new.items ≡ all.old.items ++ element_types (given_of self)) }
    {
        match self {
            Given::One(ty) => {
                all.push(ty)?;
                Ok(())
            }
            Given::Many(types) => all.extend_from_slice(types.as_slice()),
        }
    }

    /// The types of its elements.
    pub(crate) fn into_types(self, alloc: Global) -> Result<Vec<Option<SqlType>>, NoMemory>
        ensures { IfOk result (λ v. v.items ≡ element_types (given_of self)) }
    {
        match self {
            Given::Many(types) => Ok(types),
            Given::One(ty) => {
                let mut all = Vec::new(alloc);
                all.push(ty)?;
                Ok(all)
            }
        }
    }

    pub(crate) fn nullable(self, alloc: Global) -> Result<Given, NoMemory>
        ensures { IfOk result (λ g. given_of g ≡ all_nullable (given_of self)) }
    {
        match self {
            Given::One(ty) => Ok(Given::One(as_nullable(ty))),
            Given::Many(types) => Ok(Given::Many(nullable_types(alloc, types)?)),
        }
    }

    fn is_untyped(&self) -> bool
        ensures { result ≡ is_none (only_type (given_of self.now)) }
    {
        match self {
            Given::One(ty) => ty.is_none(),
            Given::Many(_) => true,
        }
    }

    /// Whether an element has no type.
    fn any_untyped(&self) -> bool
        ensures { result ≡ any_untyped (element_types (given_of self.now)) }
    {
        match self {
            Given::One(ty) => ty.is_none(),
            Given::Many(types) => has_untyped(types.as_slice()),
        }
    }

    /// Whether it has no element.
    fn is_empty(&self) -> bool
        ensures { result ≡ is_nil (element_types (given_of self.now)) }
    {
        match self {
            Given::One(_) => false,
            Given::Many(types) => are_none(types.as_slice()),
        }
    }
}

pub(crate) fn has_untyped(types: &[Option<SqlType>]) -> bool
    ensures { result ≡ any_untyped types.now }
{
    types.iter().any(|ty| ty.is_none())
}

pub(crate) fn are_none(types: &[Option<SqlType>]) -> bool
    ensures { result ≡ is_nil types.now }
{
    match types {
        [] => true,
        [_, ..] => false,
    }
}

pub(crate) fn nullable_types(
    alloc: Global,
    types: Vec<Option<SqlType>>,
) -> Result<Vec<Option<SqlType>>, NoMemory>
    ensures { IfOk result (λ v. v.items ≡ map nullable_of types.items) }
{
    let mut all = Vec::new(alloc);
    for ty in types {
        all.push(as_nullable(ty))?;
    }
    Ok(all)
}

impl Judged {
    pub(crate) fn sound(given: Given) -> Judged
        ensures { judged_of result ≡ sound_of (given_of given) }
    {
        Judged {
            given,
            mismatched: false,
            empty: false,
        }
    }

    pub(crate) fn one(ty: Option<SqlType>) -> Judged
        ensures { judged_of result ≡ sound_of (one ty) }
    {
        Judged::sound(Given::One(ty))
    }

    /// Of a value.
    pub(crate) fn value(ty: SqlType, value: &Value) -> Judged
        ensures { judged_of result ≡ record {
          given = one (Some ty);
          mismatched = not (value_fits ty value.now);
          empty = false;
        } }
    {
        Judged {
            given: Given::One(Some(ty)),
            mismatched: !fits(ty, value),
            empty: false,
        }
    }

    /// Of ON, WHERE and HAVING.
    pub(crate) fn condition(ty: Option<SqlType>) -> Judged
        ensures { judged_of result
            ≡ record { given = one None; mismatched = not (a_condition ty); empty = false } }
    {
        Judged {
            given: Given::One(None),
            mismatched: !is_condition(ty),
            empty: false,
        }
    }

    /// Of DISTINCT ON and GROUP BY.
    pub(crate) fn list(given: Given) -> Judged
        ensures { judged_of result ≡ record {
          given = one None;
          mismatched = any_untyped (element_types (given_of given));
          empty = is_nil (element_types (given_of given));
        } }
    {
        Judged {
            given: Given::One(None),
            mismatched: given.any_untyped(),
            empty: given.is_empty(),
        }
    }

    /// Of an item of an order.
    pub(crate) fn item(given: Given) -> Judged
        ensures { judged_of result ≡ record {
          given = given_of given;
          mismatched = is_none (only_type (given_of given));
          empty = false;
        } }
    {
        let mismatched = given.is_untyped();
        Judged {
            given,
            mismatched,
            empty: false,
        }
    }

    /// Of an order, which may lack items.
    pub(crate) fn order(empty: bool) -> Judged
        ensures { judged_of result
            ≡ record { given = one None; mismatched = false; empty = empty } }
    {
        Judged {
            given: Given::One(None),
            mismatched: false,
            empty,
        }
    }
}
