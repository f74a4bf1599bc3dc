//! The type of a node by the types of its children, and whether the node is ill-typed or a list without elements.
#![tactic(auto, using(sql_flat_law::proofs::Finishing::finished_push))]

ghost use Rattle.std.specs.Prelude.{◌≡◌, IfOk, OnOk};
ghost use Rattle.sql_flat.specs.declared.kind.FlatKind.TheVariants as K;
ghost use Rattle.sql_rules.specs.Types.{compared_type as compares, joined_type as joins, only_type};
ghost use Rattle.sql_rules_check.specs.inside.Stacks.{judged_of, split};
ghost use Rattle.sql_rules_check.specs.inside.Typing.{column_type, columns_as, first, judging, others};

use crate::given::{Given, Judged, are_none, has_untyped, nullable_types};
use crate::stack::{has_none, list_types, next, next_type, selection, values_type};
use crate::types::{element_type, types_differ};
use sql_flat::{Combining, FlatKind, Form, Selecting};
use sql_flat_law::Finished;
use sql_schema::{NoMemory, SqlType};
use sql_types::{
    as_nullable, big_type, bool_type, compared_type, if_typed, joined_type, unary_type,
};
use std::alloc::Global;

fn columns(
    alloc: Global,
    form: Form,
    types: Vec<Option<SqlType>>,
) -> Result<Vec<Option<SqlType>>, NoMemory>
    ensures { IfOk result (λ v. v.items ≡ columns_as form types.items) }
{
    match form {
        Form::Unboxed(_) => Ok(types),
        Form::Boxed(_, false) => Ok(types),
        Form::Boxed(_, true) => nullable_types(alloc, types),
    }
}

fn list(alloc: Global, done: &mut Vec<Finished<Given>>, end: usize) -> Result<Judged, NoMemory>
    ensures judged { IfOk result (λ j. judged_of j ≡ judging K.List (split end done.old.items).0) }
    ensures left { OnOk result ((split end done.new.items).1 ≡ (split end done.old.items).1) }
{
    let types = list_types(alloc, done, end)?;
    Ok(Judged::sound(Given::Many(types)))
}

fn nullable(alloc: Global, done: &mut Vec<Finished<Given>>, end: usize) -> Result<Judged, NoMemory>
    ensures judged { IfOk result (λ j. judged_of j
        ≡ judging K.Nullable (split end done.old.items).0) }
    ensures left { OnOk result ((split end done.new.items).1 ≡ (split end done.old.items).1) }
{
    let given = next(done, end).nullable(alloc)?;
    Ok(Judged::sound(given))
}

fn order(alloc: Global, done: &mut Vec<Finished<Given>>, end: usize) -> Result<Judged, NoMemory>
    ensures judged { IfOk result (λ j. judged_of j
        ≡ judging K.OrderBy (split end done.old.items).0) }
    ensures left { OnOk result ((split end done.new.items).1 ≡ (split end done.old.items).1) }
{
    let types = list_types(alloc, done, end)?;
    Ok(Judged::order(are_none(types.as_slice())))
}

fn select(
    alloc: Global,
    select: &Selecting,
    done: &mut Vec<Finished<Given>>,
    end: usize,
) -> Result<Judged, NoMemory>
    ensures judged { IfOk result (λ j. judged_of j
        ≡ judging (K.Select select.now) (split end done.old.items).0) }
    ensures left { OnOk result ((split end done.new.items).1 ≡ (split end done.old.items).1) }
{
    let types = selection(select.unique, done, end).into_types(alloc)?;
    let mismatched = has_untyped(types.as_slice()) || select.marks.key_count;
    let empty = are_none(types.as_slice());
    let given = Given::Many(columns(alloc, select.form, types)?);
    Ok(Judged {
        given,
        mismatched,
        empty,
    })
}

fn combination(
    alloc: Global,
    both: &Combining,
    done: &mut Vec<Finished<Given>>,
    end: usize,
) -> Result<Judged, NoMemory>
    ensures judged { IfOk result (λ j. judged_of j
        ≡ judging (K.Combination both.now) (split end done.old.items).0) }
    ensures left { OnOk result ((split end done.new.items).1 ≡ (split end done.old.items).1) }
{
    let left = next(done, end).into_types(alloc)?;
    let right = next(done, end).into_types(alloc)?;
    let mismatched = types_differ(left.as_slice(), right.as_slice());
    Ok(Judged {
        given: Given::Many(left),
        mismatched,
        empty: false,
    })
}

fn compared(done: &mut Vec<Finished<Given>>, end: usize) -> Option<SqlType>
    ensures given { result
        ≡ compares (only_type (first (split end done.old.items).0))
        (only_type (first (others (split end done.old.items).0))) }
    ensures left { (split end done.new.items).1 ≡ (split end done.old.items).1 }
{
    let left = next_type(done, end);
    let right = next_type(done, end);
    compared_type(left, right)
}

fn joined(done: &mut Vec<Finished<Given>>, end: usize) -> Option<SqlType>
    ensures given { result
        ≡ joins (only_type (first (split end done.old.items).0))
        (only_type (first (others (split end done.old.items).0))) }
    ensures left { (split end done.new.items).1 ≡ (split end done.old.items).1 }
{
    let left = next_type(done, end);
    let right = next_type(done, end);
    joined_type(left, right)
}

fn among(done: &mut Vec<Finished<Given>>, end: usize) -> Option<SqlType>
    ensures given { result
        ≡ compares (only_type (first (split end done.old.items).0))
        (column_type (first (others (split end done.old.items).0))) }
    ensures left { (split end done.new.items).1 ≡ (split end done.old.items).1 }
{
    let left = next_type(done, end);
    let right = next(done, end).column();
    compared_type(left, right)
}

/// Of a node of that kind, over those on the stack that begin before its end.
pub(crate) fn judged_at(
    alloc: Global,
    kind: &FlatKind,
    done: &mut Vec<Finished<Given>>,
    end: usize,
) -> Result<Judged, NoMemory>
    ensures judged { IfOk result (λ j. judged_of j
        ≡ judging kind.now (split end done.old.items).0) }
    ensures left { OnOk result ((split end done.new.items).1 ≡ (split end done.old.items).1) }
{
    match kind {
        FlatKind::Column(_, column) => Ok(Judged::one(Some(column.ty()))),
        FlatKind::Value(ty, value) => Ok(Judged::value(*ty, value)),
        FlatKind::List => list(alloc, done, end),
        FlatKind::CountStar => Ok(Judged::one(big_type())),
        FlatKind::Nullable => nullable(alloc, done, end),
        FlatKind::Unary(operator) => Ok(Judged::one(unary_type(*operator, next_type(done, end)))),
        FlatKind::Count => Ok(Judged::one(if_typed(next_type(done, end), big_type()))),
        FlatKind::Compared(_) => Ok(Judged::one(compared(done, end))),
        FlatKind::Joined(_) => Ok(Judged::one(joined(done, end))),
        FlatKind::Exists => Ok(Judged::one(bool_type(false))),
        FlatKind::Single => Ok(Judged::one(as_nullable(next(done, end).column()))),
        FlatKind::Among(_, _) => Ok(Judged::one(among(done, end))),
        FlatKind::Values(ty) => Ok(Judged::one(values_type(*ty, done, end))),
        FlatKind::Element(ty, value) => Ok(Judged::one(element_type(*ty, value))),
        FlatKind::On | FlatKind::Where | FlatKind::Having => {
            Ok(Judged::condition(next_type(done, end)))
        }
        FlatKind::DistinctOn | FlatKind::GroupBy => Ok(Judged::list(next(done, end))),
        FlatKind::OrderBy => order(alloc, done, end),
        FlatKind::Item(_) => Ok(Judged::item(next(done, end))),
        FlatKind::Select(selecting) => select(alloc, selecting, done, end),
        FlatKind::Combination(both) => combination(alloc, both, done, end),
        FlatKind::Side => Ok(Judged::sound(next(done, end))),
        FlatKind::Positions => Ok(Judged::order(has_none(done, end))),
        FlatKind::Table(_) | FlatKind::Alias(_) | FlatKind::Join(_, _) => Ok(Judged::one(None)),
        FlatKind::From | FlatKind::Position(_) => Ok(Judged::one(None)),
    }
}
