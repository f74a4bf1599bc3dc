//! The stack of the loop over types, which goes from the last node to the first: what the trees have that begin further
//! on.
#![tactic(auto, using(sql_flat_law::proofs::Finishing::finished_push))]

ghost use Rattle.std.specs.Prelude.{◌≡◌, ◌<◌, [], ◌∷◌, IfOk, OnOk, MatchOption, Some, length};
ghost use Rattle.sql_rules.specs.Types.{only_type};
ghost use Rattle.sql_rules_check.specs.inside.Stacks.{given_of, split, stack};
ghost use Rattle.sql_rules_check.specs.inside.Typing.{first, is_nil, others, selection as selected, types_of_each, where_all};

use crate::given::Given;
use crate::types::both;
use sql_flat::Uniqueness;
use sql_flat_law::Finished;
use sql_schema::{NoMemory, SqlType};
use std::alloc::Global;

/// Takes what the next tree on the stack has, where it begins before the end.
fn take(done: &mut Vec<Finished<Given>>, end: usize) -> Option<Given>
    ensures { MatchOption result
        ((done.new.items ≡ done.old.items)
        × (split end done.old.items ≡ ([], stack done.old.items)))
        (λ g. (length done.new.items < length done.old.items)
        × (split end done.old.items
        ≡ (given_of g ∷ (split end done.new.items).0, (split end done.new.items).1))) }
{
    sql_flat_law::take(done, end)
}

/// The same, and no type where there is no tree.
pub(crate) fn next(done: &mut Vec<Finished<Given>>, end: usize) -> Given
    ensures given { given_of result ≡ first (split end done.old.items).0 }
    ensures left { split end done.new.items
        ≡ (others (split end done.old.items).0, (split end done.old.items).1) }
{
    match take(done, end) {
        None => Given::One(None),
        Some(given) => given,
    }
}

pub(crate) fn next_type(done: &mut Vec<Finished<Given>>, end: usize) -> Option<SqlType>
    ensures given { result ≡ only_type (first (split end done.old.items).0) }
    ensures left { split end done.new.items
        ≡ (others (split end done.old.items).0, (split end done.old.items).1) }
{
    next(done, end).only()
}

/// Takes all that begin before the end.
pub(crate) fn leave(done: &mut Vec<Finished<Given>>, end: usize)
    ensures { stack done.new.items ≡ (split end done.old.items).1 }
{
    sql_flat_law::leave(done, end);
}

/// Whether no tree begins before the end.
pub(crate) fn has_none(done: &mut Vec<Finished<Given>>, end: usize) -> bool
    ensures none { result ≡ is_nil (split end done.old.items).0 }
    ensures left { (split end done.new.items).1 ≡ (split end done.old.items).1 }
{
    take(done, end).is_none()
}

/// Takes all, and gives the types of the elements.
pub(crate) fn list_types(
    alloc: Global,
    done: &mut Vec<Finished<Given>>,
    end: usize,
) -> Result<Vec<Option<SqlType>>, NoMemory>
    ensures types { IfOk result (λ v. v.items ≡ types_of_each (split end done.old.items).0) }
    ensures left { OnOk result ((split end done.new.items).1 ≡ (split end done.old.items).1) }
{
    let mut all = Vec::new(alloc);
    while let Some(given) = take(done, end) {
        given.add_to(&mut all)?;
    }
    Ok(all)
}

/// The type of a list of values, where each fits.
pub(crate) fn values_type(
    ty: SqlType,
    done: &mut Vec<Finished<Given>>,
    end: usize,
) -> Option<SqlType>
    ensures value { result ≡ where_all (Some ty) (split end done.old.items).0 }
    ensures left { (split end done.new.items).1 ≡ (split end done.old.items).1 }
{
    let mut all = Some(ty);
    while let Some(given) = take(done, end) {
        all = both(all, given.only());
    }
    all
}

/// Takes the type or types of a select statement's selection, which comes after DISTINCT ON.
pub(crate) fn selection(unique: Uniqueness, done: &mut Vec<Finished<Given>>, end: usize) -> Given
    ensures given { given_of result ≡ selected unique (split end done.old.items).0 }
    ensures left { (split end done.new.items).1 ≡ (split end done.old.items).1 }
{
    match unique {
        Uniqueness::Every => next(done, end),
        Uniqueness::Distinct => next(done, end),
        Uniqueness::DistinctOn => {
            let _on = next(done, end);
            next(done, end)
        }
    }
}
