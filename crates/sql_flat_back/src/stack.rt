//! The stack of the loop from the last node to the first: what the trees stand for that begin behind.
#![tactic(auto, using(sql_flat_law::proofs::Finishing::finished_push))]

ghost use Rattle.std.specs.Prelude.{◌≡◌, ◌<◌, [], ◌∷◌, IfOk, OnOk, MatchOption, length, map};
ghost use Rattle.sql_node.specs.View.{expr_tree, order_item_tree};
ghost use Rattle.sql_flat.specs.inside.Parts.{exprs_in, first, items_in, no_clauses, others, positions_in, put_clauses, values_in};
ghost use Rattle.sql_flat_back.specs.inside.Stacks.{clauses_of, part_of, split, stack};

use crate::clauses::Clauses;
use crate::part::Part;
use sql_flat::Uniqueness;
use sql_flat_law::Finished;
use sql_leaf::PositionalItem;
use sql_node::{Expr, OrderItem};
use sql_pass::Value;
use sql_schema::NoMemory;
use std::alloc::Global;

/// Takes the next tree on the stack, where it begins before the end.
fn take(done: &mut Vec<Finished<Part>>, end: usize) -> Option<Part>
    ensures { MatchOption result
        ((done.new.items ≡ done.old.items)
        × (split end done.old.items ≡ ([], stack done.old.items)))
        (λ p. (length done.new.items < length done.old.items)
        × (split end done.old.items
        ≡ (part_of p ∷ (split end done.new.items).0, (split end done.new.items).1))) }
{
    sql_flat_law::take(done, end)
}

/// The next tree, where there is one.
pub(crate) fn next(done: &mut Vec<Finished<Part>>, end: usize) -> Part
    ensures part { part_of result ≡ first (split end done.old.items).0 }
    ensures left { split end done.new.items
        ≡ (others (split end done.old.items).0, (split end done.old.items).1) }
{
    match take(done, end) {
        None => Part::Unfit,
        Some(part) => part,
    }
}

/// Takes all that begin before the end.
pub(crate) fn leave(done: &mut Vec<Finished<Part>>, end: usize)
    ensures { stack done.new.items ≡ (split end done.old.items).1 }
{
    sql_flat_law::leave(done, end);
}

/// Takes all, and gives the expressions.
pub(crate) fn take_exprs(
    alloc: Global,
    done: &mut Vec<Finished<Part>>,
    end: usize,
) -> Result<Vec<Expr>, NoMemory>
    ensures exprs { IfOk result (λ v. map expr_tree v.items
        ≡ exprs_in (split end done.old.items).0) }
    ensures left { OnOk result (stack done.new.items ≡ (split end done.old.items).1) }
{
    let mut all = Vec::new(alloc);
    while let Some(part) = take(done, end) {
        part.push_expr(&mut all)?;
    }
    Ok(all)
}

/// Takes all, and gives the items.
pub(crate) fn take_items(
    alloc: Global,
    done: &mut Vec<Finished<Part>>,
    end: usize,
) -> Result<Vec<OrderItem>, NoMemory>
    ensures items { IfOk result (λ v. map order_item_tree v.items
        ≡ items_in (split end done.old.items).0) }
    ensures left { OnOk result (stack done.new.items ≡ (split end done.old.items).1) }
{
    let mut all = Vec::new(alloc);
    while let Some(part) = take(done, end) {
        part.push_item(&mut all)?;
    }
    Ok(all)
}

/// Takes all, and gives the values.
pub(crate) fn take_values(
    alloc: Global,
    done: &mut Vec<Finished<Part>>,
    end: usize,
) -> Result<Vec<Value>, NoMemory>
    ensures values { IfOk result (λ v. v.items ≡ values_in (split end done.old.items).0) }
    ensures left { OnOk result (stack done.new.items ≡ (split end done.old.items).1) }
{
    let mut all = Vec::new(alloc);
    while let Some(part) = take(done, end) {
        part.push_value(&mut all)?;
    }
    Ok(all)
}

/// Takes all, and gives the positions.
pub(crate) fn take_positions(
    alloc: Global,
    done: &mut Vec<Finished<Part>>,
    end: usize,
) -> Result<Vec<PositionalItem>, NoMemory>
    ensures positions { IfOk result (λ v. v.items ≡ positions_in (split end done.old.items).0) }
    ensures left { OnOk result (stack done.new.items ≡ (split end done.old.items).1) }
{
    let mut all = Vec::new(alloc);
    while let Some(part) = take(done, end) {
        part.push_position(&mut all)?;
    }
    Ok(all)
}

/// Takes all, and gives the clauses.
pub(crate) fn take_clauses(
    done: &mut Vec<Finished<Part>>,
    end: usize,
    unique: Uniqueness,
) -> Clauses
    ensures clauses { clauses_of result
        ≡ put_clauses (no_clauses unique) (split end done.old.items).0 }
    ensures left { stack done.new.items ≡ (split end done.old.items).1 }
{
    let mut clauses = Clauses::none(unique);
    while let Some(part) = take(done, end) {
        part.put_in(&mut clauses);
    }
    clauses
}
