ghost use Rattle.std.specs.Prelude.{◌≡◌, ◌++◌, ◌∷◌, ℕ, List, Bool, None, map, reverse, IfOk, OnOk};
ghost use Rattle.sql_grammar.proofs.Machine as m;
ghost use Rattle.sql_grammar.specs.MarkTree as t;
ghost use Rattle.sql_read_tree.specs.View.{expression_tree, item_tree, place_of, direction_of, expressions_of, group_of, order_of, by_places_of};
ghost use Rattle.sql_read_machine.specs.View.{items_seen, places_seen};

use crate::discard::{discard_expression, discard_list};
use crate::entry::{Items, Places};
use sql_dialect::NoMemory;
use sql_read_tree::{Direction, Expression, Item, Mark, Place, expression_in};
use std::alloc::Global;

/// An item of an expression and a direction.
pub fn item(e: Expression, by: Direction) -> Item
    ensures { item_tree result ≡ (expression_tree e, direction_of by) }
{
    match by {
        Direction::Plain => Item::Plain(e),
        Direction::Ascending => Item::Ascending(e),
        Direction::Descending => Item::Descending(e),
    }
}

/// The mark, where the expression is a placeholder.
#[tactic(auto, unfolding(sql_grammar::proofs::Machine::mark_in))]
fn mark_of(e: &Expression) -> Mark
    ensures { result ≡ m.mark_in (expression_tree e.now) }
{
    match e {
        Expression::Placeholder(mark) => *mark,
        Expression::Path(_)
        | Expression::SingleValue(_)
        | Expression::Exists(_)
        | Expression::Compared(_, _, _)
        | Expression::Connected(_, _, _)
        | Expression::Not(_)
        | Expression::NullTest(_, _)
        | Expression::CountAll
        | Expression::Count(_)
        | Expression::InList(_, _, _, _)
        | Expression::InQuery(_, _, _)
        | Expression::Constant(_) => None,
    }
}

pub fn mark_in(e: Expression) -> Mark
    ensures { result ≡ m.mark_in (expression_tree e) }
{
    let mark = mark_of(&e);
    discard_expression(e);
    mark
}

/// A list of one item.
pub fn one(alloc: Global, item: Item) -> Items
    ensures { items_seen result ≡ t.OnlyItem (item_tree item).0 (item_tree item).1 }
{
    Items {
        first: item,
        later: Vec::new(alloc),
    }
}

/// An item before a list.
#[tactic(auto, using(crate::proofs::Items::lists))]
pub fn more(item: Item, list: Items) -> Result<Items, NoMemory>
    ensures { IfOk result (λ is. items_seen is
        ≡ t.MoreItem (item_tree item).0 (item_tree item).1 (items_seen list)) }
{
    let Items { first, mut later } = list;
    later.push(first)?;
    Ok(Items { first: item, later })
}

/// The first expression of a list.
#[tactic(auto, using(crate::proofs::Items::lists))]
pub fn first(list: Items) -> Expression
    ensures { expression_tree result ≡ m.first (items_seen list) }
{
    let Items { first, later } = list;
    discard_list(later);
    expression_in(first)
}

/// Moves the elements over, the last first.
fn unwind<T: Drop>(mut later: Vec<T>, out: &mut Vec<T>) -> Result<(), NoMemory>
    ensures { OnOk result (out.new.items ≡ out.old.items ++ reverse later.items) }
{
    while let Some(x) = later.pop() {
        out.push(x)?;
    }
    Ok(())
}

/// The expressions of the items, the last first.
fn strip(alloc: Global, mut later: Vec<Item>) -> Result<Vec<Expression>, NoMemory>
    ensures { IfOk result (λ v. map expression_tree v.items
        ≡ map (λ i. i.0) (map item_tree (reverse later.items))) }
{
    let mut out = Vec::new(alloc);
    while let Some(x) = later.pop() {
        out.push(expression_in(x))?;
    }
    Ok(out)
}

/// The first expression of a list, and the others.
#[tactic(auto, using(crate::proofs::Items::lists))]
pub fn expressions(alloc: Global, list: Items) -> Result<(Expression, Vec<Expression>), NoMemory>
    ensures { IfOk result (λ p. expressions_of (expression_tree p.0) (map expression_tree p.1.items)
        ≡ m.expressions_of (items_seen list)) }
{
    let Items { first, later } = list;
    let others = strip(alloc, later)?;
    Ok((expression_in(first), others))
}

/// The expressions of a list, as a group.
#[tactic(auto, using(crate::proofs::Items::lists))]
pub fn group(alloc: Global, list: Items) -> Result<Vec<Expression>, NoMemory>
    ensures { IfOk result (λ v. group_of (map expression_tree v.items)
        ≡ t.SomeExpressions (m.expressions_of (items_seen list))) }
{
    let Items { first, later } = list;
    let mut all = Vec::new(alloc);
    all.push(expression_in(first))?;
    let mut others = strip(alloc, later)?;
    all.append(&mut others)?;
    Ok(all)
}

/// The items of a list, as an order.
#[tactic(auto, using(crate::proofs::Items::lists))]
pub fn order(alloc: Global, list: Items) -> Result<Vec<Item>, NoMemory>
    ensures { IfOk result (λ v. order_of (map item_tree v.items) ≡ t.SomeItems (items_seen list)) }
{
    let Items { first, later } = list;
    let mut all = Vec::new(alloc);
    all.push(first)?;
    unwind(later, &mut all)?;
    Ok(all)
}

/// The places of a list, as an order.
#[tactic(auto, using(crate::proofs::Items::lists))]
pub fn placed(alloc: Global, list: Places) -> Result<Vec<Place>, NoMemory>
    ensures { IfOk result (λ v. by_places_of (map place_of v.items)
        ≡ t.SomePlaces (places_seen list)) }
{
    let Places { first, later } = list;
    let mut all = Vec::new(alloc);
    all.push(first)?;
    unwind(later, &mut all)?;
    Ok(all)
}

/// The marks of a list: the first, and the others.
#[tactic(auto, using(crate::proofs::Items::lists))]
pub fn marks(alloc: Global, list: Items) -> Result<(Mark, Vec<Mark>), NoMemory>
    ensures { IfOk result (λ p. (p.0 ≡ m.mark_in (m.first (items_seen list))) × (p.1.items
        ≡ m.more_marks (items_seen list))) }
{
    let Items { first, later } = list;
    let others = strip_marks(alloc, later)?;
    Ok((mark_in(expression_in(first)), others))
}

/// The marks of the items, the last first.
fn strip_marks(alloc: Global, mut later: Vec<Item>) -> Result<Vec<Mark>, NoMemory>
    ensures { IfOk result (λ v. v.items
        ≡ map (λ i. m.mark_in i.0) (map item_tree (reverse later.items))) }
{
    let mut out = Vec::new(alloc);
    while let Some(x) = later.pop() {
        out.push(mark_in(expression_in(x)))?;
    }
    Ok(out)
}
