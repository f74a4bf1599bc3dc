ghost use Rattle.std.specs.Prelude.{◌≡◌, ◌∷◌, OnOk, IfOk, Some, None, string_bytes};
ghost use Rattle.sql_grammar.proofs.Machine as m;
ghost use Rattle.sql_read_tree.specs.View.{logic_of, direction_of, kind_of, operator_of, wait_of, mode_of, sample_of, source_tree, expression_tree, item_tree, query_tree};
ghost use Rattle.sql_read_machine.specs.View.{stack_of, items_seen, places_seen, clauses_of, Took};

use crate::entry::{Clauses, Entry, Items, Places, Stack};
use crate::list::{item, more, one};
use sql_dialect::NoMemory;
use sql_read_tree::{
    Direction, Expression, Lock, LockWait, Mark, Names, Page, Place, Sample, Source,
};
use std::alloc::Global;

/// The direction at the top, where there is one.
#[tactic(auto, unfolding(sql_grammar::proofs::Machine::direction_of))]
pub fn take_direction(stack: &mut Stack) -> Result<Direction, NoMemory>
    ensures { IfOk result (λ by. Took (m.direction_of (stack_of stack.old)) (direction_of by)
        (stack_of stack.new)) }
{
    match stack.pop() {
        Some(Entry::Ordered(by)) => Ok(by),
        Some(other) => {
            stack.push(other)?;
            Ok(Direction::Plain)
        }
        None => Ok(Direction::Plain),
    }
}

#[tactic(auto, unfolding(sql_grammar::proofs::Machine::wait_of))]
pub fn take_wait(stack: &mut Stack) -> Result<LockWait, NoMemory>
    ensures { IfOk result (λ w. Took (m.wait_of (stack_of stack.old)) (wait_of w)
        (stack_of stack.new)) }
{
    match stack.pop() {
        Some(Entry::Waiting(wait)) => Ok(wait),
        Some(other) => {
            stack.push(other)?;
            Ok(LockWait::Waits)
        }
        None => Ok(LockWait::Waits),
    }
}

#[tactic(auto, unfolding(sql_grammar::proofs::Machine::seed_of))]
pub fn take_seed(stack: &mut Stack) -> Result<Option<Mark>, NoMemory>
    ensures { IfOk result (λ s. Took (m.seed_of (stack_of stack.old)) s (stack_of stack.new)) }
{
    match stack.pop() {
        Some(Entry::Seeded(mark)) => Ok(Some(mark)),
        Some(other) => {
            stack.push(other)?;
            Ok(None)
        }
        None => Ok(None),
    }
}

/// No clauses.
fn none(alloc: Global) -> Clauses
    ensures { clauses_of result ≡ m.empty }
{
    Clauses {
        source: None,
        filter: None,
        group: Vec::new(alloc),
        having: None,
        order: Vec::new(alloc),
        places: Vec::new(alloc),
        page: Page::PageBy(None, None),
        lock: Lock::Unlocked,
    }
}

/// The clauses at the top, where there are some.
#[tactic(auto, unfolding(sql_grammar::proofs::Machine::tail_of))]
pub fn take_clauses(alloc: Global, stack: &mut Stack) -> Result<Clauses, NoMemory>
    ensures { IfOk result (λ c. Took (m.tail_of (stack_of stack.old)) (clauses_of c)
        (stack_of stack.new)) }
{
    match stack.pop() {
        Some(Entry::Tail(clauses)) => Ok(Box::into_inner(clauses)),
        Some(other) => {
            stack.push(other)?;
            Ok(none(alloc))
        }
        None => Ok(none(alloc)),
    }
}

/// An item, and the list after it where there is one.
#[tactic(auto, unfolding(sql_grammar::proofs::Machine::listed))]
fn listed(alloc: Global, e: Expression, by: Direction, stack: &mut Stack) -> Result<Items, NoMemory>
    ensures { IfOk result (λ is. Took (m.listed (expression_tree e) (direction_of by)
        (stack_of stack.old)) (items_seen is) (stack_of stack.new)) }
{
    match stack.pop() {
        Some(Entry::Listed(list)) => {
            let all = more(item(e, by), list)?;
            Ok(all)
        }
        Some(other) => {
            stack.push(other)?;
            Ok(one(alloc, item(e, by)))
        }
        None => Ok(one(alloc, item(e, by))),
    }
}

/// The list that begins with an expression, with what stands after it.
#[tactic(auto, unfolding(sql_grammar::proofs::Machine::items_of))]
pub fn take_items(alloc: Global, e: Expression, stack: &mut Stack) -> Result<Items, NoMemory>
    ensures { IfOk result (λ is. Took (m.items_of (expression_tree e) (stack_of stack.old))
        (items_seen is) (stack_of stack.new)) }
{
    let by = take_direction(stack)?;
    let all = listed(alloc, e, by, stack)?;
    Ok(all)
}

/// A table or an alias, by what stands after its path.
#[tactic(auto, unfolding(sql_grammar::proofs::Machine::after_name))]
pub fn take_name(only: bool, names: Names, stack: &mut Stack) -> Result<Source, NoMemory>
    ensures { IfOk result (λ s. Took (m.after_name only names.first names.more (stack_of stack.old))
        (source_tree s) (stack_of stack.new)) }
{
    match stack.pop() {
        Some(Entry::AliasAs(alias)) => Ok(Source::Alias(names, alias)),
        Some(Entry::SampledBy(sample)) => Ok(Source::Table(names, only, sample)),
        Some(other) => {
            stack.push(other)?;
            Ok(Source::Table(names, only, Sample::Whole))
        }
        None => Ok(Source::Table(names, only, Sample::Whole)),
    }
}

/// A place before the list after it, where there is one.
#[tactic(auto, using(crate::proofs::Items::lists), unfolding(sql_grammar::proofs::Machine::numbered))]
fn numbered(
    alloc: Global,
    number: String,
    by: Direction,
    stack: &mut Stack,
) -> Result<Places, NoMemory>
    ensures { IfOk result (λ ps. Took (m.numbered (string_bytes number) (direction_of by)
        (stack_of stack.old)) (places_seen ps) (stack_of stack.new)) }
{
    match stack.pop() {
        Some(Entry::Numbered(list)) => {
            let Places { first, mut later } = list;
            later.push(first)?;
            Ok(Places {
                first: Place::At(number, by),
                later,
            })
        }
        Some(other) => {
            stack.push(other)?;
            Ok(Places {
                first: Place::At(number, by),
                later: Vec::new(alloc),
            })
        }
        None => Ok(Places {
            first: Place::At(number, by),
            later: Vec::new(alloc),
        }),
    }
}

/// The list of places that begins with a number, with what stands after it.
#[tactic(auto, unfolding(sql_grammar::proofs::Machine::places_of))]
pub fn take_places(alloc: Global, number: String, stack: &mut Stack) -> Result<Places, NoMemory>
    ensures { IfOk result (λ ps. Took (m.places_of (string_bytes number) (stack_of stack.old))
        (places_seen ps) (stack_of stack.new)) }
{
    let by = take_direction(stack)?;
    let all = numbered(alloc, number, by, stack)?;
    Ok(all)
}
