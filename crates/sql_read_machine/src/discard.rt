ghost use Rattle.std.specs.Prelude.{◌≡◌, []};
ghost use Rattle.sql_read_machine.specs.View.{stack_of};

use crate::entry::{Entry, Items, Right, Stack};
use sql_dialect::NoMemory;
use sql_read_tree::{Expression, Item, Source};

/// Drops an entry. Its drop is checked here alone.
pub fn discard(_entry: Entry) {}

pub fn discard_expression(_e: Expression) {}

pub fn discard_items(_items: Items) {}

pub fn discard_list(_items: Vec<Item>) {}

pub fn discard_right(_right: Right) {}

pub fn discard_source(_source: Source) {}

/// A step that finds no use for an entry: nothing is left.
pub fn give_up(stack: &mut Stack, entry: Entry) -> Result<(), NoMemory>
    ensures { stack_of stack.new ≡ [] }
{
    discard(entry);
    stack.clear();
    Ok(())
}
