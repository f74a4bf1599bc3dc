ghost use Rattle.std.specs.Prelude.{◌≡◌, ◌∷◌, [], OnOk};
ghost use Rattle.sql_read_machine.specs.View.{entry_of, stack_of, Popped};

use crate::entry::{Entry, Stack};
use sql_dialect::NoMemory;
use std::alloc::Global;

#[tactic(auto, using(crate::proofs::Stacks::stacks), unfolding(crate::specs::View::stack_of))]
impl Stack {
    pub fn new(alloc: Global) -> Stack
        ensures { stack_of result ≡ [] }
    {
        Stack {
            entries: Vec::new(alloc),
        }
    }

    pub fn push(&mut self, entry: Entry) -> Result<(), NoMemory>
        ensures { OnOk result (stack_of self.new ≡ entry_of entry ∷ stack_of self.old) }
    {
        self.entries.push(entry)?;
        Ok(())
    }

    pub fn pop(&mut self) -> Option<Entry>
        ensures { Popped (stack_of self.old) result (stack_of self.new) }
    {
        self.entries.pop()
    }

    pub fn clear(&mut self)
        ensures { stack_of self.new ≡ [] }
    {
        self.entries.clear();
    }
}
