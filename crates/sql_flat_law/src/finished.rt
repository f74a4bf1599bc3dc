//! The stack of a loop over the nodes of a flat list from the last to the first: the trees that are finished, the first of them on
//! top. Each node takes those that begin before its own end, its children, and puts itself in their place.
//!
//! Of the list `a 4, b 3, c 3, d 4`, where each node shows the index after its last descendant (`a` is over `b` and `d`, `b` over
//! `c`), the loop has, from the top on:
//!
//! ```text
//! index 3, node d    takes nothing, and leaves  d
//! index 2, node c    takes nothing, and leaves  c d
//! index 1, node b    takes c,       and leaves  b d
//! index 0, node a    takes b and d, and leaves  a
//! ```
#![tactic(auto, using(crate::proofs::Finishing::finishing))]

ghost use Rattle.std.specs.Prelude.{◌≡◌, ◌<◌, [], ◌∷◌, MatchOption, length};
ghost use Rattle.sql_flat_law.specs.Finished.{before, finished};

/// Where a tree begins, and what the loop has of it.
#[derive(Debug, Drop)]
pub struct Finished<T> {
    pub start: usize,
    pub value: T,
}

/// Takes the next tree from the stack, where it begins before the end.
pub fn take<T>(trees: &mut Vec<Finished<T>>, end: usize) -> Option<T>
    ensures { MatchOption result
        ((trees.new.items ≡ trees.old.items)
        × (before end (finished trees.old.items) ≡ ([], finished trees.old.items)))
        (λ v. (length trees.new.items < length trees.old.items)
        × (before end (finished trees.old.items)
        ≡ (
          v ∷ (before end (finished trees.new.items)).0,
          (before end (finished trees.new.items)).1,
        ))) }
{
    let begins = match trees.last() {
        None => false,
        Some(top) => top.start < end,
    };
    if !begins {
        return None;
    }
    match trees.pop() {
        None => None,
        Some(top) => {
            let Finished { start: _, value } = top;
            Some(value)
        }
    }
}

/// Takes all that begin before the end.
pub fn leave<T: Drop>(trees: &mut Vec<Finished<T>>, end: usize)
    ensures { finished trees.new.items ≡ (before end (finished trees.old.items)).1 }
{
    while let Some(_value) = take(trees, end) {}
}
