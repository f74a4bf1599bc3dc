//! The stack of a loop over the nodes of a flat list from the first to the last: the nodes that are open, the innermost on top.
//!
//! Of the list `a 4, b 3, c 3, d 4`, where each node shows the index after its last descendant (`a` is over `b` and `d`, `b` over
//! `c`), the loop has, when it has opened the node, from the top on:
//!
//! ```text
//! index 0, node a    closes nothing   a
//! index 1, node b    closes nothing   b a
//! index 2, node c    closes nothing   c b a
//! index 3, node d    closes c and b   d a
//! ```
#![tactic(auto, using(crate::proofs::Opening::opening))]

ghost use Rattle.std.specs.Prelude.{◌≡◌};
ghost use Rattle.sql_flat_law.specs.Opened.{opens, still_open};

/// The index after a node's last descendant, and what is known within it.
#[derive(Debug, Drop)]
pub struct Opened<V> {
    pub end: usize,
    pub known: V,
}

/// Closes the nodes that have ended at the index.
pub fn close<V: Drop>(nodes: &mut Vec<Opened<V>>, index: usize)
    ensures { opens nodes.new.items ≡ still_open index (opens nodes.old.items) }
{
    while let Some(innermost) = nodes.last() {
        if index < innermost.end {
            return;
        }
        nodes.pop();
    }
}
