//! Ways through the nodes of a flat list, from one index to another, without what is below nodes of some kinds.
#![tactic(auto)]

ghost use Rattle.std.specs.Prelude.{◌≡◌, ◌+◌, ◌<◌, Bool};
ghost use Rattle.std.specs.Iterator.{YieldsFirstBy, item_count};
ghost use Rattle.sql_flat.specs.declared.kind.FlatKind.{FlatKind as Kind};
ghost use Rattle.sql_rules_check.specs.inside.Kids.{after as index_after, all_passed, node_of, nodes_from, nodes_left};

use sql_flat::{FlatKind, FlatNode};
use std::marker::PhantomData;

/// Which nodes are passed over with all that is below them.
pub(crate) trait Passing {
    ghost passed: { Kind → Bool };

    fn is_passed(kind: &FlatKind) -> bool
        ensures { result ≡ passed kind.now };
}

/// Over all: from child to child.
pub(crate) struct All;

impl Passing for All {
    ghost passed = { all_passed };

    fn is_passed(_kind: &FlatKind) -> bool {
        true
    }
}

/// The index of the next node.
pub(crate) fn after<P: Passing>(index: usize, node: &FlatNode) -> usize
    requires { index < 18446744073709551615 }
    ensures next { result ≡ index_after P.passed index node.now }
    ensures later { index < result }
{
    if P::is_passed(&node.kind) && index < node.end {
        node.end
    } else {
        index + 1
    }
}

/// The nodes from an index on, each with its own.
#[derive(Clone, Copy)]
pub(crate) struct Walk<'f, P> {
    nodes: &'f [FlatNode],
    index: usize,
    end: usize,
    passing: PhantomData<P>,
}

impl<'f, P: Passing> Walk<'f, P> {
    pub(crate) fn new(nodes: &'f [FlatNode], from: usize, end: usize) -> Walk<'f, P>
        ensures { nodes_left P.passed result ≡ nodes_from P.passed end from nodes.now }
    {
        Walk {
            nodes,
            index: from,
            end,
            passing: PhantomData,
        }
    }
}

impl<'f, P: Passing> Iterator for Walk<'f, P> {
    type Item = (usize, &'f FlatNode);

    ghost next_gives = { YieldsFirstBy node_of (nodes_left P.passed) };

    ghost remaining = { item_count (nodes_left P.passed) };

    fn next(&mut self) -> Option<(usize, &'f FlatNode)> {
        let index = self.index;
        if index >= self.end || index >= self.nodes.len() {
            return None;
        }
        let node = &self.nodes[index];
        self.index = after::<P>(index, node);
        Some((index, node))
    }
}
