//! A list of nodes that grows: a node is opened, its children follow, and it is closed.

ghost use Rattle.std.specs.Prelude.{IfOk, OnOk};
ghost use Rattle.sql_flat_law.specs.Building.{Adds, Closes, Opens};
ghost use Rattle.sql_flat_law.specs.Rose.{leaf, none, one};
ghost use Rattle.sql_flat.specs.Flat.{flat_node};

use crate::{FlatKind, FlatNode};
use sql_schema::NoMemory;

/// Appends a node and returns its index. Its end isn't known yet.
pub(crate) fn open(nodes: &mut Vec<FlatNode>, kind: FlatKind) -> Result<usize, NoMemory>
    ensures { IfOk result (λ at. Opens flat_node nodes.old.items kind none at nodes.new.items) }
{
    let at = nodes.len();
    nodes.push(FlatNode { kind, end: 0 })?;
    Ok(at)
}

/// Ends the node at that index after the last one.
pub(crate) fn close(nodes: &mut Vec<FlatNode>, at: usize)
    ensures { Closes flat_node nodes.old.items at nodes.new.items }
{
    let end = nodes.len();
    if let Some(node) = nodes.get_mut(at) {
        node.end = end;
    }
}

/// Appends a node without children.
#[tactic(auto, using(sql_flat_law::proofs::Adding::adding))]
pub(crate) fn push_leaf(nodes: &mut Vec<FlatNode>, kind: FlatKind) -> Result<(), NoMemory>
    ensures { OnOk result (Adds flat_node nodes.old.items (one (leaf kind)) nodes.new.items) }
{
    let at = open(nodes, kind)?;
    close(nodes, at);
    Ok(())
}
