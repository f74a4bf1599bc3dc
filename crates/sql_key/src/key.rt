ghost use Rattle.std.specs.Prelude.{◌≡◌, IfOk};

use sql_flat::FlatNode;
use sql_schema::{NoMemory, SqlList};
use std::alloc::Global;
use std::marker::Model;

/// The key of a statement: its flat list with its values erased.
/// Two keys are equal exactly where the statements have one shape.
#[derive(Debug, Drop, PartialEq, Eq, PartialOrd, Ord, Hash)]
pub struct QueryKey {
    nodes: SqlList<FlatNode>,
}

impl Model for QueryKey {
    ghost use Rattle.std.specs.Prelude.{List};
    ghost use Rattle.sql_flat.specs.declared.kind.FlatNode.{FlatNode};

    ghost Value = { List FlatNode };

    ghost view = { λ k. k.nodes };

    ghost inverse = { λ l. record { nodes = l } };
}

impl From<Vec<FlatNode>> for QueryKey {
    ghost from_gives = { λ v k. k ≡ v.items };

    fn from(nodes: Vec<FlatNode>) -> QueryKey {
        QueryKey {
            nodes: SqlList::from(nodes),
        }
    }
}

impl QueryKey {
    /// Returns an equal key.
    pub fn try_clone(&self, alloc: Global) -> Result<QueryKey, NoMemory>
        ensures { IfOk result (λ k. k ≡ self.now) }
    {
        let mut all = Vec::new(alloc);
        for node in self.nodes.as_slice() {
            all.push(node.try_clone(alloc)?)?;
        }
        Ok(QueryKey::from(all))
    }

    /// The nodes, borrowed.
    pub fn nodes(&self) -> &[FlatNode]
        ensures { result.now ≡ self.now }
    {
        self.nodes.as_slice()
    }
}
