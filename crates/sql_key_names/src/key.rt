ghost use Rattle.std.specs.Prelude.{◌≡◌};

use sql_flat::FlatNode;
use sql_key::QueryKey;
use std::marker::Model;

/// The key of a statement among those over one schema. Two are compared by names, so what a comparison takes does not grow with the width of
/// a table.
#[derive(Debug, Drop)]
pub struct NamedKey {
    pub(crate) key: QueryKey,
}

impl Model for NamedKey {
    ghost use Rattle.std.specs.Prelude.{List};
    ghost use Rattle.sql_flat.specs.declared.kind.FlatNode.{FlatNode};

    ghost Value = { List FlatNode };

    ghost view = { λ k. k.key };

    ghost inverse = { λ l. record { key = l } };
}

impl From<QueryKey> for NamedKey {
    ghost from_gives = { λ k n. n ≡ k };

    fn from(key: QueryKey) -> NamedKey {
        NamedKey { key }
    }
}

impl NamedKey {
    /// The nodes, borrowed.
    pub fn nodes(&self) -> &[FlatNode]
        ensures { result.now ≡ self.now }
    {
        self.key.nodes()
    }

    /// The key itself.
    pub fn into_inner(self) -> QueryKey
        ensures { result ≡ self }
    {
        self.key
    }
}
