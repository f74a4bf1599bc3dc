ghost use Rattle.std.specs.Prelude.{◌≡◌, ◌↔◌, List, true};
ghost use Rattle.sql_node.specs.Tree.{Statement};
ghost use Rattle.sql_shape.specs.Shape.{shape};
ghost use Rattle.sql_key.specs.Keys.{key};
ghost use Rattle.sql_flat.specs.declared.kind.FlatNode.{FlatNode};

use crate::QueryKey;
use std::cmp::Ordering;
use std::hash::Hash;

/// Two statements have equal keys exactly where they have equal shapes: where they are one statement but for their values.
#[tactic(auto, using(crate::proofs::Shapes::shapes))]
pub fn equal_keys_are_equal_shapes()
    ensures { (a b : Statement) → (key a ≡ key b) ↔ (shape a ≡ shape b) }
{}

/// `==` holds of two keys, and `cmp` answers Equal, exactly where they are equal.
pub fn compared_keys_are_equal_keys()
    ensures equal { (a b : List FlatNode) → (⟦<QueryKey as PartialEq>⟧.eq a b ≡ true) ↔ (a ≡ b) }
    ensures ordered { (a b : List FlatNode)
        → (⟦<QueryKey as Ord>⟧.cmp a b ≡ Ordering.Equal) ↔ (a ≡ b) }
{}

/// Keys that are `==` feed a hash alike.
pub fn equal_keys_hash_alike()
    ensures { (a b : List FlatNode) → ⟦<QueryKey as PartialEq>⟧.eq a b ≡ true
        → ⟦<QueryKey as Hash>⟧.hash_input a ≡ ⟦<QueryKey as Hash>⟧.hash_input b }
{}
