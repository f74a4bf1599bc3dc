ghost use Rattle.std.specs.Prelude.{◌≡◌};
ghost use Rattle.sql_node.specs.Tree.{Statement};
ghost use Rattle.sql_shape.specs.Ids.{has_id};
ghost use Rattle.sql_shape.specs.Shape.{shape};

/// Statements of one shape have an id, or none of them has.
#[tactic(auto, using(crate::proofs::IdLaws::ids))]
pub fn equal_shapes_have_ids_alike()
    ensures { (a b : Statement) → shape a ≡ shape b → has_id a ≡ has_id b }
{}
