ghost use Rattle.std.specs.Prelude.{◌≡◌, []};
ghost use Rattle.sql_node.specs.Tree.{Expr, Statement};
ghost use Rattle.sql_flat_law.specs.Rose.{flat};
ghost use Rattle.sql_flat.specs.Flat.{expr_rose, flat_node, flat_of};

/// Different statements have different flat lists.
#[tactic(auto, using(crate::proofs::Unflattening::one))]
pub fn different_statements_have_different_lists()
    ensures { (a b : Statement) → flat_of a ≡ flat_of b → a ≡ b }
{}

/// Different expressions have different nodes.
#[tactic(auto, using(crate::proofs::Unflattening::one))]
pub fn different_expressions_have_different_lists()
    ensures { (a b : Expr) → flat flat_node 0 (expr_rose a) [] ≡ flat flat_node 0 (expr_rose b) []
        → a ≡ b }
{}
