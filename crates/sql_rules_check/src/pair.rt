//! Tests of two leaves, made one after the other.
#![tactic(auto)]

ghost use Rattle.std.specs.Prelude.{map};
ghost use Rattle.std.specs.Bool.{Decides};
ghost use Rattle.sql_node.specs.Tree as tree;
ghost use Rattle.sql_origin.specs.Borrowed.{origin_of};
ghost use Rattle.sql_rules.specs.Lists.{AnyOf, AnyPair};

use sql_origin::Origin;

/// A test of two leaves.
pub(crate) trait PairTest {
    ghost holds: { Self → tree.Origin → tree.Origin → Type 0 };

    fn test(&self, left: Origin<'_>, right: Origin<'_>) -> bool
        ensures { Decides result (holds self.now (origin_of left.entry) (origin_of right.entry)) };
}

/// Whether the test holds of two of the leaves, the one on the left first.
pub(crate) fn any_pair<T: PairTest>(test: &T, leaves: &[Origin<'_>]) -> bool
    ensures { Decides result (AnyPair (T.holds test.now) (map origin_of leaves.now)) }
{
    for (i, leaf) in leaves.iter().enumerate() {
        if any_right(test, *leaf, &leaves[i + 1..]) {
            return true;
        }
    }
    false
}

fn any_right<T: PairTest>(test: &T, left: Origin<'_>, leaves: &[Origin<'_>]) -> bool
    ensures { Decides result
        (AnyOf (T.holds test.now (origin_of left.entry)) (map origin_of leaves.now)) }
{
    for leaf in leaves {
        if test.test(left, *leaf) {
            return true;
        }
    }
    false
}
