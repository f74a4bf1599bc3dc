//! Whether all nodes of a statement leave it an id.
#![tactic(auto)]

ghost use Rattle.std.specs.Prelude.{◌≡◌};
ghost use Rattle.sql_node.specs.View.{statement_tree};
ghost use Rattle.sql_shape.specs.Ids.{has_id, id_tests};

use crate::nodes::{NodeTest, all_nodes};
use sql_leaf::{PositionalItem, Tablesample};
use sql_node::Statement;
use sql_pass::Value;
use sql_schema::{SqlList, SqlType};

/// That a node leaves its statement an id.
struct LeavesId;

impl NodeTest for LeavesId {
    ghost tests = { id_tests };

    fn boxed() -> bool {
        false
    }

    fn value(_ty: SqlType, _value: &Value) -> bool {
        true
    }

    fn values(_ty: SqlType, _values: &[Value]) -> bool {
        false
    }

    fn sample(sample: &Option<Tablesample>) -> bool {
        sample.is_none()
    }

    #[tactic(auto, using(crate::proofs::Positions::positions))]
    fn places(order: &Option<SqlList<PositionalItem>>) -> bool {
        match order {
            None => true,
            Some(items) => items.as_slice().is_empty(),
        }
    }
}

/// Whether the statement has an id: it holds no boxed part, no `OrderColumn`, no `Tablesample` and no list of values.
pub fn statement_leaves_id(statement: &Statement) -> bool
    ensures { result ≡ has_id (statement_tree statement.now) }
{
    all_nodes::<LeavesId>(statement)
}
