//! Whether the values of a statement fit their types.
#![tactic(auto)]

ghost use Rattle.std.specs.Prelude.{◌≡◌};
ghost use Rattle.sql_node.specs.View.{statement_tree};
ghost use Rattle.sql_rules_law.specs.Fitting.{fit_tests, values_fit as values_fit_in};

use sql_leaf::{PositionalItem, Tablesample};
use sql_node::Statement;
use sql_pass::Value;
use sql_schema::{SqlList, SqlType};
use sql_shape::{NodeTest, all_nodes};
use sql_types::fits;

/// That a value fits the type that it is bound as.
struct Fits;

impl NodeTest for Fits {
    ghost tests = { fit_tests };

    fn boxed() -> bool {
        true
    }

    fn value(ty: SqlType, value: &Value) -> bool {
        fits(ty, value)
    }

    fn values(ty: SqlType, values: &[Value]) -> bool {
        values.iter().all(|one| fits(ty, one))
    }

    fn sample(_sample: &Option<Tablesample>) -> bool {
        true
    }

    fn places(_order: &Option<SqlList<PositionalItem>>) -> bool {
        true
    }
}

/// Whether each value that the statement binds fits the type that it is bound as, at any depth and in lists too: it has the
/// type's base, or is NULL and the type is nullable.
///
/// Where it does, what `compile` answered of a statement of the same id serves for this one, but for the values.
pub fn values_fit(statement: &Statement) -> bool
    ensures { result ≡ values_fit_in (statement_tree statement.now) }
{
    all_nodes::<Fits>(statement)
}
