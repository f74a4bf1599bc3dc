//! The parts of an expression, and of an element of an order.

ghost use Rattle.std.specs.Prelude.{◌≡◌};
ghost use Rattle.std.specs.Option.{option_map};
ghost use Rattle.sql_grammar.proofs.Machine as m;
ghost use Rattle.sql_read_tree.specs.View.{expression_tree, item_tree, query_tree};

use crate::names::Names;
use crate::tree::{Expression, Item, Query};
use std::alloc::Global;

/// The names of a path, where the expression is one.
pub fn names_in(alloc: Global, e: Expression) -> Names
    ensures { result
        ≡ record { first = m.name_in (expression_tree e); more = m.names_in (expression_tree e) } }
{
    e.into_names(alloc)
}

/// The query, where the expression is the single value of one.
pub fn query_in(e: Expression) -> Option<Box<Query>>
    ensures { option_map (λ q. query_tree q.value) result ≡ m.query_in (expression_tree e) }
{
    e.into_query()
}

/// The expression of an element of an order.
pub fn expression_in(item: Item) -> Expression
    ensures { expression_tree result ≡ (item_tree item).0 }
{
    item.into_expression()
}
