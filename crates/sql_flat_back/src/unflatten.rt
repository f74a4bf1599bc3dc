ghost use Rattle.std.specs.Prelude.{◌≡◌, IfOk, List};
ghost use Rattle.sql_node.specs.View.{statement_tree};
ghost use Rattle.sql_flat.specs.Flat.{flat_of};
ghost use Rattle.sql_flat.specs.declared.kind.FlatNode.{FlatNode};

use crate::reading::read_statement;
use sql_flat::Flat;
use sql_node::Statement;
use sql_schema::NoMemory;
use std::alloc::Global;

fn unflattened(alloc: Global, flat: &Flat) -> Result<Statement, NoMemory>
    ensures { IfOk result (λ s. flat_of (statement_tree s) ≡ flat.now) }
{
    match read_statement(alloc, flat.nodes())? {
        Some(statement) => Ok(Box::into_inner(statement)),
        None => unreachable!(),
    }
}

/// A list from which a statement can be read back.
pub trait Unflatten {
    /// The flat list.
    ghost list: { Self → List FlatNode };

    /// The statement whose flat list it is, rebuilt: of the list that `flatten` gives as its example
    /// `SELECT "users"."id" FROM "users" WHERE ("users"."id" = $1)`. Fails only for memory.
    fn unflatten(&self, alloc: Global) -> Result<Statement, NoMemory>
        ensures { IfOk result (λ s. flat_of (statement_tree s) ≡ list self.now) };
}

impl Unflatten for Flat {
    ghost list = { λ f. f };

    fn unflatten(&self, alloc: Global) -> Result<Statement, NoMemory> {
        unflattened(alloc, self)
    }
}
