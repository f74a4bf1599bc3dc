ghost use Rattle.std.specs.Prelude.{◌≡◌, IfOk};
ghost use Rattle.sql_node.specs.Tree as tree;
ghost use Rattle.sql_node.specs.View.{expr_tree, select_statement_tree};
ghost use Rattle.sql_select.specs.Changes.{selected};

use crate::selection::SelectDsl;
use sql_expr::{Expr, SelectStatement};
use sql_schema::NoMemory;
use std::alloc::Global;

/// Rows that one Rust type is read from: a statement, and the columns of it that the type needs.
pub trait HasQuery {
    ghost base: { Self → tree.Statement };

    ghost wanted: { Self → tree.Expr };

    /// The statement that gives the rows.
    fn base_query(&self, alloc: Global) -> Result<SelectStatement, NoMemory>
        ensures { IfOk result (λ s. select_statement_tree s ≡ base self.now) };

    /// Returns the selection from these rows.
    fn as_select(&self, alloc: Global) -> Result<Expr, NoMemory>
        ensures { IfOk result (λ e. expr_tree e ≡ wanted self.now) };

    /// The base query with that selection.
    fn query(&self, alloc: Global) -> Result<SelectStatement, NoMemory>
        ensures { IfOk result (λ s. select_statement_tree s
            ≡ selected (wanted self.now) (base self.now)) }
    {
        let selection = self.as_select(alloc)?;
        Ok(self.base_query(alloc)?.select(selection))
    }
}
