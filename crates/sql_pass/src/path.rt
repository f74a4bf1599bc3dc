#![tactic(auto, using(crate::proofs::Walking::walking))]

ghost use Rattle.std.specs.Prelude.{◌≡◌, ◌++◌, option_map};
ghost use Rattle.sql_pass.specs.Held.{held};
ghost use Rattle.sql_pass.specs.Paths.{dotted, path_pieces, table_pieces, column_pieces};
ghost use Rattle.sql_pass.specs.Walks.{Walks};

use crate::fragment::QueryFragment;
use crate::pass::{AstPass, PassError};
use crate::words::DOT;
use sql_dialect::Backend;
use sql_schema::{Column, Table};

/// Pushes a dot and the quoted name: `."id"`.
pub fn push_dotted<DB: Backend>(name: &str, pass: &mut AstPass<DB>) -> Result<(), PassError>
    ensures { Walks DB.speaks (held DB.QueryBuilder.text DB.QueryBuilder.count pass.old)
        (dotted name.now) result (held DB.QueryBuilder.text DB.QueryBuilder.count pass.new) }
{
    pass.push_sql(DOT)?;
    pass.push_identifier(name)?;
    Ok(())
}

fn push_path<DB: Backend>(
    schema: Option<&str>,
    name: &str,
    pass: &mut AstPass<DB>,
) -> Result<(), PassError>
    ensures { Walks DB.speaks (held DB.QueryBuilder.text DB.QueryBuilder.count pass.old)
        (path_pieces (option_map (λ s. s.now) schema.entry) name.now) result
        (held DB.QueryBuilder.text DB.QueryBuilder.count pass.new) }
{
    match schema {
        None => pass.push_identifier(name),
        Some(schema) => {
            pass.push_identifier(schema)?;
            push_dotted(name, pass)
        }
    }
}

/// The path of its declaration: `"users"`, or `"foo"."bars"` in the schema `foo`.
impl<DB: Backend> QueryFragment<DB> for Table {
    ghost pieces = { table_pieces };

    fn walk_ast(&self, pass: &mut AstPass<DB>) -> Result<(), PassError> {
        let (schema, name) = self.path();
        push_path(schema, name, pass)
    }
}

/// The path of its table and its name: `"users"."id"`.
impl<DB: Backend> QueryFragment<DB> for Column {
    ghost pieces = { column_pieces };

    fn walk_ast(&self, pass: &mut AstPass<DB>) -> Result<(), PassError> {
        self.table().walk_ast(pass)?;
        push_dotted(self.sql_name(), pass)?;
        Ok(())
    }
}
