#![tactic(auto, using(sql_pass::proofs::Walking::walking))]

ghost use Rattle.std.specs.Prelude.{◌≡◌, IfOk};
ghost use Rattle.sql_leaf.specs.Sources.{alias_pieces, field_pieces};

use sql_dialect::Backend;
use sql_pass::{AstPass, PassError, QueryFragment, push_dotted};
use sql_schema::{Column, NoMemory, SqlText, Table};
use std::alloc::Global;

/// A table under a name of its own: `"users" AS "u2"`.
#[derive(Debug, Drop, PartialEq, Eq, PartialOrd, Ord, Hash)]
pub struct Alias {
    pub name: SqlText,
    pub table: Table,
}

/// A column of an aliased table: `"u2"."id"`.
#[derive(Debug, Drop)]
pub struct AliasedField {
    pub alias: SqlText,
    pub column: Column,
}

impl Alias {
    /// An equal alias.
    pub fn try_clone(&self, alloc: Global) -> Result<Alias, NoMemory>
        ensures { IfOk result (λ v. v ≡ self.now) }
    {
        let name = self.name.try_clone(alloc)?;
        let table = self.table.try_clone(alloc)?;
        Ok(Alias { name, table })
    }
}

impl AliasedField {
    /// An equal field.
    pub fn try_clone(&self, alloc: Global) -> Result<AliasedField, NoMemory>
        ensures { IfOk result (λ v. v ≡ self.now) }
    {
        let alias = self.alias.try_clone(alloc)?;
        let column = self.column.try_clone(alloc)?;
        Ok(AliasedField { alias, column })
    }
}

/// `"users" AS "u2"`.
impl<DB: Backend> QueryFragment<DB> for Alias {
    ghost pieces = { λ a. alias_pieces a.name a.table };

    fn walk_ast(&self, pass: &mut AstPass<DB>) -> Result<(), PassError> {
        self.table.walk_ast(pass)?;
        pass.push_sql(" AS ")?;
        pass.push_identifier(self.name.as_str())?;
        Ok(())
    }
}

/// `"u2"."id"`.
impl<DB: Backend> QueryFragment<DB> for AliasedField {
    ghost pieces = { λ f. field_pieces f.alias f.column.decl };

    fn walk_ast(&self, pass: &mut AstPass<DB>) -> Result<(), PassError> {
        pass.push_identifier(self.alias.as_str())?;
        push_dotted(self.column.sql_name(), pass)?;
        Ok(())
    }
}
