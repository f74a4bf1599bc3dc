#![tactic(auto, using(sql_node::proofs::Trees::opens_expr))]

ghost use Rattle.std.specs.Prelude.{◌≡◌, IfOk};
ghost use Rattle.sql_schema.specs.Equality.{same_table as one_table};
ghost use Rattle.sql_node.specs.View.{expr_tree};
ghost use Rattle.sql_origin.specs.Borrowed.{origin_of};
ghost use Rattle.sql_origin.specs.Origins.{a_table, an_alias, column_under, field_origin, same_origin};

use sql_leaf::{Alias, AliasedField};
use sql_node::Expr;
use sql_schema::{Column, NoMemory, SqlText, Table};
use std::alloc::Global;

/// The origin of a leaf of a source or of a column: a table, or an alias of one.
#[derive(Debug, Clone, Copy)]
pub struct Origin<'s> {
    /// The alias's name, where it is one.
    pub alias: Option<&'s str>,
    pub table: &'s Table,
}

/// Whether both are of one declaration.
pub fn same_table(one: &Table, other: &Table) -> bool
    ensures { result ≡ one_table one.now other.now }
{
    let (schema, sql_name) = one.path();
    let (other_schema, other_sql_name) = other.path();
    one.name() == other.name()
        && sql_name == other_sql_name
        && schema == other_schema
        && one.columns() == other.columns()
        && one.primary_key() == other.primary_key()
}

impl<'s> Origin<'s> {
    /// The table itself.
    pub fn of_table(table: &'s Table) -> Origin<'s>
        ensures { origin_of result ≡ a_table table.now }
    {
        Origin { alias: None, table }
    }

    /// The alias, of its table.
    pub fn of_alias(alias: &'s Alias) -> Origin<'s>
        ensures { origin_of result ≡ an_alias alias.now.name alias.now.table }
    {
        Origin {
            alias: Some(alias.name.as_str()),
            table: &alias.table,
        }
    }

    /// The alias that the field is one of.
    pub fn of_field(field: &'s AliasedField) -> Origin<'s>
        ensures { origin_of result ≡ field_origin field.now }
    {
        Origin {
            alias: Some(field.alias.as_str()),
            table: field.column.table(),
        }
    }

    /// Whether both are one table, or aliases of one name and one table.
    pub fn is_same(self, other: Origin) -> bool
        ensures { result ≡ same_origin (origin_of self.entry) (origin_of other.entry) }
    {
        self.alias == other.alias && same_table(self.table, other.table)
    }

    /// `"users"."id"`, or `"u2"."id"` of an alias.
    pub fn column(self, alloc: Global, column: Column) -> Result<Expr, NoMemory>
        ensures { IfOk result (λ e. expr_tree e
            ≡ column_under (origin_of self.entry).alias column) }
    {
        match self.alias {
            None => Ok(Expr::Column(column)),
            Some(alias) => {
                let alias = SqlText::from(String::from_str(alloc, alias)?);
                Ok(Expr::Field(AliasedField { alias, column }))
            }
        }
    }
}
