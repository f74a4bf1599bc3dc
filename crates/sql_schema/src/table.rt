ghost use Rattle.std.specs.Prelude.{◌≡◌, ℕ, Option, IfOk};

use crate::names::{Names, index_names, index_of};
use crate::spelled::spell;
use crate::{ColumnDecl, NoMemory, SqlText, SqlType, TableDecl};
use std::alloc::Global;
use std::marker::Model;
use std::rc::Rc;

/// A table of a schema. Contracts see it as its declaration, which has columns, no two of one name or SQL name, and a
/// key of one column or more. Copies share the declaration, so a copy takes no memory.
#[derive(Debug)]
pub struct Table {
    declared: Rc<Declared>,
}

/// A declaration of a table, with an index of its columns' names, and all its names in one text, by which tables are
/// compared.
#[derive(Debug, Drop)]
struct Declared {
    decl: TableDecl,
    names: Names,
    spelled: String,
}

impl Drop for Table {
    fn drop(self) {
        let Table { declared: _ } = self;
    }
}

impl Model for Table {
    ghost use Rattle.std.specs.Prelude.{◌≡◌, false, length};
    ghost use Rattle.std.specs.BTreeMap.{get_by_text};
    ghost use Rattle.sql_schema.specs.declared.declaration.TableDecl.{TableDecl};
    ghost use Rattle.sql_schema.specs.Refusals.{is_unsound};
    ghost use Rattle.std.specs.Prelude.{string_bytes};
    ghost use Rattle.sql_schema.specs.inside.Indices.{Indexes};
    ghost use Rattle.sql_schema.specs.inside.Spelled.{table_text};

    ghost Value = { TableDecl };

    ghost view = { λ t. t.declared.value.decl };

    ghost invariant = { λ t. (is_unsound t.declared.value.decl ≡ false)
        × (Indexes (λ c. c.name) (get_by_text t.declared.value.names) t.declared.value.decl.columns
        (length t.declared.value.decl.columns)
        × (string_bytes t.declared.value.spelled ≡ table_text t.declared.value.decl)) };
}

impl Table {
    ghost use Rattle.std.specs.Prelude.{◌≡◌, false, IfOk, option_map};
    ghost use Rattle.sql_schema.specs.Columns.{column_in, column_named, columns_in};
    ghost use Rattle.sql_schema.specs.Refusals.{is_unsound};
    ghost use Rattle.sql_schema.specs.inside.Spelled.{table_text};

    pub(crate) fn new(alloc: Global, decl: TableDecl) -> Result<Table, NoMemory>
        requires { is_unsound decl ≡ false }
        ensures { IfOk result (λ t. t ≡ decl) }
    {
        let names = index_names(alloc, decl.columns.as_slice())?;
        let spelled = spell(alloc, &decl)?;
        let declared = Rc::new(
            alloc,
            Declared {
                decl,
                names,
                spelled,
            },
        )?;
        Ok(Table { declared })
    }

    /// The name by which Rust code looks it up.
    pub fn name(&self) -> &str
        ensures { result.now ≡ self.now.name }
    {
        self.declared.decl.name.as_str()
    }

    /// The schema, where it has one, and the name in SQL.
    pub fn path(&self) -> (Option<&str>, &str)
        ensures schema { option_map (λ s. s.now) result.0 ≡ self.now.schema }
        ensures name { result.1.now ≡ self.now.sql_name }
    {
        let schema = match &self.declared.decl.schema {
            None => None,
            Some(schema) => Some(schema.as_str()),
        };
        (schema, self.declared.decl.sql_name.as_str())
    }

    /// The declarations of the columns, in order.
    pub fn columns(&self) -> &[ColumnDecl]
        ensures columns { result.now ≡ self.now.columns }
        // Every table is sound.
        ensures sound { is_unsound self.now ≡ false }
    {
        self.declared.decl.columns.as_slice()
    }

    /// The names of the columns of the primary key, in order.
    pub fn primary_key(&self) -> &[SqlText]
        ensures { result.now ≡ self.now.primary_key }
    {
        self.declared.decl.primary_key.as_slice()
    }

    /// The column of that name, or None where there is none.
    pub fn column(&self, alloc: Global, name: &str) -> Result<Option<Column>, NoMemory>
        ensures { IfOk result (λ c. c ≡ column_in self.now name.now) }
    {
        match index_of(&self.declared.names, name) {
            None => Ok(None),
            Some(index) => {
                let table = self.try_clone(alloc)?;
                Ok(Some(Column { table, index }))
            }
        }
    }

    /// Its names and those of its columns, in one text.
    pub(crate) fn spelled_names(&self) -> &str
        ensures { result.now ≡ table_text self.now }
    {
        self.declared.spelled.as_str()
    }

    /// The declaration of the column of that name, or None where there is none.
    pub(crate) fn find_column(&self, name: &str) -> Option<&ColumnDecl>
        ensures { option_map (λ c. c.now) result ≡ column_named self.now.columns name.now }
    {
        match index_of(&self.declared.names, name) {
            None => None,
            Some(index) => Some(&self.declared.decl.columns.as_slice()[index]),
        }
    }

    /// All columns, in order.
    pub fn all_columns(&self, alloc: Global) -> Result<Vec<Column>, NoMemory>
        ensures { IfOk result (λ v. v.items ≡ columns_in self.now) }
    {
        let columns = self.columns();
        let mut all = Vec::new(alloc);
        for (index, _decl) in columns.iter().enumerate() {
            let table = self.try_clone(alloc)?;
            all.push(Column { table, index })?;
        }
        Ok(all)
    }

    /// The same table, over the same declaration.
    pub fn try_clone(&self, _alloc: Global) -> Result<Table, NoMemory>
        ensures { IfOk result (λ v. v ≡ self.now) }
    {
        let declared = self.declared.clone()?;
        Ok(Table { declared })
    }
}

/// A column of a table. Contracts see it as the table's declaration and its own. Copies share the declaration.
#[derive(Debug)]
pub struct Column {
    table: Table,
    /// Its index among the table's columns.
    index: usize,
}

impl Drop for Column {
    fn drop(self) {
        let Column { table: _, index: _ } = self;
    }
}

impl Model for Column {
    ghost use Rattle.std.specs.Prelude.{◌<◌, length};
    ghost use Rattle.sql_schema.specs.Columns.{DeclaredColumn};
    ghost use Rattle.sql_schema.specs.inside.ColumnAt.{column_at};

    ghost Value = { DeclaredColumn };

    ghost view = { λ c. column_at c.table c.index };

    ghost invariant = { λ c. c.index < length c.table.columns };
}

impl Column {
    ghost use Rattle.std.specs.Prelude.{◌≡◌, Contains};

    /// Its declaration.
    pub(crate) fn decl(&self) -> &ColumnDecl
        ensures { result.now ≡ self.now.decl }
    {
        &self.table.columns()[self.index]
    }

    /// The table that it is a column of.
    pub fn table(&self) -> &Table
        ensures table { result.now ≡ self.now.table }
        // Every column is one of its table's.
        ensures own { Contains self.now.table.columns self.now.decl }
    {
        &self.table
    }

    /// The name by which Rust code looks it up.
    pub fn name(&self) -> &str
        ensures { result.now ≡ self.now.decl.name }
    {
        self.decl().name.as_str()
    }

    /// The name in SQL.
    pub fn sql_name(&self) -> &str
        ensures { result.now ≡ self.now.decl.sql_name }
    {
        self.decl().sql_name.as_str()
    }

    /// The type of its values.
    pub fn ty(&self) -> SqlType
        ensures { result ≡ self.now.decl.ty }
    {
        self.decl().ty
    }

    /// The same column, of the same table.
    pub fn try_clone(&self, alloc: Global) -> Result<Column, NoMemory>
        ensures { IfOk result (λ v. v ≡ self.now) }
    {
        let table = self.table.try_clone(alloc)?;
        Ok(Column {
            table,
            index: self.index,
        })
    }
}

/// A column that may say how long its values are at most, as `VARCHAR(20)` does.
pub trait SizeRestrictedColumn {
    /// The greatest length, where there is one.
    ghost greatest_length: { Self → Option ℕ };

    /// How many characters or bytes a value has at most, where the declaration says so.
    fn max_length(&self) -> Option<u64>
        ensures { result ≡ greatest_length self.now };
}

impl SizeRestrictedColumn for Column {
    ghost greatest_length = { λ c. c.decl.max_length };

    fn max_length(&self) -> Option<u64> {
        self.decl().max_length
    }
}
