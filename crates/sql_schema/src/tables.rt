ghost use Rattle.std.specs.Prelude.{◌≡◌, false, IfOk, option_map};
ghost use Rattle.std.specs.List.{list_any};
ghost use Rattle.sql_schema.specs.Columns.{table_named};
ghost use Rattle.sql_schema.specs.Refusals.{any_two, tables_clash, is_unsound};
ghost use Rattle.sql_schema.specs.inside.Pairs.{table_index};

use crate::names::{Names, index_names, index_of};
use crate::{NoMemory, Table, TableDecl};
use std::alloc::Global;
use std::marker::Model;

/// The tables of a schema, each found by its name. Contracts see them as the list of their declarations.
#[derive(Debug, Drop)]
pub(crate) struct Tables {
    items: Vec<Table>,
    names: Names,
}

impl Model for Tables {
    ghost use Rattle.std.specs.Prelude.{◌≡◌, List, false, length};
    ghost use Rattle.std.specs.BTreeMap.{get_by_text};
    ghost use Rattle.sql_schema.specs.declared.declaration.TableDecl.{TableDecl};
    ghost use Rattle.sql_schema.specs.Refusals.{any_two, tables_clash};
    ghost use Rattle.sql_schema.specs.inside.Indices.{Indexes};

    ghost Value = { List TableDecl };

    ghost view = { λ t. t.items.items };

    ghost invariant = { λ t. (any_two tables_clash t.items.items ≡ false)
        × Indexes (λ d. d.name) (get_by_text t.names) t.items.items (length t.items.items) };
}

impl Tables {
    pub(crate) fn new(alloc: Global, decls: Vec<TableDecl>) -> Result<Tables, NoMemory>
        requires differ { any_two tables_clash decls.items ≡ false }
        requires sound { list_any is_unsound decls.items ≡ false }
        ensures { IfOk result (λ t. t ≡ decls.items) }
    {
        let names = index_names(alloc, decls.as_slice())?;
        let items = sound_tables(alloc, decls)?;
        Ok(Tables { items, names })
    }

    /// The tables, in the order in which they were declared.
    pub(crate) fn as_slice(&self) -> &[Table]
        ensures { result.now ≡ self.now }
    {
        self.items.as_slice()
    }

    /// The table of that name, or None where there is none.
    pub(crate) fn find(&self, name: &str) -> Option<&Table>
        ensures { option_map (λ t. t.now) result ≡ table_named self.now name.now }
    {
        match index_of(&self.names, name) {
            None => None,
            Some(index) => Some(&self.items[index]),
        }
    }

    /// The index of the table of that name, or None where there is none.
    pub(crate) fn index(&self, name: &str) -> Option<usize>
        ensures { result ≡ table_index self.now name.now }
    {
        index_of(&self.names, name)
    }
}

/// The same tables, each known to be sound.
fn sound_tables(alloc: Global, decls: Vec<TableDecl>) -> Result<Vec<Table>, NoMemory>
    requires { list_any is_unsound decls.items ≡ false }
    ensures { IfOk result (λ v. v.items ≡ decls.items) }
{
    let mut tables = Vec::new(alloc);
    for decl in decls {
        tables.push(Table::new(alloc, decl)?)?;
    }
    Ok(tables)
}
