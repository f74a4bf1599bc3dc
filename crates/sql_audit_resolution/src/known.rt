ghost use Rattle.std.specs.Prelude.{◌≡◌, ◌∷◌, [], ◌++◌, length, map, IfOk, OnOk, option_map};
ghost use Rattle.sql_audit_resolution.specs.Leaves as l;
ghost use Rattle.sql_audit_resolution.specs.Meant as meant;
ghost use Rattle.sql_audit_resolution.specs.inside.After as after;

use crate::column_use::Meaning;
use crate::leaf::Level;
use crate::named::sought;
use crate::path::{copied, names_backwards, table_at};
use sql_read_tree::Names;
use sql_schema::{NoMemory, Schema, SqlText, Table};
use std::alloc::Global;
use std::marker::Model;

/// The tables and the meanings that are known of a text so far, in its order.
#[derive(Drop)]
pub(crate) struct Known {
    tables: Vec<Option<SqlText>>,
    meanings: Vec<Meaning>,
}

impl Model for Known {
    ghost use Rattle.sql_audit_resolution.specs.inside.After as after;

    ghost Value = { after.Known };

    ghost view = { λ k. record { tables = k.tables.items; meanings = k.meanings.items } };
}

fn name_of(alloc: Global, table: Option<&Table>) -> Result<Option<SqlText>, NoMemory>
    ensures { IfOk result (λ n. n ≡ option_map (λ t. t.now.name) table.entry) }
{
    match table {
        None => Ok(None),
        Some(table) => Ok(Some(copied(alloc, table.name())?)),
    }
}

/// The name by which the table of that path is looked up.
fn name_at(alloc: Global, schema: &Schema, path: &[SqlText]) -> Result<Option<SqlText>, NoMemory>
    ensures { IfOk result (λ n. n ≡ meant.name_at schema.now.tables path.now) }
{
    name_of(alloc, table_at(schema, path))
}

impl Known {
    /// Nothing.
    pub(crate) fn new(alloc: Global) -> Known
        ensures { result ≡ record { tables = []; meanings = [] } }
    {
        Known {
            tables: Vec::new(alloc),
            meanings: Vec::new(alloc),
        }
    }

    /// The tables of the leaves, and what the paths stand for.
    pub(crate) fn into_parts(self) -> (Vec<Option<SqlText>>, Vec<Meaning>)
        ensures { (result.0.items ≡ self.tables) × (result.1.items ≡ self.meanings) }
    {
        let Known { tables, meanings } = self;
        (tables, meanings)
    }

    /// How many leaves there are.
    pub(crate) fn count(&self) -> usize
        ensures { result ≡ length self.now.tables }
    {
        self.tables.len()
    }

    /// Takes in a leaf of that table.
    pub(crate) fn push_table(
        &mut self,
        alloc: Global,
        schema: &Schema,
        names: &Names,
    ) -> Result<(), NoMemory>
        ensures { OnOk result
            (self.new
            ≡ record self.old {
              tables =
                  self.old.tables
                  ++ meant.name_at schema.now.tables (l.backwards names.now.first names.now.more)
                  ∷ [];
            }) }
    {
        let path = names_backwards(alloc, names)?;
        let name = name_at(alloc, schema, path.as_slice())?;
        self.tables.push(name)?;
        Ok(())
    }

    /// Takes in a path, which is sought in these levels.
    // (not inlined: the walk of a tree calls itself for each level, and what it calls takes no stack there)
    #[inline(never)]
    pub(crate) fn push_path(
        &mut self,
        alloc: Global,
        schema: &Schema,
        levels: &[Level],
        names: &Names,
    ) -> Result<(), NoMemory>
        ensures { OnOk result
            (self.new
            ≡ record self.old {
              meanings =
                  self.old.meanings
                  ++ meant.sought schema.now.tables
                  (l.backwards names.now.first names.now.more)
                  levels.now
                  ∷ [];
            }) }
    {
        let path = names_backwards(alloc, names)?;
        let meaning = sought(alloc, schema, path.as_slice(), levels)?;
        self.meanings.push(meaning)?;
        Ok(())
    }
}
