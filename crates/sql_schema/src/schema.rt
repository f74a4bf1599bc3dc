ghost use Rattle.std.specs.Prelude.{◌≡◌, Bool, IfOk};
ghost use Rattle.sql_schema.specs.Together.{may_stand_together};
ghost use Rattle.sql_schema.specs.declared.declaration.TableDecl.{TableDecl};

use crate::pairs::{Pairs, index_of_pair, index_pairs};
use crate::refusal::{relation_refusal, table_refusal};
use crate::tables::Tables;
use crate::{JoinableDecl, NoMemory, SchemaError, SqlText, Table, TableDecl};
use std::alloc::Global;
use std::marker::Model;

/// Gathers the declarations of a schema. Nothing is checked before `build`.
#[derive(Debug, Drop)]
pub struct SchemaBuilder {
    alloc: Global,
    tables: Vec<TableDecl>,
    joinables: Vec<JoinableDecl>,
    together: Vec<(SqlText, SqlText)>,
}

impl Model for SchemaBuilder {
    ghost use Rattle.sql_schema.specs.Declarations.{Declarations};

    ghost Value = { Declarations };

    ghost view = { λ b. record {
      tables = b.tables.items;
      joinables = b.joinables.items;
      together = b.together.items;
    } };
}

fn copied(alloc: Global, text: &str) -> Result<SqlText, NoMemory>
    ensures { IfOk result (λ t. t ≡ text.now) }
{
    let text = String::from_str(alloc, text)?;
    Ok(SqlText::from(text))
}

impl SchemaBuilder {
    ghost use Rattle.std.specs.Prelude.{◌≡◌, ◌⊎◌, [], ◌∷◌, ◌++◌, None, Some, IfOk, IfErr, OnOk, OnErr};
    ghost use Rattle.sql_schema.specs.Refusals.{least_refusal};
    ghost use Rattle.sql_schema.specs.declared.error.SchemaError.TheVariants as E;

    /// A builder without declarations.
    pub fn new(alloc: Global) -> SchemaBuilder
        ensures { result ≡ record { tables = []; joinables = []; together = [] } }
    {
        SchemaBuilder {
            alloc,
            tables: Vec::new(alloc),
            joinables: Vec::new(alloc),
            together: Vec::new(alloc),
        }
    }

    /// Declares a table.
    pub fn table(&mut self, decl: TableDecl) -> Result<(), NoMemory>
        ensures ok { OnOk result
            (self.new ≡ record self.old { tables = self.old.tables ++ decl ∷ [] }) }
        ensures err { OnErr result (self.new ≡ self.old) }
    {
        self.tables.push(decl)?;
        Ok(())
    }

    /// Declares that the column `key` of `child` refers to the key of `parent`, so that joins of the two know their ON.
    pub fn joinable(&mut self, child: &str, key: &str, parent: &str) -> Result<(), NoMemory>
        ensures ok { OnOk result
            (self.new
            ≡ record self.old {
              joinables =
                  self.old.joinables
                  ++ (record { child = child.now; key = key.now; parent = parent.now })
                  ∷ [];
            }) }
        ensures err { OnErr result (self.new ≡ self.old) }
    {
        let child = copied(self.alloc, child)?;
        let key = copied(self.alloc, key)?;
        let parent = copied(self.alloc, parent)?;
        self.joinables.push(JoinableDecl { child, key, parent })?;
        Ok(())
    }

    /// Declares that the two tables may stand in one statement.
    pub fn together(&mut self, a: &str, b: &str) -> Result<(), NoMemory>
        ensures ok { OnOk result
            (self.new ≡ record self.old { together = self.old.together ++ (a.now, b.now) ∷ [] }) }
        ensures err { OnErr result (self.new ≡ self.old) }
    {
        let a = copied(self.alloc, a)?;
        let b = copied(self.alloc, b)?;
        self.together.push((a, b))?;
        Ok(())
    }

    /// The schema of the declarations, or the first refusal that holds of them, in the order of `SchemaError`.
    pub fn build(self) -> Result<Schema, SchemaError>
        ensures kept { IfOk result (λ s. s ≡ self) }
        ensures sound { OnOk result (least_refusal self ≡ None) }
        ensures refused { IfErr result (λ e. (e ≡ E.NoMemory) ⊎ (least_refusal self ≡ Some e)) }
    {
        let SchemaBuilder {
            alloc,
            tables,
            joinables,
            together,
        } = self;
        let found = table_refusal(alloc, tables.as_slice())?;
        match found {
            Some(error) => return Err(error),
            None => {}
        }
        let tables = Tables::new(alloc, tables)?;
        let refused = relation_refusal(alloc, &tables, joinables.as_slice(), together.as_slice())?;
        match refused {
            Some(refusal) => Err(refusal),
            None => Ok(Schema::with_indexes(alloc, tables, joinables, together)?),
        }
    }
}

/// Declarations of which no refusal holds.
#[derive(Debug, Drop)]
pub struct Schema {
    tables: Tables,
    joinables: Vec<JoinableDecl>,
    together: Vec<(SqlText, SqlText)>,
    /// The relations, by the tables that they relate.
    relations: Pairs,
    /// The pairs of `together`, by their tables.
    allowed: Pairs,
}

impl Model for Schema {
    ghost use Rattle.std.specs.Prelude.{◌≡◌, None, length};
    ghost use Rattle.sql_schema.specs.Declarations.{Declarations};
    ghost use Rattle.sql_schema.specs.Refusals.{least_refusal};
    ghost use Rattle.sql_schema.specs.inside.Pairs.{IndexesPairs};

    ghost Value = { Declarations };

    ghost view = { λ s. record {
      tables = s.tables;
      joinables = s.joinables.items;
      together = s.together.items;
    } };

    ghost invariant = { λ s. (least_refusal (record {
      tables = s.tables;
      joinables = s.joinables.items;
      together = s.together.items;
    })
        ≡ None)
        × IndexesPairs s.tables (λ j. (j.child, j.parent)) s.relations s.joinables.items
        (length s.joinables.items)
        × IndexesPairs s.tables (λ p. p) s.allowed s.together.items (length s.together.items) };
}

impl Schema {
    ghost use Rattle.std.specs.Prelude.{◌≡◌, None, IfOk, option_map};
    ghost use Rattle.sql_schema.specs.Columns.{table_named};
    ghost use Rattle.sql_schema.specs.Refusals.{least_refusal};
    ghost use Rattle.sql_schema.specs.Relations.{relation_of};

    /// The schema of declarations that are not refused.
    fn with_indexes(
        alloc: Global,
        tables: Tables,
        joinables: Vec<JoinableDecl>,
        together: Vec<(SqlText, SqlText)>,
    ) -> Result<Schema, NoMemory>
        requires { least_refusal (record {
          tables = tables;
          joinables = joinables.items;
          together = together.items;
        })
            ≡ None }
        ensures { IfOk result (λ s. s
            ≡ record { tables = tables; joinables = joinables.items; together = together.items }) }
    {
        let relations = index_pairs(alloc, &tables, joinables.as_slice())?;
        let allowed = index_pairs(alloc, &tables, together.as_slice())?;
        Ok(Schema {
            tables,
            joinables,
            together,
            relations,
            allowed,
        })
    }

    /// The table of that name, or None where there is none.
    pub fn table(&self, name: &str) -> Option<&Table>
        ensures { option_map (λ t. t.now) result ≡ table_named self.now.tables name.now }
    {
        self.tables.find(name)
    }

    /// The tables, in the order in which they were declared.
    pub fn tables(&self) -> &[Table]
        ensures tables { result.now ≡ self.now.tables }
        // No refusal holds of a schema.
        ensures sound { least_refusal self.now ≡ None }
    {
        self.tables.as_slice()
    }

    /// The relations, in the order in which they were declared.
    pub fn joinables(&self) -> &[JoinableDecl]
        ensures { result.now ≡ self.now.joinables }
    {
        self.joinables.as_slice()
    }

    /// The relation declared between the tables of these names, in either direction, or None where there is none.
    pub fn relation(&self, one: &str, other: &str) -> Option<&JoinableDecl>
        ensures { option_map (λ j. j.now) result
            ≡ relation_of self.now.joinables one.now other.now }
    {
        match index_of_pair(&self.relations, &self.tables, one, other) {
            None => None,
            Some(index) => Some(&self.joinables[index]),
        }
    }
}

/// Tells which tables may stand in one statement.
pub trait TableNotEqual {
    /// Whether the two were declared to stand together.
    ghost stand_together: { Self → TableDecl → TableDecl → Bool };

    /// Whether one `together` names the two tables, in either order.
    fn allowed_together(&self, a: &Table, b: &Table) -> bool
        ensures { result ≡ stand_together self.now a.now b.now };
}

impl TableNotEqual for Schema {
    ghost stand_together = { λ s. may_stand_together s.together };

    fn allowed_together(&self, a: &Table, b: &Table) -> bool {
        index_of_pair(&self.allowed, &self.tables, a.name(), b.name()).is_some()
    }
}
