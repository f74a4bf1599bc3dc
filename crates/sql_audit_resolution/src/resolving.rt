ghost use Rattle.std.specs.Prelude.{◌≡◌, [], map, IfOk};
ghost use Rattle.sql_read_tree.specs.View.{query_tree};
ghost use Rattle.sql_audit_resolution.specs.Leaves as l;
ghost use Rattle.sql_audit_resolution.specs.Meant as meant;
ghost use Rattle.sql_audit_resolution.specs.Uses as u;

use crate::column_use::Meaning;
use crate::known::Known;
use crate::walk::walk_query;
use sql_read_tree::Query;
use sql_schema::{NoMemory, Schema, SqlText};
use std::alloc::Global;

/// The tables of the leaves and the meanings of the paths of a text, in the order of the text.
#[derive(Debug, Drop)]
pub struct Resolution {
    /// The name by which the table of each leaf is looked up, if the schema has that table.
    pub tables: Vec<Option<SqlText>>,
    /// The meaning of each column path.
    pub meanings: Vec<Meaning>,
}

/// Resolves the paths of a statement by the tables of the schema.
///
/// It takes time in the statement's length times its depth, and for each path in the number of leaves that are sought.
pub fn resolve(alloc: Global, schema: &Schema, query: &Query) -> Result<Resolution, NoMemory>
    ensures tables { IfOk result (λ r. r.tables.items
        ≡ map (meant.name_at schema.now.tables) (l.tables_query (query_tree query.now))) }
    ensures meanings { IfOk result (λ r. r.meanings.items
        ≡ map (meant.meaning schema.now.tables) (u.uses_query [] 0 (query_tree query.now))) }
{
    let mut known = Known::new(alloc);
    walk_query(alloc, schema, &mut known, &[], query)?;
    let (tables, meanings) = known.into_parts();
    Ok(Resolution { tables, meanings })
}
