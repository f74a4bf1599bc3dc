//! The schema of the gallery: users, their posts, and comments on those, as a document of the program declares them.

use crate::failure::Failure;
use hardieflax::documents::read_schema;
use hardieflax::{Column, Pg, Schema, Statement, Table, compile, debug_query};
use std::alloc::Global;

/// What the program's documents have as their schema too, so that both share one declaration.
const DOCUMENT: &str = r#"{"schema": {
  "tables": [
    {"name": "users", "columns": [{"name": "id", "type": "Integer"}, {"name": "name", "type": "Text"}, {"name": "email", "type": "Text?"}]},
    {"name": "posts", "columns": [{"name": "id", "type": "Integer"}, {"name": "user_id", "type": "Integer"}, {"name": "title", "type": "Text"}]},
    {"name": "comments", "columns": [{"name": "id", "type": "Integer"}, {"name": "post_id", "type": "Integer"}, {"name": "text", "type": "Text"}]}
  ],
  "joinable": [{"child": "posts", "key": "user_id", "parent": "users"}, {"child": "comments", "key": "post_id", "parent": "posts"}],
  "together": [["users", "posts"], ["users", "comments"], ["posts", "comments"]]
}}"#;

/// The schema, with what the examples ask of it.
#[derive(Drop)]
pub struct Blog {
    pub schema: Schema,
}

impl Blog {
    pub fn new(alloc: Global) -> Result<Blog, Failure> {
        let schema = read_schema(alloc, DOCUMENT.as_bytes())?;
        Ok(Blog { schema })
    }

    pub fn table(&self, name: &'static str) -> Result<&Table, Failure> {
        self.schema.table(name).ok_or(Failure::Missing(name))
    }

    pub fn column(
        &self,
        alloc: Global,
        table: &'static str,
        name: &'static str,
    ) -> Result<Column, Failure> {
        let column = self.table(table)?.column(alloc, name)?;
        column.ok_or(Failure::Missing(name))
    }
}

/// Prints the statement's text and values for PostgreSQL, or the first rule that it breaks.
pub fn show(
    rt: &HostRuntime,
    blog: &Blog,
    what: &str,
    statement: Statement,
) -> Result<(), Failure> {
    let alloc = rt.alloc();
    match compile(alloc, &Pg, &blog.schema, &statement) {
        Ok(_) => {
            let line = debug_query(alloc, &Pg, &statement).map_err(Failure::Shown)?;
            println!(rt; "{what}: {line}")?;
        }
        Err(error) => println!(rt; "{what}: {error}")?,
    }
    Ok(())
}
