//! A first program over Hardieflax: a schema, a query, and its text for PostgreSQL.
#![tactic(auto)]

use anyhow::{Context, Result};
use hardieflax::documents::read_schema;
use hardieflax::{AsQuery, ExpressionMethods, Pg, Query, QueryDsl, compile};

const SCHEMA: &str = r#"{"schema": {"tables": [
  {"name": "users", "columns": [{"name": "id", "type": "Integer"}, {"name": "name", "type": "Text"}]}
]}}"#;

fn main(rt: HostRuntime) -> Result<()> {
    let alloc = rt.alloc();
    let schema = read_schema(alloc, SCHEMA.as_bytes())?;
    let users = schema.table("users").context("no users")?;
    let name = users.column(alloc, "name")?.context("no name")?;
    let query = users
        .as_query(alloc)?
        .filter(alloc, name.eq(alloc, "Sean")?)?
        .limit(10);
    let built = compile(alloc, &Pg, &schema, &query.into_statement())?;
    println!(rt; "{}", built.sql.as_str())?;
    Ok(())
}
