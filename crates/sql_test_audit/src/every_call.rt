//! Each public call of the audit that can answer NoMemory, made once with memory to spare.

use crate::shown::schema;
use sql_audit::audit;
use sql_audit_resolution::{Meaning, Resolution, resolve};
use sql_dialect::Dialect;
use sql_read::read;
use sql_schema::Schema;
use sql_test_kit::is;
use std::alloc::Global;
use std::test::Fail;

const TEXT: &str = "SELECT \"users\".\"id\" FROM \"users\"";

fn resolved(alloc: Global, schema: &Schema) -> Result<Resolution, Fail> {
    let tree = read(alloc, Dialect::Pg, TEXT)?;
    let found = resolve(alloc, schema, tree.query());
    drop(tree);
    Ok(found?)
}

fn is_id(meaning: Option<&Meaning>) -> bool {
    match meaning {
        Some(Meaning::Column(used)) => used.column.as_str() == "id" && used.leaf == 0,
        _ => false,
    }
}

#[test]
fn every_call_once(rt: HostRuntime) -> Result<(), Fail> {
    let alloc = rt.alloc();
    let schema = schema(alloc)?;
    let found = resolved(alloc, &schema)?;
    is(found.tables.len() == 1, "one leaf")?;
    is(is_id(found.meanings.first()), "its column")?;
    let report = audit(alloc, Dialect::Pg, &schema, TEXT)?;
    is(
        report.tables.as_slice().len() == 1 && report.uses.as_slice().len() == 1,
        "a table and a column",
    )
}
