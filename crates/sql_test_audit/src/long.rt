use crate::shown::schema;
use sql_audit::{AuditError, audit};
use sql_dialect::Dialect;
use sql_schema::Schema;
use std::alloc::{AllocError, Global};
use std::test::Fail;

/// How many tables and uses a text has.
fn counts(alloc: Global, schema: &Schema, text: &str) -> Result<(usize, usize), AuditError> {
    let report = audit(alloc, Dialect::Pg, schema, text)?;
    Ok((report.tables.as_slice().len(), report.uses.as_slice().len()))
}

/// Selects a column so many times.
fn repeated(alloc: Global, paths: usize) -> Result<String, AllocError> {
    let mut text = String::new(alloc);
    text.push_str("SELECT \"users\".\"id\"")?;
    for _ in 1..paths {
        text.push_str(", \"users\".\"id\"")?;
    }
    text.push_str(" FROM \"users\"")?;
    Ok(text)
}

/// A subselect in the condition of another, so deep, the innermost with a path of the outermost.
fn nested(alloc: Global, depth: usize) -> Result<String, AllocError> {
    let mut text = String::new(alloc);
    text.push_str("SELECT $1 FROM \"users\"")?;
    for _ in 0..depth {
        text.push_str(" WHERE EXISTS (SELECT $1 FROM \"posts\"")?;
    }
    text.push_str(" WHERE (\"users\".\"id\" = \"users\".\"id\")")?;
    for _ in 0..depth {
        text.push_str(")")?;
    }
    Ok(text)
}

#[test]
fn many_paths(rt: HostRuntime) -> Result<(), Fail> {
    let schema = schema(rt.alloc())?;
    for paths in [1000, 10000] {
        let text = repeated(rt.alloc(), paths)?;
        assert!(rt; counts(rt.alloc(), &schema, text.as_str())? == (1, paths));
    }
    Ok(())
}

#[test]
fn deep_texts(rt: HostRuntime) -> Result<(), Fail> {
    let schema = schema(rt.alloc())?;
    let text = nested(rt.alloc(), 999)?;
    assert!(rt; counts(rt.alloc(), &schema, text.as_str())? == (1000, 2));
    Ok(())
}
