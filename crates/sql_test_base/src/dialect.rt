//! The last number that a placeholder may have. Quotes, words and what dialects combine are rows of the stored run.
use sql_dialect::*;
use std::test::Fail;

#[test]
fn last_placeholder(rt: HostRuntime) -> Result<(), Fail> {
    let mut full = PgQueryBuilder::with_bind_idx(rt.alloc(), 4294967295);
    assert_eq!(rt; full.push_bind_param(), Err(BindError::TooManyBinds));
    assert_eq!(rt;
        full.push_bind_param_value_only(),
        Err(BindError::TooManyBinds)
    );
    assert_eq!(rt; full.bind_idx(), 4294967295);
    assert_eq!(rt; full.finish().as_str(), "");
    let mut last = PgQueryBuilder::with_bind_idx(rt.alloc(), 4294967294);
    last.push_bind_param()?;
    assert_eq!(rt; last.bind_idx(), 4294967295);
    assert_eq!(rt; last.finish().as_str(), "$4294967295");
    Ok(())
}

#[test]
fn last_placeholder_in_brackets(rt: HostRuntime) -> Result<(), Fail> {
    let mut full = BracketQueryBuilder::with_bind_idx(rt.alloc(), 4294967295);
    assert_eq!(rt; full.push_bind_param(), Err(BindError::TooManyBinds));
    assert_eq!(rt; full.finish().as_str(), "");
    let mut last = BracketQueryBuilder::with_bind_idx(rt.alloc(), 4294967294);
    last.push_bind_param()?;
    assert_eq!(rt; last.bind_idx(), 4294967295);
    assert_eq!(rt; last.finish().as_str(), "@p4294967295");
    Ok(())
}
