use sql_check::{CompileError, RULES, values_fit};
use sql_expr::{Expr, ExpressionMethods, InValues, Statement};
use sql_pass::Value;
use sql_schema::SqlList;
use sql_select::{Query, QueryDsl};
use sql_test_calls::fixture::{all, id};
use sql_test_kit::{INTEGER, beside};
use std::alloc::Global;
use std::test::Fail;

#[test]
fn messages_are_names(rt: HostRuntime) -> Result<(), Fail> {
    let alloc = rt.alloc();
    for rule in RULES {
        let error = CompileError::from(rule);
        assert_eq!(rt; error.to_string(alloc)?.as_str(), rule.name());
        assert_eq!(rt; error.rule(), Some(rule));
    }
    let none = CompileError::NoMemory;
    assert_eq!(rt; none.to_string(alloc)?.as_str(), "NoMemory");
    assert_eq!(rt; none.rule(), None);
    Ok(())
}

/// `("users"."id" = $1)` over this value.
fn equal(alloc: Global, value: Value) -> Result<Expr, Fail> {
    let (value, id) = beside(value, id(alloc))?;
    Ok(id.eq(alloc, Expr::Value(INTEGER, value))?)
}

/// `("users"."id" = ANY($1))` over 1 and this value.
fn among(alloc: Global, value: Value) -> Result<Expr, Fail> {
    let (value, id) = beside(value, id(alloc))?;
    let (id, values) = beside(id, vec![in alloc; Value::Integer(1), value])?;
    Ok(id.eq_any(alloc, InValues::List(INTEGER, SqlList::from(values)))?)
}

fn fit_where(alloc: Global, condition: Result<Expr, Fail>) -> Result<bool, Fail> {
    let (condition, all) = beside(condition?, all(alloc))?;
    let statement: Statement = all.filter(alloc, condition)?.into_statement();
    Ok(values_fit(&statement))
}

#[test]
fn values_that_fit(rt: HostRuntime) -> Result<(), Fail> {
    let alloc = rt.alloc();
    assert!(rt; fit_where(alloc, equal(alloc, Value::Integer(2)))?);
    assert!(rt; !fit_where(alloc, equal(alloc, Value::Null))?);
    assert!(rt; !fit_where(alloc, equal(alloc, Value::Bool(true)))?);
    assert!(rt; fit_where(alloc, among(alloc, Value::Integer(2)))?);
    assert!(rt; !fit_where(alloc, among(alloc, Value::Null))?);
    Ok(())
}
