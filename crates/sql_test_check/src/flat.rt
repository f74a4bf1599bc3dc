//! The nodes of a statement and their ends, and the statement that comes back.

use sql_expr::{Expr, ExpressionMethods, InValues, Statement};
use sql_flat::{Flat, FlatKind, FlatNode, flatten};
use sql_flat_back::Unflatten;
use sql_pass::Value;
use sql_schema::SqlList;
use sql_select::{Query, QueryDsl};
use sql_test_calls::fixture::{id, ids};
use sql_test_kit::{INTEGER, beside, gives, is};
use std::alloc::Global;
use std::test::Fail;

/// `("users"."id" = ANY($1))` over 1 and 2.
fn among(alloc: Global) -> Result<Expr, Fail> {
    let (id, values) = beside(
        id(alloc)?,
        vec![in alloc; Value::Integer(1), Value::Integer(2)],
    )?;
    Ok(id.eq_any(alloc, InValues::List(INTEGER, SqlList::from(values)))?)
}

fn chosen(alloc: Global) -> Result<Statement, Fail> {
    let (condition, ids) = beside(among(alloc)?, ids(alloc))?;
    Ok(ids.filter(alloc, condition)?.into_statement())
}

fn flat(alloc: Global) -> Result<Flat, Fail> {
    let statement = chosen(alloc)?;
    let flat = flatten(alloc, &statement);
    drop(statement);
    Ok(flat?)
}

/// Whether these are the ends of the nodes.
pub(crate) fn end_at(nodes: &[FlatNode], ends: &[usize]) -> bool {
    nodes.len() == ends.len() && nodes.iter().zip(ends).all(|(node, end)| node.end == *end)
}

fn is_where(node: Option<&FlatNode>) -> bool {
    match node {
        Some(node) => matches!(node.kind, FlatKind::Where),
        None => false,
    }
}

fn is_two(node: Option<&FlatNode>) -> bool {
    match node {
        Some(node) => matches!(node.kind, FlatKind::Element(_, Value::Integer(2))),
        None => false,
    }
}

/// Select, the column; From, the table; Where, Among, the column, the list, its two values.
#[test]
fn nodes_in_writing_order(rt: HostRuntime) -> Result<(), Fail> {
    let flat = flat(rt.alloc())?;
    let nodes = flat.nodes();
    is(end_at(nodes, &[10, 2, 4, 4, 10, 10, 7, 10, 9, 10]), "ends")?;
    is(is_where(nodes.get(4)), "a clause of its own")?;
    is(is_two(nodes.last()), "the values of the list")
}

#[test]
fn a_statement_comes_back(rt: HostRuntime) -> Result<(), Fail> {
    let alloc = rt.alloc();
    let flat = flat(alloc)?;
    let back = flat.unflatten(alloc);
    drop(flat);
    gives(
        alloc,
        back,
        r#"SELECT "users"."id" FROM "users" WHERE ("users"."id" = ANY($1))"#,
    )
}
