//! The calls that take what turns into a part.

use crate::fixture::{id, ids, one};
use sql_expr::{
    Alias, AliasedField, AsExpression, AsInExpression, ExpressionMethods, IntoExpressions,
    IntoJoinRhs, IntoOrder, IntoOrderItem, JoinRhs, OrderClause, OrderItem, count, list, not,
    order_by,
};
use sql_schema::{NoMemory, SqlList};
use sql_source::{AliasFields, NewAlias};
use sql_test_kit::{column, gives, table, writes};
use std::alloc::Global;
use std::test::Fail;

pub fn every_call(alloc: Global) -> Result<(), Fail> {
    values(alloc)?;
    operands(alloc)?;
    memberships(alloc)?;
    lists(alloc)?;
    orders(alloc)?;
    parts(alloc)?;
    sides(alloc)
}

/// Each kind of value is bound.
fn values(alloc: Global) -> Result<(), Fail> {
    gives(alloc, "a".as_expression(alloc), "$1")?;
    gives(alloc, b"a".as_slice().as_expression(alloc), "$1")?;
    let owned = String::from_str(alloc, "a")?;
    gives(alloc, owned.as_expression(alloc), "$1")?;
    let owned = vec![in alloc; 1u8]?;
    gives(alloc, owned.as_expression(alloc), "$1")?;
    gives(alloc, 1i16.as_expression(alloc), "$1")?;
    gives(alloc, 1i64.as_expression(alloc), "$1")?;
    gives(alloc, true.as_expression(alloc), "$1")
}

/// `"u"."id"`.
fn field(alloc: Global) -> Result<AliasedField, Fail> {
    let id = column(alloc, "users", "id")?;
    Ok(alias(alloc)?.field(alloc, &id)?)
}

/// `"users" AS "u"`.
fn alias(alloc: Global) -> Result<Alias, Fail> {
    let name = String::from_str(alloc, "u")?;
    Ok(Alias::new(name, table(alloc, "users")?))
}

fn operands(alloc: Global) -> Result<(), Fail> {
    let name = column(alloc, "users", "name")?;
    gives(alloc, name.ne(alloc, 1i32), "(\"users\".\"name\" != $1)")?;
    let name = column(alloc, "users", "name")?;
    gives(
        alloc,
        id(alloc)?.lt(alloc, &name),
        "(\"users\".\"id\" < \"users\".\"name\")",
    )?;
    gives(
        alloc,
        field(alloc)?.eq(alloc, name),
        "(\"u\".\"id\" = \"users\".\"name\")",
    )?;
    gives(
        alloc,
        id(alloc)?.ge(alloc, field(alloc)?),
        "(\"users\".\"id\" >= \"u\".\"id\")",
    )?;
    gives(
        alloc,
        count(alloc, column(alloc, "users", "id")?),
        "COUNT(\"users\".\"id\")",
    )?;
    gives(alloc, not(alloc, true), "NOT ($1)")
}

fn memberships(alloc: Global) -> Result<(), Fail> {
    let numbers = [1i32, 2].as_slice();
    gives(
        alloc,
        id(alloc)?.eq_any(alloc, numbers),
        "(\"users\".\"id\" = ANY($1))",
    )?;
    let numbers = [1i64, 2].as_slice();
    gives(
        alloc,
        id(alloc)?.ne_all(alloc, numbers),
        "(\"users\".\"id\" != ALL($1))",
    )?;
    gives(
        alloc,
        id(alloc)?.eq_any(alloc, ids(alloc)?),
        "(\"users\".\"id\" = ANY(SELECT \"users\".\"id\" FROM \"users\"))",
    )
}

/// What the calls above make by themselves.
fn parts(alloc: Global) -> Result<(), Fail> {
    let sought = id(alloc)?;
    let among = [1i32].as_slice().as_in_expression(alloc)?;
    gives(
        alloc,
        sought.eq_any(alloc, among),
        "(\"users\".\"id\" = ANY($1))",
    )?;
    let exprs = (id(alloc)?, 1i32).into_expressions(alloc)?;
    gives(alloc, list(alloc, exprs), "\"users\".\"id\", $1")?;
    gives(alloc, id(alloc)?.into_order_item(alloc), "\"users\".\"id\"")?;
    orders_by(
        alloc,
        id(alloc)?.into_order(alloc),
        " ORDER BY \"users\".\"id\"",
    )
}

fn lists(alloc: Global) -> Result<(), Fail> {
    let name = column(alloc, "users", "name")?;
    gives(
        alloc,
        list(alloc, (id(alloc)?, &name)),
        "\"users\".\"id\", \"users\".\"name\"",
    )?;
    gives(
        alloc,
        list(alloc, (name, 1i32, "a")),
        "\"users\".\"name\", $1, $2",
    )?;
    gives(
        alloc,
        list(alloc, (1i32, 2i32, one(alloc)?, 4i32)),
        "$1, $2, $3, $4",
    )?;
    let exprs = vec![in alloc; id(alloc)?]?;
    gives(alloc, list(alloc, exprs), "\"users\".\"id\"")
}

/// Fails with the text of the order, where it is another.
fn orders_by(
    alloc: Global,
    items: Result<Vec<OrderItem>, NoMemory>,
    wanted: &str,
) -> Result<(), Fail> {
    let items = SqlList::from(items?);
    writes(alloc, OrderClause::OrderClause(items), wanted)
}

fn orders(alloc: Global) -> Result<(), Fail> {
    let name = column(alloc, "users", "name")?;
    orders_by(
        alloc,
        order_by(alloc, &name),
        " ORDER BY \"users\".\"name\"",
    )?;
    orders_by(alloc, order_by(alloc, name), " ORDER BY \"users\".\"name\"")?;
    orders_by(
        alloc,
        order_by(alloc, id(alloc)?),
        " ORDER BY \"users\".\"id\"",
    )?;
    orders_by(
        alloc,
        order_by(alloc, id(alloc)?.desc()),
        " ORDER BY \"users\".\"id\" DESC",
    )?;
    orders_by(
        alloc,
        order_by(alloc, field(alloc)?),
        " ORDER BY \"u\".\"id\"",
    )?;
    let name = column(alloc, "users", "name")?;
    orders_by(
        alloc,
        order_by(alloc, (&name, id(alloc)?.asc())),
        " ORDER BY \"users\".\"name\", \"users\".\"id\" ASC",
    )?;
    orders_by(
        alloc,
        order_by(alloc, (id(alloc)?, name, field(alloc)?)),
        " ORDER BY \"users\".\"id\", \"users\".\"name\", \"u\".\"id\"",
    )
}

fn sides(alloc: Global) -> Result<(), Fail> {
    writes(alloc, table(alloc, "users")?.into_join_rhs(), "\"users\"")?;
    writes(alloc, alias(alloc)?.into_join_rhs(), "\"users\" AS \"u\"")?;
    writes(alloc, JoinRhs::from(table(alloc, "users")?), "\"users\"")?;
    writes(alloc, JoinRhs::from(alias(alloc)?), "\"users\" AS \"u\"")
}
