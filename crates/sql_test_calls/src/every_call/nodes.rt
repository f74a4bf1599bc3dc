//! The nodes that hold expressions: each is copied, and its copy written.

use crate::fixture::{id, ids, one};
use sql_dialect::Pg;
use sql_expr::{
    BoxedSelectStatement, CombinationClause, DistinctClause, Expr, ExpressionMethods, FromClause,
    GroupByClause, HavingClause, InValues, Join, JoinKind, JoinOn, JoinRhs, OnClauseWrapper,
    OrderClause, OrderItem, SelectClause, SelectStatement, Source, Statement, TableSource,
    WhereClause,
};
use sql_pass::Value;
use sql_schema::SqlList;
use sql_select::{CombineDsl, Query, QueryDsl};
use sql_source::NewTableSource;
use sql_test_kit::{INTEGER, beside, copies, table};
use std::alloc::Global;
use std::test::Fail;

pub fn every_call(alloc: Global) -> Result<(), Fail> {
    expressions(alloc)?;
    sources(alloc)?;
    sides(alloc)?;
    clauses(alloc)?;
    conditions(alloc)?;
    orders(alloc)?;
    statements(alloc)?;
    combinations(alloc)
}

fn expressions(alloc: Global) -> Result<(), Fail> {
    copies(alloc, id(alloc)?, Expr::try_clone, "\"users\".\"id\"")?;
    let values = SqlList::from(vec![in alloc; Value::Integer(1)]?);
    let list = InValues::List(INTEGER, values);
    copies(alloc, list, InValues::try_clone, "$1")
}

/// `"users"`.
fn users(alloc: Global) -> Result<Source, Fail> {
    Ok(Source::Table(TableSource::new(table(alloc, "users")?)))
}

fn join(alloc: Global) -> Result<Join, Fail> {
    let (left, right) = beside(users(alloc)?, users(alloc))?;
    Ok(Join {
        left,
        right,
        kind: JoinKind::Inner,
    })
}

fn join_on(alloc: Global) -> Result<JoinOn, Fail> {
    let (join, id) = beside(join(alloc)?, id(alloc))?;
    Ok(JoinOn { join, on: Some(id) })
}

fn sources(alloc: Global) -> Result<(), Fail> {
    copies(alloc, users(alloc)?, Source::try_clone, "\"users\"")?;
    copies(
        alloc,
        join(alloc)?,
        Join::try_clone,
        "\"users\" INNER JOIN \"users\"",
    )?;
    copies(
        alloc,
        join_on(alloc)?,
        JoinOn::try_clone,
        "(\"users\" INNER JOIN \"users\" ON \"users\".\"id\")",
    )
}

/// `"users" ON "users"."id"`.
fn users_on(alloc: Global) -> Result<OnClauseWrapper, Fail> {
    let (source, on) = beside(users(alloc)?, id(alloc))?;
    Ok(OnClauseWrapper { source, on })
}

fn sides(alloc: Global) -> Result<(), Fail> {
    copies(
        alloc,
        users_on(alloc)?,
        OnClauseWrapper::try_clone,
        "\"users\" ON \"users\".\"id\"",
    )?;
    copies(
        alloc,
        JoinRhs::On(users_on(alloc)?),
        JoinRhs::try_clone,
        "\"users\" ON \"users\".\"id\"",
    )
}

fn clauses(alloc: Global) -> Result<(), Fail> {
    copies(
        alloc,
        FromClause::FromClause(users(alloc)?),
        FromClause::try_clone,
        " FROM \"users\"",
    )?;
    copies(
        alloc,
        SelectClause::SelectClause(id(alloc)?),
        SelectClause::try_clone,
        "\"users\".\"id\"",
    )?;
    copies(
        alloc,
        DistinctClause::DistinctOnClause(id(alloc)?),
        DistinctClause::try_clone,
        "DISTINCT ON (\"users\".\"id\") ",
    )?;
    copies(
        alloc,
        GroupByClause::GroupByClause(id(alloc)?),
        GroupByClause::try_clone,
        " GROUP BY \"users\".\"id\"",
    )
}

fn conditions(alloc: Global) -> Result<(), Fail> {
    copies(
        alloc,
        WhereClause::WhereClause(id(alloc)?),
        WhereClause::try_clone,
        " WHERE \"users\".\"id\"",
    )?;
    copies(
        alloc,
        HavingClause::HavingClause(one(alloc)?),
        HavingClause::try_clone,
        " HAVING $1",
    )
}

fn orders(alloc: Global) -> Result<(), Fail> {
    let item = id(alloc)?.desc();
    copies(alloc, item, OrderItem::try_clone, "\"users\".\"id\" DESC")?;
    let item = id(alloc)?.asc();
    let items = SqlList::from(vec![in alloc; item]?);
    copies(
        alloc,
        OrderClause::OrderClause(items),
        OrderClause::try_clone,
        " ORDER BY \"users\".\"id\" ASC",
    )
}

fn statements(alloc: Global) -> Result<(), Fail> {
    copies(
        alloc,
        ids(alloc)?,
        SelectStatement::try_clone,
        "SELECT \"users\".\"id\" FROM \"users\"",
    )?;
    copies(
        alloc,
        ids(alloc)?.into_boxed(&Pg),
        BoxedSelectStatement::try_clone,
        "SELECT \"users\".\"id\" FROM \"users\"",
    )?;
    copies(
        alloc,
        ids(alloc)?.into_statement(),
        Statement::try_clone,
        "SELECT \"users\".\"id\" FROM \"users\"",
    )
}

fn combinations(alloc: Global) -> Result<(), Fail> {
    let rhs = ids(alloc)?.into_statement();
    let both = ids(alloc)?.union(alloc, rhs)?;
    copies(
        alloc,
        both,
        CombinationClause::try_clone,
        "(SELECT \"users\".\"id\" FROM \"users\") UNION (SELECT \"users\".\"id\" FROM \"users\")",
    )
}
