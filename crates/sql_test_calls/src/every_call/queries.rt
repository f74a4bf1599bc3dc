//! The calls that make statements of sources, and change them.

use crate::fixture::{all, id, ids, one};
use sql_dialect::Pg;
use sql_expr::{Alias, ExpressionMethods, JoinKind, JoinRhs, SelectStatement, Source, TableSource};
use sql_select::{AsQuery, QueryDsl, SimpleSelect};
use sql_source::NewTableSource;
use sql_test_kit::{beside, gives, schema, table, text, writes};
use std::alloc::Global;
use std::test::Fail;

pub fn every_call(alloc: Global) -> Result<(), Fail> {
    beginnings(alloc)?;
    conditions(alloc)?;
    conditions_of_boxed(alloc)?;
    keys(alloc)?;
    orders(alloc)?;
    joins(alloc)?;
    left_joins(alloc)?;
    joins_on_a_condition(alloc)?;
    joins_of_boxed(alloc)?;
    selections(alloc)
}

const ALL: &str = "SELECT \"users\".\"id\", \"users\".\"name\" FROM \"users\"";

fn source(alloc: Global, name: &str) -> Result<TableSource, Fail> {
    Ok(TableSource::new(table(alloc, name)?))
}

fn beginnings(alloc: Global) -> Result<(), Fail> {
    gives(alloc, all(alloc), ALL)?;
    gives(alloc, source(alloc, "users")?.as_query(alloc), ALL)?;
    gives(
        alloc,
        Source::Table(source(alloc, "users")?).as_query(alloc),
        ALL,
    )?;
    gives(
        alloc,
        SelectStatement::simple(alloc, Source::Table(source(alloc, "users")?)),
        ALL,
    )?;
    let alias = Alias {
        name: text(alloc, "u")?,
        table: table(alloc, "users")?,
    };
    gives(
        alloc,
        alias.as_query(alloc),
        "SELECT \"u\".\"id\", \"u\".\"name\" FROM \"users\" AS \"u\"",
    )
}

fn conditions(alloc: Global) -> Result<(), Fail> {
    let (users, one) = beside(ids(alloc)?, one(alloc))?;
    let (users, id) = beside(users.filter(alloc, one)?, id(alloc))?;
    gives(
        alloc,
        users.or_filter(alloc, id),
        "SELECT \"users\".\"id\" FROM \"users\" WHERE ($1 OR \"users\".\"id\")",
    )
}

fn conditions_of_boxed(alloc: Global) -> Result<(), Fail> {
    let (users, one) = beside(ids(alloc)?, one(alloc))?;
    let boxed = users.into_boxed(&Pg);
    let (boxed, id) = beside(boxed.filter(alloc, one)?, id(alloc))?;
    gives(
        alloc,
        boxed.or_filter(alloc, id),
        "SELECT \"users\".\"id\" FROM \"users\" WHERE ($1 OR \"users\".\"id\")",
    )
}

fn keys(alloc: Global) -> Result<(), Fail> {
    let key = vec![in alloc; one(alloc)?]?;
    gives(
        alloc,
        ids(alloc)?.find(alloc, key),
        "SELECT \"users\".\"id\" FROM \"users\" WHERE (\"users\".\"id\" = $1)",
    )
}

fn orders(alloc: Global) -> Result<(), Fail> {
    let items = vec![in alloc; id(alloc)?.asc()]?;
    gives(
        alloc,
        ids(alloc)?.then_order_by(alloc, items),
        "SELECT \"users\".\"id\" FROM \"users\" ORDER BY \"users\".\"id\" ASC",
    )?;
    let items = vec![in alloc; id(alloc)?.desc()]?;
    let boxed = ids(alloc)?.into_boxed(&Pg);
    gives(
        alloc,
        boxed.then_order_by(alloc, items),
        "SELECT \"users\".\"id\" FROM \"users\" ORDER BY \"users\".\"id\" DESC",
    )
}

fn posts(alloc: Global) -> Result<Source, Fail> {
    Ok(Source::Table(source(alloc, "posts")?))
}

fn sides(alloc: Global) -> Result<(SelectStatement, JoinRhs), Fail> {
    let (ids, posts) = beside(ids(alloc)?, posts(alloc))?;
    Ok((ids, JoinRhs::Source(posts)))
}

const JOINED: &str =
    "SELECT \"users\".\"id\" FROM (\"users\" INNER JOIN \"posts\" ON (\"posts\".\"user_id\" = \"users\".\"id\"))";

fn joins(alloc: Global) -> Result<(), Fail> {
    let schema = schema(alloc)?;
    let (users, rhs) = sides(alloc)?;
    gives(alloc, users.inner_join(alloc, &schema, rhs), JOINED)?;
    let (users, rhs) = sides(alloc)?;
    gives(
        alloc,
        users.join_with_implicit_on_clause(alloc, &schema, rhs, JoinKind::Inner),
        JOINED,
    )
}

const LEFT_JOINED: &str =
    "SELECT \"users\".\"id\" FROM (\"users\" LEFT OUTER JOIN \"posts\" ON (\"posts\".\"user_id\" = \"users\".\"id\"))";

fn left_joins(alloc: Global) -> Result<(), Fail> {
    let schema = schema(alloc)?;
    let (users, rhs) = sides(alloc)?;
    gives(
        alloc,
        users.left_outer_join(alloc, &schema, rhs),
        LEFT_JOINED,
    )?;
    let (users, rhs) = sides(alloc)?;
    gives(alloc, users.left_join(alloc, &schema, rhs), LEFT_JOINED)
}

fn joins_on_a_condition(alloc: Global) -> Result<(), Fail> {
    let ((users, posts), on) = beside(beside(ids(alloc)?, posts(alloc))?, one(alloc))?;
    gives(
        alloc,
        users.join(alloc, posts, JoinKind::LeftOuter, Some(on)),
        "SELECT \"users\".\"id\" FROM (\"users\" LEFT OUTER JOIN \"posts\" ON $1)",
    )
}

fn joins_of_boxed(alloc: Global) -> Result<(), Fail> {
    let schema = schema(alloc)?;
    let (users, rhs) = sides(alloc)?;
    let boxed = users.into_boxed(&Pg);
    gives(
        alloc,
        boxed.join_with_implicit_on_clause(alloc, &schema, rhs, JoinKind::Inner),
        JOINED,
    )?;
    let ((users, posts), on) = beside(beside(ids(alloc)?, posts(alloc))?, one(alloc))?;
    let boxed = users.into_boxed(&Pg);
    gives(
        alloc,
        boxed.join(alloc, posts, JoinKind::LeftOuter, Some(on)),
        "SELECT \"users\".\"id\" FROM (\"users\" LEFT OUTER JOIN \"posts\" ON $1)",
    )
}

fn selections(alloc: Global) -> Result<(), Fail> {
    gives(
        alloc,
        QueryDsl::nullable(ids(alloc)?, alloc),
        "SELECT \"users\".\"id\" FROM \"users\"",
    )?;
    gives(
        alloc,
        ids(alloc)?.into_boxed(&Pg).nullable(alloc),
        "SELECT \"users\".\"id\" FROM \"users\"",
    )?;
    gives(
        alloc,
        ids(alloc)?.single_value(alloc),
        "(SELECT \"users\".\"id\" FROM \"users\" LIMIT $1)",
    )?;
    gives(
        alloc,
        ids(alloc)?.into_boxed(&Pg).single_value(alloc),
        "(SELECT \"users\".\"id\" FROM \"users\" LIMIT $1)",
    )
}
