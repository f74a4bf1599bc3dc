//! All rules that a statement breaks. The first alone is what a line of the program tells.

use sql_check::broken;
use sql_dialect::Pg;
use sql_expr::{Expr, JoinRhs, SelectStatement, Source, Statement, TableSource};
use sql_rules::Rule;
use sql_schema::{Schema, SchemaBuilder};
use sql_select::{AsQuery, Query, QueryDsl};
use sql_source::NewTableSource;
use sql_test_calls::fixture::all;
use sql_test_kit::{beside, column, schema, table};
use std::alloc::Global;
use std::test::Fail;

/// `SELECT DISTINCT .. FROM "users" WHERE "posts"."id" FOR UPDATE`.
fn broken_three_times(alloc: Global) -> Result<Statement, Fail> {
    let (users, id) = beside(all(alloc)?, column(alloc, "posts", "id"))?;
    let filtered = users.distinct().filter(alloc, Expr::Column(id))?;
    Ok(filtered.for_update().into_statement())
}

fn rules_of(alloc: Global, schema: &Schema, statement: Statement) -> Result<Vec<Rule>, Fail> {
    let rules = broken(alloc, &Pg, schema, &statement);
    drop(statement);
    Ok(rules?)
}

#[test]
fn each_rule_in_order(rt: HostRuntime) -> Result<(), Fail> {
    let alloc = rt.alloc();
    let schema = schema(alloc)?;
    let rules = rules_of(alloc, &schema, broken_three_times(alloc)?)?;
    assert!(rt;
        rules.as_slice() == [Rule::Incompatible, Rule::NotInScope, Rule::TypeMismatch].as_slice()
    );
    Ok(())
}

/// `SELECT DISTINCT "posts"."user_id" FROM ("users" LEFT OUTER JOIN "posts" ON ..) FOR UPDATE`.
fn broken_twice(alloc: Global, schema: &Schema) -> Result<Statement, Fail> {
    let (users, posts) = beside(all(alloc)?, table(alloc, "posts"))?;
    let posts = JoinRhs::Source(Source::Table(TableSource::new(posts)));
    let (joined, id) = beside(
        users.left_join(alloc, schema, posts)?,
        column(alloc, "posts", "user_id"),
    )?;
    let selected = joined.select(Expr::Column(id));
    Ok(selected.distinct().for_update().into_statement())
}

#[test]
fn a_lock_and_a_padded_column(rt: HostRuntime) -> Result<(), Fail> {
    let alloc = rt.alloc();
    let schema = schema(alloc)?;
    let rules = rules_of(alloc, &schema, broken_twice(alloc, &schema)?)?;
    assert!(rt; rules.as_slice() == [Rule::Incompatible, Rule::NeedsNullable].as_slice());
    Ok(())
}

#[test]
fn a_table_that_another_schema_has(rt: HostRuntime) -> Result<(), Fail> {
    let alloc = rt.alloc();
    let none = SchemaBuilder::new(alloc).build()?;
    let rules = rules_of(alloc, &none, all(alloc)?.into_statement())?;
    assert!(rt; rules.as_slice() == [Rule::UnknownName].as_slice());
    let schema = schema(alloc)?;
    let rules = rules_of(alloc, &schema, all(alloc)?.into_statement())?;
    assert!(rt; rules.is_empty());
    Ok(())
}
