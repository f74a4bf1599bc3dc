//! The lines that show statements to those who debug.

use super::fixture::{id, one};
use sql_dialect::{Backend, Mysql, Pg};
use sql_expr::{Expr, ExpressionMethods, InValues, SelectStatement, value};
use sql_pass::Value;
use sql_raw::debug_query;
use sql_schema::{Base, NoMemory, SqlList, SqlType};
use sql_select::{AsQuery, Query, QueryDsl};
use sql_test_kit::{beside, column, table};
use std::alloc::Global;
use std::test::Fail;

/// `SELECT "users"."id" FROM "users" WHERE` and this condition, `LIMIT` 3.
fn three_users(alloc: Global, condition: Expr) -> Result<SelectStatement, Fail> {
    let (condition, users) = beside(condition, table(alloc, "users"))?;
    let (condition, all) = beside(condition, users.as_query(alloc))?;
    let (condition, (all, id)) = beside(condition, beside(all, column(alloc, "users", "id")))?;
    Ok(
        all.select(Expr::Column(id))
            .filter(alloc, condition)?
            .limit(3),
    )
}

fn shown<DB: Backend>(alloc: Global, backend: &DB, query: SelectStatement) -> Result<String, Fail> {
    let statement = query.into_statement();
    let shown = debug_query(alloc, backend, &statement);
    drop(statement);
    let shown = shown?;
    Ok(format!(in alloc; "{shown}")?)
}

/// `"users"."name" = "x"`.
fn named(alloc: Global) -> Result<Expr, Fail> {
    let name = Expr::Column(column(alloc, "users", "name")?);
    let (name, bound) = beside(name, value(alloc, &"x"))?;
    let (name, bound) = beside(name, bound.ok_or("a list"))?;
    Ok(name.eq(alloc, bound)?)
}

/// Whether `"users"."id"` is 1 or 2.
fn among(alloc: Global) -> Result<Expr, Fail> {
    let id = Expr::Column(column(alloc, "users", "id")?);
    let ty = SqlType {
        base: Base::Integer,
        nullable: false,
    };
    let (id, values) = beside(id, vec![in alloc; Value::Integer(1), Value::Integer(2)])?;
    Ok(id.eq_any(alloc, InValues::List(ty, SqlList::from(values)))?)
}

#[test]
fn lines_of_statements(rt: HostRuntime) -> Result<(), Fail> {
    let alloc = rt.alloc();
    let query = three_users(alloc, named(alloc)?)?;
    assert_eq!(rt;
        shown(alloc, &Pg, query)?.as_str(),
        r#"SELECT "users"."id" FROM "users" WHERE ("users"."name" = $1) LIMIT $2 -- binds: ["x", 3]"#
    );
    Ok(())
}

/// `"users"."id" = 1`.
fn is_one(alloc: Global) -> Result<Expr, Fail> {
    let (left, right) = beside(id(alloc)?, one(alloc))?;
    Ok(left.eq(alloc, right)?)
}

#[test]
fn a_line_of_one_number(rt: HostRuntime) -> Result<(), Fail> {
    let alloc = rt.alloc();
    let (users, is_one) = beside(table(alloc, "users")?.as_query(alloc)?, is_one(alloc))?;
    assert_eq!(rt;
        shown(alloc, &Pg, users.filter(alloc, is_one)?)?.as_str(),
        r#"SELECT "users"."id", "users"."name" FROM "users" WHERE ("users"."id" = $1) -- binds: [1]"#
    );
    Ok(())
}

#[test]
fn lines_of_lists(rt: HostRuntime) -> Result<(), Fail> {
    let alloc = rt.alloc();
    let query = three_users(alloc, among(alloc)?)?;
    assert_eq!(rt;
        shown(alloc, &Pg, query)?.as_str(),
        r#"SELECT "users"."id" FROM "users" WHERE ("users"."id" = ANY($1)) LIMIT $2 -- binds: [[1, 2], 3]"#
    );
    let query = three_users(alloc, among(alloc)?)?;
    assert_eq!(rt;
        shown(alloc, &Mysql, query)?.as_str(),
        "SELECT `users`.`id` FROM `users` WHERE (`users`.`id` IN (?, ?)) LIMIT ? -- binds: [1, 2, 3]"
    );
    Ok(())
}
