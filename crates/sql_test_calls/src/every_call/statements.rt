//! Combinations, statements that are written boxed, and rows that a Rust type is read from.
//!
//! No statement is alive at a `?`, and each is dropped by a call: else what can be in each of its clauses would be proved together.

ghost use Rattle.sql_node.specs.View.{expr_tree, select_statement_tree};

use crate::fixture::{ids, one};
use sql_dialect::{Backend, Pg};
use sql_expr::{CombinationClause, Expr, SelectStatement, Statement};
use sql_pass::AstPass;
use sql_schema::NoMemory;
use sql_select::{BoxedQueryHelper, CombineDsl, HasQuery, Query, QueryDsl};
use sql_test_kit::{gives, reads, text_in};
use std::alloc::Global;
use std::test::Fail;

pub fn every_call(alloc: Global) -> Result<(), Fail> {
    unions(alloc)?;
    intersections(alloc)?;
    of_boxed(alloc)?;
    of_combinations(alloc)?;
    written(alloc)?;
    of_one_type(alloc)
}

/// `SELECT "users"."id" FROM "users"`.
fn all(alloc: Global) -> Result<Statement, Fail> {
    Ok(ids(alloc)?.into_statement())
}

fn unions(alloc: Global) -> Result<(), Fail> {
    let rhs = all(alloc)?;
    gives(
        alloc,
        ids(alloc)?.union(alloc, rhs),
        "(SELECT \"users\".\"id\" FROM \"users\") UNION (SELECT \"users\".\"id\" FROM \"users\")",
    )?;
    let rhs = all(alloc)?;
    gives(
        alloc,
        ids(alloc)?.union_all(alloc, rhs),
        "(SELECT \"users\".\"id\" FROM \"users\") UNION ALL (SELECT \"users\".\"id\" FROM \"users\")",
    )?;
    let rhs = all(alloc)?;
    gives(
        alloc,
        ids(alloc)?.except(alloc, rhs),
        "(SELECT \"users\".\"id\" FROM \"users\") EXCEPT (SELECT \"users\".\"id\" FROM \"users\")",
    )
}

fn intersections(alloc: Global) -> Result<(), Fail> {
    let rhs = all(alloc)?;
    gives(
        alloc,
        ids(alloc)?.intersect(alloc, rhs),
        "(SELECT \"users\".\"id\" FROM \"users\") INTERSECT (SELECT \"users\".\"id\" FROM \"users\")",
    )?;
    let rhs = all(alloc)?;
    gives(
        alloc,
        ids(alloc)?.intersect_all(alloc, rhs),
        "(SELECT \"users\".\"id\" FROM \"users\") INTERSECT ALL (SELECT \"users\".\"id\" FROM \"users\")",
    )?;
    let rhs = all(alloc)?;
    gives(
        alloc,
        ids(alloc)?.except_all(alloc, rhs),
        "(SELECT \"users\".\"id\" FROM \"users\") EXCEPT ALL (SELECT \"users\".\"id\" FROM \"users\")",
    )
}

fn of_boxed(alloc: Global) -> Result<(), Fail> {
    let rhs = all(alloc)?;
    let boxed = ids(alloc)?.into_boxed(&Pg);
    gives(
        alloc,
        boxed.union(alloc, rhs),
        "(SELECT \"users\".\"id\" FROM \"users\") UNION (SELECT \"users\".\"id\" FROM \"users\")",
    )
}

/// `(SELECT "users"."id" FROM "users") UNION (SELECT "users"."id" FROM "users")`.
fn both(alloc: Global) -> Result<CombinationClause, Fail> {
    let rhs = all(alloc)?;
    Ok(ids(alloc)?.union(alloc, rhs)?)
}

fn of_combinations(alloc: Global) -> Result<(), Fail> {
    let rhs = all(alloc)?;
    gives(
        alloc,
        both(alloc)?.except(alloc, rhs),
        "((SELECT \"users\".\"id\" FROM \"users\") UNION (SELECT \"users\".\"id\" FROM \"users\")) EXCEPT (SELECT \"users\".\"id\" FROM \"users\")",
    )?;
    gives(
        alloc,
        both(alloc)?.single_value(alloc),
        "((SELECT \"users\".\"id\" FROM \"users\") UNION (SELECT \"users\".\"id\" FROM \"users\") LIMIT $1)",
    )
}

fn written(alloc: Global) -> Result<(), Fail> {
    let mut pass = AstPass::to_sql(Pg.query_builder(alloc), Pg);
    let boxed = ids(alloc)?.into_boxed(&Pg);
    let walked = boxed.build_query(&mut pass);
    drop(boxed);
    walked?;
    reads(text_in(pass)?, "SELECT \"users\".\"id\" FROM \"users\"")
}

#[derive(Drop)]
struct Kept {
    statement: SelectStatement,
    wanted: Expr,
}

impl HasQuery for Kept {
    ghost base = { λ k. select_statement_tree k.statement };

    ghost wanted = { λ k. expr_tree k.wanted };

    fn base_query(&self, alloc: Global) -> Result<SelectStatement, NoMemory> {
        self.statement.try_clone(alloc)
    }

    fn as_select(&self, alloc: Global) -> Result<Expr, NoMemory> {
        self.wanted.try_clone(alloc)
    }
}

fn read_from(alloc: Global, kept: &Kept) -> Result<(), Fail> {
    gives(
        alloc,
        kept.base_query(alloc),
        "SELECT \"users\".\"id\" FROM \"users\"",
    )?;
    gives(alloc, kept.as_select(alloc), "$1")?;
    gives(alloc, kept.query(alloc), "SELECT $1 FROM \"users\"")
}

fn of_one_type(alloc: Global) -> Result<(), Fail> {
    let wanted = one(alloc)?;
    let kept = Kept {
        statement: ids(alloc)?,
        wanted,
    };
    let read = read_from(alloc, &kept);
    drop(kept);
    read
}
