//! A pass, and what walks it.

use sql_dialect::{Backend, Pg, QueryBuilder};
use sql_pass::{
    AstPass, BoundRef, Identifier, MiddleFragment, OnKeyword, QueryFragment, Value, push_dotted,
    push_side_open,
};
use sql_test_kit::{INTEGER, reads, text_in};
use std::alloc::Global;
use std::test::Fail;

pub fn every_call(alloc: Global) -> Result<(), Fail> {
    pushed(alloc)?;
    walked(alloc)
}

fn pushed(alloc: Global) -> Result<(), Fail> {
    let mut pass = AstPass::to_sql(Pg.query_builder(alloc), Pg);
    let value = Value::Integer(1);
    push_side_open(&mut pass)?;
    AstPass::push_sql(&mut pass, "a ")?;
    AstPass::push_identifier(&mut pass, "b")?;
    push_dotted("c", &mut pass)?;
    AstPass::push_sql(&mut pass, " ")?;
    AstPass::push_bind_param(&mut pass, BoundRef::Value(INTEGER, &value))?;
    AstPass::push_bind_param_value_only(&mut pass, BoundRef::Value(INTEGER, &value))?;
    reads(text_in(pass)?, "(a \"b\".\"c\" $1")
}

fn walked(alloc: Global) -> Result<(), Fail> {
    let mut pass = AstPass::to_sql(Pg.query_builder(alloc), Pg);
    Identifier("a").walk_ast(&mut pass)?;
    MiddleFragment::push_sql(&OnKeyword, &mut pass)?;
    reads(text_in(pass)?, "\"a\" ON ")?;
    let builder = Identifier("b").to_sql(Pg.query_builder(alloc), &Pg)?;
    reads(builder.finish(), "\"b\"")
}
