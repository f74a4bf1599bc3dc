//! Combinations, boxed statements, locks, samples, and statements that break a rule.

use super::blog::{Blog, show};
use crate::failure::Failure;
use hardieflax::{
    AsExpression, AsQuery, BoxedSelectStatement, CombineDsl, ExpressionMethods, NewTableSource,
    OnlyDsl, OrderColumn, OrderColumnMethods, Pg, PositionalOrderDsl, Query, QueryDsl, Statement,
    TableSource, TablesampleDsl, broken,
};
use std::alloc::Global;

pub fn forms(rt: &HostRuntime, blog: &Blog) -> Result<(), Failure> {
    let alloc = rt.alloc();
    show(rt, blog, "union", ids_in_use(alloc, blog)?)?;
    show(
        rt,
        blog,
        "all filters",
        search(alloc, blog, Some("Sean"), Some(100))?,
    )?;
    show(
        rt,
        blog,
        "one filter",
        search(alloc, blog, None, Some(100))?,
    )?;
    show(rt, blog, "lock", locked(alloc, blog)?)?;
    show(rt, blog, "sample", sample(alloc, blog)?)?;
    show(rt, blog, "only", without_heirs(alloc, blog)?)?;
    show(rt, blog, "refused", out_of_scope(alloc, blog)?)?;
    rules(rt, blog)
}

/// The numbers that users or posts have, in order, each once.
fn ids_in_use(alloc: Global, blog: &Blog) -> Result<Statement, Failure> {
    let user = blog.column(alloc, "users", "id")?.as_expression(alloc)?;
    let post = blog.column(alloc, "posts", "id")?.as_expression(alloc)?;
    let users = blog.table("users")?.as_query(alloc)?.select(user);
    let posts = blog.table("posts")?.as_query(alloc)?.select(post);
    let both = users.union(alloc, posts.into_statement())?;
    let order = vec![in alloc; OrderColumn::from(1).desc()]?;
    Ok(both.positional_order_by(order).limit(10).into_statement())
}

/// Users by what is asked for at run time. A boxed statement has one type, whatever clauses it has.
fn search(
    alloc: Global,
    blog: &Blog,
    name: Option<&str>,
    below: Option<i32>,
) -> Result<Statement, Failure> {
    let mut query: BoxedSelectStatement = blog.table("users")?.as_query(alloc)?.into_boxed(&Pg);
    if let Some(name) = name {
        let named = blog.column(alloc, "users", "name")?.eq(alloc, name)?;
        query = query.filter(alloc, named)?;
    }
    if let Some(below) = below {
        let early = blog.column(alloc, "users", "id")?.lt(alloc, below)?;
        query = query.filter(alloc, early)?;
    }
    Ok(query.into_statement())
}

/// The user of this number, locked for a change, unless another transaction has it.
fn locked(alloc: Global, blog: &Blog) -> Result<Statement, Failure> {
    let seventh = blog.column(alloc, "users", "id")?.eq(alloc, 7)?;
    let users = blog
        .table("users")?
        .as_query(alloc)?
        .filter(alloc, seventh)?;
    Ok(users.for_update().skip_locked().into_statement())
}

/// About a tenth of the posts, the same ones each time.
fn sample(alloc: Global, blog: &Blog) -> Result<Statement, Failure> {
    let posts = TableSource::new(blog.table("posts")?.try_clone(alloc)?);
    let sample = posts.tablesample_bernoulli(10).with_seed(1);
    Ok(sample.as_query(alloc)?.into_statement())
}

/// Users alone, without the rows of tables that inherit from theirs.
fn without_heirs(alloc: Global, blog: &Blog) -> Result<Statement, Failure> {
    let users = TableSource::new(blog.table("users")?.try_clone(alloc)?);
    Ok(users.only().as_query(alloc)?.into_statement())
}

/// Users by a column of posts, which they are not joined with.
fn out_of_scope(alloc: Global, blog: &Blog) -> Result<Statement, Failure> {
    let titled = blog.column(alloc, "posts", "title")?.eq(alloc, "Trees")?;
    let users = blog.table("users")?.as_query(alloc)?.filter(alloc, titled)?;
    Ok(users.distinct().for_update().into_statement())
}

/// All rules that the statement breaks. `compile` names the first.
fn rules(rt: &HostRuntime, blog: &Blog) -> Result<(), Failure> {
    let alloc = rt.alloc();
    let statement = out_of_scope(alloc, blog)?;
    let rules = broken(alloc, &Pg, &blog.schema, &statement)?;
    println!(rt; "broken: {rules:?}")?;
    Ok(())
}
