//! The statement of each form.
#![tactic(auto, using(sql_node::proofs::Trees::opens_expr, sql_node::proofs::Trees::opens_source, sql_node::proofs::Trees::opens_statement))]

ghost use Rattle.std.specs.Prelude.{◌≡◌, ◌<◌, IfOk, Some};
ghost use Rattle.sql_schema.specs.Columns.{column_in, table_named};
ghost use Rattle.sql_dialect.specs.declared.combination.Combinator.TheVariants as combinator;
ghost use Rattle.sql_dialect.specs.declared.combination.DuplicateRule.TheVariants as duplicate;
ghost use Rattle.sql_node.specs.View.{boxed_select_statement_tree, expr_tree, select_statement_tree, statement_tree};
ghost use Rattle.sql_leaf.specs.declared.operator.Logic.TheVariants as by;
ghost use Rattle.sql_select.specs.Changes.{boxed_for, combined, filtered, selected};
ghost use Rattle.sql_tool_series.specs.Generated as asked;
ghost use Rattle.sql_tool_series.specs.inside.LookedUp.{AreNamed};

use crate::form::Form;
use crate::schema::series_schema;
use sql_dialect::{Bracket, Dialect, Mysql, Pg, Sqlite};
use sql_expr::{
    BoxedSelectStatement, Expr, ExpressionMethods, InValues, JoinKind, JoinRhs, SelectStatement,
    Source, Statement, TableSource, exists,
};
use sql_pass::Value;
use sql_schema::{Base, Column, NoMemory, Schema, SqlList, SqlType, Table};
use sql_select::{AsQuery, CombineDsl, Query as _, QueryDsl};
use sql_source::NewTableSource;
use std::alloc::{AllocError, Global};

const WHOLE_NUMBER: SqlType = SqlType {
    base: Base::Integer,
    nullable: false,
};

/// The schema, and those of its tables and columns that requests name.
#[derive(Drop)]
pub struct Named {
    pub schema: Schema,
    users: Table,
    id: Column,
    name: Column,
    posts: Table,
    user_id: Column,
    title: Column,
}

fn table(alloc: Global, schema: &Schema, name: &str) -> Result<Table, NoMemory>
    ensures { IfOk result (λ t. Some t ≡ table_named schema.now.tables name.now) }
{
    match schema.table(name) {
        Some(table) => table.try_clone(alloc),
        None => Err(AllocError),
    }
}

fn column(alloc: Global, table: &Table, name: &str) -> Result<Column, NoMemory>
    ensures { IfOk result (λ c. Some c ≡ column_in table.now name.now) }
{
    match table.column(alloc, name)? {
        Some(column) => Ok(column),
        None => Err(AllocError),
    }
}

/// The number as an Integer; one that an Integer can't be is cut at the last that it can.
fn integer(number: u32) -> Value
    ensures { result ≡ asked.integer number }
{
    if number < 2147483647 {
        Value::Integer(number as i32)
    } else {
        Value::Integer(2147483647)
    }
}

/// `[0, 1, ..]`, so many.
fn integers(alloc: Global, many: u32) -> Result<Vec<Value>, NoMemory>
    requires { many < 4 }
    ensures { IfOk result (λ v. v.items ≡ asked.integers many) }
{
    let mut all = Vec::new(alloc);
    for number in 0..many {
        all.push(Value::Integer(number as i32))?;
    }
    Ok(all)
}

fn boxed_for_dialect(dialect: Dialect, select: SelectStatement) -> BoxedSelectStatement
    ensures { boxed_select_statement_tree result
        ≡ boxed_for dialect (select_statement_tree select) }
{
    match dialect {
        Dialect::Pg => select.into_boxed(&Pg),
        Dialect::Mysql => select.into_boxed(&Mysql),
        Dialect::Sqlite => select.into_boxed(&Sqlite),
        Dialect::Bracket => select.into_boxed(&Bracket),
    }
}

/// `SELECT "users"."id", "users"."name" FROM "users"`.
fn from_users(alloc: Global, named: &Named) -> Result<SelectStatement, NoMemory>
    requires { AreNamed named.now }
    ensures { IfOk result (λ s. select_statement_tree s ≡ asked.from_users) }
{
    let users = named.users.try_clone(alloc)?;
    users.as_query(alloc)
}

/// `SELECT "posts"."id", "posts"."user_id", "posts"."title" FROM "posts"`.
fn from_posts(alloc: Global, named: &Named) -> Result<SelectStatement, NoMemory>
    requires { AreNamed named.now }
    ensures { IfOk result (λ s. select_statement_tree s ≡ asked.from_posts) }
{
    let posts = named.posts.try_clone(alloc)?;
    posts.as_query(alloc)
}

fn filter(alloc: Global, select: SelectStatement, predicate: Expr) -> Result<Statement, NoMemory>
    ensures { IfOk result (λ s. statement_tree s
        ≡ filtered by.And (expr_tree predicate) (select_statement_tree select)) }
{
    let select = select.filter(alloc, predicate)?;
    Ok(select.into_statement())
}

/// `SELECT "users"."id", "users"."name" FROM "users" WHERE ..`.
fn users_where(alloc: Global, named: &Named, predicate: Expr) -> Result<Statement, NoMemory>
    requires { AreNamed named.now }
    ensures { IfOk result (λ s. statement_tree s
        ≡ filtered by.And (expr_tree predicate) asked.from_users) }
{
    match from_users(alloc, named) {
        Ok(users) => filter(alloc, users, predicate),
        Err(error) => {
            drop(predicate);
            Err(error)
        }
    }
}

/// `("users"."id" = $1)`.
fn has_id(alloc: Global, named: &Named, number: u32) -> Result<Expr, NoMemory>
    requires { AreNamed named.now }
    ensures { IfOk result (λ e. expr_tree e ≡ asked.has_id number) }
{
    let id = named.id.try_clone(alloc)?;
    Expr::Column(id).eq(alloc, Expr::Value(WHOLE_NUMBER, integer(number)))
}

fn by_id(alloc: Global, named: &Named, number: u32) -> Result<Statement, NoMemory>
    requires { AreNamed named.now }
    ensures { IfOk result (λ s. statement_tree s ≡ asked.by_id number) }
{
    let predicate = has_id(alloc, named, number)?;
    users_where(alloc, named, predicate)
}

/// ` FROM ("users" INNER JOIN "posts" ON ..)`.
fn joined_posts(alloc: Global, named: &Named, kind: JoinKind) -> Result<SelectStatement, NoMemory>
    requires { AreNamed named.now }
    ensures { IfOk result (λ s. select_statement_tree s ≡ asked.joined_posts kind) }
{
    let posts = named.posts.try_clone(alloc)?;
    let users = from_users(alloc, named)?;
    let posts = JoinRhs::Source(Source::Table(TableSource::new(posts)));
    users.join_with_implicit_on_clause(alloc, &named.schema, posts, kind)
}

fn select_of_joined(
    alloc: Global,
    named: &Named,
    kind: JoinKind,
    selection: Expr,
) -> Result<SelectStatement, NoMemory>
    requires { AreNamed named.now }
    ensures { IfOk result (λ s. select_statement_tree s
        ≡ selected (expr_tree selection) (asked.joined_posts kind)) }
{
    match joined_posts(alloc, named, kind) {
        Ok(joined) => Ok(joined.select(selection)),
        Err(error) => {
            drop(selection);
            Err(error)
        }
    }
}

/// `"users"."name", "posts"."title"`.
fn names_and_titles(alloc: Global, named: &Named) -> Result<Expr, NoMemory>
    requires { AreNamed named.now }
    ensures { IfOk result (λ e. expr_tree e ≡ asked.names_and_titles) }
{
    let name = named.name.try_clone(alloc)?;
    let title = named.title.try_clone(alloc)?;
    let both = vec![in alloc; Expr::Column(name), Expr::Column(title)]?;
    Ok(Expr::List(SqlList::from(both)))
}

fn inner_join(alloc: Global, named: &Named, number: u32) -> Result<Statement, NoMemory>
    requires { AreNamed named.now }
    ensures { IfOk result (λ s. statement_tree s ≡ asked.inner_join number) }
{
    let selection = names_and_titles(alloc, named)?;
    let select = select_of_joined(alloc, named, JoinKind::Inner, selection)?;
    Ok(select.limit(i64::from(number)).into_statement())
}

fn left_join(alloc: Global, named: &Named) -> Result<Statement, NoMemory>
    requires { AreNamed named.now }
    ensures { IfOk result (λ s. statement_tree s ≡ asked.left_join) }
{
    let title = named.title.try_clone(alloc)?;
    let select = select_of_joined(alloc, named, JoinKind::LeftOuter, Expr::Column(title))?;
    Ok(select.into_statement())
}

/// `SELECT "users"."id" FROM "users"`.
fn user_ids(alloc: Global, named: &Named) -> Result<SelectStatement, NoMemory>
    requires { AreNamed named.now }
    ensures { IfOk result (λ s. select_statement_tree s ≡ asked.user_ids) }
{
    let id = named.id.try_clone(alloc)?;
    let users = from_users(alloc, named)?;
    Ok(users.select(Expr::Column(id)))
}

fn united(
    alloc: Global,
    left: SelectStatement,
    right: SelectStatement,
) -> Result<Statement, NoMemory>
    ensures { IfOk result (λ s. statement_tree s ≡ combined combinator.Union duplicate.Distinct
        (select_statement_tree left) (select_statement_tree right)) }
{
    let combination = left.union(alloc, right.into_statement())?;
    Ok(combination.into_statement())
}

fn self_union(alloc: Global, named: &Named) -> Result<Statement, NoMemory>
    requires { AreNamed named.now }
    ensures { IfOk result (λ s. statement_tree s ≡ asked.self_union) }
{
    let left = user_ids(alloc, named)?;
    match user_ids(alloc, named) {
        Ok(right) => united(alloc, left, right),
        Err(error) => {
            drop(left);
            Err(error)
        }
    }
}

/// `("users"."id" IN (?, ?))`.
fn has_one_of(alloc: Global, named: &Named, many: u32) -> Result<Expr, NoMemory>
    requires named { AreNamed named.now }
    requires few { many < 4 }
    ensures { IfOk result (λ e. expr_tree e ≡ asked.has_one_of many) }
{
    let id = named.id.try_clone(alloc)?;
    let values = SqlList::from(integers(alloc, many)?);
    Expr::Column(id).eq_any(alloc, InValues::List(WHOLE_NUMBER, values))
}

fn membership(alloc: Global, named: &Named, number: u32) -> Result<Statement, NoMemory>
    requires { AreNamed named.now }
    ensures { IfOk result (λ s. statement_tree s ≡ asked.membership number) }
{
    let predicate = has_one_of(alloc, named, number % 4)?;
    users_where(alloc, named, predicate)
}

fn boxed(alloc: Global, named: &Named, dialect: Dialect, number: u32) -> Result<Statement, NoMemory>
    requires { AreNamed named.now }
    ensures { IfOk result (λ s. statement_tree s ≡ asked.boxed dialect number) }
{
    let select = from_users(alloc, named)?;
    let select = boxed_for_dialect(dialect, select).offset(i64::from(number));
    Ok(select.into_statement())
}

fn key_share(alloc: Global, named: &Named) -> Result<Statement, NoMemory>
    requires { AreNamed named.now }
    ensures { IfOk result (λ s. statement_tree s ≡ asked.key_share) }
{
    let select = from_users(alloc, named)?;
    Ok(select.for_key_share().into_statement())
}

/// `("posts"."user_id" = "users"."id")`.
fn is_of_user(alloc: Global, named: &Named) -> Result<Expr, NoMemory>
    requires { AreNamed named.now }
    ensures { IfOk result (λ e. expr_tree e ≡ asked.is_of_user) }
{
    let user_id = named.user_id.try_clone(alloc)?;
    let id = named.id.try_clone(alloc)?;
    Expr::Column(user_id).eq(alloc, Expr::Column(id))
}

fn posts_of_user(alloc: Global, named: &Named) -> Result<Statement, NoMemory>
    requires { AreNamed named.now }
    ensures { IfOk result (λ s. statement_tree s ≡ asked.posts_of_user) }
{
    let predicate = is_of_user(alloc, named)?;
    match from_posts(alloc, named) {
        Ok(posts) => filter(alloc, posts, predicate),
        Err(error) => {
            drop(predicate);
            Err(error)
        }
    }
}

fn with_posts(alloc: Global, named: &Named) -> Result<Statement, NoMemory>
    requires { AreNamed named.now }
    ensures { IfOk result (λ s. statement_tree s ≡ asked.with_posts) }
{
    let posts = posts_of_user(alloc, named)?;
    let predicate = exists(alloc, posts)?;
    users_where(alloc, named, predicate)
}

impl Named {
    pub fn new(alloc: Global) -> Result<Named, NoMemory>
        ensures { IfOk result AreNamed }
    {
        let schema = series_schema(alloc)?;
        let users = table(alloc, &schema, "users")?;
        let id = column(alloc, &users, "id")?;
        let name = column(alloc, &users, "name")?;
        let posts = table(alloc, &schema, "posts")?;
        let user_id = column(alloc, &posts, "user_id")?;
        let title = column(alloc, &posts, "title")?;
        Ok(Named {
            schema,
            users,
            id,
            name,
            posts,
            user_id,
            title,
        })
    }

    /// The statement of a form.
    pub fn statement(
        &self,
        alloc: Global,
        form: Form,
        dialect: Dialect,
        number: u32,
    ) -> Result<Statement, NoMemory>
        requires { AreNamed self.now }
        ensures { IfOk result (λ s. statement_tree s
            ≡ asked.statement_with form dialect number) }
    {
        match form {
            Form::ById => by_id(alloc, self, number),
            Form::InnerJoin => inner_join(alloc, self, number),
            Form::LeftJoin => left_join(alloc, self),
            Form::SelfUnion => self_union(alloc, self),
            Form::Membership => membership(alloc, self, number),
            Form::Boxed => boxed(alloc, self, dialect, number),
            Form::KeyShare => key_share(alloc, self),
            Form::WithPosts => with_posts(alloc, self),
        }
    }
}
