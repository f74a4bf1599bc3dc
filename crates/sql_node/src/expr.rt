#![tactic(auto, using(sql_pass::proofs::Walking::walking))]

ghost use Rattle.std.specs.Prelude.{◌≡◌, ◌++◌, IfOk, map};
ghost use Rattle.sql_pass.specs.Held.{held};
ghost use Rattle.sql_pass.specs.Pieces.{one, Text};
ghost use Rattle.sql_pass.specs.Walks.{Walks};
ghost use Rattle.sql_leaf.specs.Operators.{unary_after, unary_before};
ghost use Rattle.sql_node.specs.Pieces.{around, expr_pieces, pieces, sought_pieces, sought_values};
ghost use Rattle.sql_node.specs.View.{expr_tree, in_values_tree, statement_tree};

use crate::Statement;
use crate::list::walk_list;
use crate::membership::{
    comparison_of, mark_varying_length, walk_among_values, walk_bound_list, walk_sought,
    walk_value, walk_values,
};
use sql_dialect::{ArrayComparison, Backend};
use sql_leaf::{
    AliasedField, CLOSE, CLOSE_BOTH, COUNT_OPEN, COUNT_STAR, Comparison, EXISTS_OPEN, Logic, OPEN,
    Unary,
};
use sql_pass::{AstPass, PassError, QueryFragment, Value};
use sql_schema::{Column, NoMemory, SqlList, SqlType};
use std::alloc::Global;

/// An expression.
#[cycle(ast)]
pub enum Expr {
    /// `"users"."id"`.
    Column(Column),
    /// `"u2"."id"`.
    Field(AliasedField),
    /// A value of that type, which is bound: `$1`.
    Value(SqlType, Value),
    /// `"users"."id", "users"."name"`. Lists inside it are written flat.
    List(SqlList<Expr>),
    /// `COUNT(*)`.
    CountStar,
    /// The same as a nullable expression, written as it is.
    Nullable(Box<Expr>),
    /// `NOT (a)`.
    Not(Box<Expr>),
    /// `(a IS NULL)`.
    IsNull(Box<Expr>),
    /// `(a IS NOT NULL)`.
    IsNotNull(Box<Expr>),
    /// `COUNT(a)`.
    Count(Box<Expr>),
    /// `(a = b)`.
    Eq(Box<Expr>, Box<Expr>),
    /// `(a != b)`.
    Ne(Box<Expr>, Box<Expr>),
    /// `(a > b)`.
    Gt(Box<Expr>, Box<Expr>),
    /// `(a >= b)`.
    Ge(Box<Expr>, Box<Expr>),
    /// `(a < b)`.
    Lt(Box<Expr>, Box<Expr>),
    /// `(a <= b)`.
    Le(Box<Expr>, Box<Expr>),
    /// `(a AND b)`.
    And(Box<Expr>, Box<Expr>),
    /// `(a OR b)`.
    Or(Box<Expr>, Box<Expr>),
    /// `EXISTS (SELECT ..)`.
    Exists(Box<Statement>),
    /// The single value that a statement gives: `(SELECT ..)`.
    Subselect(Box<Statement>),
    /// Whether it is one of them: `(a = ANY(..))`, in MySQL and SQLite `(a IN (..))`.
    EqAny(Box<Expr>, InValues),
    /// Whether it is none of them: `(a != ALL(..))`, in MySQL and SQLite `(a NOT IN (..))`.
    NeAll(Box<Expr>, InValues),
}

impl Drop for Expr {
    // (not inlined: see `drop_expr`)
    #[inline(never)]
    #[cycle(ast)]
    fn drop(self) {
        match self {
            Expr::Column(column) => drop_column(column),
            Expr::Field(field) => drop_field(field),
            Expr::Value(_, value) => drop_value(value),
            Expr::List(exprs) => drop_list(exprs),
            Expr::CountStar => {}
            Expr::Nullable(a)
            | Expr::Not(a)
            | Expr::IsNull(a)
            | Expr::IsNotNull(a)
            | Expr::Count(a) => drop_expr(a),
            Expr::Eq(a, b)
            | Expr::Ne(a, b)
            | Expr::Gt(a, b)
            | Expr::Ge(a, b)
            | Expr::Lt(a, b)
            | Expr::Le(a, b)
            | Expr::And(a, b)
            | Expr::Or(a, b) => {
                drop_expr(a);
                drop_expr(b);
            }
            Expr::Exists(query) | Expr::Subselect(query) => drop_query(query),
            Expr::EqAny(a, among) | Expr::NeAll(a, among) => {
                drop_expr(a);
                drop_among(among);
            }
        }
    }
}

// Drops and copies go down a statement level by level. What is not inlined keeps its values off the stack of the levels below.

#[inline(never)]
fn drop_column(column: Column) {
    drop(column);
}

#[inline(never)]
fn drop_field(field: AliasedField) {
    drop(field);
}

#[inline(never)]
fn drop_value(value: Value) {
    drop(value);
}

#[inline(never)]
#[cycle(ast)]
fn drop_list(exprs: SqlList<Expr>) {
    drop(exprs);
}

#[inline(never)]
#[cycle(ast)]
fn drop_expr(expr: Box<Expr>) {
    drop(expr);
}

#[inline(never)]
#[cycle(ast)]
pub(crate) fn drop_query(query: Box<Statement>) {
    drop(query);
}

#[inline(never)]
#[cycle(ast)]
fn drop_among(among: InValues) {
    drop(among);
}

/// The values or the subquery in which a membership looks.
#[cycle(ast)]
pub enum InValues {
    /// Values of that type.
    List(SqlType, SqlList<Value>),
    /// The column that a statement gives.
    Query(Box<Statement>),
}

impl Drop for InValues {
    #[cycle(ast)]
    fn drop(self) {
        match self {
            InValues::List(_, values) => drop(values),
            InValues::Query(_) => {}
        }
    }
}

#[inline(never)]
fn clone_values(alloc: Global, values: &[Value]) -> Result<Vec<Value>, NoMemory>
    ensures { IfOk result (λ v. v.items ≡ values.now) }
{
    let mut all = Vec::new(alloc);
    for value in values {
        all.push(value.try_clone(alloc)?)?;
    }
    Ok(all)
}

#[inline(never)]
#[cycle(copy)]
fn clone_exprs(alloc: Global, exprs: &[Expr]) -> Result<Vec<Expr>, NoMemory>
    ensures { IfOk result (λ v. map expr_tree v.items ≡ map expr_tree exprs.now) }
{
    let mut all = Vec::new(alloc);
    for expr in exprs {
        all.push(expr.try_clone(alloc)?)?;
    }
    Ok(all)
}

#[cycle(copy)]
fn clone_boxed(alloc: Global, expr: &Expr) -> Result<Box<Expr>, NoMemory>
    ensures { IfOk result (λ b. expr_tree b.value ≡ expr_tree expr.now) }
{
    Ok(Box::new(alloc, expr.try_clone(alloc)?)?)
}

#[inline(never)]
#[cycle(copy)]
pub(crate) fn clone_query(alloc: Global, query: &Statement) -> Result<Box<Statement>, NoMemory>
    ensures { IfOk result (λ b. statement_tree b.value ≡ statement_tree query.now) }
{
    Ok(Box::new(alloc, query.try_clone(alloc)?)?)
}

impl Expr {
    /// An equal expression.
    #[cycle(copy)]
    pub fn try_clone(&self, alloc: Global) -> Result<Expr, NoMemory>
        ensures { IfOk result (λ v. expr_tree v ≡ expr_tree self.now) }
    {
        match self {
            Expr::Column(column) => Ok(Expr::Column(column.try_clone(alloc)?)),
            Expr::Field(field) => Ok(Expr::Field(field.try_clone(alloc)?)),
            Expr::Value(ty, value) => Ok(Expr::Value(*ty, value.try_clone(alloc)?)),
            Expr::List(exprs) => Ok(Expr::List(SqlList::from(clone_exprs(
                alloc,
                exprs.as_slice(),
            )?))),
            Expr::CountStar => Ok(Expr::CountStar),
            Expr::Nullable(a) => Ok(Expr::Nullable(clone_boxed(alloc, a)?)),
            Expr::Not(a) => Ok(Expr::Not(clone_boxed(alloc, a)?)),
            Expr::IsNull(a) => Ok(Expr::IsNull(clone_boxed(alloc, a)?)),
            Expr::IsNotNull(a) => Ok(Expr::IsNotNull(clone_boxed(alloc, a)?)),
            Expr::Count(a) => Ok(Expr::Count(clone_boxed(alloc, a)?)),
            Expr::Eq(a, b) => Ok(Expr::Eq(clone_boxed(alloc, a)?, clone_boxed(alloc, b)?)),
            Expr::Ne(a, b) => Ok(Expr::Ne(clone_boxed(alloc, a)?, clone_boxed(alloc, b)?)),
            Expr::Gt(a, b) => Ok(Expr::Gt(clone_boxed(alloc, a)?, clone_boxed(alloc, b)?)),
            Expr::Ge(a, b) => Ok(Expr::Ge(clone_boxed(alloc, a)?, clone_boxed(alloc, b)?)),
            Expr::Lt(a, b) => Ok(Expr::Lt(clone_boxed(alloc, a)?, clone_boxed(alloc, b)?)),
            Expr::Le(a, b) => Ok(Expr::Le(clone_boxed(alloc, a)?, clone_boxed(alloc, b)?)),
            Expr::And(a, b) => Ok(Expr::And(clone_boxed(alloc, a)?, clone_boxed(alloc, b)?)),
            Expr::Or(a, b) => Ok(Expr::Or(clone_boxed(alloc, a)?, clone_boxed(alloc, b)?)),
            Expr::Exists(query) => Ok(Expr::Exists(clone_query(alloc, query)?)),
            Expr::Subselect(query) => Ok(Expr::Subselect(clone_query(alloc, query)?)),
            Expr::EqAny(a, among) => Ok(Expr::EqAny(
                clone_boxed(alloc, a)?,
                among.try_clone(alloc)?,
            )),
            Expr::NeAll(a, among) => Ok(Expr::NeAll(
                clone_boxed(alloc, a)?,
                among.try_clone(alloc)?,
            )),
        }
    }
}

impl InValues {
    /// Equal values, or an equal statement.
    #[cycle(copy)]
    pub fn try_clone(&self, alloc: Global) -> Result<InValues, NoMemory>
        ensures { IfOk result (λ v. in_values_tree v ≡ in_values_tree self.now) }
    {
        match self {
            InValues::List(ty, values) => Ok(InValues::List(
                *ty,
                SqlList::from(clone_values(alloc, values.as_slice())?),
            )),
            InValues::Query(query) => Ok(InValues::Query(clone_query(alloc, query)?)),
        }
    }
}

/// As its variants say.
#[tactic(auto, using(sql_pass::proofs::Walking::walking, crate::proofs::Trees::opens_expr))]
impl<DB: Backend> QueryFragment<DB> for Expr {
    ghost pieces = { λ e. expr_pieces DB.speaks (expr_tree e) };

    #[cycle(walk)]
    fn walk_ast(&self, pass: &mut AstPass<DB>) -> Result<(), PassError> {
        match self {
            Expr::Column(column) => column.walk_ast(pass),
            Expr::Field(field) => field.walk_ast(pass),
            Expr::Value(ty, value) => walk_value(*ty, value, pass),
            Expr::List(exprs) => {
                let mut first = true;
                walk_list(&mut first, exprs, pass)
            }
            Expr::CountStar => pass.push_sql(COUNT_STAR),
            Expr::Nullable(a) => (**a).walk_ast(pass),
            Expr::Not(a) => walk_unary(Unary::Not, a, pass),
            Expr::IsNull(a) => walk_unary(Unary::IsNull, a, pass),
            Expr::IsNotNull(a) => walk_unary(Unary::IsNotNull, a, pass),
            Expr::Count(a) => walk_around(COUNT_OPEN, a, CLOSE, pass),
            Expr::Eq(a, b) => {
                walk_around(OPEN, a, Comparison::Eq.text(), pass)?;
                walk_before(b, CLOSE, pass)
            }
            Expr::Ne(a, b) => {
                walk_around(OPEN, a, Comparison::Ne.text(), pass)?;
                walk_before(b, CLOSE, pass)
            }
            Expr::Gt(a, b) => {
                walk_around(OPEN, a, Comparison::Gt.text(), pass)?;
                walk_before(b, CLOSE, pass)
            }
            Expr::Ge(a, b) => {
                walk_around(OPEN, a, Comparison::Ge.text(), pass)?;
                walk_before(b, CLOSE, pass)
            }
            Expr::Lt(a, b) => {
                walk_around(OPEN, a, Comparison::Lt.text(), pass)?;
                walk_before(b, CLOSE, pass)
            }
            Expr::Le(a, b) => {
                walk_around(OPEN, a, Comparison::Le.text(), pass)?;
                walk_before(b, CLOSE, pass)
            }
            Expr::And(a, b) => {
                walk_around(OPEN, a, Logic::And.text(), pass)?;
                walk_before(b, CLOSE, pass)
            }
            Expr::Or(a, b) => {
                walk_around(OPEN, a, Logic::Or.text(), pass)?;
                walk_before(b, CLOSE, pass)
            }
            Expr::Exists(query) => walk_query(EXISTS_OPEN, query, CLOSE, pass),
            Expr::Subselect(query) => walk_query(OPEN, query, CLOSE, pass),
            Expr::EqAny(a, among) => match among {
                InValues::List(ty, values) => walk_among_values(false, a, *ty, values, pass),
                InValues::Query(query) => {
                    walk_sought(false, a, pass)?;
                    walk_query_before(query, CLOSE_BOTH, pass)
                }
            },
            Expr::NeAll(a, among) => match among {
                InValues::List(ty, values) => walk_among_values(true, a, *ty, values, pass),
                InValues::Query(query) => {
                    walk_sought(true, a, pass)?;
                    walk_query_before(query, CLOSE_BOTH, pass)
                }
            },
        }
    }
}

/// Pushes the expression between the operator's texts.
#[cycle(walk)]
fn walk_unary<DB: Backend>(
    operator: Unary,
    a: &Expr,
    pass: &mut AstPass<DB>,
) -> Result<(), PassError>
    ensures { Walks DB.speaks (held DB.QueryBuilder.text DB.QueryBuilder.count pass.old)
        (around (unary_before operator) (expr_pieces DB.speaks (expr_tree a.now)) (unary_after operator)) result
        (held DB.QueryBuilder.text DB.QueryBuilder.count pass.new) }
{
    walk_around(operator.before(), a, operator.after(), pass)
}

/// Pushes the expression between two texts.
#[cycle(walk)]
pub(crate) fn walk_around<DB: Backend>(
    before: &str,
    a: &Expr,
    after: &str,
    pass: &mut AstPass<DB>,
) -> Result<(), PassError>
    ensures { Walks DB.speaks (held DB.QueryBuilder.text DB.QueryBuilder.count pass.old)
        (around before.now (expr_pieces DB.speaks (expr_tree a.now)) after.now) result
        (held DB.QueryBuilder.text DB.QueryBuilder.count pass.new) }
{
    pass.push_sql(before)?;
    a.walk_ast(pass)?;
    pass.push_sql(after)?;
    Ok(())
}

/// Pushes the expression before a text.
#[cycle(walk)]
fn walk_before<DB: Backend>(a: &Expr, after: &str, pass: &mut AstPass<DB>) -> Result<(), PassError>
    ensures { Walks DB.speaks (held DB.QueryBuilder.text DB.QueryBuilder.count pass.old)
        (expr_pieces DB.speaks (expr_tree a.now) ++ one (Text after.now)) result
        (held DB.QueryBuilder.text DB.QueryBuilder.count pass.new) }
{
    a.walk_ast(pass)?;
    pass.push_sql(after)?;
    Ok(())
}

/// Pushes the statement between two texts.
#[cycle(walk)]
fn walk_query<DB: Backend>(
    before: &str,
    query: &Statement,
    after: &str,
    pass: &mut AstPass<DB>,
) -> Result<(), PassError>
    ensures { Walks DB.speaks (held DB.QueryBuilder.text DB.QueryBuilder.count pass.old)
        (around before.now (pieces DB.speaks (statement_tree query.now)) after.now) result
        (held DB.QueryBuilder.text DB.QueryBuilder.count pass.new) }
{
    pass.push_sql(before)?;
    query.walk_ast(pass)?;
    pass.push_sql(after)?;
    Ok(())
}

/// Pushes the statement, and a text after it.
#[cycle(walk)]
fn walk_query_before<DB: Backend>(
    query: &Statement,
    after: &str,
    pass: &mut AstPass<DB>,
) -> Result<(), PassError>
    ensures { Walks DB.speaks (held DB.QueryBuilder.text DB.QueryBuilder.count pass.old)
        (pieces DB.speaks (statement_tree query.now) ++ one (Text after.now)) result
        (held DB.QueryBuilder.text DB.QueryBuilder.count pass.new) }
{
    query.walk_ast(pass)?;
    pass.push_sql(after)?;
    Ok(())
}

fn walk_list_alone<DB: Backend>(
    ty: SqlType,
    values: &[Value],
    pass: &mut AstPass<DB>,
) -> Result<(), PassError>
    ensures { Walks DB.speaks (held DB.QueryBuilder.text DB.QueryBuilder.count pass.old)
        (sought_values DB.speaks ty values.now) result
        (held DB.QueryBuilder.text DB.QueryBuilder.count pass.new) }
{
    match comparison_of(pass) {
        ArrayComparison::PgStyleArrayComparison => walk_bound_list(ty, values, pass),
        ArrayComparison::AnsiSqlArrayComparison => {
            mark_varying_length(pass);
            walk_values(ty, values, pass)
        }
    }
}

/// The statement, or the values: one list in PostgreSQL, one by one in the others.
#[tactic(auto, using(sql_pass::proofs::Walking::walking, crate::proofs::Trees::opens_in_values))]
impl<DB: Backend> QueryFragment<DB> for InValues {
    ghost pieces = { λ v. sought_pieces DB.speaks (in_values_tree v) };

    fn walk_ast(&self, pass: &mut AstPass<DB>) -> Result<(), PassError> {
        match self {
            InValues::List(ty, values) => walk_list_alone(*ty, values.as_slice(), pass),
            InValues::Query(query) => (**query).walk_ast(pass),
        }
    }
}
