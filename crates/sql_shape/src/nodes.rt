//! Tests of what the nodes of a statement hold, at any depth.
#![tactic(auto)]

ghost use Rattle.std.specs.Prelude.{◌≡◌, map};
ghost use Rattle.std.specs.Option.{option_map};
ghost use Rattle.sql_node.specs.View.{boxed_select_statement_tree, combination_clause_tree, distinct_clause_tree, expr_tree, exprs_of, from_clause_tree, group_by_clause_tree, having_clause_tree, in_values_tree, items_of, join_on_tree, maybe_of, order_clause_tree, order_item_tree, select_clause_tree, select_statement_tree, source_tree, statement_tree, where_clause_tree};
ghost use Rattle.sql_shape.specs.Nodes.{NodeTests, all_among, all_distinct, all_expr, all_exprs, all_from, all_items, all_maybe, all_order, all_source, all_statement};

use sql_leaf::{PositionalItem, Tablesample};
use sql_node::{
    BoxedSelectStatement, CombinationClause, DistinctClause, Expr, FromClause, GroupByClause,
    HavingClause, InValues, JoinOn, OrderClause, OrderItem, SelectClause, SelectStatement, Source,
    Statement, WhereClause,
};
use sql_pass::Value;
use sql_schema::{SqlList, SqlType};

/// Tests of what the nodes of a statement hold, which `all_nodes` makes at any depth.
///
/// Those of an id let each value pass and no list of values: `WHERE id = $1`, but not `WHERE id IN ($1, $2)`.
pub trait NodeTest {
    ghost tests: { NodeTests };

    /// Whether a boxed statement passes, one of `into_boxed`, if all that it holds does.
    fn boxed() -> bool
        ensures { result ≡ tests.boxed };

    /// Whether a value that is bound as of the type passes: the 1 of `id = 1`.
    fn value(ty: SqlType, value: &Value) -> bool
        ensures { result ≡ tests.value ty value.now };

    /// Whether a list of values of the type passes: that of `id IN (1, 2)`.
    fn values(ty: SqlType, values: &[Value]) -> bool
        ensures { result ≡ tests.values ty values.now };

    /// Whether a table passes by its sample, as `users TABLESAMPLE BERNOULLI (10)`, or without one.
    fn sample(sample: &Option<Tablesample>) -> bool
        ensures { result ≡ tests.sample sample.now };

    /// Whether a combination passes by the places that it is ordered by, as `ORDER BY 1`, or without an order.
    fn places(order: &Option<SqlList<PositionalItem>>) -> bool
        ensures { result ≡ tests.places order.now };
}

#[tactic(auto, using(sql_node::proofs::Trees::opens_expr, crate::proofs::Among::opens_among))]
#[cycle(nodes)]
fn expr_passes<T: NodeTest>(expr: &Expr) -> bool
    ensures { result ≡ all_expr T.tests (expr_tree expr.now) }
{
    match expr {
        Expr::Column(_) | Expr::Field(_) | Expr::CountStar => true,
        Expr::Value(ty, value) => T::value(*ty, value),
        Expr::List(exprs) => exprs_pass::<T>(exprs.as_slice()),
        Expr::Nullable(a) | Expr::Not(a) | Expr::IsNull(a) | Expr::IsNotNull(a) | Expr::Count(a) =>
            { expr_passes::<T>(a) }
        Expr::Eq(a, b)
        | Expr::Ne(a, b)
        | Expr::Gt(a, b)
        | Expr::Ge(a, b)
        | Expr::Lt(a, b)
        | Expr::Le(a, b)
        | Expr::And(a, b)
        | Expr::Or(a, b) => expr_passes::<T>(a) && expr_passes::<T>(b),
        Expr::Exists(query) | Expr::Subselect(query) => all_nodes::<T>(query),
        Expr::EqAny(a, among) | Expr::NeAll(a, among) => {
            expr_passes::<T>(a) && among_passes::<T>(among)
        }
    }
}

#[cycle(nodes)]
fn exprs_pass<T: NodeTest>(exprs: &[Expr]) -> bool
    ensures { result ≡ all_exprs T.tests (exprs_of (map expr_tree exprs.now)) }
{
    for expr in exprs {
        if !expr_passes::<T>(expr) {
            return false;
        }
    }
    true
}

#[tactic(auto, using(sql_node::proofs::Trees::opens_in_values))]
#[cycle(nodes)]
fn among_passes<T: NodeTest>(among: &InValues) -> bool
    ensures { result ≡ all_among T.tests (in_values_tree among.now) }
{
    match among {
        InValues::List(ty, values) => T::values(*ty, values.as_slice()),
        InValues::Query(query) => all_nodes::<T>(query),
    }
}

#[tactic(auto, using(sql_node::proofs::Trees::opens_join_on, sql_node::proofs::Trees::opens_join))]
#[cycle(nodes)]
fn join_passes<T: NodeTest>(join: &JoinOn) -> bool
    ensures { result ≡ all_source T.tests (join_on_tree join.now) }
{
    source_passes::<T>(&join.join.left)
        && source_passes::<T>(&join.join.right)
        && on_passes::<T>(&join.on)
}

#[cycle(nodes)]
fn on_passes<T: NodeTest>(on: &Option<Expr>) -> bool
    ensures { result ≡ all_maybe T.tests (maybe_of (option_map expr_tree on.now)) }
{
    match on {
        None => true,
        Some(on) => expr_passes::<T>(on),
    }
}

#[tactic(auto, using(sql_node::proofs::Trees::opens_source))]
#[cycle(nodes)]
fn source_passes<T: NodeTest>(source: &Source) -> bool
    ensures { result ≡ all_source T.tests (source_tree source.now) }
{
    match source {
        Source::Table(source) => T::sample(&source.sample),
        Source::Alias(_) => true,
        Source::Join(join) => join_passes::<T>(join),
    }
}

#[tactic(auto, using(sql_node::proofs::Trees::opens_from_clause))]
#[cycle(nodes)]
fn from_passes<T: NodeTest>(clause: &FromClause) -> bool
    ensures { result ≡ all_from T.tests (from_clause_tree clause.now) }
{
    match clause {
        FromClause::NoFromClause => true,
        FromClause::FromClause(source) => source_passes::<T>(source),
    }
}

#[tactic(auto, using(sql_node::proofs::Trees::opens_select_clause))]
#[cycle(nodes)]
fn selection_passes<T: NodeTest>(clause: &SelectClause) -> bool
    ensures { result ≡ all_expr T.tests (select_clause_tree clause.now).1 }
{
    match clause {
        SelectClause::DefaultSelectClause(selection) | SelectClause::SelectClause(selection) => {
            expr_passes::<T>(selection)
        }
    }
}

#[tactic(auto, using(sql_node::proofs::Trees::opens_distinct_clause))]
#[cycle(nodes)]
fn distinct_passes<T: NodeTest>(clause: &DistinctClause) -> bool
    ensures { result ≡ all_distinct T.tests (distinct_clause_tree clause.now) }
{
    match clause {
        DistinctClause::NoDistinctClause | DistinctClause::DistinctClause => true,
        DistinctClause::DistinctOnClause(exprs) => expr_passes::<T>(exprs),
    }
}

#[tactic(auto, using(sql_node::proofs::Trees::opens_where_clause))]
#[cycle(nodes)]
fn where_passes<T: NodeTest>(clause: &WhereClause) -> bool
    ensures { result ≡ all_maybe T.tests (where_clause_tree clause.now) }
{
    match clause {
        WhereClause::NoWhereClause => true,
        WhereClause::WhereClause(condition) => expr_passes::<T>(condition),
    }
}

#[tactic(auto, using(sql_node::proofs::Trees::opens_group_by_clause))]
#[cycle(nodes)]
fn group_by_passes<T: NodeTest>(clause: &GroupByClause) -> bool
    ensures { result ≡ all_maybe T.tests (group_by_clause_tree clause.now) }
{
    match clause {
        GroupByClause::NoGroupByClause => true,
        GroupByClause::GroupByClause(exprs) => expr_passes::<T>(exprs),
    }
}

#[tactic(auto, using(sql_node::proofs::Trees::opens_having_clause))]
#[cycle(nodes)]
fn having_passes<T: NodeTest>(clause: &HavingClause) -> bool
    ensures { result ≡ all_maybe T.tests (having_clause_tree clause.now) }
{
    match clause {
        HavingClause::NoHavingClause => true,
        HavingClause::HavingClause(condition) => expr_passes::<T>(condition),
    }
}

#[tactic(auto, using(sql_node::proofs::Trees::opens_order_item))]
#[cycle(nodes)]
fn item_passes<T: NodeTest>(item: &OrderItem) -> bool
    ensures { result ≡ all_expr T.tests (order_item_tree item.now).0 }
{
    expr_passes::<T>(&item.expr)
}

#[cycle(nodes)]
fn items_pass<T: NodeTest>(items: &[OrderItem]) -> bool
    ensures { result ≡ all_items T.tests (items_of (map order_item_tree items.now)) }
{
    for item in items {
        if !item_passes::<T>(item) {
            return false;
        }
    }
    true
}

#[tactic(auto, using(sql_node::proofs::Trees::opens_order_clause))]
#[cycle(nodes)]
fn order_passes<T: NodeTest>(clause: &OrderClause) -> bool
    ensures { result ≡ all_order T.tests (order_clause_tree clause.now) }
{
    match clause {
        OrderClause::NoOrderClause => true,
        OrderClause::OrderClause(items) => items_pass::<T>(items.as_slice()),
    }
}

#[tactic(auto, using(sql_node::proofs::Trees::opens_select_statement))]
#[cycle(nodes)]
fn select_passes<T: NodeTest>(select: &SelectStatement) -> bool
    ensures { result ≡ all_statement T.tests (select_statement_tree select.now) }
{
    distinct_passes::<T>(&select.distinct)
        && selection_passes::<T>(&select.select)
        && from_passes::<T>(&select.from)
        && where_passes::<T>(&select.where_clause)
        && group_by_passes::<T>(&select.group_by)
        && having_passes::<T>(&select.having)
        && order_passes::<T>(&select.order)
}

#[tactic(auto, using(sql_node::proofs::Trees::opens_boxed_select_statement))]
#[cycle(nodes)]
fn boxed_passes<T: NodeTest>(select: &BoxedSelectStatement) -> bool
    ensures { result ≡ all_statement T.tests (boxed_select_statement_tree select.now) }
{
    T::boxed()
        && distinct_passes::<T>(&select.distinct)
        && selection_passes::<T>(&select.select)
        && from_passes::<T>(&select.from)
        && where_passes::<T>(&select.where_clause)
        && group_by_passes::<T>(&select.group_by)
        && having_passes::<T>(&select.having)
        && order_passes::<T>(&select.order)
}

#[tactic(auto, using(sql_node::proofs::Trees::opens_combination_clause))]
#[cycle(nodes)]
fn combination_passes<T: NodeTest>(both: &CombinationClause) -> bool
    ensures { result ≡ all_statement T.tests (combination_clause_tree both.now) }
{
    all_nodes::<T>(&both.source) && all_nodes::<T>(&both.rhs) && T::places(&both.order)
}

/// Whether all that the nodes of the statement hold passes the tests, at any depth: of `SELECT .. WHERE EXISTS (SELECT ..)` in
/// both. It takes no memory.
#[tactic(auto, using(sql_node::proofs::Trees::opens_statement))]
#[cycle(nodes)]
pub fn all_nodes<T: NodeTest>(statement: &Statement) -> bool
    ensures { result ≡ all_statement T.tests (statement_tree statement.now) }
{
    match statement {
        Statement::Select(select) => select_passes::<T>(select),
        Statement::Boxed(select) => boxed_passes::<T>(select),
        Statement::Combination(both) => combination_passes::<T>(both),
    }
}
