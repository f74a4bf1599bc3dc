//! The calls on statements, each by the trait that it is of, and each with its clause.

ghost use Rattle.std.specs.Prelude.{◌≡◌, IfOk, IsOk, Some, map, option_map, pos};
ghost use Rattle.hardieflax.specs.Changes.{boxed_for, filtered, grouped, limited, locked, modified, nulled, offset_by, ordered, ordered_by_places, ordered_then, selected, single_value_of, with_distinct, with_having};
ghost use Rattle.hardieflax.specs.Direction.TheVariants as way;
ghost use Rattle.hardieflax.specs.Finding.{found};
ghost use Rattle.hardieflax.specs.Held.{held};
ghost use Rattle.hardieflax.specs.JoinKind.TheVariants.{Inner};
ghost use Rattle.hardieflax.specs.Joining.{side_tree};
ghost use Rattle.hardieflax.specs.Joins.{joined, joined_on};
ghost use Rattle.hardieflax.specs.Simple.{simple as simple_select};
ghost use Rattle.hardieflax.specs.StatementParts.{clauses_of, condition_of};
ghost use Rattle.hardieflax.specs.StatementPieces.{pieces};
ghost use Rattle.hardieflax.specs.Tree as tree;
ghost use Rattle.hardieflax.specs.View.{boxed_select_statement_tree, expr_tree, items_of, order_item_tree, select_statement_tree, source_tree, statement_tree, where_clause_tree};
ghost use Rattle.hardieflax.specs.Walks.{Walks};
ghost use Rattle.hardieflax.specs.Logic.TheVariants as by;

use hardieflax::methods::{
    BoxedDsl, DistinctDsl, DistinctOnDsl, FilterDsl, FindDsl, GroupByDsl, HavingDsl,
    InternalJoinDsl, IntoBoxedClause, JoinWithImplicitOnClause, LimitDsl, LockingDsl,
    ModifyLockDsl, OffsetDsl, OrFilterDsl, OrderDsl, SelectDsl, SelectNullableDsl, SingleValueDsl,
    ThenOrderDsl,
};
use hardieflax::{
    AsQuery, AstPass, Backend, BoxedQueryHelper, BoxedSelectStatement, CombinationClause,
    CombineDsl, Expr, HasQuery, IntoPositionalOrderExpr, JoinKind, JoinRhs, LockMode, Modifier,
    NoMemory, OrderColumnMethods, OrderItem, PassError, PositionalItem, PositionalOrderDsl, Query,
    QueryDsl, Schema, SelectStatement, SelectStatementAccessor, SimpleSelect, Source, Statement,
    WhereClause, select,
};
use std::alloc::Global;

/// `SELECT DISTINCT`.
pub fn distinct<Q: DistinctDsl>(query: Q) -> Q
    ensures { Q.statement result ≡ with_distinct tree.distinct (Q.statement query) }
{
    DistinctDsl::distinct(query)
}

/// `SELECT DISTINCT ON (a)`.
pub fn distinct_on<Q: DistinctOnDsl>(query: Q, on: Expr) -> Q
    ensures { Q.statement result ≡ with_distinct (tree.distinct_on (expr_tree on)) (Q.statement query) }
{
    DistinctOnDsl::distinct_on(query, on)
}

/// `SELECT a`.
pub fn selection<Q: SelectDsl>(query: Q, selection: Expr) -> Q
    ensures { Q.statement result ≡ selected (expr_tree selection) (Q.statement query) }
{
    SelectDsl::select(query, selection)
}

/// The same selection, nullable.
pub fn nullable<Q: SelectNullableDsl>(alloc: Global, query: Q) -> Result<Q, NoMemory>
    ensures { IfOk result (λ q. Q.statement q ≡ nulled (Q.statement query)) }
{
    SelectNullableDsl::nullable(query, alloc)
}

/// `(SELECT a LIMIT 1)`.
pub fn single_value<Q: SingleValueDsl>(alloc: Global, query: Q) -> Result<Expr, NoMemory>
    ensures { IfOk result (λ e. expr_tree e ≡ single_value_of (Q.statement query)) }
{
    SingleValueDsl::single_value(query, alloc)
}

/// ` WHERE (a AND b)`.
pub fn filter<Q: FilterDsl>(alloc: Global, query: Q, predicate: Expr) -> Result<Q, NoMemory>
    ensures whole { IfOk result (λ q. Q.statement q ≡ filtered by.And (expr_tree predicate) (Q.statement query)) }
    ensures first { condition_of (Q.statement query) ≡ tree.no_expr → IsOk result }
{
    FilterDsl::filter(query, alloc, predicate)
}

/// ` WHERE (a OR b)`.
pub fn or_filter<Q: OrFilterDsl>(alloc: Global, query: Q, predicate: Expr) -> Result<Q, NoMemory>
    ensures whole { IfOk result (λ q. Q.statement q ≡ filtered by.Or (expr_tree predicate) (Q.statement query)) }
    ensures first { condition_of (Q.statement query) ≡ tree.no_expr → IsOk result }
{
    OrFilterDsl::or_filter(query, alloc, predicate)
}

/// ` WHERE ("users"."id" = $1)`.
pub fn find<Q: FindDsl>(alloc: Global, query: Q, key: Vec<Expr>) -> Result<Q, NoMemory>
    ensures { IfOk result (λ q. Q.statement q ≡ found (map expr_tree key.items) (Q.statement query)) }
{
    FindDsl::find(query, alloc, key)
}

/// ` GROUP BY a`.
pub fn group_by<Q: GroupByDsl>(query: Q, expr: Expr) -> Q
    ensures { Q.statement result ≡ grouped (expr_tree expr) (Q.statement query) }
{
    GroupByDsl::group_by(query, expr)
}

/// ` HAVING a`.
pub fn having<Q: HavingDsl>(query: Q, predicate: Expr) -> Q
    ensures { Q.statement result ≡ with_having (expr_tree predicate) (Q.statement query) }
{
    HavingDsl::having(query, predicate)
}

/// ` ORDER BY a, b`.
pub fn order<Q: OrderDsl>(query: Q, items: Vec<OrderItem>) -> Q
    ensures { Q.statement result ≡ ordered (items_of (map order_item_tree items.items)) (Q.statement query) }
{
    OrderDsl::order(query, items)
}

/// ` ORDER BY a, b`, after the order so far.
pub fn then_order_by<Q: ThenOrderDsl>(
    alloc: Global,
    query: Q,
    items: Vec<OrderItem>,
) -> Result<Q, NoMemory>
    ensures { IfOk result (λ q. Q.statement q ≡ ordered_then (items_of (map order_item_tree items.items)) (Q.statement query)) }
{
    ThenOrderDsl::then_order_by(query, alloc, items)
}

/// ` LIMIT $1`.
pub fn limit<Q: LimitDsl>(query: Q, limit: i64) -> Q
    ensures { Q.statement result ≡ limited limit (Q.statement query) }
{
    LimitDsl::limit(query, limit)
}

/// ` OFFSET $1`.
pub fn offset<Q: OffsetDsl>(query: Q, offset: i64) -> Q
    ensures { Q.statement result ≡ offset_by offset (Q.statement query) }
{
    OffsetDsl::offset(query, offset)
}

/// ` FOR UPDATE`.
pub fn with_lock<Q: LockingDsl>(query: Q, mode: LockMode) -> Q
    ensures { Q.statement result ≡ locked mode (Q.statement query) }
{
    LockingDsl::with_lock(query, mode)
}

/// ` FOR UPDATE NOWAIT`.
pub fn modify_lock<Q: ModifyLockDsl>(query: Q, modifier: Modifier) -> Q
    ensures { Q.statement result ≡ modified modifier (Q.statement query) }
{
    ModifyLockDsl::modify_lock(query, modifier)
}

/// ` INNER JOIN "posts" ON` the relation that the schema declares.
pub fn join_on_relation<Q: JoinWithImplicitOnClause>(
    alloc: Global,
    schema: &Schema,
    query: Q,
    rhs: JoinRhs,
) -> Result<Q, NoMemory>
    ensures { IfOk result (λ q. Q.statement q ≡ joined schema.now Inner (side_tree rhs) (Q.statement query)) }
{
    query.join_with_implicit_on_clause(alloc, schema, rhs, JoinKind::Inner)
}

/// ` LEFT OUTER JOIN "posts" ON a`.
pub fn join_on<Q: InternalJoinDsl>(
    alloc: Global,
    query: Q,
    rhs: Source,
    kind: JoinKind,
    on: Option<Expr>,
) -> Result<Q, NoMemory>
    ensures { IfOk result (λ q. Q.statement q ≡ joined_on kind (record { source = source_tree rhs; on = option_map expr_tree on }) (Q.statement query)) }
{
    InternalJoinDsl::join(query, alloc, rhs, kind, on)
}

/// The boxed statement.
pub fn boxed<Q: IntoBoxedClause, DB: Backend>(query: Q, backend: &DB) -> BoxedSelectStatement
    ensures { boxed_select_statement_tree result ≡ boxed_for DB.speaks (Q.statement query) }
{
    IntoBoxedClause::into_boxed(query, backend)
}

/// The boxed statement.
pub fn boxed_within<Q: BoxedDsl, DB: Backend>(query: Q, backend: &DB) -> BoxedSelectStatement
    ensures { boxed_select_statement_tree result ≡ boxed_for DB.speaks (Q.statement query) }
{
    query.internal_into_boxed(backend)
}

/// Pushes the boxed statement.
pub fn push_boxed<Q: BoxedQueryHelper, DB: Backend>(
    query: &Q,
    pass: &mut AstPass<DB>,
) -> Result<(), PassError>
    ensures { Walks DB.speaks (held DB.QueryBuilder.text DB.QueryBuilder.count pass.old) (pieces DB.speaks (Q.statement query.now)) result (held DB.QueryBuilder.text DB.QueryBuilder.count pass.new) }
{
    query.build_query(pass)
}

/// All calls of a query have one trait.
pub fn first_page<Q: QueryDsl + LimitDsl>(query: Q) -> Q
    ensures { Q.statement result ≡ limited (pos 10) (Q.statement query) }
{
    QueryDsl::limit(query, 10)
}

/// A statement of any kind.
pub fn statement_of<Q: Query>(query: Q) -> Statement
    ensures { statement_tree result ≡ Q.statement query }
{
    query.into_statement()
}

/// `SELECT "users"."id" FROM "users"`.
pub fn begun<T: AsQuery>(alloc: Global, from: T) -> Result<SelectStatement, NoMemory>
    ensures { IfOk result (λ q. select_statement_tree q ≡ simple_select (T.source from)) }
{
    from.as_query(alloc)
}

/// The same, of a source.
pub fn simple<Q: SimpleSelect>(alloc: Global, source: Source) -> Result<Q, NoMemory>
    ensures { IfOk result (λ q. Q.made q ≡ simple_select (source_tree source)) }
{
    Q::simple(alloc, source)
}

/// `SELECT $1`.
pub fn without_source(selection: Expr) -> SelectStatement {
    select(selection)
}

/// The condition.
pub fn condition<Q: SelectStatementAccessor>(query: &Q) -> &WhereClause
    ensures { Some (where_clause_tree result.now) ≡ option_map (λ c. c.condition) (clauses_of (Q.statement query.now)) }
{
    query.where_clause()
}

/// The statement that gives the rows of a type.
pub fn rows_of<T: HasQuery>(alloc: Global, rows: &T) -> Result<SelectStatement, NoMemory>
    ensures { IfOk result (λ q. select_statement_tree q ≡ selected (T.wanted rows.now) (T.base rows.now)) }
{
    rows.query(alloc)
}

/// `(a) UNION (b)`.
pub fn united<Q: CombineDsl>(
    alloc: Global,
    query: Q,
    rhs: Statement,
) -> Result<CombinationClause, NoMemory> {
    query.union(alloc, rhs)
}

/// ` ORDER BY 1`, of a combination.
pub fn ordered_by_position<Q: PositionalOrderDsl>(query: Q, items: Vec<PositionalItem>) -> Q
    ensures { Q.statement result ≡ ordered_by_places items.items (Q.statement query) }
{
    query.positional_order_by(items)
}

/// The item of a column number.
pub fn position<T: IntoPositionalOrderExpr>(column: T) -> PositionalItem
    ensures { result ≡ T.item column }
{
    column.into_positional_expr()
}

/// ` ORDER BY 1 DESC`.
pub fn descending<T: OrderColumnMethods>(column: T) -> PositionalItem
    ensures { result ≡ record { column = T.column column; direction = way.Desc } }
{
    column.desc()
}
