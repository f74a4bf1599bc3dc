ghost use Rattle.std.specs.Prelude.{◌≡◌, IfOk, IsOk, map, option_map};
ghost use Rattle.sql_expr.specs.Joining.{side_tree};
ghost use Rattle.sql_leaf.specs.declared.locking.LockMode.TheVariants as lock;
ghost use Rattle.sql_leaf.specs.declared.locking.Modifier.TheVariants as way;
ghost use Rattle.sql_leaf.specs.declared.table_source.JoinKind.TheVariants as join_kind;
ghost use Rattle.sql_node.specs.Tree as tree;
ghost use Rattle.sql_node.specs.View.{boxed_select_statement_tree, expr_tree, items_of, order_item_tree, source_tree};
ghost use Rattle.sql_leaf.specs.declared.operator.Logic.TheVariants as by;
ghost use Rattle.sql_select.specs.Changes.{boxed_for, filtered, grouped, limited, locked, modified, nulled, offset_by, ordered, ordered_then, selected, single_value_of, with_distinct, with_having};
ghost use Rattle.sql_select.specs.Finding.{found};
ghost use Rattle.sql_select.specs.Joins.{joined, joined_on};
ghost use Rattle.sql_select.specs.Parts.{condition_of};

use crate::methods::{
    BoxedDsl, DistinctDsl, DistinctOnDsl, FilterDsl, FindDsl, GroupByDsl, HavingDsl,
    InternalJoinDsl, JoinWithImplicitOnClause, LimitDsl, LockingDsl, ModifyLockDsl, OffsetDsl,
    OrFilterDsl, OrderDsl, SelectDsl, SelectNullableDsl, SingleValueDsl, ThenOrderDsl,
};
use crate::query::Query;
use sql_dialect::Backend;
use sql_expr::{
    BoxedSelectStatement, CombinationClause, Expr, IntoJoinRhs, JoinKind, JoinRhs, LockMode,
    Modifier, OrderItem, SelectStatement, Source, count_star,
};
use sql_schema::{NoMemory, Schema};
use std::alloc::Global;

/// All calls on statements. Each is the call of its trait in `methods`, whose documentation shows its SQL.
pub trait QueryDsl: Query {
    /// As `DistinctDsl::distinct`.
    final fn distinct(self) -> Self
    where
        Self: DistinctDsl,
        ensures { Self.statement result ≡ with_distinct tree.distinct (Self.statement self) }
    {
        DistinctDsl::distinct(self)
    }

    /// As `DistinctOnDsl::distinct_on`.
    final fn distinct_on(self, on: Expr) -> Self
    where
        Self: DistinctOnDsl,
        ensures { Self.statement result
            ≡ with_distinct (tree.distinct_on (expr_tree on)) (Self.statement self) }
    {
        DistinctOnDsl::distinct_on(self, on)
    }

    /// As `SelectDsl::select`.
    final fn select(self, selection: Expr) -> Self
    where
        Self: SelectDsl,
        ensures { Self.statement result ≡ selected (expr_tree selection) (Self.statement self) }
    {
        SelectDsl::select(self, selection)
    }

    /// `SELECT COUNT(*)`, in place of an earlier selection.
    final fn count(self) -> Self
    where
        Self: SelectDsl,
        ensures { Self.statement result ≡ selected tree.count_star (Self.statement self) }
    {
        SelectDsl::select(self, count_star())
    }

    /// ` FROM ("users" INNER JOIN "posts" ON ..)`. As `JoinWithImplicitOnClause`.
    final fn inner_join<R: IntoJoinRhs>(
        self,
        alloc: Global,
        schema: &Schema,
        rhs: R,
    ) -> Result<Self, NoMemory>
    where
        Self: JoinWithImplicitOnClause,
        ensures { IfOk result (λ s. Self.statement s
            ≡ joined schema.now join_kind.Inner (R.side rhs) (Self.statement self)) }
    {
        let rhs = rhs.into_join_rhs();
        JoinWithImplicitOnClause::join_with_implicit_on_clause(
            self,
            alloc,
            schema,
            rhs,
            JoinKind::Inner,
        )
    }

    /// ` FROM ("users" LEFT OUTER JOIN "posts" ON ..)`. As `JoinWithImplicitOnClause`.
    final fn left_outer_join<R: IntoJoinRhs>(
        self,
        alloc: Global,
        schema: &Schema,
        rhs: R,
    ) -> Result<Self, NoMemory>
    where
        Self: JoinWithImplicitOnClause,
        ensures { IfOk result (λ s. Self.statement s
            ≡ joined schema.now join_kind.LeftOuter (R.side rhs) (Self.statement self)) }
    {
        let rhs = rhs.into_join_rhs();
        JoinWithImplicitOnClause::join_with_implicit_on_clause(
            self,
            alloc,
            schema,
            rhs,
            JoinKind::LeftOuter,
        )
    }

    /// The same as `left_outer_join`.
    final fn left_join<R: IntoJoinRhs>(
        self,
        alloc: Global,
        schema: &Schema,
        rhs: R,
    ) -> Result<Self, NoMemory>
    where
        Self: JoinWithImplicitOnClause,
        ensures { IfOk result (λ s. Self.statement s
            ≡ joined schema.now join_kind.LeftOuter (R.side rhs) (Self.statement self)) }
    {
        self.left_outer_join(alloc, schema, rhs)
    }

    /// As `JoinWithImplicitOnClause::join_with_implicit_on_clause`.
    final fn join_with_implicit_on_clause(
        self,
        alloc: Global,
        schema: &Schema,
        rhs: JoinRhs,
        kind: JoinKind,
    ) -> Result<Self, NoMemory>
    where
        Self: JoinWithImplicitOnClause,
        ensures { IfOk result (λ s. Self.statement s
            ≡ joined schema.now kind (side_tree rhs) (Self.statement self)) }
    {
        JoinWithImplicitOnClause::join_with_implicit_on_clause(self, alloc, schema, rhs, kind)
    }

    /// As `InternalJoinDsl::join`.
    final fn join(
        self,
        alloc: Global,
        rhs: Source,
        kind: JoinKind,
        on: Option<Expr>,
    ) -> Result<Self, NoMemory>
    where
        Self: InternalJoinDsl,
        ensures { IfOk result (λ s. Self.statement s
            ≡ joined_on kind (record { source = source_tree rhs; on = option_map expr_tree on })
            (Self.statement self)) }
    {
        InternalJoinDsl::join(self, alloc, rhs, kind, on)
    }

    /// As `FilterDsl::filter`.
    final fn filter(self, alloc: Global, predicate: Expr) -> Result<Self, NoMemory>
    where
        Self: FilterDsl,
        ensures whole { IfOk result (λ s. Self.statement s
            ≡ filtered by.And (expr_tree predicate) (Self.statement self)) }
        ensures first { condition_of (Self.statement self) ≡ tree.no_expr → IsOk result }
    {
        FilterDsl::filter(self, alloc, predicate)
    }

    /// As `OrFilterDsl::or_filter`.
    final fn or_filter(self, alloc: Global, predicate: Expr) -> Result<Self, NoMemory>
    where
        Self: OrFilterDsl,
        ensures whole { IfOk result (λ s. Self.statement s
            ≡ filtered by.Or (expr_tree predicate) (Self.statement self)) }
        ensures first { condition_of (Self.statement self) ≡ tree.no_expr → IsOk result }
    {
        OrFilterDsl::or_filter(self, alloc, predicate)
    }

    /// As `FindDsl::find`.
    final fn find(self, alloc: Global, key: Vec<Expr>) -> Result<Self, NoMemory>
    where
        Self: FindDsl,
        ensures { IfOk result (λ s. Self.statement s
            ≡ found (map expr_tree key.items) (Self.statement self)) }
    {
        FindDsl::find(self, alloc, key)
    }

    /// As `OrderDsl::order`.
    final fn order(self, items: Vec<OrderItem>) -> Self
    where
        Self: OrderDsl,
        ensures { Self.statement result
            ≡ ordered (items_of (map order_item_tree items.items)) (Self.statement self) }
    {
        OrderDsl::order(self, items)
    }

    /// The same as `order`.
    final fn order_by(self, items: Vec<OrderItem>) -> Self
    where
        Self: OrderDsl,
        ensures { Self.statement result
            ≡ ordered (items_of (map order_item_tree items.items)) (Self.statement self) }
    {
        OrderDsl::order(self, items)
    }

    /// As `ThenOrderDsl::then_order_by`.
    final fn then_order_by(self, alloc: Global, items: Vec<OrderItem>) -> Result<Self, NoMemory>
    where
        Self: ThenOrderDsl,
        ensures { IfOk result (λ s. Self.statement s
            ≡ ordered_then (items_of (map order_item_tree items.items)) (Self.statement self)) }
    {
        ThenOrderDsl::then_order_by(self, alloc, items)
    }

    /// As `LimitDsl::limit`.
    final fn limit(self, limit: i64) -> Self
    where
        Self: LimitDsl,
        ensures { Self.statement result ≡ limited limit (Self.statement self) }
    {
        LimitDsl::limit(self, limit)
    }

    /// As `OffsetDsl::offset`.
    final fn offset(self, offset: i64) -> Self
    where
        Self: OffsetDsl,
        ensures { Self.statement result ≡ offset_by offset (Self.statement self) }
    {
        OffsetDsl::offset(self, offset)
    }

    /// As `GroupByDsl::group_by`.
    final fn group_by(self, expr: Expr) -> Self
    where
        Self: GroupByDsl,
        ensures { Self.statement result ≡ grouped (expr_tree expr) (Self.statement self) }
    {
        GroupByDsl::group_by(self, expr)
    }

    /// As `HavingDsl::having`.
    final fn having(self, predicate: Expr) -> Self
    where
        Self: HavingDsl,
        ensures { Self.statement result ≡ with_having (expr_tree predicate) (Self.statement self) }
    {
        HavingDsl::having(self, predicate)
    }

    /// As `LockingDsl::with_lock`.
    final fn with_lock(self, mode: LockMode) -> Self
    where
        Self: LockingDsl,
        ensures { Self.statement result ≡ locked mode (Self.statement self) }
    {
        LockingDsl::with_lock(self, mode)
    }

    /// ` FOR UPDATE`. As `LockingDsl`.
    final fn for_update(self) -> Self
    where
        Self: LockingDsl,
        ensures { Self.statement result ≡ locked lock.ForUpdate (Self.statement self) }
    {
        LockingDsl::with_lock(self, LockMode::ForUpdate)
    }

    /// ` FOR NO KEY UPDATE`. As `LockingDsl`. PostgreSQL alone has it.
    final fn for_no_key_update(self) -> Self
    where
        Self: LockingDsl,
        ensures { Self.statement result ≡ locked lock.ForNoKeyUpdate (Self.statement self) }
    {
        LockingDsl::with_lock(self, LockMode::ForNoKeyUpdate)
    }

    /// ` FOR SHARE`. As `LockingDsl`.
    final fn for_share(self) -> Self
    where
        Self: LockingDsl,
        ensures { Self.statement result ≡ locked lock.ForShare (Self.statement self) }
    {
        LockingDsl::with_lock(self, LockMode::ForShare)
    }

    /// ` FOR KEY SHARE`. As `LockingDsl`. PostgreSQL alone has it.
    final fn for_key_share(self) -> Self
    where
        Self: LockingDsl,
        ensures { Self.statement result ≡ locked lock.ForKeyShare (Self.statement self) }
    {
        LockingDsl::with_lock(self, LockMode::ForKeyShare)
    }

    /// As `ModifyLockDsl::modify_lock`.
    final fn modify_lock(self, modifier: Modifier) -> Self
    where
        Self: ModifyLockDsl,
        ensures { Self.statement result ≡ modified modifier (Self.statement self) }
    {
        ModifyLockDsl::modify_lock(self, modifier)
    }

    /// ` SKIP LOCKED` after the lock. As `ModifyLockDsl`.
    final fn skip_locked(self) -> Self
    where
        Self: ModifyLockDsl,
        ensures { Self.statement result ≡ modified way.SkipLocked (Self.statement self) }
    {
        ModifyLockDsl::modify_lock(self, Modifier::SkipLocked)
    }

    /// ` NOWAIT` after the lock. As `ModifyLockDsl`.
    final fn no_wait(self) -> Self
    where
        Self: ModifyLockDsl,
        ensures { Self.statement result ≡ modified way.NoWait (Self.statement self) }
    {
        ModifyLockDsl::modify_lock(self, Modifier::NoWait)
    }

    /// As `BoxedDsl::internal_into_boxed`.
    final fn into_boxed<DB: Backend>(self, backend: &DB) -> BoxedSelectStatement
    where
        Self: BoxedDsl,
        ensures { boxed_select_statement_tree result ≡ boxed_for DB.speaks (Self.statement self) }
    {
        self.internal_into_boxed(backend)
    }

    /// As `SelectNullableDsl::nullable`.
    final fn nullable(self, alloc: Global) -> Result<Self, NoMemory>
    where
        Self: SelectNullableDsl,
        ensures { IfOk result (λ s. Self.statement s ≡ nulled (Self.statement self)) }
    {
        SelectNullableDsl::nullable(self, alloc)
    }

    /// As `SingleValueDsl::single_value`.
    final fn single_value(self, alloc: Global) -> Result<Expr, NoMemory>
    where
        Self: SingleValueDsl,
        ensures { IfOk result (λ e. expr_tree e ≡ single_value_of (Self.statement self)) }
    {
        SingleValueDsl::single_value(self, alloc)
    }
}

impl QueryDsl for SelectStatement {}

impl QueryDsl for BoxedSelectStatement {}

impl QueryDsl for CombinationClause {}
