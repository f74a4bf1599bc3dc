#![tactic(auto, using(sql_node::proofs::Trees::opens_combination_clause))]

ghost use Rattle.std.specs.Prelude.{◌≡◌, IfOk};
ghost use Rattle.sql_dialect.specs.declared.combination.Combinator.TheVariants as by;
ghost use Rattle.sql_dialect.specs.declared.combination.DuplicateRule.TheVariants as rule;
ghost use Rattle.sql_leaf.specs.declared.position.Direction.{Direction};
ghost use Rattle.sql_leaf.specs.declared.position.Direction.TheVariants as way;
ghost use Rattle.sql_leaf.specs.declared.position.OrderColumn.{OrderColumn};
ghost use Rattle.sql_leaf.specs.declared.position.PositionalItem.{PositionalItem};
ghost use Rattle.sql_node.specs.View.{combination_clause_tree, statement_tree};
ghost use Rattle.sql_select.specs.Changes.{combined, ordered_by_places};

use crate::query::Query;
use sql_dialect::{Combinator, DuplicateRule};
use sql_expr::{
    BoxedSelectStatement, CombinationClause, Direction, LimitOffsetClause, OrderColumn,
    PositionalItem, SelectStatement, Statement,
};
use sql_schema::{NoMemory, SqlList};
use std::alloc::Global;

fn combine(
    alloc: Global,
    combinator: Combinator,
    duplicate_rule: DuplicateRule,
    source: Statement,
    rhs: Statement,
) -> Result<CombinationClause, NoMemory>
    ensures { IfOk result (λ c. combination_clause_tree c
        ≡ combined combinator duplicate_rule (statement_tree source) (statement_tree rhs)) }
{
    Ok(CombinationClause {
        combinator,
        duplicate_rule,
        source: Box::new(alloc, source)?,
        rhs: Box::new(alloc, rhs)?,
        order: None,
        limit_offset: LimitOffsetClause {
            limit_clause: None,
            offset_clause: None,
        },
    })
}

/// Equal rows once.
fn distinct(
    alloc: Global,
    combinator: Combinator,
    source: Statement,
    rhs: Statement,
) -> Result<CombinationClause, NoMemory>
    ensures { IfOk result (λ c. combination_clause_tree c
        ≡ combined combinator rule.Distinct (statement_tree source) (statement_tree rhs)) }
{
    combine(alloc, combinator, DuplicateRule::Distinct, source, rhs)
}

/// Equal rows as often as they count.
fn all(
    alloc: Global,
    combinator: Combinator,
    source: Statement,
    rhs: Statement,
) -> Result<CombinationClause, NoMemory>
    ensures { IfOk result (λ c. combination_clause_tree c
        ≡ combined combinator rule.All (statement_tree source) (statement_tree rhs)) }
{
    combine(alloc, combinator, DuplicateRule::All, source, rhs)
}

/// Two statements as one: `(SELECT ..) UNION (SELECT ..)`.
pub trait CombineDsl: Query {
    /// The rows of either, equal ones once.
    final fn union(self, alloc: Global, rhs: Statement) -> Result<CombinationClause, NoMemory>
        ensures { IfOk result (λ c. combination_clause_tree c
            ≡ combined by.Union rule.Distinct (Self.statement self) (statement_tree rhs)) }
    {
        distinct(alloc, Combinator::Union, self.into_statement(), rhs)
    }

    /// The rows of either, each as often as both have it together.
    final fn union_all(self, alloc: Global, rhs: Statement) -> Result<CombinationClause, NoMemory>
        ensures { IfOk result (λ c. combination_clause_tree c
            ≡ combined by.Union rule.All (Self.statement self) (statement_tree rhs)) }
    {
        all(alloc, Combinator::Union, self.into_statement(), rhs)
    }

    /// The rows of both, equal ones once.
    final fn intersect(self, alloc: Global, rhs: Statement) -> Result<CombinationClause, NoMemory>
        ensures { IfOk result (λ c. combination_clause_tree c
            ≡ combined by.Intersect rule.Distinct (Self.statement self) (statement_tree rhs)) }
    {
        distinct(alloc, Combinator::Intersect, self.into_statement(), rhs)
    }

    /// The rows of both, each as often as the one that has it less often. SQLite and Bracket lack it.
    final fn intersect_all(
        self,
        alloc: Global,
        rhs: Statement,
    ) -> Result<CombinationClause, NoMemory>
        ensures { IfOk result (λ c. combination_clause_tree c
            ≡ combined by.Intersect rule.All (Self.statement self) (statement_tree rhs)) }
    {
        all(alloc, Combinator::Intersect, self.into_statement(), rhs)
    }

    /// The rows of this statement that the other lacks, equal ones once.
    final fn except(self, alloc: Global, rhs: Statement) -> Result<CombinationClause, NoMemory>
        ensures { IfOk result (λ c. combination_clause_tree c
            ≡ combined by.Except rule.Distinct (Self.statement self) (statement_tree rhs)) }
    {
        distinct(alloc, Combinator::Except, self.into_statement(), rhs)
    }

    /// The rows of this statement, each as often as it has it more often than the other. SQLite and
    /// Bracket lack it.
    final fn except_all(self, alloc: Global, rhs: Statement) -> Result<CombinationClause, NoMemory>
        ensures { IfOk result (λ c. combination_clause_tree c
            ≡ combined by.Except rule.All (Self.statement self) (statement_tree rhs)) }
    {
        all(alloc, Combinator::Except, self.into_statement(), rhs)
    }
}

impl CombineDsl for SelectStatement {}

impl CombineDsl for BoxedSelectStatement {}

impl CombineDsl for CombinationClause {}

/// The order of a combination's rows.
pub trait PositionalOrderDsl: Query {
    /// ` ORDER BY 1, 2 DESC`: by columns of the answer, in place of an earlier order.
    fn positional_order_by(self, items: Vec<PositionalItem>) -> Self
        ensures { Self.statement result ≡ ordered_by_places items.items (Self.statement self) };
}

impl PositionalOrderDsl for CombinationClause {
    fn positional_order_by(mut self, items: Vec<PositionalItem>) -> CombinationClause {
        self.order = Some(SqlList::from(items));
        self
    }
}

/// A value by which a combination can be ordered.
pub trait IntoPositionalOrderExpr {
    ghost item: { Self → PositionalItem };

    /// It as an item of an order: a column alone is without direction.
    fn into_positional_expr(self) -> PositionalItem
        ensures { result ≡ item self };
}

impl IntoPositionalOrderExpr for u32 {
    ghost item = { λ n. record { column = record { 0 = n }; direction = way.None } };

    fn into_positional_expr(self) -> PositionalItem {
        OrderColumn(self).into_positional_expr()
    }
}

impl IntoPositionalOrderExpr for OrderColumn {
    ghost item = { λ c. record { column = c; direction = way.None } };

    fn into_positional_expr(self) -> PositionalItem {
        PositionalItem {
            column: self,
            direction: Direction::None,
        }
    }
}

impl IntoPositionalOrderExpr for PositionalItem {
    ghost item = { λ i. i };

    fn into_positional_expr(self) -> PositionalItem {
        self
    }
}

/// A column of the answer with a direction.
pub trait OrderColumnMethods {
    ghost column: { Self → OrderColumn };

    /// `1 ASC`.
    fn asc(self) -> PositionalItem
        ensures { result ≡ record { column = column self; direction = way.Asc } };

    /// `1 DESC`.
    fn desc(self) -> PositionalItem
        ensures { result ≡ record { column = column self; direction = way.Desc } };
}

impl OrderColumnMethods for OrderColumn {
    ghost column = { λ c. c };

    fn asc(self) -> PositionalItem {
        PositionalItem {
            column: self,
            direction: Direction::Asc,
        }
    }

    fn desc(self) -> PositionalItem {
        PositionalItem {
            column: self,
            direction: Direction::Desc,
        }
    }
}
