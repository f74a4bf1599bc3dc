#![tactic(auto, using(sql_node::proofs::Trees::opens_source, sql_node::proofs::Trees::opens_join_on, sql_node::proofs::Trees::opens_join))]

ghost use Rattle.std.specs.Prelude.{◌≡◌, Some, Option, IfOk, option_map};
ghost use Rattle.sql_schema.specs.Declarations.{Declarations};
ghost use Rattle.sql_leaf.specs.declared.table_source.JoinKind.{JoinKind as Kind};
ghost use Rattle.sql_leaf.specs.declared.table_source.JoinKind.TheVariants as kind;
ghost use Rattle.sql_node.specs.Tree as tree;
ghost use Rattle.sql_node.specs.View.{expr_tree, join_on_tree, join_tree, source_tree};
ghost use Rattle.sql_expr.specs.Joining.{Side, side_tree, wrapper_tree};
ghost use Rattle.sql_source.specs.Joins.{all_inner, alone, inner_sides, joined_by, joined_with, on_for};

use crate::relation::implicit_on;
use sql_expr::{IntoJoinRhs, JoinRhs, OnClauseWrapper};
use sql_leaf::JoinKind;
use sql_node::{Expr, Join, JoinOn, Source};
use sql_schema::{NoMemory, Schema};
use std::alloc::Global;

/// Sources with their joins made inner ones.
pub trait ToInnerJoin {
    ghost outer: { Self → tree.Source };

    /// The same source with ` INNER JOIN ` for each ` LEFT OUTER JOIN `, at every depth.
    fn to_inner_join(self) -> Source
        ensures { source_tree result ≡ all_inner (outer self) };
}

/// Sources with a condition for a join to come.
pub trait JoinOnDsl {
    ghost unconditional: { Self → tree.Source };

    /// The source with the condition on which it is to be joined: `"posts" ON ("posts"."user_id" = "users"."id")`.
    fn on(self, on: Expr) -> OnClauseWrapper
        ensures { wrapper_tree result
            ≡ record { source = unconditional self; on = Some (expr_tree on) } };
}

/// The makers of wrappers.
pub trait NewOnClauseWrapper {
    /// The source with the condition on which it is to be joined.
    fn new(source: Source, on: Expr) -> OnClauseWrapper
        ensures { wrapper_tree result
            ≡ record { source = source_tree source; on = Some (expr_tree on) } };
}

/// Sources, alone or with a condition, that are joined with others.
pub trait JoinDsl: Sized {
    /// The source, and the condition that it keeps.
    ghost side: { Self → Side };

    /// `("users" INNER JOIN "posts" ON ("posts"."user_id" = "users"."id"))`. Without a condition of its own, the right side is
    /// joined on the relation that the schema declares; where there is none, the join has no condition.
    fn inner_join<R: IntoJoinRhs>(
        self,
        alloc: Global,
        schema: &Schema,
        rhs: R,
    ) -> Result<Self, NoMemory>
        ensures { IfOk result (λ s. side s
            ≡ joined_by schema.now kind.Inner (side self) (R.side rhs)) };

    /// `("users" LEFT OUTER JOIN "posts" ON ("posts"."user_id" = "users"."id"))`, on the same condition.
    fn left_outer_join<R: IntoJoinRhs>(
        self,
        alloc: Global,
        schema: &Schema,
        rhs: R,
    ) -> Result<Self, NoMemory>
        ensures { IfOk result (λ s. side s
            ≡ joined_by schema.now kind.LeftOuter (side self) (R.side rhs)) };

    /// The same as `left_outer_join`.
    fn left_join<R: IntoJoinRhs>(
        self,
        alloc: Global,
        schema: &Schema,
        rhs: R,
    ) -> Result<Self, NoMemory>
        ensures { IfOk result (λ s. side s
            ≡ joined_by schema.now kind.LeftOuter (side self) (R.side rhs)) }
    {
        self.left_outer_join(alloc, schema, rhs)
    }
}

/// A value that can be joined on a condition that the caller knows.
pub trait InternalJoinDsl: Sized {
    /// The relation between a value and the result of its join with a source, of a kind and on a condition.
    ghost joins_as: { Self → tree.Source → Kind → Option tree.Expr → Self → Type 0 };

    /// Joined with the source, on the condition where there is one.
    fn join(
        self,
        alloc: Global,
        rhs: Source,
        kind: JoinKind,
        on: Option<Expr>,
    ) -> Result<Self, NoMemory>
        ensures { IfOk result (λ s. joins_as self (source_tree rhs) kind (option_map expr_tree on)
            s) };
}

/// The condition on which two sources are joined.
pub trait JoinTo {
    /// The right side's source, and its condition: its own, or else that of the relation which the schema declares between the
    /// leftmost leaves of both sides, `"posts"."user_id" = "users"."id"`. None where it has none and none is declared.
    fn join_target(
        alloc: Global,
        schema: &Schema,
        left: &Source,
        rhs: JoinRhs,
    ) -> Result<(Source, Option<Expr>), NoMemory>
        ensures source { IfOk result (λ r. source_tree r.0 ≡ (side_tree rhs).source) }
        ensures on { IfOk result (λ r. option_map expr_tree r.1
            ≡ on_for schema.now (source_tree left.now) (side_tree rhs)) };
}

#[cycle(inner)]
fn make_inner(source: &mut Source)
    ensures { source_tree source.new ≡ all_inner (source_tree source.old) }
{
    match source {
        Source::Join(join) => make_inner_on(join),
        Source::Table(_) | Source::Alias(_) => {}
    }
}

#[cycle(inner)]
fn make_inner_on(join: &mut JoinOn)
    ensures { join_on_tree join.new ≡ all_inner (join_on_tree join.old) }
{
    make_inner_sides(&mut join.join);
}

#[cycle(inner)]
fn make_inner_sides(sides: &mut Join)
    ensures { join_tree sides.new ≡ inner_sides (join_tree sides.old) }
{
    sides.kind = JoinKind::Inner;
    make_inner(&mut sides.left);
    make_inner(&mut sides.right);
}

impl ToInnerJoin for Source {
    ghost outer = { source_tree };

    fn to_inner_join(mut self) -> Source {
        make_inner(&mut self);
        self
    }
}

impl JoinOnDsl for Source {
    ghost unconditional = { source_tree };

    fn on(self, on: Expr) -> OnClauseWrapper {
        OnClauseWrapper { source: self, on }
    }
}

impl NewOnClauseWrapper for OnClauseWrapper {
    fn new(source: Source, on: Expr) -> OnClauseWrapper {
        OnClauseWrapper { source, on }
    }
}

impl JoinTo for Source {
    fn join_target(
        alloc: Global,
        schema: &Schema,
        left: &Source,
        rhs: JoinRhs,
    ) -> Result<(Source, Option<Expr>), NoMemory> {
        match rhs {
            JoinRhs::On(wrapper) => Ok((wrapper.source, Some(wrapper.on))),
            JoinRhs::Source(source) => {
                let on = implicit_on(alloc, schema, left, &source)?;
                Ok((source, on))
            }
        }
    }
}

impl InternalJoinDsl for Source {
    ghost joins_as = { λ l r k on j. source_tree j
        ≡ joined_with k (source_tree l) (record { source = r; on = on }) };

    fn join(
        self,
        alloc: Global,
        rhs: Source,
        kind: JoinKind,
        on: Option<Expr>,
    ) -> Result<Source, NoMemory> {
        let join = Join {
            left: self,
            right: rhs,
            kind,
        };
        Ok(Source::Join(Box::new(alloc, JoinOn { join, on })?))
    }
}

/// Joined with the right side, on its condition or that of the relation.
fn joined_to(
    alloc: Global,
    schema: &Schema,
    left: Source,
    rhs: JoinRhs,
    kind: JoinKind,
) -> Result<Source, NoMemory>
    ensures { IfOk result (λ s. source_tree s
        ≡ (joined_by schema.now kind (alone (source_tree left)) (side_tree rhs)).source) }
{
    let (right, on) = Source::join_target(alloc, schema, &left, rhs)?;
    left.join(alloc, right, kind, on)
}

impl JoinDsl for Source {
    ghost side = { λ s. alone (source_tree s) };

    fn inner_join<R: IntoJoinRhs>(
        self,
        alloc: Global,
        schema: &Schema,
        rhs: R,
    ) -> Result<Source, NoMemory> {
        joined_to(alloc, schema, self, rhs.into_join_rhs(), JoinKind::Inner)
    }

    fn left_outer_join<R: IntoJoinRhs>(
        self,
        alloc: Global,
        schema: &Schema,
        rhs: R,
    ) -> Result<Source, NoMemory> {
        joined_to(
            alloc,
            schema,
            self,
            rhs.into_join_rhs(),
            JoinKind::LeftOuter,
        )
    }
}

fn wrapper_joined_to(
    alloc: Global,
    schema: &Schema,
    left: OnClauseWrapper,
    rhs: JoinRhs,
    kind: JoinKind,
) -> Result<OnClauseWrapper, NoMemory>
    ensures { IfOk result (λ w. wrapper_tree w
        ≡ joined_by schema.now kind (wrapper_tree left) (side_tree rhs)) }
{
    let source = joined_to(alloc, schema, left.source, rhs, kind)?;
    Ok(OnClauseWrapper {
        source,
        on: left.on,
    })
}

/// Its source is joined, and its condition stays.
impl JoinDsl for OnClauseWrapper {
    ghost side = { wrapper_tree };

    fn inner_join<R: IntoJoinRhs>(
        self,
        alloc: Global,
        schema: &Schema,
        rhs: R,
    ) -> Result<OnClauseWrapper, NoMemory> {
        wrapper_joined_to(alloc, schema, self, rhs.into_join_rhs(), JoinKind::Inner)
    }

    fn left_outer_join<R: IntoJoinRhs>(
        self,
        alloc: Global,
        schema: &Schema,
        rhs: R,
    ) -> Result<OnClauseWrapper, NoMemory> {
        wrapper_joined_to(
            alloc,
            schema,
            self,
            rhs.into_join_rhs(),
            JoinKind::LeftOuter,
        )
    }
}

/// Its source is joined, and its condition stays.
impl InternalJoinDsl for OnClauseWrapper {
    ghost joins_as = { λ w r k on j. wrapper_tree j
        ≡ record (wrapper_tree w) {
          source =
              joined_with k (wrapper_tree w).source (record { source = r; on = on });
        } };

    fn join(
        self,
        alloc: Global,
        rhs: Source,
        kind: JoinKind,
        on: Option<Expr>,
    ) -> Result<OnClauseWrapper, NoMemory> {
        let source = self.source.join(alloc, rhs, kind, on)?;
        Ok(OnClauseWrapper {
            source,
            on: self.on,
        })
    }
}
