#![tactic(auto, using(sql_node::proofs::Trees::opens_from_clause, sql_node::proofs::Trees::opens_select_clause, sql_node::proofs::Trees::opens_select_statement, sql_node::proofs::Trees::opens_boxed_select_statement))]

ghost use Rattle.std.specs.Prelude.{◌≡◌, IfOk, OnOk, option_map};
ghost use Rattle.sql_expr.specs.Joining.{side_tree};
ghost use Rattle.sql_node.specs.View.{expr_tree, from_clause_tree, select_clause_tree, source_tree};
ghost use Rattle.sql_source.specs.Joins.{alone, joined_by, joined_with};
ghost use Rattle.sql_select.specs.Joins.{default_over, from_map, joined, joined_on, mark_over};

use crate::beside::beside;
use crate::query::Query;
use sql_expr::{
    BoxedSelectStatement, Expr, FromClause, JoinKind, JoinRhs, Marks, SelectClause,
    SelectStatement, Source,
};
use sql_schema::{NoMemory, Schema};
use sql_source::{InternalJoinDsl as _, JoinTo, QuerySource};
use std::alloc::Global;
use std::mem;

/// Joins on the condition that their right side has, or on that of a relation of the schema.
pub trait JoinWithImplicitOnClause: Query {
    /// ` FROM ("users" INNER JOIN "posts" ON ("posts"."user_id" = "users"."id"))`. A default selection becomes that of the join;
    /// a boxed statement's stays. Without a source it leaves a mark, and the statement is refused once it is checked.
    fn join_with_implicit_on_clause(
        self,
        alloc: Global,
        schema: &Schema,
        rhs: JoinRhs,
        kind: JoinKind,
    ) -> Result<Self, NoMemory>
        ensures { IfOk result (λ s. Self.statement s
            ≡ joined schema.now kind (side_tree rhs) (Self.statement self)) };
}

/// Joins on a condition that the caller knows.
pub trait InternalJoinDsl: Query {
    /// ` FROM ("users" INNER JOIN "posts" ON a)`. A default selection becomes that of the join; a boxed statement's stays. Without
    /// a source it leaves a mark, and the statement is refused once it is checked.
    fn join(
        self,
        alloc: Global,
        rhs: Source,
        kind: JoinKind,
        on: Option<Expr>,
    ) -> Result<Self, NoMemory>
        ensures { IfOk result (λ s. Self.statement s
            ≡ joined_on kind (record { source = source_tree rhs; on = option_map expr_tree on })
            (Self.statement self)) };
}

fn join_from(
    alloc: Global,
    from: FromClause,
    rhs: Source,
    kind: JoinKind,
    on: Option<Expr>,
) -> Result<FromClause, NoMemory>
    ensures { IfOk result (λ f. from_clause_tree f
        ≡ from_map
        (λ left. joined_with kind left
        (record { source = source_tree rhs; on = option_map expr_tree on }))
        (from_clause_tree from)) }
{
    match from {
        FromClause::NoFromClause => Ok(FromClause::NoFromClause),
        FromClause::FromClause(left) => {
            let source = left.join(alloc, rhs, kind, on)?;
            Ok(FromClause::FromClause(source))
        }
    }
}

fn join_from_implicitly(
    alloc: Global,
    schema: &Schema,
    from: FromClause,
    rhs: JoinRhs,
    kind: JoinKind,
) -> Result<FromClause, NoMemory>
    ensures { IfOk result (λ f. from_clause_tree f
        ≡ from_map (λ left. (joined_by schema.now kind (alone left) (side_tree rhs)).source)
        (from_clause_tree from)) }
{
    match from {
        FromClause::NoFromClause => Ok(FromClause::NoFromClause),
        FromClause::FromClause(left) => {
            let (right, on) = Source::join_target(alloc, schema, &left, rhs)?;
            let source = left.join(alloc, right, kind, on)?;
            Ok(FromClause::FromClause(source))
        }
    }
}

/// A default selection becomes that of the source; one that was given stays.
fn select_anew(alloc: Global, select: &mut SelectClause, from: &FromClause) -> Result<(), NoMemory>
    ensures { OnOk result
        (select_clause_tree select.new
        ≡ default_over (from_clause_tree from.now) (select_clause_tree select.old)) }
{
    match (from, select) {
        (FromClause::FromClause(source), SelectClause::DefaultSelectClause(selection)) => {
            *selection = source.default_selection(alloc)?;
            Ok(())
        }
        _ => Ok(()),
    }
}

fn marks_over(marks: Marks, from: &FromClause) -> Marks
    ensures { result ≡ mark_over (from_clause_tree from.now) marks }
{
    match from {
        FromClause::NoFromClause => Marks {
            no_source: true,
            ..marks
        },
        FromClause::FromClause(_) => marks,
    }
}

/// The joined source. A default selection becomes that of it.
fn join_and_select(
    alloc: Global,
    from: FromClause,
    select: &mut SelectClause,
    rhs: Source,
    kind: JoinKind,
    on: Option<Expr>,
) -> Result<FromClause, NoMemory>
    ensures from { IfOk result (λ f. from_clause_tree f
        ≡ from_map
        (λ left. joined_with kind left
        (record { source = source_tree rhs; on = option_map expr_tree on }))
        (from_clause_tree from)) }
    ensures select { IfOk result (λ f. select_clause_tree select.new
        ≡ default_over (from_clause_tree f) (select_clause_tree select.old)) }
{
    let from = join_from(alloc, from, rhs, kind, on)?;
    select_anew(alloc, select, &from)?;
    Ok(from)
}

/// The same on the condition of a relation.
fn join_and_select_implicitly(
    alloc: Global,
    schema: &Schema,
    from: FromClause,
    select: &mut SelectClause,
    rhs: JoinRhs,
    kind: JoinKind,
) -> Result<FromClause, NoMemory>
    ensures from { IfOk result (λ f. from_clause_tree f
        ≡ from_map (λ left. (joined_by schema.now kind (alone left) (side_tree rhs)).source)
        (from_clause_tree from)) }
    ensures select { IfOk result (λ f. select_clause_tree select.new
        ≡ default_over (from_clause_tree f) (select_clause_tree select.old)) }
{
    let from = join_from_implicitly(alloc, schema, from, rhs, kind)?;
    select_anew(alloc, select, &from)?;
    Ok(from)
}

impl InternalJoinDsl for SelectStatement {
    fn join(
        mut self,
        alloc: Global,
        rhs: Source,
        kind: JoinKind,
        on: Option<Expr>,
    ) -> Result<SelectStatement, NoMemory> {
        let left = mem::replace(&mut self.from, FromClause::NoFromClause);
        let joined = join_and_select(alloc, left, &mut self.select, rhs, kind, on);
        let (mut statement, from) = beside(self, joined)?;
        statement.marks = marks_over(statement.marks, &from);
        statement.from = from;
        Ok(statement)
    }
}

impl InternalJoinDsl for BoxedSelectStatement {
    fn join(
        mut self,
        alloc: Global,
        rhs: Source,
        kind: JoinKind,
        on: Option<Expr>,
    ) -> Result<BoxedSelectStatement, NoMemory> {
        let left = mem::replace(&mut self.from, FromClause::NoFromClause);
        let (mut statement, from) = beside(self, join_from(alloc, left, rhs, kind, on))?;
        statement.marks = marks_over(statement.marks, &from);
        statement.from = from;
        Ok(statement)
    }
}

impl JoinWithImplicitOnClause for SelectStatement {
    fn join_with_implicit_on_clause(
        mut self,
        alloc: Global,
        schema: &Schema,
        rhs: JoinRhs,
        kind: JoinKind,
    ) -> Result<SelectStatement, NoMemory> {
        let left = mem::replace(&mut self.from, FromClause::NoFromClause);
        let select = &mut self.select;
        let joined = join_and_select_implicitly(alloc, schema, left, select, rhs, kind);
        let (mut statement, from) = beside(self, joined)?;
        statement.marks = marks_over(statement.marks, &from);
        statement.from = from;
        Ok(statement)
    }
}

impl JoinWithImplicitOnClause for BoxedSelectStatement {
    fn join_with_implicit_on_clause(
        mut self,
        alloc: Global,
        schema: &Schema,
        rhs: JoinRhs,
        kind: JoinKind,
    ) -> Result<BoxedSelectStatement, NoMemory> {
        let left = mem::replace(&mut self.from, FromClause::NoFromClause);
        let joined = join_from_implicitly(alloc, schema, left, rhs, kind);
        let (mut statement, from) = beside(self, joined)?;
        statement.marks = marks_over(statement.marks, &from);
        statement.from = from;
        Ok(statement)
    }
}
