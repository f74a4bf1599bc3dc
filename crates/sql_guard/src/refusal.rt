//! Whether a predicate is one on the rows of a table, and whether a statement is one that can be restricted, by loops over their
//! flat lists.
#![tactic(auto)]

ghost use Rattle.std.specs.Prelude.{◌≡◌, [], ◌&&◌, IfOk, map, not};
ghost use Rattle.std.specs.Bool.{Decides};
ghost use Rattle.std.specs.List.{list_any};
ghost use Rattle.sql_schema.specs.Equality.{same_column, same_table};
ghost use Rattle.sql_node.specs.View.{expr_tree, statement_tree};
ghost use Rattle.sql_rules.specs.Lists.{AnyOf};
ghost use Rattle.sql_rules.specs.Scope.{parts};
ghost use Rattle.sql_guard_law.specs.Tenant.{IsOutOfKind, IsPredicate, LacksRelation};
ghost use Rattle.sql_guard.specs.Closed.{ReadsUncovered};
ghost use Rattle.sql_guard.specs.Trees.{policy_tree};
ghost use Rattle.sql_guard.specs.inside.Kinds.{is_beyond as kind_is_beyond, is_foreign as kind_is_foreign, is_out as kind_is_out, is_own_column as column_is_own, is_uncovered as kind_is_uncovered};

use crate::leaves::is_one_table;
use crate::policy::{Policy, is_covered};
use sql_flat::{FlatKind, FlatNode, expression_nodes, flatten};
use sql_node::{Expr, Statement};
use sql_origin::Origin;
use sql_rules_check::{any_lacks_on, is_condition_of};
use sql_schema::{Column, ColumnDecl, NoMemory, SizeRestrictedColumn, SqlText, Table};
use sql_types::fits;
use std::alloc::Global;

fn is_declared_so(column: &Column, decl: &ColumnDecl) -> bool
    ensures { result ≡ same_column decl.now column.now.decl }
{
    decl.name.as_str() == column.name()
        && decl.sql_name.as_str() == column.sql_name()
        && decl.ty == column.ty()
        && decl.max_length == column.max_length()
}

fn is_declared(column: &Column, columns: &[ColumnDecl]) -> bool
    ensures { result ≡ list_any (λ d. same_column d column.now.decl) columns.now }
{
    columns
        .iter()
        .any(|declared| is_declared_so(column, declared))
}

fn is_of(table: &Table, column: &Column) -> bool
    ensures { result ≡ same_table column.now.table table.now }
{
    Origin::of_table(column.table()).is_same(Origin::of_table(table))
}

/// Whether the column is the table's own, and not under an alias.
fn is_own_column(table: &Table, alias: &Option<SqlText>, column: &Column) -> bool
    ensures { result ≡ column_is_own table.now alias.now column.now }
{
    match alias {
        None => is_of(table, column) && is_declared(column, table.columns()),
        Some(_) => false,
    }
}

/// Whether the node is an aggregate or a subselect.
fn is_beyond(kind: &FlatKind) -> bool
    ensures { result ≡ kind_is_beyond kind.now }
{
    match kind {
        FlatKind::CountStar | FlatKind::Count | FlatKind::Exists | FlatKind::Single => true,
        FlatKind::Among(_, values) => !*values,
        _ => false,
    }
}

/// Or a `GROUP BY`.
fn is_out(kind: &FlatKind) -> bool
    ensures { result ≡ kind_is_out kind.now }
{
    match kind {
        FlatKind::GroupBy => true,
        _ => is_beyond(kind),
    }
}

fn any_out(nodes: &[FlatNode]) -> bool
    ensures { result ≡ list_any (λ x. kind_is_out x.kind) nodes.now }
{
    nodes.iter().any(|node| is_out(&node.kind))
}

/// Whether the node may not stand in a predicate on the rows of the table.
fn is_foreign(table: &Table, kind: &FlatKind) -> bool
    ensures { result ≡ kind_is_foreign table.now kind.now }
{
    match kind {
        FlatKind::Column(alias, column) => !is_own_column(table, alias, column),
        FlatKind::Value(ty, value) => !fits(*ty, value),
        _ => is_beyond(kind),
    }
}

fn any_foreign(table: &Table, nodes: &[FlatNode]) -> bool
    ensures { result ≡ list_any (λ x. kind_is_foreign table.now x.kind) nodes.now }
{
    nodes.iter().any(|node| is_foreign(table, &node.kind))
}

pub(crate) fn and_not(one: bool, other: bool) -> bool
    ensures { result ≡ (one && not other) }
{
    one && !other
}

/// Whether the expression is a condition on the rows of the table alone.
pub(crate) fn is_predicate(alloc: Global, table: &Table, expr: &Expr) -> Result<bool, NoMemory>
    ensures { IfOk result (λ b. Decides b (IsPredicate table.now (expr_tree expr.now))) }
{
    let nodes = expression_nodes(alloc, 0, expr)?;
    let condition = is_condition_of(alloc, nodes.as_slice())?;
    let foreign = any_foreign(table, nodes.as_slice());
    Ok(and_not(condition, foreign))
}

/// The reasons that keep a statement from being restricted.
#[derive(Debug, Clone, Copy)]
pub(crate) struct Kept {
    /// An aggregate, a subselect or a `GROUP BY` stands in it.
    pub(crate) out_of_kind: bool,
    /// A join has no condition.
    pub(crate) unrelated: bool,
}

/// Returns the reasons that keep the statement from being restricted.
pub(crate) fn kept_from(alloc: Global, statement: &Statement) -> Result<Kept, NoMemory>
    ensures kind { IfOk result (λ k. Decides k.out_of_kind
        (AnyOf IsOutOfKind (parts [] (statement_tree statement.now)))) }
    ensures related { IfOk result (λ k. Decides k.unrelated
        (AnyOf LacksRelation (parts [] (statement_tree statement.now)))) }
{
    let flat = flatten(alloc, statement)?;
    let nodes = flat.nodes();
    let out_of_kind = any_out(nodes);
    let unrelated = any_lacks_on(nodes);
    Ok(Kept {
        out_of_kind,
        unrelated,
    })
}

/// Whether the node is a table, or an alias of one, that the policies don't cover.
fn is_uncovered(policies: &[Policy], kind: &FlatKind) -> bool
    ensures { result ≡ kind_is_uncovered policies.now kind.now }
{
    match kind {
        FlatKind::Table(source) => !is_covered(policies, &source.table),
        FlatKind::Alias(alias) => !is_covered(policies, &alias.table),
        _ => false,
    }
}

fn any_uncovered(policies: &[Policy], nodes: &[FlatNode]) -> bool
    ensures { result ≡ list_any (λ x. kind_is_uncovered policies.now x.kind) nodes.now }
{
    nodes.iter().any(|node| is_uncovered(policies, &node.kind))
}

/// How many of the policies have a predicate on the table.
fn predicates_on(policies: &[Policy], table: &Table) -> usize {
    let mut count: usize = 0;
    for policy in policies {
        if policy.predicate.is_some() && is_one_table(&policy.table, table) {
            count = count.saturating_add(1);
        }
    }
    count
}

fn predicates_at(policies: &[Policy], kind: &FlatKind) -> usize {
    match kind {
        FlatKind::Table(source) => predicates_on(policies, &source.table),
        FlatKind::Alias(alias) => predicates_on(policies, &alias.table),
        _ => 0,
    }
}

/// How many predicates the policies put into the statement. Each of them may make a condition a level deeper. Whoever builds deep
/// statements asks before they are guarded, since what checks, writes and drops a statement recurses over it.
pub fn count_predicates(
    alloc: Global,
    policies: &[Policy],
    statement: &Statement,
) -> Result<usize, NoMemory> {
    let flat = flatten(alloc, statement)?;
    let mut count: usize = 0;
    for node in flat.nodes() {
        count = count.saturating_add(predicates_at(policies, &node.kind));
    }
    Ok(count)
}

/// The reasons that keep a statement from being guarded.
#[derive(Debug, Clone, Copy)]
pub(crate) struct Gaps {
    /// A join has no condition.
    pub(crate) unrelated: bool,
    /// It reads a table that the policies don't cover.
    pub(crate) uncovered: bool,
}

/// Returns the reasons that keep the statement from being guarded by the policies.
pub(crate) fn find_gaps(
    alloc: Global,
    policies: &[Policy],
    statement: &Statement,
) -> Result<Gaps, NoMemory>
    ensures related { IfOk result (λ k. Decides k.unrelated
        (AnyOf LacksRelation (parts [] (statement_tree statement.now)))) }
    ensures covered { IfOk result (λ k. Decides k.uncovered
        (AnyOf (ReadsUncovered (map policy_tree policies.now))
        (parts [] (statement_tree statement.now)))) }
{
    let flat = flatten(alloc, statement)?;
    let nodes = flat.nodes();
    let unrelated = any_lacks_on(nodes);
    let uncovered = any_uncovered(policies, nodes);
    Ok(Gaps {
        unrelated,
        uncovered,
    })
}
