#![tactic(auto, using(sql_node::proofs::Trees::opens_expr, sql_node::proofs::Trees::opens_source, sql_node::proofs::Trees::opens_from_clause, sql_node::proofs::Trees::opens_select_statement))]

ghost use Rattle.std.specs.Prelude.{◌≡◌, IfOk, length, map, option_map};
ghost use Rattle.sql_node.specs.Tree.{compared, no_expr};
ghost use Rattle.sql_leaf.specs.declared.operator.Comparison.TheVariants.{Eq};
ghost use Rattle.sql_node.specs.View.{expr_tree, from_clause_tree, maybe_of};
ghost use Rattle.sql_origin.specs.Borrowed.{origin_of};
ghost use Rattle.sql_select.specs.Finding.{all_before, and_then, equal_each, found, key_columns as columns_of_key, only_leaf};

use crate::beside::beside;
use crate::condition::FilterDsl;
use crate::query::Query;
use sql_expr::{Expr, ExpressionMethods, FromClause, SelectStatement, Source};
use sql_origin::Origin;
use sql_schema::NoMemory;
use std::alloc::Global;

/// Rows by their key.
pub trait FindDsl: Query {
    /// ` WHERE (("a"."x" = $1) AND ("a"."y" = $2))`: one more condition, by which each column of the key has the value at its
    /// place. Where the source is not one table or alias, or there are more or fewer values than columns of the key, it leaves
    /// a mark, and the statement is refused once it is checked.
    fn find(self, alloc: Global, key: Vec<Expr>) -> Result<Self, NoMemory>
        ensures { IfOk result (λ s. Self.statement s
            ≡ found (map expr_tree key.items) (Self.statement self)) };
}

/// The table or alias that is the whole source.
fn only_leaf_of(from: &FromClause) -> Option<Origin<'_>>
    ensures { option_map origin_of result ≡ only_leaf (from_clause_tree from.now) }
{
    match from {
        FromClause::NoFromClause => None,
        FromClause::FromClause(source) => match source {
            Source::Table(table) => Some(Origin::of_table(&table.table)),
            Source::Alias(alias) => Some(Origin::of_alias(alias)),
            Source::Join(_) => None,
        },
    }
}

/// The columns of the key, or the fields where the leaf is an alias.
fn key_columns(alloc: Global, leaf: Origin<'_>) -> Result<Vec<Expr>, NoMemory>
    ensures { IfOk result (λ v. map expr_tree v.items ≡ columns_of_key (origin_of leaf.entry)) }
{
    let mut all = Vec::new(alloc);
    let names = leaf.table.primary_key();
    for name in names {
        match leaf.table.column(alloc, name.as_str())? {
            None => {}
            Some(column) => all.push(leaf.column(alloc, column)?)?,
        }
    }
    Ok(all)
}

/// `(a = b)` before the conditions that follow it.
fn equal_then(
    alloc: Global,
    column: Expr,
    value: Expr,
    behind: Option<Expr>,
) -> Result<Expr, NoMemory>
    ensures { IfOk result (λ e. expr_tree e
        ≡ and_then (compared Eq (expr_tree column) (expr_tree value))
        (maybe_of (option_map expr_tree behind))) }
{
    let equal = column.eq(alloc, value)?;
    match behind {
        None => Ok(equal),
        Some(behind) => equal.and(alloc, behind),
    }
}

/// `(("a"."x" = $1) AND ("a"."y" = $2))`.
fn equal_to(
    alloc: Global,
    mut columns: Vec<Expr>,
    mut values: Vec<Expr>,
) -> Result<Option<Expr>, NoMemory>
    requires { length columns.items ≡ length values.items }
    ensures { IfOk result (λ o. maybe_of (option_map expr_tree o)
        ≡ all_before (equal_each (map expr_tree columns.items) (map expr_tree values.items))
        no_expr) }
{
    let mut condition = None;
    while let Some(column) = columns.pop() {
        let Some(value) = values.pop() else {
            break;
        };
        condition = Some(equal_then(alloc, column, value, condition)?);
    }
    Ok(condition)
}

impl FindDsl for SelectStatement {
    fn find(mut self, alloc: Global, key: Vec<Expr>) -> Result<SelectStatement, NoMemory> {
        let Some(leaf) = only_leaf_of(&self.from) else {
            self.marks.find_source = true;
            return Ok(self);
        };
        let columns = key_columns(alloc, leaf);
        let (mut statement, columns) = beside(self, columns)?;
        if columns.len() != key.len() {
            statement.marks.key_count = true;
            return Ok(statement);
        }
        let (statement, condition) = beside(statement, equal_to(alloc, columns, key))?;
        match condition {
            None => Ok(statement),
            Some(condition) => statement.filter(alloc, condition),
        }
    }
}
