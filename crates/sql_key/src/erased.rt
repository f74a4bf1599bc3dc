//! Nodes without their values.
#![tactic(auto)]

ghost use Rattle.std.specs.Prelude.{◌≡◌, IfOk, map};
ghost use Rattle.std.specs.Option.{option_map};
ghost use Rattle.sql_shape.specs.Shape.{blank, blank_rows, blank_sample};
ghost use Rattle.sql_key.specs.Blank.{blank_combining, blank_kind, blank_node, blank_selecting, blank_source};

use sql_flat::{Combining, FlatKind, FlatNode, Selecting};
use sql_leaf::{LimitOffsetClause, TableSource, Tablesample};
use sql_pass::Value;
use sql_schema::{NoMemory, SqlText};
use std::alloc::Global;

fn erased_number(number: Option<i64>) -> Option<i64>
    ensures { result ≡ option_map blank number }
{
    match number {
        None => None,
        Some(_) => Some(0),
    }
}

fn erased_seed(seed: Option<i32>) -> Option<i32>
    ensures { result ≡ option_map blank seed }
{
    match seed {
        None => None,
        Some(_) => Some(0),
    }
}

fn erased_rows(rows: LimitOffsetClause) -> LimitOffsetClause
    ensures { result ≡ blank_rows rows }
{
    LimitOffsetClause {
        limit_clause: erased_number(rows.limit_clause),
        offset_clause: erased_number(rows.offset_clause),
    }
}

fn erased_sample(sample: Option<Tablesample>) -> Option<Tablesample>
    ensures { result ≡ option_map blank_sample sample }
{
    match sample {
        None => None,
        Some(sample) => Some(Tablesample {
            method: sample.method,
            portion: 0,
            seed: erased_seed(sample.seed),
        }),
    }
}

fn erased_source(alloc: Global, source: &TableSource) -> Result<TableSource, NoMemory>
    ensures { IfOk result (λ s. s ≡ blank_source source.now) }
{
    Ok(TableSource {
        table: source.table.try_clone(alloc)?,
        only: source.only,
        sample: erased_sample(source.sample),
    })
}

fn erased_selecting(selecting: Selecting) -> Selecting
    ensures { result ≡ blank_selecting selecting }
{
    Selecting {
        rows: erased_rows(selecting.rows),
        ..selecting
    }
}

fn erased_combining(combining: Combining) -> Combining
    ensures { result ≡ blank_combining combining }
{
    Combining {
        rows: erased_rows(combining.rows),
        ..combining
    }
}

fn copied(alloc: Global, alias: &Option<SqlText>) -> Result<Option<SqlText>, NoMemory>
    ensures { IfOk result (λ a. a ≡ alias.now) }
{
    match alias {
        None => Ok(None),
        Some(alias) => Ok(Some(alias.try_clone(alloc)?)),
    }
}

/// A copy of the kind without its value: of the value 1 in `"users"."id" = $1` a NULL of the same type. Fails only for memory.
pub fn erased_kind(alloc: Global, kind: &FlatKind) -> Result<FlatKind, NoMemory>
    ensures { IfOk result (λ k. k ≡ blank_kind kind.now) }
{
    match kind {
        FlatKind::Column(alias, column) => {
            let alias = copied(alloc, alias)?;
            Ok(FlatKind::Column(alias, column.try_clone(alloc)?))
        }
        FlatKind::Value(ty, _) => Ok(FlatKind::Value(*ty, Value::Null)),
        FlatKind::List => Ok(FlatKind::List),
        FlatKind::CountStar => Ok(FlatKind::CountStar),
        FlatKind::Nullable => Ok(FlatKind::Nullable),
        FlatKind::Unary(operator) => Ok(FlatKind::Unary(*operator)),
        FlatKind::Count => Ok(FlatKind::Count),
        FlatKind::Compared(by) => Ok(FlatKind::Compared(*by)),
        FlatKind::Joined(by) => Ok(FlatKind::Joined(*by)),
        FlatKind::Exists => Ok(FlatKind::Exists),
        FlatKind::Single => Ok(FlatKind::Single),
        FlatKind::Among(negated, listed) => Ok(FlatKind::Among(*negated, *listed)),
        FlatKind::Values(ty) => Ok(FlatKind::Values(*ty)),
        FlatKind::Element(ty, _) => Ok(FlatKind::Element(*ty, Value::Null)),
        FlatKind::Table(source) => Ok(FlatKind::Table(erased_source(alloc, source)?)),
        FlatKind::Alias(alias) => Ok(FlatKind::Alias(alias.try_clone(alloc)?)),
        FlatKind::Join(kind, on) => Ok(FlatKind::Join(*kind, *on)),
        FlatKind::On => Ok(FlatKind::On),
        FlatKind::From => Ok(FlatKind::From),
        FlatKind::DistinctOn => Ok(FlatKind::DistinctOn),
        FlatKind::Where => Ok(FlatKind::Where),
        FlatKind::GroupBy => Ok(FlatKind::GroupBy),
        FlatKind::Having => Ok(FlatKind::Having),
        FlatKind::OrderBy => Ok(FlatKind::OrderBy),
        FlatKind::Item(by) => Ok(FlatKind::Item(*by)),
        FlatKind::Select(selecting) => Ok(FlatKind::Select(erased_selecting(*selecting))),
        FlatKind::Combination(combining) => {
            Ok(FlatKind::Combination(erased_combining(*combining)))
        }
        FlatKind::Side => Ok(FlatKind::Side),
        FlatKind::Positions => Ok(FlatKind::Positions),
        FlatKind::Position(item) => Ok(FlatKind::Position(*item)),
    }
}

/// A copy of the node without its value, which ends at that index.
pub(crate) fn erased_node(alloc: Global, node: &FlatNode, end: usize) -> Result<FlatNode, NoMemory>
    ensures { IfOk result (λ n. (n.kind ≡ blank_kind node.now.kind) × (n.end ≡ end)) }
{
    let kind = erased_kind(alloc, &node.kind)?;
    Ok(FlatNode { kind, end })
}

/// Copies of the nodes without their values.
pub(crate) fn erased_nodes(alloc: Global, nodes: &[FlatNode]) -> Result<Vec<FlatNode>, NoMemory>
    ensures { IfOk result (λ v. v.items ≡ map blank_node nodes.now) }
{
    let mut all = Vec::with_capacity(alloc, nodes.len())?;
    for node in nodes {
        all.push(erased_node(alloc, node, node.end)?)?;
    }
    Ok(all)
}
