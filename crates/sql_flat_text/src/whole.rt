//! The nodes that are written whole.
#![tactic(auto, using(crate::proofs::Pouring::pouring, crate::proofs::Keeping::plain))]

ghost use Rattle.std.specs.Prelude.{◌≡◌, ◌∷◌, ◌++◌, Bool, List, IfOk, is_some, map, option_map, option_to_list};
ghost use Rattle.sql_dialect.specs.Syntax.{array};
ghost use Rattle.sql_pass.specs.Paths.{path_pieces};
ghost use Rattle.sql_pass.specs.Pieces.{one, Bind};
ghost use Rattle.sql_pass.specs.declared.value.Bound.TheVariants.{Value as OneValue, List as ManyValues};
ghost use Rattle.sql_leaf.specs.Positions.{position_pieces};
ghost use Rattle.sql_leaf.specs.Sources.{alias_pieces};
ghost use Rattle.sql_node.specs.Pieces.{leaf_pieces};
ghost use Rattle.sql_flat.specs.declared.kind.FlatKind.{FlatKind as FlatSort};
ghost use Rattle.sql_flat_text.specs.inside.Sinks.{Pours, sunk};
ghost use Rattle.sql_flat_text.specs.inside.Writing.{among_whole, if_empty, or_none, values_in, values_whole, whole_of};
ghost use Rattle.sql_flat_text.specs.Steps.{ends_in_values, is_values as is_list_of_values, kind_of};

use crate::sink::Sink;
use crate::words::array_comparison;
use sql_dialect::{ArrayComparison, Backend, BindError, Dialect, NoMemory};
use sql_flat::{FlatKind, FlatNode};
use sql_leaf::{Alias, COUNT_STAR, DOT, PositionalItem, constant_text};
use sql_pass::{Bound, Value};
use sql_schema::{Column, SqlList, SqlText, SqlType};
use std::alloc::Global;

fn is_values(kind: &FlatKind) -> bool
    ensures { result ≡ is_list_of_values kind.now }
{
    match kind {
        FlatKind::Values(_) => true,
        _ => false,
    }
}

/// Whether the last of the nodes is a list of values, which then has none.
#[tactic(auto, using(crate::proofs::Reading::lasts))]
fn end_in_values(nodes: &[FlatNode]) -> bool
    ensures { result ≡ ends_in_values (map kind_of nodes.now) }
{
    match nodes.split_last() {
        None => false,
        Some((last, _)) => is_values(&last.kind),
    }
}

fn is_among_whole(comparison: ArrayComparison, values: bool, below: &[FlatNode]) -> bool
    ensures { (n : Bool) → result
        ≡ is_some (among_whole comparison n values (map kind_of below.now)) }
{
    match comparison {
        ArrayComparison::PgStyleArrayComparison => false,
        ArrayComparison::AnsiSqlArrayComparison => match values {
            false => false,
            true => end_in_values(below),
        },
    }
}

fn is_values_whole(comparison: ArrayComparison, ty: SqlType, below: &[FlatNode]) -> bool
    ensures { result ≡ is_some (values_whole comparison ty (map kind_of below.now)) }
{
    match comparison {
        ArrayComparison::PgStyleArrayComparison => true,
        ArrayComparison::AnsiSqlArrayComparison => false,
    }
}

/// Whether a node over those is written whole: one without children, a list of values that is bound as one, or a membership in no
/// values.
pub(crate) fn is_whole(dialect: Dialect, kind: &FlatKind, below: &[FlatNode]) -> bool
    ensures { result ≡ is_some (whole_of dialect kind.now (map kind_of below.now)) }
{
    match kind {
        FlatKind::Column(_, _) => true,
        FlatKind::Value(_, _) => true,
        FlatKind::CountStar => true,
        FlatKind::Among(_, values) => is_among_whole(array_comparison(dialect), *values, below),
        FlatKind::Values(ty) => is_values_whole(array_comparison(dialect), *ty, below),
        FlatKind::Element(_, _) => true,
        FlatKind::Table(_) => true,
        FlatKind::Alias(_) => true,
        FlatKind::Position(_) => true,
        _ => false,
    }
}

/// The value that a node holds for a list of values.
fn element(kind: &FlatKind) -> Option<&Value>
    ensures { (ks : List FlatSort) → values_in (kind.now ∷ ks)
        ≡ option_to_list (option_map (λ v. v.now) result) ++ values_in ks }
{
    match kind {
        FlatKind::Element(_, value) => Some(value),
        _ => None,
    }
}

/// The values among the nodes, copied.
fn copy_values(alloc: Global, nodes: &[FlatNode]) -> Result<Vec<Value>, NoMemory>
    ensures { IfOk result (λ v. v.items ≡ values_in (map kind_of nodes.now)) }
{
    let mut all = Vec::new(alloc);
    for node in nodes {
        if let Some(value) = element(&node.kind) {
            all.push(value.try_clone(alloc)?)?;
        }
    }
    Ok(all)
}

fn push_path<DB: Backend>(
    schema: Option<&str>,
    name: &str,
    sink: &mut Sink<DB>,
) -> Result<(), BindError>
    ensures { Pours DB.speaks (sunk DB.QueryBuilder.text DB.QueryBuilder.count sink.old)
        (path_pieces (option_map (λ s. s.now) schema.entry) name.now) result
        (sunk DB.QueryBuilder.text DB.QueryBuilder.count sink.new) }
{
    match schema {
        None => sink.push_identifier(name),
        Some(schema) => {
            sink.push_identifier(schema)?;
            sink.push_sql(DOT)?;
            sink.push_identifier(name)
        }
    }
}

fn push_column<DB: Backend>(
    alias: &Option<SqlText>,
    column: &Column,
    sink: &mut Sink<DB>,
) -> Result<(), BindError>
    ensures { Pours DB.speaks (sunk DB.QueryBuilder.text DB.QueryBuilder.count sink.old)
        (leaf_pieces (record { alias = alias.now; table = column.now.table })
        column.now.decl) result
        (sunk DB.QueryBuilder.text DB.QueryBuilder.count sink.new) }
{
    match alias {
        None => {
            let (schema, name) = column.table().path();
            push_path(schema, name, sink)?;
            sink.push_sql(DOT)?;
            sink.push_identifier(column.sql_name())
        }
        Some(alias) => {
            sink.push_identifier(alias.as_str())?;
            sink.push_sql(DOT)?;
            sink.push_identifier(column.sql_name())
        }
    }
}

#[tactic(auto, using(crate::proofs::Pouring::keeps))]
fn push_value<DB: Backend>(ty: SqlType, value: &Value, sink: &mut Sink<DB>) -> Result<(), BindError>
    ensures { Pours DB.speaks (sunk DB.QueryBuilder.text DB.QueryBuilder.count sink.old)
        (one (Bind (OneValue ty value.now))) result
        (sunk DB.QueryBuilder.text DB.QueryBuilder.count sink.new) }
{
    match value.try_clone(*sink.binds.allocator()) {
        Ok(value) => sink.push_bind(Bound::Value(ty, value)),
        Err(_) => Err(BindError::NoMemory),
    }
}

#[tactic(auto, using(crate::proofs::Pouring::keeps))]
fn push_bound_list<DB: Backend>(
    ty: SqlType,
    below: &[FlatNode],
    sink: &mut Sink<DB>,
) -> Result<(), BindError>
    ensures { Pours DB.speaks (sunk DB.QueryBuilder.text DB.QueryBuilder.count sink.old)
        (one (Bind (ManyValues ty (values_in (map kind_of below.now))))) result
        (sunk DB.QueryBuilder.text DB.QueryBuilder.count sink.new) }
{
    match copy_values(*sink.binds.allocator(), below) {
        Ok(values) => sink.push_bind(Bound::List(ty, SqlList::from(values))),
        Err(_) => Err(BindError::NoMemory),
    }
}

fn push_values<DB: Backend>(
    ty: SqlType,
    below: &[FlatNode],
    sink: &mut Sink<DB>,
) -> Result<(), BindError>
    ensures { Pours DB.speaks (sunk DB.QueryBuilder.text DB.QueryBuilder.count sink.old)
        (or_none (values_whole (array DB.speaks) ty (map kind_of below.now))) result
        (sunk DB.QueryBuilder.text DB.QueryBuilder.count sink.new) }
{
    match array_comparison(sink.dialect()) {
        ArrayComparison::PgStyleArrayComparison => push_bound_list(ty, below, sink),
        ArrayComparison::AnsiSqlArrayComparison => Ok(()),
    }
}

/// Appends `(1=0)`, or `(1=1)`, in place of a membership in no values.
fn push_constant<DB: Backend>(
    empty: bool,
    negated: bool,
    sink: &mut Sink<DB>,
) -> Result<(), BindError>
    ensures { Pours DB.speaks (sunk DB.QueryBuilder.text DB.QueryBuilder.count sink.old)
        (or_none (if_empty empty negated)) result
        (sunk DB.QueryBuilder.text DB.QueryBuilder.count sink.new) }
{
    match empty {
        false => Ok(()),
        true => {
            sink.mark_unsafe();
            sink.push_sql(constant_text(negated))
        }
    }
}

fn push_among<DB: Backend>(
    negated: bool,
    values: bool,
    below: &[FlatNode],
    sink: &mut Sink<DB>,
) -> Result<(), BindError>
    ensures { Pours DB.speaks (sunk DB.QueryBuilder.text DB.QueryBuilder.count sink.old)
        (or_none (among_whole (array DB.speaks) negated values (map kind_of below.now))) result
        (sunk DB.QueryBuilder.text DB.QueryBuilder.count sink.new) }
{
    match array_comparison(sink.dialect()) {
        ArrayComparison::PgStyleArrayComparison => Ok(()),
        ArrayComparison::AnsiSqlArrayComparison => match values {
            false => Ok(()),
            true => push_constant(end_in_values(below), negated, sink),
        },
    }
}

#[tactic(auto, using(crate::proofs::Keeping::plain))]
fn push_alias<DB: Backend>(alias: &Alias, sink: &mut Sink<DB>) -> Result<(), BindError>
    ensures { Pours DB.speaks (sunk DB.QueryBuilder.text DB.QueryBuilder.count sink.old)
        (alias_pieces alias.now.name alias.now.table) result
        (sunk DB.QueryBuilder.text DB.QueryBuilder.count sink.new) }
{
    sink.push_part(alias)
}

#[tactic(auto, using(crate::proofs::Keeping::plain))]
fn push_position<DB: Backend>(item: &PositionalItem, sink: &mut Sink<DB>) -> Result<(), BindError>
    ensures { Pours DB.speaks (sunk DB.QueryBuilder.text DB.QueryBuilder.count sink.old)
        (position_pieces item.now.column item.now.direction) result
        (sunk DB.QueryBuilder.text DB.QueryBuilder.count sink.new) }
{
    sink.push_part(item)
}

/// Appends a node over those, where it is written whole.
pub(crate) fn push_whole<DB: Backend>(
    kind: &FlatKind,
    below: &[FlatNode],
    sink: &mut Sink<DB>,
) -> Result<(), BindError>
    ensures { Pours DB.speaks (sunk DB.QueryBuilder.text DB.QueryBuilder.count sink.old)
        (or_none (whole_of DB.speaks kind.now (map kind_of below.now))) result
        (sunk DB.QueryBuilder.text DB.QueryBuilder.count sink.new) }
{
    match kind {
        FlatKind::Column(alias, column) => push_column(alias, column, sink),
        FlatKind::Value(ty, value) => push_value(*ty, value, sink),
        FlatKind::CountStar => sink.push_sql(COUNT_STAR),
        FlatKind::Among(negated, values) => push_among(*negated, *values, below, sink),
        FlatKind::Values(ty) => push_values(*ty, below, sink),
        FlatKind::Element(ty, value) => push_value(*ty, value, sink),
        FlatKind::Table(source) => sink.push_table(source),
        FlatKind::Alias(alias) => push_alias(alias, sink),
        FlatKind::Position(item) => push_position(item, sink),
        _ => Ok(()),
    }
}
