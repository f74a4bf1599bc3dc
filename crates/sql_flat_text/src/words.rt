//! The text that is written before the children of a node, between them and after them.
#![tactic(auto, using(crate::proofs::Pouring::pouring))]

ghost use Rattle.std.specs.Prelude.{◌≡◌, ◌++◌, codes};
ghost use Rattle.sql_dialect.specs.Syntax.{array};
ghost use Rattle.sql_pass.specs.Parts.{from_open, side_open};
ghost use Rattle.sql_pass.specs.Pieces.{one, Text};
ghost use Rattle.sql_leaf.specs.Locks.{locking_pieces};
ghost use Rattle.sql_leaf.specs.Positions.{direction_pieces};
ghost use Rattle.sql_leaf.specs.Words.{among_word, combinator_sql, distinct_on_open, group_by, order_by_sql};
ghost use Rattle.sql_node.specs.Pieces.{all_pieces};
ghost use Rattle.sql_flat_text.specs.inside.Sinks.{Pours, sunk};
ghost use Rattle.sql_flat_text.specs.inside.Writing.{after, among_open, at_second, before, behind_first, behind_select, between, comma, distinct_word, join_open};

use crate::sink::Sink;
use sql_dialect::{ArrayComparison, Backend, BindError, Dialect, DuplicateRule};
use sql_flat::{Combining, FlatKind, Form, Uniqueness};
use sql_leaf::{
    ALL, ASC, CLOSE, CLOSE_BOTH, COMMA, COUNT_OPEN, DESC, DISTINCT, DISTINCT_ON_CLOSE,
    DISTINCT_ON_OPEN, Direction, EXISTS_OPEN, FROM, FROM_OPEN, GROUP_BY, HAVING, LimitOffsetClause,
    LockingClause, ON, OPEN, ORDER_BY, SELECT, WHERE, among_text, combinator_text, join_text,
};

/// How the dialect compares with the values of a list.
pub(crate) fn array_comparison(dialect: Dialect) -> ArrayComparison
    ensures { result ≡ array dialect }
{
    match dialect {
        Dialect::Pg => ArrayComparison::PgStyleArrayComparison,
        Dialect::Mysql | Dialect::Sqlite | Dialect::Bracket => {
            ArrayComparison::AnsiSqlArrayComparison
        }
    }
}

#[tactic(auto, unfolding(sql_leaf::specs::Words::distinct_on_open))]
fn push_distinct_on<DB: Backend>(sink: &mut Sink<DB>) -> Result<(), BindError>
    ensures { Pours DB.speaks (sunk DB.QueryBuilder.text DB.QueryBuilder.count sink.old)
        (one (Text distinct_on_open)) result
        (sunk DB.QueryBuilder.text DB.QueryBuilder.count sink.new) }
{
    sink.push_sql(DISTINCT_ON_OPEN)
}

#[tactic(auto, unfolding(sql_leaf::specs::Words::group_by))]
fn push_group_by<DB: Backend>(sink: &mut Sink<DB>) -> Result<(), BindError>
    ensures { Pours DB.speaks (sunk DB.QueryBuilder.text DB.QueryBuilder.count sink.old)
        (one (Text group_by)) result
        (sunk DB.QueryBuilder.text DB.QueryBuilder.count sink.new) }
{
    sink.push_sql(GROUP_BY)
}

#[tactic(auto, unfolding(sql_leaf::specs::Words::order_by_sql))]
fn push_order_by<DB: Backend>(sink: &mut Sink<DB>) -> Result<(), BindError>
    ensures { Pours DB.speaks (sunk DB.QueryBuilder.text DB.QueryBuilder.count sink.old)
        (one (Text order_by_sql)) result
        (sunk DB.QueryBuilder.text DB.QueryBuilder.count sink.new) }
{
    sink.push_sql(ORDER_BY)
}

#[tactic(auto, unfolding(sql_pass::specs::Parts::from_open))]
fn push_from_open<DB: Backend>(sink: &mut Sink<DB>) -> Result<(), BindError>
    ensures { Pours DB.speaks (sunk DB.QueryBuilder.text DB.QueryBuilder.count sink.old)
        (one (Text from_open)) result
        (sunk DB.QueryBuilder.text DB.QueryBuilder.count sink.new) }
{
    sink.push_sql(FROM_OPEN)
}

#[tactic(auto, unfolding(sql_pass::specs::Parts::side_open))]
fn push_side_open<DB: Backend>(sink: &mut Sink<DB>) -> Result<(), BindError>
    ensures { Pours DB.speaks (sunk DB.QueryBuilder.text DB.QueryBuilder.count sink.old)
        (one (Text (side_open DB.speaks))) result
        (sunk DB.QueryBuilder.text DB.QueryBuilder.count sink.new) }
{
    match sink.dialect() {
        Dialect::Pg | Dialect::Mysql | Dialect::Bracket => sink.push_sql(OPEN),
        Dialect::Sqlite => push_from_open(sink),
    }
}

fn push_among_open<DB: Backend>(values: bool, sink: &mut Sink<DB>) -> Result<(), BindError>
    ensures { Pours DB.speaks (sunk DB.QueryBuilder.text DB.QueryBuilder.count sink.old)
        (among_open (array DB.speaks) values) result
        (sunk DB.QueryBuilder.text DB.QueryBuilder.count sink.new) }
{
    match array_comparison(sink.dialect()) {
        ArrayComparison::PgStyleArrayComparison => sink.push_sql(OPEN),
        ArrayComparison::AnsiSqlArrayComparison => match values {
            false => sink.push_sql(OPEN),
            true => {
                sink.mark_unsafe();
                sink.push_sql(OPEN)
            }
        },
    }
}

fn push_join_open<DB: Backend>(has_on: bool, sink: &mut Sink<DB>) -> Result<(), BindError>
    ensures { Pours DB.speaks (sunk DB.QueryBuilder.text DB.QueryBuilder.count sink.old)
        (join_open has_on) result
        (sunk DB.QueryBuilder.text DB.QueryBuilder.count sink.new) }
{
    match has_on {
        false => Ok(()),
        true => sink.push_sql(OPEN),
    }
}

fn push_unique<DB: Backend>(unique: Uniqueness, sink: &mut Sink<DB>) -> Result<(), BindError>
    ensures { Pours DB.speaks (sunk DB.QueryBuilder.text DB.QueryBuilder.count sink.old)
        (distinct_word unique) result
        (sunk DB.QueryBuilder.text DB.QueryBuilder.count sink.new) }
{
    match unique {
        Uniqueness::Every | Uniqueness::DistinctOn => Ok(()),
        Uniqueness::Distinct => sink.push_sql(DISTINCT),
    }
}

fn push_select<DB: Backend>(unique: Uniqueness, sink: &mut Sink<DB>) -> Result<(), BindError>
    ensures { Pours DB.speaks (sunk DB.QueryBuilder.text DB.QueryBuilder.count sink.old)
        (one (Text (codes "SELECT ")) ++ distinct_word unique) result
        (sunk DB.QueryBuilder.text DB.QueryBuilder.count sink.new) }
{
    sink.push_sql(SELECT)?;
    push_unique(unique, sink)
}

/// Appends what is written before the first child of a node that is no list.
pub(crate) fn push_before<DB: Backend>(
    kind: &FlatKind,
    sink: &mut Sink<DB>,
) -> Result<(), BindError>
    ensures { Pours DB.speaks (sunk DB.QueryBuilder.text DB.QueryBuilder.count sink.old)
        (before DB.speaks kind.now) result
        (sunk DB.QueryBuilder.text DB.QueryBuilder.count sink.new) }
{
    match kind {
        FlatKind::Unary(operator) => sink.push_sql(operator.before()),
        FlatKind::Count => sink.push_sql(COUNT_OPEN),
        FlatKind::Compared(_) => sink.push_sql(OPEN),
        FlatKind::Joined(_) => sink.push_sql(OPEN),
        FlatKind::Exists => sink.push_sql(EXISTS_OPEN),
        FlatKind::Single => sink.push_sql(OPEN),
        FlatKind::Among(_, values) => push_among_open(*values, sink),
        FlatKind::Join(_, has_on) => push_join_open(*has_on, sink),
        FlatKind::On => sink.push_sql(ON),
        FlatKind::From => sink.push_sql(FROM),
        FlatKind::DistinctOn => push_distinct_on(sink),
        FlatKind::Where => sink.push_sql(WHERE),
        FlatKind::GroupBy => push_group_by(sink),
        FlatKind::Having => sink.push_sql(HAVING),
        FlatKind::OrderBy => push_order_by(sink),
        FlatKind::Positions => push_order_by(sink),
        FlatKind::Select(selecting) => push_select(selecting.unique, sink),
        FlatKind::Side => push_side_open(sink),
        _ => Ok(()),
    }
}

#[tactic(auto, using(crate::proofs::Pouring::parting))]
fn push_second<DB: Backend>(text: &str, begun: usize, sink: &mut Sink<DB>) -> Result<(), BindError>
    ensures { Pours DB.speaks (sunk DB.QueryBuilder.text DB.QueryBuilder.count sink.old)
        (at_second (one (Text text.now)) begun) result
        (sunk DB.QueryBuilder.text DB.QueryBuilder.count sink.new) }
{
    if begun == 1 {
        sink.push_sql(text)
    } else {
        Ok(())
    }
}

#[tactic(auto, using(crate::proofs::Pouring::parting))]
fn push_next<DB: Backend>(begun: usize, sink: &mut Sink<DB>) -> Result<(), BindError>
    ensures { Pours DB.speaks (sunk DB.QueryBuilder.text DB.QueryBuilder.count sink.old)
        (behind_first comma begun) result
        (sunk DB.QueryBuilder.text DB.QueryBuilder.count sink.new) }
{
    if begun == 0 {
        Ok(())
    } else {
        sink.push_sql(COMMA)
    }
}

fn push_all<DB: Backend>(rule: DuplicateRule, sink: &mut Sink<DB>) -> Result<(), BindError>
    ensures { Pours DB.speaks (sunk DB.QueryBuilder.text DB.QueryBuilder.count sink.old)
        (all_pieces rule) result
        (sunk DB.QueryBuilder.text DB.QueryBuilder.count sink.new) }
{
    match rule {
        DuplicateRule::Distinct => Ok(()),
        DuplicateRule::All => sink.push_sql(ALL),
    }
}

fn push_combinator<DB: Backend>(combining: &Combining, sink: &mut Sink<DB>) -> Result<(), BindError>
    ensures { Pours DB.speaks (sunk DB.QueryBuilder.text DB.QueryBuilder.count sink.old)
        (one (Text (combinator_sql combining.now.combinator))
        ++ all_pieces combining.now.duplicates) result
        (sunk DB.QueryBuilder.text DB.QueryBuilder.count sink.new) }
{
    sink.push_sql(combinator_text(combining.combinator))?;
    push_all(combining.duplicates, sink)
}

#[tactic(auto, using(crate::proofs::Pouring::parting))]
fn push_between_sides<DB: Backend>(
    combining: &Combining,
    begun: usize,
    sink: &mut Sink<DB>,
) -> Result<(), BindError>
    ensures { Pours DB.speaks (sunk DB.QueryBuilder.text DB.QueryBuilder.count sink.old)
        (at_second
        (one (Text (combinator_sql combining.now.combinator))
        ++ all_pieces combining.now.duplicates) begun) result
        (sunk DB.QueryBuilder.text DB.QueryBuilder.count sink.new) }
{
    if begun == 1 {
        push_combinator(combining, sink)
    } else {
        Ok(())
    }
}

fn push_among_word<DB: Backend>(
    negated: bool,
    begun: usize,
    sink: &mut Sink<DB>,
) -> Result<(), BindError>
    ensures { Pours DB.speaks (sunk DB.QueryBuilder.text DB.QueryBuilder.count sink.old)
        (at_second (one (Text (among_word (array DB.speaks) negated))) begun) result
        (sunk DB.QueryBuilder.text DB.QueryBuilder.count sink.new) }
{
    push_second(
        among_text(array_comparison(sink.dialect()), negated),
        begun,
        sink,
    )
}

/// Appends what is written before the next child of a node, of which so many were begun.
pub(crate) fn push_between<DB: Backend>(
    kind: &FlatKind,
    begun: usize,
    sink: &mut Sink<DB>,
) -> Result<(), BindError>
    ensures { Pours DB.speaks (sunk DB.QueryBuilder.text DB.QueryBuilder.count sink.old)
        (between DB.speaks kind.now begun) result
        (sunk DB.QueryBuilder.text DB.QueryBuilder.count sink.new) }
{
    match kind {
        FlatKind::Compared(by) => push_second(by.text(), begun, sink),
        FlatKind::Joined(by) => push_second(by.text(), begun, sink),
        FlatKind::Among(negated, _) => push_among_word(*negated, begun, sink),
        FlatKind::Values(_) => push_next(begun, sink),
        FlatKind::Join(kind, _) => push_second(join_text(*kind), begun, sink),
        FlatKind::OrderBy => push_next(begun, sink),
        FlatKind::Positions => push_next(begun, sink),
        FlatKind::Combination(combining) => push_between_sides(combining, begun, sink),
        _ => Ok(()),
    }
}

fn push_direction<DB: Backend>(by: Direction, sink: &mut Sink<DB>) -> Result<(), BindError>
    ensures { Pours DB.speaks (sunk DB.QueryBuilder.text DB.QueryBuilder.count sink.old)
        (direction_pieces by) result
        (sunk DB.QueryBuilder.text DB.QueryBuilder.count sink.new) }
{
    match by {
        Direction::None => Ok(()),
        Direction::Asc => sink.push_sql(ASC),
        Direction::Desc => sink.push_sql(DESC),
    }
}

#[tactic(auto, using(crate::proofs::Keeping::plain, crate::proofs::Pouring::pouring))]
fn push_lock<DB: Backend>(lock: LockingClause, sink: &mut Sink<DB>) -> Result<(), BindError>
    ensures { Pours DB.speaks (sunk DB.QueryBuilder.text DB.QueryBuilder.count sink.old)
        (locking_pieces lock) result
        (sunk DB.QueryBuilder.text DB.QueryBuilder.count sink.new) }
{
    match lock {
        LockingClause::NoLockingClause => Ok(()),
        LockingClause::LockingClause(_, _) => sink.push_part(&lock),
    }
}

/// As `walk_page` and `walk_boxed_end` of `sql_node`, which change with it.
fn push_select_end<DB: Backend>(
    rows: LimitOffsetClause,
    form: Form,
    sink: &mut Sink<DB>,
) -> Result<(), BindError>
    ensures { Pours DB.speaks (sunk DB.QueryBuilder.text DB.QueryBuilder.count sink.old)
        (behind_select DB.speaks rows form) result
        (sunk DB.QueryBuilder.text DB.QueryBuilder.count sink.new) }
{
    match form {
        Form::Unboxed(lock) => {
            sink.push_rows(rows)?;
            push_lock(lock, sink)
        }
        Form::Boxed(_, _) => sink.push_boxed_rows(rows),
    }
}

/// Appends what is written after the last child of a node.
pub(crate) fn push_after<DB: Backend>(kind: &FlatKind, sink: &mut Sink<DB>) -> Result<(), BindError>
    ensures { Pours DB.speaks (sunk DB.QueryBuilder.text DB.QueryBuilder.count sink.old)
        (after DB.speaks kind.now) result
        (sunk DB.QueryBuilder.text DB.QueryBuilder.count sink.new) }
{
    match kind {
        FlatKind::Unary(operator) => sink.push_sql(operator.after()),
        FlatKind::Count => sink.push_sql(CLOSE),
        FlatKind::Compared(_) => sink.push_sql(CLOSE),
        FlatKind::Joined(_) => sink.push_sql(CLOSE),
        FlatKind::Exists => sink.push_sql(CLOSE),
        FlatKind::Single => sink.push_sql(CLOSE),
        FlatKind::Among(_, _) => sink.push_sql(CLOSE_BOTH),
        FlatKind::On => sink.push_sql(CLOSE),
        FlatKind::DistinctOn => sink.push_sql(DISTINCT_ON_CLOSE),
        FlatKind::Item(by) => push_direction(*by, sink),
        FlatKind::Select(selecting) => push_select_end(selecting.rows, selecting.form, sink),
        FlatKind::Side => sink.push_sql(CLOSE),
        FlatKind::Combination(combining) => sink.push_rows(combining.rows),
        _ => Ok(()),
    }
}
