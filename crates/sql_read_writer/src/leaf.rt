ghost use Rattle.std.specs.Prelude.{◌≡◌, ◌++◌, [], ℕ, List, map, string_bytes, OnOk, Some, None};
ghost use Rattle.sql_dialect.specs.Written.{quoted};
ghost use Rattle.sql_grammar.specs.Spelling.{sign_text};
ghost use Rattle.sql_grammar.specs.Text as x;
ghost use Rattle.sql_grammar.specs.MarkTree.{PageBy};
ghost use Rattle.sql_read_lexer.specs.View.{comparison_of};
ghost use Rattle.sql_read_tree.specs.Path.{prefixed_by};
ghost use Rattle.sql_read_tree.specs.View.{logic_of, direction_of, kind_of, method_of, operator_of, sample_of, page_of, lock_of, mode_of, wait_of, place_of};
ghost use Rattle.sql_read_writer.specs.More as more;

use itoa::Buffer;
use sql_dialect::{Dialect, NoMemory, quote_name};
use sql_read_lexer::Comparison;
use sql_read_tree::{
    Direction, JoinKind, Lock, LockMode, LockWait, Logic, Mark, Names, Page, Place, Sample,
    SampleMethod, SetOperator,
};
use std::alloc::Global;

/// Writes a text at the end.
pub fn push(out: &mut String, text: &str) -> Result<(), NoMemory>
    ensures { (rest : List ℕ) → OnOk result
        (string_bytes out.new ++ rest ≡ string_bytes out.old ++ (text.now ++ rest)) }
{
    out.push_str(text)
}

/// Writes the text before an element of a list: a word before the first, a comma before the others.
pub fn push_head(out: &mut String, first: bool, head: &'static str) -> Result<(), NoMemory>
    ensures { (rest : List ℕ) → OnOk result
        (string_bytes out.new ++ rest
        ≡ string_bytes out.old ++ (more.head first head.now ++ rest)) }
{
    if first {
        push(out, head)
    } else {
        push(out, ", ")
    }
}

pub fn push_name(
    alloc: Global,
    out: &mut String,
    dialect: Dialect,
    name: &str,
) -> Result<(), NoMemory>
    ensures { (rest : List ℕ) → OnOk result
        (string_bytes out.new ++ rest ≡ string_bytes out.old ++ (quoted dialect name.now ++ rest)) }
{
    let quoted = quote_name(alloc, dialect, name)?;
    push(out, quoted.as_str())?;
    Ok(())
}

pub fn push_number_sign(out: &mut String, dialect: Dialect) -> Result<(), NoMemory>
    ensures { (rest : List ℕ) → OnOk result
        (string_bytes out.new ++ rest ≡ string_bytes out.old ++ more.number_sign dialect rest) }
{
    match dialect {
        Dialect::Bracket => push(out, "@p"),
        Dialect::Pg | Dialect::Mysql | Dialect::Sqlite => push(out, "$"),
    }
}

#[tactic(auto, unfolding(sql_grammar::specs::Text::mark))]
pub fn push_mark(out: &mut String, dialect: Dialect, mark: Mark) -> Result<(), NoMemory>
    ensures { (rest : List ℕ) → OnOk result
        (string_bytes out.new ++ rest ≡ string_bytes out.old ++ x.mark dialect mark rest) }
{
    match mark {
        None => push(out, "?"),
        Some(number) => {
            push_number_sign(out, dialect)?;
            let mut buffer = Buffer::new();
            push(out, buffer.format(number))?;
            Ok(())
        }
    }
}

pub fn push_more_marks(out: &mut String, dialect: Dialect, marks: &[Mark]) -> Result<(), NoMemory>
    ensures { (rest : List ℕ) → OnOk result
        (string_bytes out.new ++ rest ≡ string_bytes out.old ++ more.marks dialect marks.now rest) }
{
    for mark in marks {
        push(out, ", ")?;
        push_mark(out, dialect, *mark)?;
    }
    Ok(())
}

#[tactic(auto, unfolding(sql_grammar::specs::Text::logic))]
pub fn push_logic(out: &mut String, by: Logic) -> Result<(), NoMemory>
    ensures { (rest : List ℕ) → OnOk result
        (string_bytes out.new ++ rest ≡ string_bytes out.old ++ x.logic (logic_of by) rest) }
{
    match by {
        Logic::And => push(out, " AND "),
        Logic::Or => push(out, " OR "),
    }
}

#[tactic(auto, unfolding(sql_grammar::specs::Text::direction))]
pub fn push_direction(out: &mut String, by: Direction) -> Result<(), NoMemory>
    ensures { (rest : List ℕ) → OnOk result
        (string_bytes out.new ++ rest
        ≡ string_bytes out.old ++ x.direction (direction_of by) rest) }
{
    match by {
        Direction::Plain => Ok(()),
        Direction::Ascending => push(out, " ASC"),
        Direction::Descending => push(out, " DESC"),
    }
}

#[tactic(auto, unfolding(sql_grammar::specs::Spelling::sign_text))]
pub fn push_sign(out: &mut String, by: Comparison) -> Result<(), NoMemory>
    ensures { (rest : List ℕ) → OnOk result
        (string_bytes out.new ++ rest ≡ string_bytes out.old ++ sign_text (comparison_of by) rest) }
{
    match by {
        Comparison::Equal => push(out, "="),
        Comparison::NotEqual => push(out, "!="),
        Comparison::Less => push(out, "<"),
        Comparison::LessOrEqual => push(out, "<="),
        Comparison::Greater => push(out, ">"),
        Comparison::GreaterOrEqual => push(out, ">="),
    }
}

#[tactic(auto, unfolding(sql_grammar::specs::Text::null_test))]
pub fn push_null_test(out: &mut String, negated: bool) -> Result<(), NoMemory>
    ensures { (rest : List ℕ) → OnOk result
        (string_bytes out.new ++ rest ≡ string_bytes out.old ++ x.null_test negated rest) }
{
    if negated {
        push(out, " IS NOT NULL)")
    } else {
        push(out, " IS NULL)")
    }
}

#[tactic(auto, unfolding(sql_grammar::specs::Text::constant))]
pub fn push_constant(out: &mut String, holds: bool) -> Result<(), NoMemory>
    ensures { (rest : List ℕ) → OnOk result
        (string_bytes out.new ++ rest ≡ string_bytes out.old ++ x.constant holds rest) }
{
    if holds {
        push(out, "(1=1)")
    } else {
        push(out, "(1=0)")
    }
}

#[tactic(auto, unfolding(sql_grammar::specs::Text::among))]
pub fn push_among(out: &mut String, dialect: Dialect, negated: bool) -> Result<(), NoMemory>
    ensures { (rest : List ℕ) → OnOk result
        (string_bytes out.new ++ rest ≡ string_bytes out.old ++ x.among dialect negated rest) }
{
    match dialect {
        Dialect::Pg => {
            if negated {
                push(out, " != ALL(")
            } else {
                push(out, " = ANY(")
            }
        }
        Dialect::Mysql | Dialect::Sqlite | Dialect::Bracket => {
            if negated {
                push(out, " NOT IN (")
            } else {
                push(out, " IN (")
            }
        }
    }
}

#[tactic(auto, unfolding(sql_grammar::specs::Text::kind))]
pub fn push_kind(out: &mut String, kind: JoinKind) -> Result<(), NoMemory>
    ensures { (rest : List ℕ) → OnOk result
        (string_bytes out.new ++ rest ≡ string_bytes out.old ++ x.kind (kind_of kind) rest) }
{
    match kind {
        JoinKind::Inner => push(out, " INNER JOIN "),
        JoinKind::LeftOuter => push(out, " LEFT OUTER JOIN "),
    }
}

#[tactic(auto, unfolding(sql_grammar::specs::Text::only))]
pub fn push_only(out: &mut String, only: bool) -> Result<(), NoMemory>
    ensures { (rest : List ℕ) → OnOk result
        (string_bytes out.new ++ rest ≡ string_bytes out.old ++ x.only only rest) }
{
    if only { push(out, " ONLY ") } else { Ok(()) }
}

#[tactic(auto, unfolding(sql_grammar::specs::Text::seed))]
pub fn push_seed(out: &mut String, dialect: Dialect, seed: Option<Mark>) -> Result<(), NoMemory>
    ensures { (rest : List ℕ) → OnOk result
        (string_bytes out.new ++ rest ≡ string_bytes out.old ++ x.seed dialect seed rest) }
{
    match seed {
        None => Ok(()),
        Some(mark) => {
            push(out, " REPEATABLE(")?;
            push_mark(out, dialect, mark)?;
            push(out, ")")?;
            Ok(())
        }
    }
}

#[tactic(auto, unfolding(sql_grammar::specs::Text::method))]
pub fn push_method(out: &mut String, method: SampleMethod) -> Result<(), NoMemory>
    ensures { (rest : List ℕ) → OnOk result
        (string_bytes out.new ++ rest ≡ string_bytes out.old ++ x.method (method_of method) rest) }
{
    match method {
        SampleMethod::Bernoulli => push(out, " TABLESAMPLE BERNOULLI("),
        SampleMethod::System => push(out, " TABLESAMPLE SYSTEM("),
    }
}

#[tactic(auto, unfolding(sql_grammar::specs::Text::sample, sql_grammar::specs::Text::method))]
pub fn push_sample(out: &mut String, dialect: Dialect, sample: Sample) -> Result<(), NoMemory>
    ensures { (rest : List ℕ) → OnOk result
        (string_bytes out.new ++ rest
        ≡ string_bytes out.old ++ x.sample dialect (sample_of sample) rest) }
{
    match sample {
        Sample::Whole => Ok(()),
        Sample::Sampled(method, portion, seed) => {
            push_method(out, method)?;
            push_mark(out, dialect, portion)?;
            push(out, ")")?;
            push_seed(out, dialect, seed)?;
            Ok(())
        }
    }
}

#[tactic(auto, unfolding(sql_grammar::specs::Text::fetch))]
pub fn push_fetch(out: &mut String, dialect: Dialect, limit: Mark) -> Result<(), NoMemory>
    ensures { (rest : List ℕ) → OnOk result
        (string_bytes out.new ++ rest ≡ string_bytes out.old ++ x.fetch dialect limit rest) }
{
    push(out, " ROWS FETCH NEXT ")?;
    push_mark(out, dialect, limit)?;
    push(out, " ROWS ONLY")?;
    Ok(())
}

#[tactic(auto, unfolding(sql_grammar::specs::Text::page))]
pub fn push_no_limit(out: &mut String, dialect: Dialect, offset: Mark) -> Result<(), NoMemory>
    ensures { (rest : List ℕ) → OnOk result
        (string_bytes out.new ++ rest
        ≡ string_bytes out.old ++ x.page dialect (PageBy None (Some offset)) rest) }
{
    match dialect {
        Dialect::Pg => {
            push(out, " OFFSET ")?;
            push_mark(out, dialect, offset)?;
            Ok(())
        }
        Dialect::Mysql => {
            push(out, " LIMIT 18446744073709551615  OFFSET ")?;
            push_mark(out, dialect, offset)?;
            Ok(())
        }
        Dialect::Sqlite => {
            push(out, " LIMIT -1  OFFSET ")?;
            push_mark(out, dialect, offset)?;
            Ok(())
        }
        Dialect::Bracket => {
            push(out, " OFFSET ")?;
            push_mark(out, dialect, offset)?;
            push(out, " ROWS")?;
            Ok(())
        }
    }
}

#[tactic(auto, unfolding(sql_grammar::specs::Text::page))]
pub fn push_page(out: &mut String, dialect: Dialect, page: Page) -> Result<(), NoMemory>
    ensures { (rest : List ℕ) → OnOk result
        (string_bytes out.new ++ rest
        ≡ string_bytes out.old ++ x.page dialect (page_of page) rest) }
{
    match page {
        Page::PageBy(None, None) => Ok(()),
        Page::PageBy(None, Some(offset)) => push_no_limit(out, dialect, offset),
        Page::PageBy(Some(limit), None) => {
            push(out, " LIMIT ")?;
            push_mark(out, dialect, limit)?;
            Ok(())
        }
        Page::PageBy(Some(limit), Some(offset)) => {
            push(out, " LIMIT ")?;
            push_mark(out, dialect, limit)?;
            push(out, " OFFSET ")?;
            push_mark(out, dialect, offset)?;
            Ok(())
        }
        Page::FetchBy(None, limit) => {
            push(out, " OFFSET 0")?;
            push_fetch(out, dialect, limit)?;
            Ok(())
        }
        Page::FetchBy(Some(offset), limit) => {
            push(out, " OFFSET ")?;
            push_mark(out, dialect, offset)?;
            push_fetch(out, dialect, limit)?;
            Ok(())
        }
    }
}

#[tactic(auto, unfolding(sql_grammar::specs::Text::mode))]
pub fn push_mode(out: &mut String, mode: LockMode) -> Result<(), NoMemory>
    ensures { (rest : List ℕ) → OnOk result
        (string_bytes out.new ++ rest ≡ string_bytes out.old ++ x.mode (mode_of mode) rest) }
{
    match mode {
        LockMode::ForUpdate => push(out, " FOR UPDATE"),
        LockMode::ForNoKeyUpdate => push(out, " FOR NO KEY UPDATE"),
        LockMode::ForShare => push(out, " FOR SHARE"),
        LockMode::ForKeyShare => push(out, " FOR KEY SHARE"),
    }
}

#[tactic(auto, unfolding(sql_grammar::specs::Text::wait))]
pub fn push_wait(out: &mut String, wait: LockWait) -> Result<(), NoMemory>
    ensures { (rest : List ℕ) → OnOk result
        (string_bytes out.new ++ rest ≡ string_bytes out.old ++ x.wait (wait_of wait) rest) }
{
    match wait {
        LockWait::Waits => Ok(()),
        LockWait::SkipLocked => push(out, " SKIP LOCKED"),
        LockWait::NoWait => push(out, " NOWAIT"),
    }
}

#[tactic(auto, unfolding(sql_grammar::specs::Text::lock))]
pub fn push_lock(out: &mut String, lock: Lock) -> Result<(), NoMemory>
    ensures { (rest : List ℕ) → OnOk result
        (string_bytes out.new ++ rest ≡ string_bytes out.old ++ x.lock (lock_of lock) rest) }
{
    match lock {
        Lock::Unlocked => Ok(()),
        Lock::Locks(mode, wait) => {
            push_mode(out, mode)?;
            push_wait(out, wait)?;
            Ok(())
        }
    }
}

#[tactic(auto, unfolding(sql_grammar::specs::Text::operator))]
pub fn push_operator(out: &mut String, by: SetOperator) -> Result<(), NoMemory>
    ensures { (rest : List ℕ) → OnOk result
        (string_bytes out.new ++ rest ≡ string_bytes out.old ++ x.operator (operator_of by) rest) }
{
    match by {
        SetOperator::Union => push(out, " UNION "),
        SetOperator::Intersect => push(out, " INTERSECT "),
        SetOperator::Except => push(out, " EXCEPT "),
    }
}

#[tactic(auto, unfolding(sql_grammar::specs::Text::all_word))]
pub fn push_all(out: &mut String, all: bool) -> Result<(), NoMemory>
    ensures { (rest : List ℕ) → OnOk result
        (string_bytes out.new ++ rest ≡ string_bytes out.old ++ x.all_word all rest) }
{
    if all { push(out, "ALL ") } else { Ok(()) }
}

#[tactic(auto, unfolding(sql_grammar::specs::Text::side_open))]
pub fn push_side_open(out: &mut String, dialect: Dialect) -> Result<(), NoMemory>
    ensures { (rest : List ℕ) → OnOk result
        (string_bytes out.new ++ rest ≡ string_bytes out.old ++ x.side_open dialect rest) }
{
    match dialect {
        Dialect::Sqlite => push(out, "SELECT * FROM ("),
        Dialect::Pg | Dialect::Mysql | Dialect::Bracket => push(out, "("),
    }
}

pub fn push_places(out: &mut String, head: &'static str, places: &[Place]) -> Result<(), NoMemory>
    ensures { (rest : List ℕ) → OnOk result
        (string_bytes out.new ++ rest
        ≡ string_bytes out.old ++ more.places head.now (map place_of places.now) rest) }
{
    let mut first = true;
    for place in places {
        push_head(out, first, head)?;
        push_place(out, place)?;
        first = false;
    }
    Ok(())
}

pub fn push_place(out: &mut String, place: &Place) -> Result<(), NoMemory>
    ensures { (rest : List ℕ) → OnOk result
        (string_bytes out.new ++ rest
        ≡ string_bytes out.old ++ more.place (place_of place.now) rest) }
{
    match place {
        Place::At(digits, by) => {
            push(out, digits.as_str())?;
            push_direction(out, *by)?;
            Ok(())
        }
    }
}

/// Writes a path at the end.
pub fn push_names(
    alloc: Global,
    out: &mut String,
    dialect: Dialect,
    names: &Names,
) -> Result<(), NoMemory>
    ensures { (rest : List ℕ) → OnOk result
        (string_bytes out.new ++ rest
        ≡ string_bytes out.old ++ more.path_text dialect names.now rest) }
{
    let (last, before) = names.from_last();
    push_before(alloc, out, dialect, before, last)?;
    Ok(())
}

/// Writes the names, the last of them first, and then one more name.
pub fn push_before(
    alloc: Global,
    out: &mut String,
    dialect: Dialect,
    before: &[String],
    last: &str,
) -> Result<(), NoMemory>
    ensures { (rest : List ℕ) → OnOk result
        (string_bytes out.new ++ rest ≡ string_bytes out.old
        ++ more.path_text dialect (prefixed_by (map string_bytes before.now)
        (record { first = last.now; more = [] })) rest) }
{
    let mut i = before.len();
    while i > 0 {
        i -= 1;
        push_name(alloc, out, dialect, before[i].as_str())?;
        push(out, ".")?;
    }
    push_name(alloc, out, dialect, last)?;
    Ok(())
}

#[tactic(auto, using(crate::proofs::Lists::lists))]
pub fn push_marks(
    out: &mut String,
    dialect: Dialect,
    first: Mark,
    others: &[Mark],
) -> Result<(), NoMemory>
    ensures { (rest : List ℕ) → OnOk result
        (string_bytes out.new ++ rest
        ≡ string_bytes out.old ++ x.marks dialect first others.now rest) }
{
    push_mark(out, dialect, first)?;
    push_more_marks(out, dialect, others)?;
    Ok(())
}
