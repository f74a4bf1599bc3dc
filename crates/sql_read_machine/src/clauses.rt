ghost use Rattle.std.specs.Prelude.{◌≡◌, OnOk};
ghost use Rattle.std.specs.Option.{option_map};
ghost use Rattle.sql_grammar.proofs.Machine as m;
ghost use Rattle.sql_read_lexer.specs.View.{token_of};
ghost use Rattle.sql_read_tree.specs.View.{method_of, mode_of, page_of, query_tree};
ghost use Rattle.sql_read_machine.specs.View.{stack_of};

use crate::discard::{discard, discard_expression, give_up};
use crate::entry::{Entry, Right, Stack};
use crate::list::{first, group, mark_in, order, placed};
use crate::parts::{take_clauses, take_items, take_places, take_seed};
use sql_dialect::NoMemory;
use sql_read_lexer::Token;
use sql_read_tree::{
    Expression, Lock, LockMode, LockWait, Mark, Page, Query, Sample, SampleMethod, query_in,
};
use std::alloc::Global;

#[tactic(auto, unfolding(sql_grammar::proofs::Machine::where_by))]
pub fn where_by(alloc: Global, stack: &mut Stack) -> Result<(), NoMemory>
    ensures { OnOk result (stack_of stack.new ≡ m.where_by (stack_of stack.old)) }
{
    match stack.pop() {
        Some(Entry::E(e)) => {
            let mut clauses = take_clauses(alloc, stack)?;
            clauses.filter = Some(e);
            stack.push(Entry::Tail(Box::new(alloc, clauses)?))?;
            Ok(())
        }
        Some(other) => give_up(stack, other),
        None => Ok(()),
    }
}

#[tactic(auto, unfolding(sql_grammar::proofs::Machine::having_by))]
pub fn having_by(alloc: Global, stack: &mut Stack) -> Result<(), NoMemory>
    ensures { OnOk result (stack_of stack.new ≡ m.having_by (stack_of stack.old)) }
{
    match stack.pop() {
        Some(Entry::E(e)) => {
            let mut clauses = take_clauses(alloc, stack)?;
            clauses.having = Some(e);
            stack.push(Entry::Tail(Box::new(alloc, clauses)?))?;
            Ok(())
        }
        Some(other) => give_up(stack, other),
        None => Ok(()),
    }
}

#[tactic(auto, unfolding(sql_grammar::proofs::Machine::group_by, sql_grammar::proofs::Machine::put_group))]
pub fn group_by(alloc: Global, stack: &mut Stack) -> Result<(), NoMemory>
    ensures { OnOk result (stack_of stack.new ≡ m.group_by (stack_of stack.old)) }
{
    match stack.pop() {
        Some(Entry::E(e)) => {
            let items = take_items(alloc, e, stack)?;
            let grouped = group(alloc, items)?;
            let mut clauses = take_clauses(alloc, stack)?;
            clauses.group = grouped;
            stack.push(Entry::Tail(Box::new(alloc, clauses)?))?;
            Ok(())
        }
        Some(other) => give_up(stack, other),
        None => Ok(()),
    }
}

#[tactic(auto, unfolding(sql_grammar::proofs::Machine::order_by, sql_grammar::proofs::Machine::put_order))]
pub fn order_by(alloc: Global, stack: &mut Stack) -> Result<(), NoMemory>
    ensures { OnOk result (stack_of stack.new ≡ m.order_by (stack_of stack.old)) }
{
    match stack.pop() {
        Some(Entry::E(e)) => {
            let items = take_items(alloc, e, stack)?;
            let ordered = order(alloc, items)?;
            let mut clauses = take_clauses(alloc, stack)?;
            clauses.order = ordered;
            stack.push(Entry::Tail(Box::new(alloc, clauses)?))?;
            Ok(())
        }
        Some(Entry::Raw(first)) => {
            order_token(alloc, stack, first)?;
            Ok(())
        }
        Some(other) => give_up(stack, other),
        None => Ok(()),
    }
}

#[tactic(auto, unfolding(sql_grammar::proofs::Machine::order_token, sql_grammar::proofs::Machine::put_places))]
fn order_token(alloc: Global, stack: &mut Stack, first: Token) -> Result<(), NoMemory>
    ensures { OnOk result (stack_of stack.new
        ≡ m.order_token (token_of first) (stack_of stack.old)) }
{
    match first {
        Token::Number(number) => {
            let places = take_places(alloc, number, stack)?;
            let mut clauses = take_clauses(alloc, stack)?;
            clauses.places = placed(alloc, places)?;
            stack.push(Entry::Tail(Box::new(alloc, clauses)?))?;
            Ok(())
        }
        other => give_up(stack, Entry::Raw(other)),
    }
}

#[tactic(auto, unfolding(sql_grammar::proofs::Machine::put_page))]
fn put_page(alloc: Global, stack: &mut Stack, page: Page) -> Result<(), NoMemory>
    ensures { OnOk result ((stack_of stack.new)
        ≡ m.put_page (page_of page) (m.tail_of (stack_of stack.old))) }
{
    let mut clauses = take_clauses(alloc, stack)?;
    clauses.page = page;
    stack.push(Entry::Tail(Box::new(alloc, clauses)?))?;
    Ok(())
}

#[tactic(auto, unfolding(sql_grammar::proofs::Machine::offset_in))]
fn offset_in(page: Page) -> Option<Mark>
    ensures { result ≡ m.offset_in (page_of page) }
{
    match page {
        Page::PageBy(_, offset) => offset,
        Page::FetchBy(offset, _) => offset,
    }
}

#[tactic(auto, unfolding(sql_grammar::proofs::Machine::put_limit))]
fn put_limit(alloc: Global, stack: &mut Stack, limit: Mark) -> Result<(), NoMemory>
    ensures { OnOk result ((stack_of stack.new)
        ≡ m.put_limit limit (m.tail_of (stack_of stack.old))) }
{
    let mut clauses = take_clauses(alloc, stack)?;
    clauses.page = Page::PageBy(Some(limit), offset_in(clauses.page));
    stack.push(Entry::Tail(Box::new(alloc, clauses)?))?;
    Ok(())
}

#[tactic(auto, unfolding(sql_grammar::proofs::Machine::limit_token))]
fn limit_token(stack: &mut Stack, first: Token) -> Result<(), NoMemory>
    ensures { OnOk result (stack_of stack.new
        ≡ m.limit_token (token_of first) (stack_of stack.old)) }
{
    match first {
        Token::Minus => match stack.pop() {
            Some(other) => {
                discard(other);
                Ok(())
            }
            None => Ok(()),
        },
        other => {
            discard(Entry::Raw(other));
            Ok(())
        }
    }
}

#[tactic(auto, unfolding(sql_grammar::proofs::Machine::limit_by))]
pub fn limit_by(alloc: Global, stack: &mut Stack) -> Result<(), NoMemory>
    ensures { OnOk result (stack_of stack.new ≡ m.limit_by (stack_of stack.old)) }
{
    match stack.pop() {
        Some(Entry::E(e)) => {
            put_limit(alloc, stack, mark_in(e))?;
            Ok(())
        }
        Some(Entry::Raw(first)) => {
            limit_token(stack, first)?;
            Ok(())
        }
        Some(other) => give_up(stack, other),
        None => Ok(()),
    }
}

#[tactic(auto, unfolding(sql_grammar::proofs::Machine::offset_of))]
fn offset_of(alloc: Global, stack: &mut Stack, offset: Mark) -> Result<(), NoMemory>
    ensures { OnOk result (stack_of stack.new ≡ m.offset_of offset (stack_of stack.old)) }
{
    match stack.pop() {
        Some(Entry::Fetches(limit)) => {
            put_page(alloc, stack, Page::FetchBy(Some(offset), limit))?;
            Ok(())
        }
        Some(other) => {
            stack.push(other)?;
            put_page(alloc, stack, Page::PageBy(None, Some(offset)))?;
            Ok(())
        }
        None => {
            put_page(alloc, stack, Page::PageBy(None, Some(offset)))?;
            Ok(())
        }
    }
}

#[tactic(auto, unfolding(sql_grammar::proofs::Machine::no_offset))]
fn no_offset(alloc: Global, stack: &mut Stack) -> Result<(), NoMemory>
    ensures { OnOk result (stack_of stack.new ≡ m.no_offset (stack_of stack.old)) }
{
    match stack.pop() {
        Some(Entry::Fetches(limit)) => {
            put_page(alloc, stack, Page::FetchBy(None, limit))?;
            Ok(())
        }
        Some(other) => give_up(stack, other),
        None => Ok(()),
    }
}

#[tactic(auto, unfolding(sql_grammar::proofs::Machine::offset_by))]
pub fn offset_by(alloc: Global, stack: &mut Stack) -> Result<(), NoMemory>
    ensures { OnOk result (stack_of stack.new ≡ m.offset_by (stack_of stack.old)) }
{
    match stack.pop() {
        Some(Entry::E(e)) => {
            offset_of(alloc, stack, mark_in(e))?;
            Ok(())
        }
        Some(Entry::Raw(first)) => {
            discard(Entry::Raw(first));
            no_offset(alloc, stack)?;
            Ok(())
        }
        Some(other) => give_up(stack, other),
        None => Ok(()),
    }
}

#[tactic(auto, unfolding(sql_grammar::proofs::Machine::lock_by))]
pub fn lock_by(alloc: Global, stack: &mut Stack) -> Result<(), NoMemory>
    ensures { OnOk result (stack_of stack.new ≡ m.lock_by (stack_of stack.old)) }
{
    match stack.pop() {
        Some(Entry::Locking(mode, wait)) => {
            let mut clauses = take_clauses(alloc, stack)?;
            clauses.lock = Lock::Locks(mode, wait);
            stack.push(Entry::Tail(Box::new(alloc, clauses)?))?;
            Ok(())
        }
        Some(other) => give_up(stack, other),
        None => Ok(()),
    }
}

#[tactic(auto, unfolding(sql_grammar::proofs::Machine::key_mode))]
fn key_mode(mode: LockMode) -> LockMode
    ensures { mode_of result ≡ m.key_mode (mode_of mode) }
{
    match mode {
        LockMode::ForShare => LockMode::ForKeyShare,
        _ => LockMode::ForNoKeyUpdate,
    }
}

#[tactic(auto, unfolding(sql_grammar::proofs::Machine::key))]
pub fn key(stack: &mut Stack) -> Result<(), NoMemory>
    ensures { OnOk result (stack_of stack.new ≡ m.key (stack_of stack.old)) }
{
    match stack.pop() {
        Some(Entry::Locking(mode, wait)) => {
            stack.push(Entry::Locking(key_mode(mode), wait))?;
            Ok(())
        }
        Some(other) => give_up(stack, other),
        None => Ok(()),
    }
}

#[tactic(auto, unfolding(sql_grammar::proofs::Machine::skip))]
pub fn skip(stack: &mut Stack) -> Result<(), NoMemory>
    ensures { OnOk result (stack_of stack.new ≡ m.skip (stack_of stack.old)) }
{
    match stack.pop() {
        Some(other) => {
            discard(other);
            stack.push(Entry::Waiting(LockWait::SkipLocked))?;
            Ok(())
        }
        None => Ok(()),
    }
}

#[tactic(auto, unfolding(sql_grammar::proofs::Machine::null))]
pub fn null(stack: &mut Stack) -> Result<(), NoMemory>
    ensures { OnOk result (stack_of stack.new ≡ m.null (stack_of stack.old)) }
{
    match stack.pop() {
        Some(other) => {
            discard(other);
            stack.push(Entry::RightPart(Right::IsNull(false)))?;
            Ok(())
        }
        None => Ok(()),
    }
}

#[tactic(auto, unfolding(sql_grammar::proofs::Machine::count))]
pub fn count(alloc: Global, stack: &mut Stack) -> Result<(), NoMemory>
    ensures { OnOk result (stack_of stack.new ≡ m.count (stack_of stack.old)) }
{
    match stack.pop() {
        Some(Entry::Row(list)) => {
            let e = Box::new(alloc, first(list))?;
            stack.push(Entry::E(Expression::Count(e)))?;
            Ok(())
        }
        Some(Entry::StarRow) => {
            stack.push(Entry::E(Expression::CountAll))?;
            Ok(())
        }
        Some(other) => give_up(stack, other),
        None => Ok(()),
    }
}

#[tactic(auto, unfolding(sql_grammar::proofs::Machine::exists_item))]
fn exists_query(stack: &mut Stack, q: Option<Box<Query>>) -> Result<(), NoMemory>
    ensures { OnOk result (stack_of stack.new
        ≡ m.exists_item (option_map (λ x. query_tree x.value) q) (stack_of stack.old)) }
{
    match q {
        Some(q) => {
            stack.push(Entry::E(Expression::Exists(q)))?;
            Ok(())
        }
        None => {
            stack.clear();
            Ok(())
        }
    }
}

#[tactic(auto, unfolding(sql_grammar::proofs::Machine::exists))]
pub fn exists(stack: &mut Stack) -> Result<(), NoMemory>
    ensures { OnOk result (stack_of stack.new ≡ m.exists (stack_of stack.old)) }
{
    match stack.pop() {
        Some(Entry::E(e)) => {
            exists_query(stack, query_in(e))?;
            Ok(())
        }
        Some(other) => give_up(stack, other),
        None => Ok(()),
    }
}

#[tactic(auto, unfolding(sql_grammar::proofs::Machine::rows))]
pub fn rows(stack: &mut Stack) -> Result<(), NoMemory>
    ensures { OnOk result (stack_of stack.new ≡ m.rows (stack_of stack.old)) }
{
    match stack.pop() {
        Some(Entry::OnlyLast) => {
            stack.push(Entry::RowsOnly)?;
            Ok(())
        }
        Some(other) => {
            stack.push(other)?;
            Ok(())
        }
        None => Ok(()),
    }
}

#[tactic(auto, unfolding(sql_grammar::proofs::Machine::fetch))]
pub fn fetch(stack: &mut Stack) -> Result<(), NoMemory>
    ensures { OnOk result (stack_of stack.new ≡ m.fetch (stack_of stack.old)) }
{
    match stack.pop() {
        Some(Entry::E(e)) => match stack.pop() {
            Some(other) => {
                discard(other);
                stack.push(Entry::Fetches(mark_in(e)))?;
                Ok(())
            }
            None => {
                discard_expression(e);
                Ok(())
            },
        },
        Some(other) => give_up(stack, other),
        None => Ok(()),
    }
}

#[tactic(auto, unfolding(sql_grammar::proofs::Machine::sampled))]
pub fn sampled(stack: &mut Stack, by: SampleMethod) -> Result<(), NoMemory>
    ensures { OnOk result (stack_of stack.new ≡ m.sampled (method_of by) (stack_of stack.old)) }
{
    match stack.pop() {
        Some(Entry::Row(list)) => {
            let seed = take_seed(stack)?;
            let portion = mark_in(first(list));
            stack.push(Entry::SampledBy(Sample::Sampled(by, portion, seed)))?;
            Ok(())
        }
        Some(other) => give_up(stack, other),
        None => Ok(()),
    }
}

#[tactic(auto, unfolding(sql_grammar::proofs::Machine::seeded))]
pub fn seeded(stack: &mut Stack) -> Result<(), NoMemory>
    ensures { OnOk result (stack_of stack.new ≡ m.seeded (stack_of stack.old)) }
{
    match stack.pop() {
        Some(Entry::Row(list)) => {
            stack.push(Entry::Seeded(mark_in(first(list))))?;
            Ok(())
        }
        Some(other) => give_up(stack, other),
        None => Ok(()),
    }
}
