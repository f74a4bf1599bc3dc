ghost use Rattle.std.specs.Prelude.{◌≡◌, ◌∷◌, OnOk, map, string_bytes};
ghost use Rattle.sql_grammar.proofs.Machine as m;
ghost use Rattle.sql_grammar.specs.MarkTree as t;
ghost use Rattle.sql_read_lexer.specs.View.{token_of};
ghost use Rattle.sql_read_tree.specs.View.{kind_of, operator_of, page_of, place_of, by_places_of, expression_tree, source_tree, query_tree};
ghost use Rattle.sql_read_machine.specs.View.{stack_of, items_seen, clauses_of, right_of};

use crate::discard::{
    discard, discard_expression, discard_items, discard_right, discard_source, give_up,
};
use crate::entry::{Clauses, Entry, Items, Right, Stack};
use crate::list::{first, group, item, marks, more, one, order};
use crate::parts::take_clauses;
use sql_dialect::NoMemory;
use sql_read_lexer::Token;
use sql_read_tree::{
    Direction, Expression, JoinKind, Page, Place, Query, Sample, SetOperator, Source, names_in,
};
use std::alloc::Global;

#[tactic(auto, unfolding(sql_grammar::proofs::Machine::source_item))]
fn source_right(alloc: Global, stack: &mut Stack, a: Source, right: Right) -> Result<(), NoMemory>
    ensures { OnOk result (stack_of stack.new
        ≡ m.source_item (source_tree a) (right_of right) ∷ (stack_of stack.old)) }
{
    match right {
        Right::JoinsTo(kind, b, on) => {
            join_sources(alloc, stack, kind, a, b, on)?;
            Ok(())
        }
        other => {
            discard_source(a);
            discard_right(other);
            stack.push(Entry::StarRow)?;
            Ok(())
        }
    }
}

#[tactic(auto, unfolding(sql_grammar::proofs::Machine::open_source))]
fn open_source(alloc: Global, stack: &mut Stack, a: Source) -> Result<(), NoMemory>
    ensures { OnOk result (stack_of stack.new
        ≡ m.open_source (source_tree a) (stack_of stack.old)) }
{
    match stack.pop() {
        Some(Entry::RightPart(right)) => {
            source_right(alloc, stack, a, right)?;
            Ok(())
        }
        Some(other) => {
            discard_source(a);
            give_up(stack, other)
        }
        None => {
            discard_source(a);
            Ok(())
        }
    }
}

fn join_sources(
    alloc: Global,
    stack: &mut Stack,
    kind: JoinKind,
    a: Source,
    b: Source,
    on: Expression,
) -> Result<(), NoMemory>
    ensures { OnOk result (stack_of stack.new
        ≡ m.S (t.Join (kind_of kind) (source_tree a) (source_tree b) (expression_tree on))
        ∷ stack_of stack.old) }
{
    let a = Box::new(alloc, a)?;
    let b = Box::new(alloc, b)?;
    let on = Box::new(alloc, on)?;
    stack.push(Entry::S(Source::Join(kind, a, b, on)))?;
    Ok(())
}

#[tactic(auto, unfolding(sql_grammar::proofs::Machine::complete))]
fn complete(alloc: Global, stack: &mut Stack, a: Expression, right: Right) -> Result<(), NoMemory>
    ensures { OnOk result (stack_of stack.new
        ≡ m.complete (expression_tree a) (right_of right) ∷ (stack_of stack.old)) }
{
    match right {
        Right::Compares(by, b) => {
            let a = Box::new(alloc, a)?;
            let b = Box::new(alloc, b)?;
            stack.push(Entry::E(Expression::Compared(by, a, b)))?;
            Ok(())
        }
        Right::Joins(by, b) => {
            let a = Box::new(alloc, a)?;
            let b = Box::new(alloc, b)?;
            stack.push(Entry::E(Expression::Connected(by, a, b)))?;
            Ok(())
        }
        Right::IsNull(negated) => {
            let a = Box::new(alloc, a)?;
            stack.push(Entry::E(Expression::NullTest(negated, a)))?;
            Ok(())
        }
        Right::IsIn(negated, list) => {
            let a = Box::new(alloc, a)?;
            let (first, others) = marks(alloc, list)?;
            stack.push(Entry::E(Expression::InList(negated, a, first, others)))?;
            Ok(())
        }
        Right::IsInQuery(negated, q) => {
            let a = Box::new(alloc, a)?;
            stack.push(Entry::E(Expression::InQuery(negated, a, q)))?;
            Ok(())
        }
        Right::Equals(_) => {
            discard_expression(a);
            stack.push(Entry::StarRow)?;
            Ok(())
        }
        Right::JoinsTo(kind, b, on) => {
            let table = Source::Table(names_in(alloc, a), false, Sample::Whole);
            join_sources(alloc, stack, kind, table, b, on)?;
            Ok(())
        }
    }
}

#[tactic(auto, unfolding(sql_grammar::proofs::Machine::open_listed))]
fn open_list(stack: &mut Stack, e: Expression, list: Items) -> Result<(), NoMemory>
    ensures { OnOk result (stack_of stack.new
        ≡ m.open_listed (expression_tree e) (items_seen list) (stack_of stack.old)) }
{
    match stack.pop() {
        Some(other) => {
            discard(other);
            let all = more(item(e, Direction::Plain), list)?;
            stack.push(Entry::Row(all))?;
            Ok(())
        }
        None => {
            discard_expression(e);
            discard_items(list);
            Ok(())
        }
    }
}

#[tactic(auto, unfolding(sql_grammar::proofs::Machine::open_expression))]
fn open_expression(alloc: Global, stack: &mut Stack, e: Expression) -> Result<(), NoMemory>
    ensures { OnOk result (stack_of stack.new
        ≡ m.open_expression (expression_tree e) (stack_of stack.old)) }
{
    match stack.pop() {
        Some(Entry::RightPart(right)) => {
            complete(alloc, stack, e, right)?;
            Ok(())
        }
        Some(Entry::Listed(list)) => {
            open_list(stack, e, list)?;
            Ok(())
        }
        Some(Entry::AliasAs(alias)) => {
            let names = names_in(alloc, e);
            open_source(alloc, stack, Source::Alias(names, alias))?;
            Ok(())
        }
        Some(Entry::SampledBy(sample)) => {
            let names = names_in(alloc, e);
            open_source(alloc, stack, Source::Table(names, false, sample))?;
            Ok(())
        }
        Some(other) => {
            discard(other);
            stack.push(Entry::Row(one(alloc, item(e, Direction::Plain))))?;
            Ok(())
        }
        None => {
            discard_expression(e);
            Ok(())
        }
    }
}

#[tactic(auto, unfolding(sql_grammar::proofs::Machine::combined))]
fn combined(
    alloc: Global,
    stack: &mut Stack,
    a: Box<Query>,
    by: SetOperator,
    all: bool,
    b: Box<Query>,
) -> Result<(), NoMemory>
    ensures { OnOk result (stack_of stack.new
        ≡ m.combined (query_tree a.value) (operator_of by) all (query_tree b.value) (m.tail_of
        (stack_of stack.old))) }
{
    let c = take_clauses(alloc, stack)?;
    let (places, page) = outer_parts(c);
    let q = Box::new(alloc, Query::Combined(a, by, all, b, places, page))?;
    stack.push(Entry::Q(q))?;
    Ok(())
}

/// The clauses that a combination has.
fn outer_parts(c: Clauses) -> (Vec<Place>, Page)
    ensures places { by_places_of (map place_of result.0.items) ≡ (clauses_of c).places }
    ensures page { page_of result.1 ≡ (clauses_of c).page }
{
    let Clauses {
        source: _,
        filter: _,
        group: _,
        having: _,
        order: _,
        places,
        page,
        lock: _,
    } = c;
    (places, page)
}

#[tactic(auto, unfolding(sql_grammar::proofs::Machine::grouped))]
fn grouped(alloc: Global, stack: &mut Stack, q: Box<Query>) -> Result<(), NoMemory>
    ensures { OnOk result (stack_of stack.new
        ≡ m.grouped (query_tree q.value) (stack_of stack.old)) }
{
    match stack.pop() {
        Some(Entry::Combines(by, all, b)) => {
            combined(alloc, stack, q, by, all, b)?;
            Ok(())
        }
        Some(other) => {
            stack.push(other)?;
            stack.push(Entry::E(Expression::SingleValue(q)))?;
            Ok(())
        }
        None => {
            stack.push(Entry::E(Expression::SingleValue(q)))?;
            Ok(())
        }
    }
}

#[tactic(auto, unfolding(sql_grammar::proofs::Machine::open_query))]
fn open_query(alloc: Global, stack: &mut Stack, q: Box<Query>) -> Result<(), NoMemory>
    ensures { OnOk result (stack_of stack.new
        ≡ m.open_query (query_tree q.value) (stack_of stack.old)) }
{
    match stack.pop() {
        Some(close) => {
            discard(close);
            grouped(alloc, stack, q)?;
            Ok(())
        }
        None => {
            discard(Entry::Q(q));
            Ok(())
        }
    }
}

#[tactic(auto, unfolding(sql_grammar::proofs::Machine::open_token))]
fn open_token(stack: &mut Stack, first: Token) -> Result<(), NoMemory>
    ensures { OnOk result (stack_of stack.new
        ≡ m.open_token (token_of first) (stack_of stack.old)) }
{
    match first {
        Token::Star => match stack.pop() {
            Some(other) => {
                discard(other);
                stack.push(Entry::StarRow)?;
                Ok(())
            }
            None => Ok(()),
        },
        Token::Number(_) => open_number(stack),
        other => give_up(stack, Entry::Raw(other)),
    }
}

#[tactic(auto, unfolding(sql_grammar::proofs::Machine::open_number))]
fn open_number(stack: &mut Stack) -> Result<(), NoMemory>
    ensures { OnOk result (stack_of stack.new ≡ m.open_number (stack_of stack.old)) }
{
    match stack.pop() {
        Some(Entry::RightPart(right)) => {
            constant_right(stack, right)?;
            Ok(())
        }
        Some(other) => give_up(stack, other),
        None => Ok(()),
    }
}

#[tactic(auto, unfolding(sql_grammar::proofs::Machine::open_number))]
fn constant_right(stack: &mut Stack, right: Right) -> Result<(), NoMemory>
    ensures { OnOk result (stack_of stack.new
        ≡ m.open_number (m.Right (right_of right) ∷ stack_of stack.old)) }
{
    match right {
        Right::Equals(digits) => {
            stack.push(Entry::E(Expression::Constant(is_one(&digits))))?;
            Ok(())
        }
        other => give_up(stack, Entry::RightPart(other)),
    }
}

#[tactic(auto, unfolding(sql_grammar::proofs::Machine::constant_of))]
fn is_one(digits: &String) -> bool
    ensures { result ≡ m.constant_of (string_bytes digits.now) }
{
    match digits.as_bytes() {
        [] => false,
        [first, ..] => *first == 49,
    }
}

#[tactic(auto, unfolding(sql_grammar::proofs::Machine::open_bracket))]
pub fn open_bracket(alloc: Global, stack: &mut Stack) -> Result<(), NoMemory>
    ensures { OnOk result (stack_of stack.new ≡ m.open_bracket (stack_of stack.old)) }
{
    match stack.pop() {
        Some(Entry::E(e)) => {
            open_expression(alloc, stack, e)?;
            Ok(())
        }
        Some(Entry::Q(q)) => {
            open_query(alloc, stack, q)?;
            Ok(())
        }
        Some(Entry::S(source)) => {
            open_source(alloc, stack, source)?;
            Ok(())
        }
        Some(Entry::Raw(first)) => {
            open_token(stack, first)?;
            Ok(())
        }
        Some(other) => give_up(stack, other),
        None => Ok(()),
    }
}
