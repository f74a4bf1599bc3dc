ghost use Rattle.std.specs.Prelude.{◌≡◌, OnOk, string_bytes};
ghost use Rattle.std.specs.Option.{option_map};
ghost use Rattle.sql_grammar.proofs.Machine as m;
ghost use Rattle.sql_read_lexer.specs.View.{comparison_of, token_of};
ghost use Rattle.sql_read_tree.specs.View.{logic_of, mode_of, query_tree};
ghost use Rattle.sql_read_machine.specs.View.{stack_of, right_of};

use crate::discard::{discard, discard_expression, discard_items, give_up};
use crate::entry::{Entry, Right, Stack};
use crate::list::first;
use crate::parts::{take_items, take_name, take_places, take_wait};
use sql_dialect::NoMemory;
use sql_read_lexer::{Comparison, Token};
use sql_read_tree::{Expression, LockMode, Logic, Names, Query, names_in, query_in};
use std::alloc::Global;

#[tactic(auto, unfolding(sql_grammar::proofs::Machine::quoted))]
pub fn quoted(alloc: Global, stack: &mut Stack, name: String) -> Result<(), NoMemory>
    ensures { OnOk result (stack_of stack.new ≡ m.quoted (string_bytes name) (stack_of stack.old)) }
{
    match stack.pop() {
        Some(Entry::Dotted(names)) => {
            let mut path = names;
            path.push_front(name)?;
            stack.push(Entry::E(Expression::Path(path)))?;
            Ok(())
        }
        Some(other) => {
            stack.push(other)?;
            stack.push(Entry::E(Expression::Path(Names::new(alloc, name))))?;
            Ok(())
        }
        None => {
            stack.push(Entry::E(Expression::Path(Names::new(alloc, name))))?;
            Ok(())
        }
    }
}

#[tactic(auto, unfolding(sql_grammar::proofs::Machine::dot))]
pub fn dot(alloc: Global, stack: &mut Stack) -> Result<(), NoMemory>
    ensures { OnOk result (stack_of stack.new ≡ m.dot (stack_of stack.old)) }
{
    match stack.pop() {
        Some(Entry::E(e)) => {
            let names = names_in(alloc, e);
            stack.push(Entry::Dotted(names))?;
            Ok(())
        }
        Some(other) => give_up(stack, other),
        None => Ok(()),
    }
}

#[tactic(auto, unfolding(sql_grammar::proofs::Machine::comma_token, sql_grammar::proofs::Machine::put_numbered))]
fn comma_token(alloc: Global, stack: &mut Stack, first: Token) -> Result<(), NoMemory>
    ensures { OnOk result (stack_of stack.new
        ≡ m.comma_token (token_of first) (stack_of stack.old)) }
{
    match first {
        Token::Number(number) => {
            let places = take_places(alloc, number, stack)?;
            stack.push(Entry::Numbered(places))?;
            Ok(())
        }
        other => give_up(stack, Entry::Raw(other)),
    }
}

#[tactic(auto, unfolding(sql_grammar::proofs::Machine::comma, sql_grammar::proofs::Machine::put_listed))]
pub fn comma(alloc: Global, stack: &mut Stack) -> Result<(), NoMemory>
    ensures { OnOk result (stack_of stack.new ≡ m.comma (stack_of stack.old)) }
{
    match stack.pop() {
        Some(Entry::E(e)) => {
            let items = take_items(alloc, e, stack)?;
            stack.push(Entry::Listed(items))?;
            Ok(())
        }
        Some(Entry::Raw(first)) => {
            comma_token(alloc, stack, first)?;
            Ok(())
        }
        Some(other) => give_up(stack, other),
        None => Ok(()),
    }
}

#[tactic(auto, unfolding(sql_grammar::proofs::Machine::in_query))]
fn in_query(stack: &mut Stack, negated: bool, q: Option<Box<Query>>) -> Result<(), NoMemory>
    ensures { OnOk result (stack_of stack.new
        ≡ m.in_query negated (option_map (λ x. query_tree x.value) q) (stack_of stack.old)) }
{
    match q {
        Some(q) => {
            stack.push(Entry::RightPart(Right::IsInQuery(negated, q)))?;
            Ok(())
        }
        None => {
            stack.clear();
            Ok(())
        }
    }
}

#[tactic(auto, unfolding(sql_grammar::proofs::Machine::in_row))]
pub fn in_row(stack: &mut Stack, negated: bool) -> Result<(), NoMemory>
    ensures { OnOk result (stack_of stack.new ≡ m.in_row negated (stack_of stack.old)) }
{
    match stack.pop() {
        Some(Entry::Row(list)) => match stack.pop() {
            Some(other) => {
                discard(other);
                stack.push(Entry::RightPart(Right::IsIn(negated, list)))?;
                Ok(())
            }
            None => {
                discard_items(list);
                Ok(())
            },
        },
        Some(Entry::E(e)) => match stack.pop() {
            Some(other) => {
                discard(other);
                in_query(stack, negated, query_in(e))?;
                Ok(())
            }
            None => {
                discard_expression(e);
                Ok(())
            },
        },
        Some(other) => give_up(stack, other),
        None => Ok(()),
    }
}

#[tactic(auto, unfolding(sql_grammar::proofs::Machine::sign_token))]
fn sign_token(stack: &mut Stack, by: Comparison, first: Token) -> Result<(), NoMemory>
    ensures { OnOk result (stack_of stack.new
        ≡ m.sign_token (comparison_of by) (token_of first) (stack_of stack.old)) }
{
    match first {
        Token::Number(number) => match stack.pop() {
            Some(other) => {
                discard(other);
                stack.push(Entry::RightPart(Right::Equals(number)))?;
                Ok(())
            }
            None => Ok(()),
        },
        Token::Word(_) => {
            in_row(stack, negated(by))?;
            Ok(())
        }
        other => give_up(stack, Entry::Raw(other)),
    }
}

#[tactic(auto, unfolding(sql_grammar::proofs::Machine::sign))]
pub fn sign(stack: &mut Stack, by: Comparison) -> Result<(), NoMemory>
    ensures { OnOk result (stack_of stack.new ≡ m.sign (comparison_of by) (stack_of stack.old)) }
{
    match stack.pop() {
        Some(Entry::E(right)) => match stack.pop() {
            Some(other) => {
                discard(other);
                stack.push(Entry::RightPart(Right::Compares(by, right)))?;
                Ok(())
            }
            None => {
                discard_expression(right);
                Ok(())
            },
        },
        Some(Entry::Raw(first)) => {
            sign_token(stack, by, first)?;
            Ok(())
        }
        Some(other) => give_up(stack, other),
        None => Ok(()),
    }
}

#[tactic(auto, unfolding(sql_grammar::proofs::Machine::negated))]
fn negated(by: Comparison) -> bool
    ensures { result ≡ m.negated (comparison_of by) }
{
    match by {
        Comparison::Equal => false,
        _ => true,
    }
}

#[tactic(auto, unfolding(sql_grammar::proofs::Machine::joins))]
pub fn joins(stack: &mut Stack, by: Logic) -> Result<(), NoMemory>
    ensures { OnOk result (stack_of stack.new ≡ m.joins (logic_of by) (stack_of stack.old)) }
{
    match stack.pop() {
        Some(Entry::E(right)) => match stack.pop() {
            Some(other) => {
                discard(other);
                stack.push(Entry::RightPart(Right::Joins(by, right)))?;
                Ok(())
            }
            None => {
                discard_expression(right);
                Ok(())
            },
        },
        Some(other) => give_up(stack, other),
        None => Ok(()),
    }
}

#[tactic(auto, unfolding(sql_grammar::proofs::Machine::locking))]
pub fn locking(stack: &mut Stack, mode: LockMode) -> Result<(), NoMemory>
    ensures { OnOk result (stack_of stack.new ≡ m.locking (mode_of mode) (stack_of stack.old)) }
{
    let wait = take_wait(stack)?;
    stack.push(Entry::Locking(mode, wait))?;
    Ok(())
}

#[tactic(auto, unfolding(sql_grammar::proofs::Machine::negate))]
fn negate(right: Right) -> Right
    ensures { right_of result ≡ m.negate (right_of right) }
{
    match right {
        Right::IsNull(_) => Right::IsNull(true),
        Right::IsIn(_, list) => Right::IsIn(true, list),
        Right::IsInQuery(_, q) => Right::IsInQuery(true, q),
        other => other,
    }
}

#[tactic(auto, unfolding(sql_grammar::proofs::Machine::not_of))]
pub fn not_of(alloc: Global, stack: &mut Stack) -> Result<(), NoMemory>
    ensures { OnOk result (stack_of stack.new ≡ m.not_of (stack_of stack.old)) }
{
    match stack.pop() {
        Some(Entry::Row(list)) => {
            let e = Box::new(alloc, first(list))?;
            stack.push(Entry::E(Expression::Not(e)))?;
            Ok(())
        }
        Some(Entry::RightPart(right)) => {
            stack.push(Entry::RightPart(negate(right)))?;
            Ok(())
        }
        Some(other) => give_up(stack, other),
        None => Ok(()),
    }
}

#[tactic(auto, unfolding(sql_grammar::proofs::Machine::only, sql_grammar::proofs::Machine::only_item))]
pub fn only(alloc: Global, stack: &mut Stack) -> Result<(), NoMemory>
    ensures { OnOk result (stack_of stack.new ≡ m.only (stack_of stack.old)) }
{
    match stack.pop() {
        Some(Entry::E(e)) => {
            let names = names_in(alloc, e);
            let source = take_name(true, names, stack)?;
            stack.push(Entry::S(source))?;
            Ok(())
        }
        Some(other) => {
            stack.push(other)?;
            stack.push(Entry::OnlyLast)?;
            Ok(())
        }
        None => {
            stack.push(Entry::OnlyLast)?;
            Ok(())
        }
    }
}

#[tactic(auto, unfolding(sql_grammar::proofs::Machine::alias_as))]
pub fn alias_as(alloc: Global, stack: &mut Stack) -> Result<(), NoMemory>
    ensures { OnOk result (stack_of stack.new ≡ m.alias_as (stack_of stack.old)) }
{
    match stack.pop() {
        Some(Entry::E(e)) => {
            let names = names_in(alloc, e);
            stack.push(Entry::AliasAs(names.into_first()))?;
            Ok(())
        }
        Some(other) => give_up(stack, other),
        None => Ok(()),
    }
}
