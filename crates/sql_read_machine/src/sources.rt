ghost use Rattle.std.specs.Prelude.{◌≡◌, ◌∷◌, [], OnOk, IfOk, IfSome, false};
ghost use Rattle.std.specs.Option.{option_map};
ghost use Rattle.sql_grammar.proofs.Machine as m;
ghost use Rattle.sql_grammar.specs.MarkTree as t;
ghost use Rattle.sql_read_tree.specs.View.{kind_of, operator_of, expression_tree, source_tree, distinctness_tree, query_tree};
ghost use Rattle.sql_read_machine.specs.View.{stack_of, items_seen, Took};

use crate::discard::{discard, discard_expression, discard_source, give_up};
use crate::entry::{Clauses, Entry, Items, Right, Stack};
use crate::list::{expressions, first, group, order};
use crate::parts::{take_clauses, take_items, take_name};
use sql_dialect::NoMemory;
use sql_read_tree::{
    Distinctness, Expression, JoinKind, Names, Query, Sample, SetOperator, Source, names_in,
    query_in,
};
use std::alloc::Global;

/// The source at the top, with what stands after it.
#[tactic(auto, unfolding(sql_grammar::proofs::Machine::source_of))]
fn take_source(alloc: Global, stack: &mut Stack) -> Result<Source, NoMemory>
    ensures { IfOk result (λ s. Took (m.source_of (stack_of stack.old)) (source_tree s)
        (stack_of stack.new)) }
{
    match stack.pop() {
        Some(Entry::S(source)) => Ok(source),
        Some(Entry::E(e)) => {
            let names = names_in(alloc, e);
            let source = take_name(false, names, stack)?;
            Ok(source)
        }
        Some(other) => {
            stack.push(other)?;
            Ok(nothing(alloc))
        }
        None => Ok(nothing(alloc)),
    }
}

fn nothing(alloc: Global) -> Source
    ensures { source_tree result ≡ t.Table [] [] false t.Whole }
{
    Source::Table(Names::new(alloc, String::new(alloc)), false, Sample::Whole)
}

#[tactic(auto, unfolding(sql_grammar::proofs::Machine::join, sql_grammar::proofs::Machine::join_with))]
pub fn join(alloc: Global, stack: &mut Stack) -> Result<(), NoMemory>
    ensures { OnOk result (stack_of stack.new ≡ m.join (stack_of stack.old)) }
{
    let source = take_source(alloc, stack)?;
    join_on(stack, source)?;
    Ok(())
}

#[tactic(auto, unfolding(sql_grammar::proofs::Machine::join_on))]
fn join_on(stack: &mut Stack, source: Source) -> Result<(), NoMemory>
    ensures { OnOk result (stack_of stack.new
        ≡ m.join_on (source_tree source) (stack_of stack.old)) }
{
    match stack.pop() {
        Some(Entry::OnExpression(e)) => {
            stack.push(Entry::JoinTo(source, e))?;
            Ok(())
        }
        Some(other) => {
            discard_source(source);
            give_up(stack, other)
        }
        None => {
            discard_source(source);
            Ok(())
        }
    }
}

#[tactic(auto, unfolding(sql_grammar::proofs::Machine::join_of))]
pub fn join_of(stack: &mut Stack, kind: JoinKind) -> Result<(), NoMemory>
    ensures { OnOk result (stack_of stack.new ≡ m.join_of (kind_of kind) (stack_of stack.old)) }
{
    match stack.pop() {
        Some(Entry::JoinTo(source, e)) => {
            stack.push(Entry::RightPart(Right::JoinsTo(kind, source, e)))?;
            Ok(())
        }
        Some(other) => give_up(stack, other),
        None => Ok(()),
    }
}

#[tactic(auto, unfolding(sql_grammar::proofs::Machine::from_source))]
fn put_source(alloc: Global, stack: &mut Stack, source: Source) -> Result<(), NoMemory>
    ensures { OnOk result (stack_of stack.new
        ≡ m.from_source (source_tree source, stack_of stack.old)) }
{
    let mut clauses = take_clauses(alloc, stack)?;
    clauses.source = Some(source);
    stack.push(Entry::Tail(Box::new(alloc, clauses)?))?;
    Ok(())
}

fn from_table(alloc: Global, stack: &mut Stack, e: Expression) -> Result<(), NoMemory>
    ensures { OnOk result (stack_of stack.new ≡ m.from_source
        (m.after_name false (m.name_in (expression_tree e)) (m.names_in (expression_tree e))
        (stack_of stack.old))) }
{
    let names = names_in(alloc, e);
    let source = take_name(false, names, stack)?;
    put_source(alloc, stack, source)?;
    Ok(())
}

fn from_query(stack: &mut Stack, q: Option<Box<Query>>) -> Result<(), NoMemory>
    ensures { IfSome (option_map (λ q. query_tree q.value) q) (λ t. OnOk result
        (stack_of stack.new ≡ m.FromQuery t ∷ stack_of stack.old)) }
{
    match q {
        Some(q) => {
            stack.push(Entry::FromQuery(q))?;
            Ok(())
        }
        None => Ok(()),
    }
}

#[tactic(auto, unfolding(sql_grammar::proofs::Machine::from_expression, sql_grammar::proofs::Machine::query_in))]
fn from_expression(alloc: Global, stack: &mut Stack, e: Expression) -> Result<(), NoMemory>
    ensures { OnOk result (stack_of stack.new
        ≡ m.from_expression (expression_tree e) (stack_of stack.old)) }
{
    match &e {
        Expression::SingleValue(_) => from_query(stack, query_in(e)),
        Expression::Path(_)
        | Expression::Placeholder(_)
        | Expression::Exists(_)
        | Expression::Compared(_, _, _)
        | Expression::Connected(_, _, _)
        | Expression::Not(_)
        | Expression::NullTest(_, _)
        | Expression::CountAll
        | Expression::Count(_)
        | Expression::InList(_, _, _, _)
        | Expression::InQuery(_, _, _)
        | Expression::Constant(_) => from_table(alloc, stack, e),
    }
}

#[tactic(auto, unfolding(sql_grammar::proofs::Machine::from))]
pub fn from(alloc: Global, stack: &mut Stack) -> Result<(), NoMemory>
    ensures { OnOk result (stack_of stack.new ≡ m.from (stack_of stack.old)) }
{
    match stack.pop() {
        Some(Entry::E(e)) => {
            from_expression(alloc, stack, e)?;
            Ok(())
        }
        Some(Entry::S(source)) => {
            put_source(alloc, stack, source)?;
            Ok(())
        }
        Some(Entry::Q(q)) => {
            stack.push(Entry::Q(q))?;
            Ok(())
        }
        Some(other) => give_up(stack, other),
        None => Ok(()),
    }
}

#[tactic(auto, unfolding(sql_grammar::proofs::Machine::on))]
pub fn on(stack: &mut Stack) -> Result<(), NoMemory>
    ensures { OnOk result (stack_of stack.new ≡ m.on (stack_of stack.old)) }
{
    match stack.pop() {
        Some(Entry::E(e)) => match stack.pop() {
            Some(other) => {
                discard(other);
                stack.push(Entry::OnExpression(e))?;
                Ok(())
            }
            None => {
                discard_expression(e);
                Ok(())
            },
        },
        Some(Entry::Row(list)) => {
            stack.push(Entry::OnRow(list))?;
            Ok(())
        }
        Some(other) => give_up(stack, other),
        None => Ok(()),
    }
}

#[tactic(auto, unfolding(sql_grammar::proofs::Machine::distinctly))]
pub fn distinctly(alloc: Global, stack: &mut Stack) -> Result<(), NoMemory>
    ensures { OnOk result (stack_of stack.new ≡ m.distinctly (stack_of stack.old)) }
{
    match stack.pop() {
        Some(Entry::OnRow(list)) => {
            let (first, others) = expressions(alloc, list)?;
            let first = Box::new(alloc, first)?;
            stack.push(Entry::Distinctly(Distinctness::DistinctOn(first, others)))?;
            Ok(())
        }
        Some(other) => {
            stack.push(other)?;
            stack.push(Entry::Distinctly(Distinctness::Distinct))?;
            Ok(())
        }
        None => {
            stack.push(Entry::Distinctly(Distinctness::Distinct))?;
            Ok(())
        }
    }
}

#[tactic(auto, unfolding(sql_grammar::proofs::Machine::select_list))]
fn select_list(
    alloc: Global,
    stack: &mut Stack,
    u: Distinctness,
    list: Items,
) -> Result<(), NoMemory>
    ensures { OnOk result (stack_of stack.new
        ≡ m.select_list (distinctness_tree u) (items_seen list, stack_of stack.old)) }
{
    let c = take_clauses(alloc, stack)?;
    let (first, others) = expressions(alloc, list)?;
    let first = Box::new(alloc, first)?;
    let Clauses {
        source,
        filter,
        group,
        having,
        order,
        places: _,
        page,
        lock,
    } = c;
    let q = Query::Select(
        u, first, others, source, filter, group, having, order, page, lock,
    );
    stack.push(Entry::Q(Box::new(alloc, q)?))?;
    Ok(())
}

#[tactic(auto, unfolding(sql_grammar::proofs::Machine::select_from))]
fn select_first(
    alloc: Global,
    stack: &mut Stack,
    u: Distinctness,
    e: Expression,
) -> Result<(), NoMemory>
    ensures { OnOk result (stack_of stack.new
        ≡ m.select_from (distinctness_tree u) (m.E (expression_tree e) ∷ stack_of stack.old)) }
{
    let items = take_items(alloc, e, stack)?;
    select_list(alloc, stack, u, items)?;
    Ok(())
}

#[tactic(auto, unfolding(sql_grammar::proofs::Machine::select_from))]
fn select_from(alloc: Global, stack: &mut Stack, u: Distinctness) -> Result<(), NoMemory>
    ensures { OnOk result (stack_of stack.new
        ≡ m.select_from (distinctness_tree u) (stack_of stack.old)) }
{
    match stack.pop() {
        Some(Entry::E(e)) => {
            select_first(alloc, stack, u, e)?;
            Ok(())
        }
        Some(other) => {
            discard(Entry::Distinctly(u));
            give_up(stack, other)
        }
        None => {
            discard(Entry::Distinctly(u));
            Ok(())
        }
    }
}

#[tactic(auto, unfolding(sql_grammar::proofs::Machine::select))]
pub fn select(alloc: Global, stack: &mut Stack) -> Result<(), NoMemory>
    ensures { OnOk result (stack_of stack.new ≡ m.select (stack_of stack.old)) }
{
    match stack.pop() {
        Some(Entry::Distinctly(u)) => {
            select_from(alloc, stack, u)?;
            Ok(())
        }
        Some(Entry::Raw(first)) => {
            discard(Entry::Raw(first));
            select_star(stack)?;
            Ok(())
        }
        Some(Entry::E(e)) => {
            select_first(alloc, stack, Distinctness::Every, e)?;
            Ok(())
        }
        Some(other) => give_up(stack, other),
        None => Ok(()),
    }
}

#[tactic(auto, unfolding(sql_grammar::proofs::Machine::select_star))]
fn select_star(stack: &mut Stack) -> Result<(), NoMemory>
    ensures { OnOk result (stack_of stack.new ≡ m.select_star (stack_of stack.old)) }
{
    match stack.pop() {
        Some(Entry::FromQuery(q)) => {
            stack.push(Entry::Side(q))?;
            Ok(())
        }
        Some(Entry::Q(q)) => {
            stack.push(Entry::Q(q))?;
            Ok(())
        }
        Some(other) => give_up(stack, other),
        None => Ok(()),
    }
}

#[tactic(auto, using(crate::proofs::Sides::sides))]
fn side_query(stack: &mut Stack, by: SetOperator, all: bool, e: Expression) -> Result<(), NoMemory>
    ensures { OnOk result (stack_of stack.new
        ≡ m.all_or_not (operator_of by) all (m.E (expression_tree e) ∷ stack_of stack.old)) }
{
    match query_in(e) {
        Some(q) => {
            stack.push(Entry::Combines(by, all, q))?;
            Ok(())
        }
        None => {
            stack.clear();
            Ok(())
        }
    }
}

#[tactic(auto, unfolding(sql_grammar::proofs::Machine::all_or_not))]
fn all_or_not(stack: &mut Stack, by: SetOperator, all: bool) -> Result<(), NoMemory>
    ensures { OnOk result (stack_of stack.new
        ≡ m.all_or_not (operator_of by) all (stack_of stack.old)) }
{
    match stack.pop() {
        Some(Entry::Side(q)) => {
            stack.push(Entry::Combines(by, all, q))?;
            Ok(())
        }
        Some(Entry::E(e)) => {
            side_query(stack, by, all, e)?;
            Ok(())
        }
        Some(other) => give_up(stack, other),
        None => Ok(()),
    }
}

#[tactic(auto, unfolding(sql_grammar::proofs::Machine::combines))]
pub fn combines(stack: &mut Stack, by: SetOperator) -> Result<(), NoMemory>
    ensures { OnOk result (stack_of stack.new ≡ m.combines (operator_of by) (stack_of stack.old)) }
{
    match stack.pop() {
        Some(Entry::Raw(first)) => {
            discard(Entry::Raw(first));
            all_or_not(stack, by, true)?;
            Ok(())
        }
        Some(other) => {
            stack.push(other)?;
            all_or_not(stack, by, false)?;
            Ok(())
        }
        None => {
            all_or_not(stack, by, false)?;
            Ok(())
        }
    }
}
