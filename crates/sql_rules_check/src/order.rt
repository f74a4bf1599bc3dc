//! Orders that do not begin as DISTINCT ON.
//!
//! Both clauses are read as lists of words, a word for each node of an element, with its standing: over elements, under so
//! many nullables, or within one, at so many nodes from its top. Nullables, lists and items of an order are no words, and
//! neither are the values of a list: they are silent. `nest` is the stack of the nodes that are open, the innermost last. Of `DISTINCT ON ("a", "b" = 1) .. ORDER BY "a", "b" = 2`:
//!
//! ```text
//! DISTINCT ON   a over 0, = over 0, b within 1, value within 1
//! ORDER BY      a over 0, = over 0, b within 1, value within 1
//! ```
//!
//! The words are compared one by one, values left out, until a list ends. Where the longer list goes on within an element,
//! that element is another one.
#![tactic(auto, using(crate::proofs::Wording::wording))]

ghost use Rattle.std.specs.Prelude.{◌≡◌, ◌+◌, ◌<◌, ◌++◌, [], IfOk, OnOk, drop, map, option_map};
ghost use Rattle.std.specs.Bool.{Decides};
ghost use Rattle.sql_schema.specs.Declarations.{Declarations};
ghost use Rattle.sql_dialect.specs.declared.backend.Dialect.{Dialect};
ghost use Rattle.sql_node.specs.Tree.{Statement};
ghost use Rattle.sql_rules.specs.Rules.{Broken};
ghost use Rattle.sql_rules.specs.declared.rule.Rule.TheVariants as rule;
ghost use Rattle.sql_flat_law.specs.Opened.{opens};
ghost use Rattle.sql_flat.specs.Flat.{flat_of};
ghost use Rattle.sql_key.specs.inside.Swept.{is_element as kind_is_element};
ghost use Rattle.sql_rules_check.specs.inside.Ahead.{any_ahead};
ghost use Rattle.sql_rules_check.specs.inside.Walks.{option_list};
ghost use Rattle.sql_rules_check.specs.inside.Words.{begins_inner as begins, below as stands_below, clash, clause_words as words_of_clause, disordered_at, entered, is_clause as kind_is_clause, is_distinct_on as kind_is_distinct_on, is_group as kind_is_group, is_inner as stands_inner, is_nullable as kind_is_nullable, is_order_by as kind_is_order_by, is_ordered as selects_ordered, is_silent as kind_is_silent, same_standing, same_word, standing_in as stands_in, word_at, word_of, words_from};

use crate::shapes::is_same_kind;
use crate::walk::{All, after};
use sql_flat::{Flat, FlatKind, FlatNode, Form, Selecting, Uniqueness};
use sql_flat_law::{Opened, close};
use sql_schema::NoMemory;
use std::alloc::{AllocError, Global};

/// How a node stands in a clause: over elements, under so many nullables, or within one, under so many nodes of it.
#[derive(Clone, Copy)]
pub(crate) enum Standing {
    Over(usize),
    Within(usize),
}

/// A node of an element.
#[derive(Clone, Copy)]
pub(crate) struct Token<'s> {
    pub(crate) kind: &'s FlatKind,
    pub(crate) standing: Standing,
}

/// The clauses that are compared.
#[derive(Clone, Copy)]
pub(crate) enum Clause {
    Distinct,
    Order,
}

fn is_nullable(kind: &FlatKind) -> bool
    ensures { result ≡ kind_is_nullable kind.now }
{
    match kind {
        FlatKind::Nullable => true,
        _ => false,
    }
}

/// A list, or an item of an order.
fn is_group(kind: &FlatKind) -> bool
    ensures { result ≡ kind_is_group kind.now }
{
    match kind {
        FlatKind::List => true,
        FlatKind::Item(_) => true,
        _ => false,
    }
}

fn is_element(kind: &FlatKind) -> bool
    ensures { result ≡ kind_is_element kind.now }
{
    match kind {
        FlatKind::Element(_, _) => true,
        _ => false,
    }
}

fn one_more(count: usize) -> Result<usize, NoMemory>
    ensures { IfOk result (λ n. n ≡ count + 1) }
{
    let more = count.checked_add(1).ok_or(AllocError)?;
    Ok(more)
}

/// How the children of a node stand.
fn below(standing: Standing, kind: &FlatKind) -> Result<Standing, NoMemory>
    ensures { IfOk result (λ s. s ≡ stands_below standing kind.now) }
{
    match standing {
        Standing::Over(nullables) => {
            if is_nullable(kind) {
                return Ok(Standing::Over(one_more(nullables)?));
            }
            if is_group(kind) {
                return Ok(Standing::Over(nullables));
            }
            Ok(Standing::Within(1))
        }
        Standing::Within(depth) => {
            if is_element(kind) {
                return Ok(Standing::Within(depth));
            }
            Ok(Standing::Within(one_more(depth)?))
        }
    }
}

/// Whether a node is no word: it stands over elements, or it is a value of a list.
fn is_silent(standing: Standing, kind: &FlatKind) -> bool
    ensures { result ≡ kind_is_silent standing kind.now }
{
    match standing {
        Standing::Over(_) => is_nullable(kind) || is_group(kind),
        Standing::Within(_) => is_element(kind),
    }
}

/// How the node stands that comes next.
fn standing_in(nest: &[Opened<Standing>]) -> Standing
    ensures { result ≡ stands_in (opens nest.now) }
{
    match nest.last() {
        None => Standing::Over(0),
        Some(innermost) => innermost.known,
    }
}

fn enter(
    node: &FlatNode,
    standing: Standing,
    nest: &mut Vec<Opened<Standing>>,
) -> Result<(), NoMemory>
    ensures { standing ≡ stands_in (opens nest.old.items)
        → OnOk result (opens nest.new.items ≡ entered node.now (opens nest.old.items)) }
{
    let known = below(standing, &node.kind)?;
    let end = node.end;
    nest.push(Opened { end, known })?;
    Ok(())
}

fn add_word<'s>(
    standing: Standing,
    kind: &'s FlatKind,
    all: &mut Vec<Token<'s>>,
) -> Result<(), NoMemory>
    ensures { OnOk result
        (map word_of all.new.items ≡ map word_of all.old.items ++ word_at standing kind.now) }
{
    if is_silent(standing, kind) {
        return Ok(());
    }
    all.push(Token { kind, standing })?;
    Ok(())
}

/// The words from one index to another.
fn words<'s>(
    alloc: Global,
    nodes: &'s [FlatNode],
    from: usize,
    end: usize,
) -> Result<Vec<Token<'s>>, NoMemory>
    ensures { IfOk result (λ v. map word_of v.items ≡ words_from [] end from (drop from nodes.now)) }
{
    let mut all = Vec::new(alloc);
    let mut nest = Vec::new(alloc);
    let mut index = from;
    while index < end && index < nodes.len() {
        let node = &nodes[index];
        close(&mut nest, index);
        let standing = standing_in(nest.as_slice());
        add_word(standing, &node.kind, &mut all)?;
        enter(node, standing, &mut nest)?;
        index += 1;
    }
    Ok(all)
}

fn is_distinct_on(kind: &FlatKind) -> bool
    ensures { result ≡ kind_is_distinct_on kind.now }
{
    match kind {
        FlatKind::DistinctOn => true,
        _ => false,
    }
}

fn is_order_by(kind: &FlatKind) -> bool
    ensures { result ≡ kind_is_order_by kind.now }
{
    match kind {
        FlatKind::OrderBy => true,
        _ => false,
    }
}

fn is_clause(clause: Clause, kind: &FlatKind) -> bool
    ensures { result ≡ kind_is_clause clause kind.now }
{
    match clause {
        Clause::Distinct => is_distinct_on(kind),
        Clause::Order => is_order_by(kind),
    }
}

/// The words of the clause that stands from one index to another; none where there is no such clause.
fn clause_words<'s>(
    alloc: Global,
    clause: Clause,
    nodes: &'s [FlatNode],
    from: usize,
    end: usize,
) -> Result<Vec<Token<'s>>, NoMemory>
    ensures { IfOk result (λ v. map word_of v.items
        ≡ words_of_clause (kind_is_clause clause) end from nodes.now) }
{
    let mut index = from;
    while index < end && index < nodes.len() {
        let node = &nodes[index];
        if is_clause(clause, &node.kind) {
            return words(alloc, nodes, index + 1, node.end);
        }
        index = after::<All>(index, node);
    }
    Ok(Vec::new(alloc))
}

fn is_same_standing(one: Standing, other: Standing) -> bool
    ensures { result ≡ same_standing one other }
{
    match (one, other) {
        (Standing::Over(n), Standing::Over(m)) => n == m,
        (Standing::Over(_), Standing::Within(_)) => false,
        (Standing::Within(_), Standing::Over(_)) => false,
        (Standing::Within(c), Standing::Within(d)) => c == d,
    }
}

fn is_same_word(alloc: Global, one: Token<'_>, other: Token<'_>) -> Result<bool, NoMemory>
    ensures { IfOk result (λ b. b ≡ same_word (word_of one.entry) (word_of other.entry)) }
{
    if !is_same_standing(one.standing, other.standing) {
        return Ok(false);
    }
    is_same_kind(alloc, one.kind, other.kind)
}

fn is_inner(standing: Standing) -> bool
    ensures { result ≡ stands_inner standing }
{
    match standing {
        Standing::Over(_) => false,
        Standing::Within(_) => true,
    }
}

fn begins_inner(words: &[Token<'_>], index: usize) -> bool
    ensures { result ≡ begins (map word_of (drop index words.now)) }
{
    if index < words.len() {
        return is_inner(words[index].standing);
    }
    false
}

/// Whether an element of the one differs from that at its index in the other.
fn do_differ(alloc: Global, ones: &[Token<'_>], others: &[Token<'_>]) -> Result<bool, NoMemory>
    ensures { IfOk result (λ b. b ≡ clash (map word_of ones.now) (map word_of others.now)) }
{
    let mut index = 0;
    while index < ones.len() && index < others.len() {
        if !is_same_word(alloc, ones[index], others[index])? {
            return Ok(true);
        }
        index += 1;
    }
    Ok(begins_inner(ones, index) || begins_inner(others, index))
}

/// Whether a select statement is not boxed and has DISTINCT ON.
fn is_ordered(select: &Selecting) -> bool
    ensures { result ≡ selects_ordered select.now }
{
    match (select.form, select.unique) {
        (Form::Unboxed(_), Uniqueness::DistinctOn) => true,
        _ => false,
    }
}

fn is_disordered(
    alloc: Global,
    nodes: &[FlatNode],
    index: usize,
    node: &FlatNode,
) -> Result<bool, NoMemory>
    requires { index < 18446744073709551615 }
    ensures { IfOk result (λ b. b ≡ disordered_at index node.now (drop (index + 1) nodes.now)) }
{
    match &node.kind {
        FlatKind::Select(select) => {
            if !is_ordered(select) {
                return Ok(false);
            }
            let ones = clause_words(alloc, Clause::Distinct, nodes, index + 1, node.end)?;
            let others = clause_words(alloc, Clause::Order, nodes, index + 1, node.end)?;
            do_differ(alloc, ones.as_slice(), others.as_slice())
        }
        _ => Ok(false),
    }
}

fn any_disordered(alloc: Global, nodes: &[FlatNode]) -> Result<bool, NoMemory>
    ensures { IfOk result (λ b. b ≡ any_ahead disordered_at 0 nodes.now) }
{
    for (index, node) in nodes.iter().enumerate() {
        if is_disordered(alloc, nodes, index, node)? {
            return Ok(true);
        }
    }
    Ok(false)
}

/// Whether an item of an order is not the expression of DISTINCT ON at its index, in the statement whose flat list this
/// is: `SELECT DISTINCT ON ("a") .. ORDER BY "b"`. Values and the lengths of lists of values don't count, and a boxed
/// statement is not looked at. Beside one pass over all nodes, it reads these two clauses of each select statement that
/// has DISTINCT ON. Fails only for memory.
pub(crate) fn is_flat_order_invalid(alloc: Global, flat: &Flat) -> Result<bool, NoMemory>
    ensures { (s : Statement) → flat.now ≡ flat_of s → (schema : Declarations) (d : Dialect)
        → IfOk result (λ b. Decides b (Broken rule.InvalidDistinctOrder schema d s)) }
{
    any_disordered(alloc, flat.nodes())
}
