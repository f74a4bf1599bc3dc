ghost use Rattle.std.specs.Prelude.{◌≡◌, ◌∷◌, OnOk, IfOk, map};
ghost use Rattle.std.specs.Option.{option_map};
ghost use Rattle.sql_grammar.proofs.Machine as m;
ghost use Rattle.sql_read_lexer.specs.View.{keyword_of, token_of};
ghost use Rattle.sql_read_tree.specs.View.{query_tree};
ghost use Rattle.sql_read_machine.specs.View.{stack_of};

use crate::brackets::open_bracket;
use crate::clauses::{
    count, exists, fetch, group_by, having_by, key, limit_by, lock_by, null, offset_by, order_by,
    rows, sampled, seeded, skip, where_by,
};
use crate::discard::discard;
use crate::entry::{Entry, Stack};
use crate::names::{alias_as, comma, dot, in_row, joins, locking, not_of, only, quoted, sign};
use crate::sources::{combines, distinctly, from, join, join_of, on, select};
use sql_dialect::NoMemory;
use sql_read_lexer::{Keyword, Token};
use sql_read_tree::{
    Direction, Expression, JoinKind, LockMode, LockWait, Logic, Query, SampleMethod, SetOperator,
};
use std::alloc::Global;

#[tactic(auto, unfolding(sql_grammar::proofs::Machine::word))]
fn word(alloc: Global, stack: &mut Stack, keyword: Keyword) -> Result<(), NoMemory>
    ensures { OnOk result ((stack_of stack.new)
        ≡ m.word (keyword_of keyword) (stack_of stack.old)) }
{
    match keyword {
        Keyword::Select => select(alloc, stack),
        Keyword::Distinct => distinctly(alloc, stack),
        Keyword::On => on(stack),
        Keyword::From => from(alloc, stack),
        Keyword::Where => where_by(alloc, stack),
        Keyword::Group => group_by(alloc, stack),
        Keyword::By => Ok(()),
        Keyword::Having => having_by(alloc, stack),
        Keyword::Order => order_by(alloc, stack),
        Keyword::Asc => stack.push(Entry::Ordered(Direction::Ascending)),
        Keyword::Desc => stack.push(Entry::Ordered(Direction::Descending)),
        Keyword::Limit => limit_by(alloc, stack),
        Keyword::Offset => offset_by(alloc, stack),
        Keyword::For => lock_by(alloc, stack),
        Keyword::Update => locking(stack, LockMode::ForUpdate),
        Keyword::Share => locking(stack, LockMode::ForShare),
        Keyword::No => Ok(()),
        Keyword::Key => key(stack),
        Keyword::Skip => skip(stack),
        Keyword::Locked => stack.push(Entry::Raw(Token::Word(Keyword::Locked))),
        Keyword::NoWait => stack.push(Entry::Waiting(LockWait::NoWait)),
        Keyword::Union => combines(stack, SetOperator::Union),
        Keyword::Intersect => combines(stack, SetOperator::Intersect),
        Keyword::Except => combines(stack, SetOperator::Except),
        Keyword::All => stack.push(Entry::Raw(Token::Word(Keyword::All))),
        Keyword::As => alias_as(alloc, stack),
        Keyword::Only => only(alloc, stack),
        Keyword::TableSample => Ok(()),
        Keyword::Bernoulli => sampled(stack, SampleMethod::Bernoulli),
        Keyword::System => sampled(stack, SampleMethod::System),
        Keyword::Repeatable => seeded(stack),
        Keyword::Inner => join_of(stack, JoinKind::Inner),
        Keyword::Left => Ok(()),
        Keyword::Outer => join_of(stack, JoinKind::LeftOuter),
        Keyword::Join => join(alloc, stack),
        Keyword::Exists => exists(stack),
        Keyword::And => joins(stack, Logic::And),
        Keyword::Or => joins(stack, Logic::Or),
        Keyword::Not => not_of(alloc, stack),
        Keyword::Is => Ok(()),
        Keyword::Null => null(stack),
        Keyword::Count => count(alloc, stack),
        Keyword::Any => stack.push(Entry::Raw(Token::Word(Keyword::Any))),
        Keyword::In => in_row(stack, false),
        Keyword::Rows => rows(stack),
        Keyword::Fetch => Ok(()),
        Keyword::Next => fetch(stack),
    }
}

#[tactic(auto, unfolding(sql_grammar::proofs::Machine::step))]
fn step(alloc: Global, stack: &mut Stack, token: Token) -> Result<(), NoMemory>
    ensures { OnOk result ((stack_of stack.new) ≡ m.step (token_of token) (stack_of stack.old)) }
{
    match token {
        Token::Quoted(name) => quoted(alloc, stack, name),
        Token::Word(keyword) => word(alloc, stack, keyword),
        Token::Unknown(_) => {
            stack.clear();
            Ok(())
        }
        Token::Number(n) => stack.push(Entry::Raw(Token::Number(n))),
        Token::Mark(mark) => stack.push(Entry::E(Expression::Placeholder(mark))),
        Token::Sign(by) => sign(stack, by),
        Token::Open => open_bracket(alloc, stack),
        Token::Close => stack.push(Entry::Raw(Token::Close)),
        Token::Comma => comma(alloc, stack),
        Token::Dot => dot(alloc, stack),
        Token::Star => stack.push(Entry::Raw(Token::Star)),
        Token::Minus => stack.push(Entry::Raw(Token::Minus)),
    }
}

/// Takes the tokens from the last to the first.
#[tactic(auto, using(crate::proofs::Folds::folds))]
fn fold(alloc: Global, mut tokens: Vec<Token>) -> Result<Stack, NoMemory>
    ensures { IfOk result (λ s. stack_of s ≡ m.fold (map token_of tokens.items)) }
{
    let mut stack = Stack::new(alloc);
    while let Some(token) = tokens.pop() {
        step(alloc, &mut stack, token)?;
    }
    Ok(stack)
}

/// The query that the whole list comes to, if it comes to one.
#[tactic(auto, unfolding(sql_grammar::proofs::Machine::candidate, sql_grammar::proofs::Machine::candidate_of))]
pub fn candidate(alloc: Global, tokens: Vec<Token>) -> Result<Option<Box<Query>>, NoMemory>
    ensures { IfOk result (λ found. option_map (λ q. query_tree q.value) found
        ≡ m.candidate (map token_of tokens.items)) }
{
    let mut stack = fold(alloc, tokens)?;
    match stack.pop() {
        Some(Entry::Q(q)) => match stack.pop() {
            None => Ok(Some(q)),
            Some(other) => {
                discard(Entry::Q(q));
                discard(other);
                Ok(None)
            }
        },
        Some(other) => {
            discard(other);
            Ok(None)
        }
        None => Ok(None),
    }
}
