ghost use Rattle.std.specs.Prelude.{◌≡◌, ◌++◌, ◌∷◌, [], Some, None, IfOk, OnOk, map};
ghost use Rattle.std.specs.Option.{option_map};
ghost use Rattle.sql_grammar.specs.Tokens.{extended, begun, ending};
ghost use Rattle.sql_grammar.specs.Tokens as lex;
ghost use Rattle.sql_read_lexer.specs.View.{token_of};
ghost use Rattle.sql_read_lexer.specs.inside.Cut.{IsText};
ghost use Rattle.sql_read_lexer.specs.inside.States.{state_of, end_of, Found};

use crate::byte::{end_quote, is_digit, is_letter, quote};
use crate::number::{placeholder_number, text};
use crate::token::{Comparison, Token};
use crate::word::word;
use sql_dialect::{Dialect, NoMemory};
use std::alloc::Global;

/// The part of the token at hand that has been read.
#[derive(Drop)]
pub enum State {
    /// No token is at hand.
    Between,
    /// The name so far.
    InName(Vec<u8>),
    /// The same, after a quote that ends the name or is the first of two.
    AfterQuote(Vec<u8>),
    InWord(Vec<u8>),
    InNumber(Vec<u8>),
    /// After `@`.
    AfterAt,
    /// After `$` or `@p`, and the digits so far.
    AfterDollar,
    InPlaceholder(Vec<u8>),
    /// After `!`, `<` and `>`.
    AfterBang,
    AfterLess,
    AfterGreater,
    /// A token that takes no further byte.
    Whole(Token),
}

fn one(alloc: Global, byte: u8) -> Result<Vec<u8>, NoMemory>
    ensures { IfOk result (λ v. v.items ≡ byte ∷ []) }
{
    let mut bytes = Vec::new(alloc);
    bytes.push(byte)?;
    Ok(bytes)
}

/// The state where the byte belongs to the token at hand, else the state as it was.
#[tactic(auto, unfolding(sql_grammar::specs::Tokens::extended))]
pub fn extend(
    alloc: Global,
    dialect: Dialect,
    state: State,
    byte: u8,
) -> Result<Result<State, State>, NoMemory>
    ensures { IfOk result (λ found. Found (extended dialect (state_of state) byte)
        (state_of state) found) }
{
    match state {
        State::Between => Ok(Err(State::Between)),
        State::InName(mut name) => {
            if byte == end_quote(dialect) {
                Ok(Ok(State::AfterQuote(name)))
            } else {
                name.push(byte)?;
                Ok(Ok(State::InName(name)))
            }
        }
        State::AfterQuote(mut name) => {
            if byte == end_quote(dialect) {
                name.push(byte)?;
                Ok(Ok(State::InName(name)))
            } else {
                Ok(Err(State::AfterQuote(name)))
            }
        }
        State::InWord(mut letters) => {
            if is_letter(byte) {
                letters.push(byte)?;
                Ok(Ok(State::InWord(letters)))
            } else {
                Ok(Err(State::InWord(letters)))
            }
        }
        State::InNumber(mut digits) => {
            if is_digit(byte) {
                digits.push(byte)?;
                Ok(Ok(State::InNumber(digits)))
            } else {
                Ok(Err(State::InNumber(digits)))
            }
        }
        State::AfterAt => {
            if byte == 112 {
                Ok(Ok(State::AfterDollar))
            } else {
                Ok(Err(State::AfterAt))
            }
        }
        State::AfterDollar => {
            if is_digit(byte) {
                Ok(Ok(State::InPlaceholder(one(alloc, byte)?)))
            } else {
                Ok(Err(State::AfterDollar))
            }
        }
        State::InPlaceholder(mut digits) => {
            if is_digit(byte) {
                digits.push(byte)?;
                Ok(Ok(State::InPlaceholder(digits)))
            } else {
                Ok(Err(State::InPlaceholder(digits)))
            }
        }
        State::AfterBang => {
            if byte == 61 {
                Ok(Ok(State::Whole(Token::Sign(Comparison::NotEqual))))
            } else {
                Ok(Err(State::AfterBang))
            }
        }
        State::AfterLess => {
            if byte == 61 {
                Ok(Ok(State::Whole(Token::Sign(Comparison::LessOrEqual))))
            } else {
                Ok(Err(State::AfterLess))
            }
        }
        State::AfterGreater => {
            if byte == 61 {
                Ok(Ok(State::Whole(Token::Sign(Comparison::GreaterOrEqual))))
            } else {
                Ok(Err(State::AfterGreater))
            }
        }
        State::Whole(token) => Ok(Err(State::Whole(token))),
    }
}

/// The state that a byte begins which is neither letter nor digit nor sign.
#[tactic(auto, unfolding(sql_grammar::specs::Tokens::begun_name, sql_grammar::specs::Tokens::begun_placeholder))]
fn begin_name(alloc: Global, dialect: Dialect, byte: u8) -> Option<State>
    ensures { option_map state_of result ≡ lex.begun_name dialect byte }
{
    if byte == quote(dialect) {
        return Some(State::InName(Vec::new(alloc)));
    }
    match dialect {
        Dialect::Pg => {
            if byte == 36 {
                Some(State::AfterDollar)
            } else {
                None
            }
        }
        Dialect::Mysql | Dialect::Sqlite => {
            if byte == 63 {
                Some(State::Whole(Token::Mark(None)))
            } else {
                None
            }
        }
        Dialect::Bracket => {
            if byte == 64 {
                Some(State::AfterAt)
            } else {
                None
            }
        }
    }
}

/// The state that a byte begins, where it begins a token or is a space.
#[tactic(auto, unfolding(sql_grammar::specs::Tokens::begun))]
pub fn begin(alloc: Global, dialect: Dialect, byte: u8) -> Result<Option<State>, NoMemory>
    ensures { IfOk result (λ found. option_map state_of found ≡ begun dialect byte) }
{
    if is_letter(byte) {
        return Ok(Some(State::InWord(one(alloc, byte)?)));
    }
    if is_digit(byte) {
        return Ok(Some(State::InNumber(one(alloc, byte)?)));
    }
    if byte == 32 {
        return Ok(Some(State::Between));
    }
    if byte == 40 {
        return Ok(Some(State::Whole(Token::Open)));
    }
    if byte == 41 {
        return Ok(Some(State::Whole(Token::Close)));
    }
    if byte == 44 {
        return Ok(Some(State::Whole(Token::Comma)));
    }
    if byte == 46 {
        return Ok(Some(State::Whole(Token::Dot)));
    }
    if byte == 42 {
        return Ok(Some(State::Whole(Token::Star)));
    }
    if byte == 45 {
        return Ok(Some(State::Whole(Token::Minus)));
    }
    if byte == 61 {
        return Ok(Some(State::Whole(Token::Sign(Comparison::Equal))));
    }
    if byte == 33 {
        return Ok(Some(State::AfterBang));
    }
    if byte == 60 {
        return Ok(Some(State::AfterLess));
    }
    if byte == 62 {
        return Ok(Some(State::AfterGreater));
    }
    Ok(begin_name(alloc, dialect, byte))
}

/// The result of a state where its token ends.
#[derive(Drop)]
pub enum End {
    /// No token was at hand.
    Nothing,
    /// The text has no tokens.
    Broken,
    Is(Token),
}

/// Ends the token at hand, and returns what it is.
#[tactic(auto, unfolding(sql_grammar::specs::Tokens::ending))]
pub fn finish(state: State) -> End
    requires { IsText (state_of state) }
    ensures { end_of result ≡ ending (state_of state) }
{
    match state {
        State::Between => End::Nothing,
        State::InName(_) => End::Broken,
        State::AfterQuote(name) => End::Is(Token::Quoted(text(name))),
        State::InWord(letters) => End::Is(word(letters)),
        State::InNumber(digits) => End::Is(Token::Number(text(digits))),
        State::AfterAt => End::Broken,
        State::AfterDollar => End::Broken,
        State::InPlaceholder(digits) => match placeholder_number(digits.as_slice()) {
            Some(number) => End::Is(Token::Mark(Some(number))),
            None => End::Broken,
        },
        State::AfterBang => End::Broken,
        State::AfterLess => End::Is(Token::Sign(Comparison::Less)),
        State::AfterGreater => End::Is(Token::Sign(Comparison::Greater)),
        State::Whole(token) => End::Is(token),
    }
}
