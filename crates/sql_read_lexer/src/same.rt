ghost use Rattle.std.specs.Prelude.{◌≡◌, ◌↔◌, IsTrue, map, Some, None};
ghost use Rattle.std.specs.Option.{option_map};
ghost use Rattle.sql_grammar.specs.Token as g;
ghost use Rattle.sql_read_lexer.specs.View.{token_of, keyword_of, comparison_of};

use crate::token::{Comparison, Keyword, Token};

fn same_keyword(a: Keyword, b: Keyword) -> bool
    ensures { IsTrue result ↔ (keyword_of a ≡ keyword_of b) }
{
    a == b
}

#[tactic(auto, using(crate::proofs::Views::comparison_same))]
fn same_comparison(a: Comparison, b: Comparison) -> bool
    ensures { IsTrue result ↔ (comparison_of a ≡ comparison_of b) }
{
    a == b
}

fn same_mark(a: Option<u32>, b: Option<u32>) -> bool
    ensures { IsTrue result ↔ (a ≡ b) }
{
    match a {
        None => match b {
            None => true,
            Some(_) => false,
        },
        Some(n) => match b {
            None => false,
            Some(m) => n == m,
        },
    }
}

fn is_quoted(name: &str, b: &Token) -> bool
    ensures { IsTrue result ↔ (g.Quoted name.now ≡ token_of b.now) }
{
    match b {
        Token::Quoted(other) => name == other.as_str(),
        _ => false,
    }
}

fn is_word(keyword: Keyword, b: &Token) -> bool
    ensures { IsTrue result ↔ (g.Word (keyword_of keyword) ≡ token_of b.now) }
{
    match b {
        Token::Word(other) => same_keyword(keyword, *other),
        _ => false,
    }
}

fn is_unknown(letters: &[u8], b: &Token) -> bool
    ensures { IsTrue result ↔ (g.Unknown letters.now ≡ token_of b.now) }
{
    match b {
        Token::Unknown(other) => letters == other.as_slice(),
        _ => false,
    }
}

fn is_number(digits: &str, b: &Token) -> bool
    ensures { IsTrue result ↔ (g.Number digits.now ≡ token_of b.now) }
{
    match b {
        Token::Number(other) => digits == other.as_str(),
        _ => false,
    }
}

fn is_mark(mark: Option<u32>, b: &Token) -> bool
    ensures { IsTrue result ↔ (g.Mark mark ≡ token_of b.now) }
{
    match b {
        Token::Mark(other) => same_mark(mark, *other),
        _ => false,
    }
}

fn is_sign(by: Comparison, b: &Token) -> bool
    ensures { IsTrue result ↔ (g.Sign (comparison_of by) ≡ token_of b.now) }
{
    match b {
        Token::Sign(other) => same_comparison(by, *other),
        _ => false,
    }
}

fn is_open(b: &Token) -> bool
    ensures { IsTrue result ↔ (g.Open ≡ token_of b.now) }
{
    match b {
        Token::Open => true,
        _ => false,
    }
}

fn is_close(b: &Token) -> bool
    ensures { IsTrue result ↔ (g.Close ≡ token_of b.now) }
{
    match b {
        Token::Close => true,
        _ => false,
    }
}

fn is_comma(b: &Token) -> bool
    ensures { IsTrue result ↔ (g.Comma ≡ token_of b.now) }
{
    match b {
        Token::Comma => true,
        _ => false,
    }
}

fn is_dot(b: &Token) -> bool
    ensures { IsTrue result ↔ (g.Dot ≡ token_of b.now) }
{
    match b {
        Token::Dot => true,
        _ => false,
    }
}

fn is_star(b: &Token) -> bool
    ensures { IsTrue result ↔ (g.Star ≡ token_of b.now) }
{
    match b {
        Token::Star => true,
        _ => false,
    }
}

fn is_minus(b: &Token) -> bool
    ensures { IsTrue result ↔ (g.Minus ≡ token_of b.now) }
{
    match b {
        Token::Minus => true,
        _ => false,
    }
}

pub fn same_token(a: &Token, b: &Token) -> bool
    ensures { IsTrue result ↔ (token_of a.now ≡ token_of b.now) }
{
    match a {
        Token::Quoted(name) => is_quoted(name.as_str(), b),
        Token::Word(keyword) => is_word(*keyword, b),
        Token::Unknown(letters) => is_unknown(letters.as_slice(), b),
        Token::Number(digits) => is_number(digits.as_str(), b),
        Token::Mark(mark) => is_mark(*mark, b),
        Token::Sign(by) => is_sign(*by, b),
        Token::Open => is_open(b),
        Token::Close => is_close(b),
        Token::Comma => is_comma(b),
        Token::Dot => is_dot(b),
        Token::Star => is_star(b),
        Token::Minus => is_minus(b),
    }
}

pub fn same_list(a: &[Token], b: &[Token]) -> bool
    ensures { IsTrue result ↔ (map token_of a.now ≡ map token_of b.now) }
{
    if a.len() != b.len() {
        return false;
    }
    for i in 0..a.len() {
        if !same_token(&a[i], &b[i]) {
            return false;
        }
    }
    true
}

pub fn same_found(a: &Option<Vec<Token>>, b: &Option<Vec<Token>>) -> bool
    ensures { IsTrue result ↔ (option_map (λ v. map token_of v.items) a.now
        ≡ option_map (λ v. map token_of v.items) b.now) }
{
    match a {
        None => match b {
            None => true,
            Some(_) => false,
        },
        Some(x) => match b {
            None => false,
            Some(y) => same_list(x.as_slice(), y.as_slice()),
        },
    }
}
