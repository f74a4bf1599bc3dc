ghost use Rattle.std.specs.Prelude.{◌≡◌, IfOk, map};
ghost use Rattle.std.specs.Option.{option_map};
ghost use Rattle.sql_grammar.specs.Tokens.{tokens};
ghost use Rattle.sql_read_lexer.specs.View.{token_of};

use crate::state::{End, State, begin, extend, finish};
use crate::token::Token;
use sql_dialect::{Dialect, NoMemory};
use std::alloc::Global;

/// The tokens of a text in a dialect, or none.
#[tactic(auto, unfolding(sql_grammar::specs::Tokens::tokens_from, sql_grammar::specs::Tokens::from_extended, sql_grammar::specs::Tokens::from_begun, sql_grammar::specs::Tokens::put))]
pub fn text_tokens(
    alloc: Global,
    dialect: Dialect,
    text: &str,
) -> Result<Option<Vec<Token>>, NoMemory>
    ensures { IfOk result (λ found. option_map (λ v. map token_of v.items) found
        ≡ tokens dialect text.now) }
{
    let mut out = Vec::new(alloc);
    let mut state = State::Between;
    for byte in text.as_bytes() {
        match extend(alloc, dialect, state, *byte)? {
            Ok(next) => state = next,
            Err(ended) => {
                match finish(ended) {
                    End::Nothing => (),
                    End::Broken => return Ok(None),
                    End::Is(token) => out.push(token)?,
                }
                match begin(alloc, dialect, *byte)? {
                    Some(next) => state = next,
                    None => return Ok(None),
                }
            }
        }
    }
    match finish(state) {
        End::Nothing => Ok(Some(out)),
        End::Broken => Ok(None),
        End::Is(token) => {
            out.push(token)?;
            Ok(Some(out))
        }
    }
}
