//! Each public call of the reader and of the crates below it that can answer NoMemory, made once with memory to spare.

use sql_dialect::Dialect;
use sql_read::{read, write};
use sql_read_lexer::{Keyword, Token, text_tokens};
use sql_read_machine::candidate;
use sql_read_tree::Names;
use sql_read_writer::push_query;
use std::alloc::Global;
use std::test::Fail;

/// The text of the query that the tokens are.
fn written(alloc: Global, tokens: Vec<Token>) -> Result<String, Fail> {
    let mut text = String::new(alloc);
    let query = candidate(alloc, tokens)?.ok_or("no query")?;
    let pushed = push_query(alloc, &mut text, Dialect::Pg, &query);
    drop(query);
    pushed?;
    Ok(text)
}

/// The first name of `"users"."id"`.
fn first_name(alloc: Global) -> Result<String, Fail> {
    let mut path = Names::new(alloc, String::from_str(alloc, "id")?);
    path.push_front(String::from_str(alloc, "users")?)?;
    Ok(path.into_first())
}

#[test]
fn every_call_once(rt: HostRuntime) -> Result<(), Fail> {
    let alloc = rt.alloc();
    let tokens = text_tokens(alloc, Dialect::Pg, "SELECT  $7")?.ok_or("no tokens")?;
    assert!(rt;
        matches!(
            tokens.as_slice(),
            [Token::Word(Keyword::Select), Token::Mark(Some(7))]
        )
    );
    assert_eq!(rt; written(alloc, tokens)?.as_str(), "SELECT $7");
    assert_eq!(rt; first_name(alloc)?.as_str(), "users");
    let tree = read(alloc, Dialect::Pg, "SELECT (\"a\".\"x\"=$7)")?;
    let text = write(alloc, Dialect::Pg, &tree)?;
    assert_eq!(rt; text.as_str(), "SELECT (\"a\".\"x\" = $7)");
    Ok(())
}
