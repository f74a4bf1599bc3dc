use sql_dialect::Dialect;
use sql_read::{MAX_DEPTH, ReadError, read, write};
use std::alloc::{AllocError, Global};
use std::test::Fail;

/// `SELECT NOT (NOT (.. ? ..))`, so deep.
fn nested(alloc: Global, depth: usize) -> Result<String, AllocError> {
    let mut text = String::new(alloc);
    text.push_str("SELECT ")?;
    for _ in 0..depth {
        text.push_str("NOT (")?;
    }
    text.push_str("?")?;
    for _ in 0..depth {
        text.push_str(")")?;
    }
    Ok(text)
}

fn is_out_of_memory(alloc: Global, text: &str) -> bool {
    matches!(read(alloc, Dialect::Sqlite, text), Err(ReadError::NoMemory))
}

#[test]
fn deepest_text_is_read(rt: HostRuntime) -> Result<(), Fail> {
    let text = nested(rt.alloc(), MAX_DEPTH)?;
    let tree = read(rt.alloc(), Dialect::Sqlite, text.as_str())?;
    let written = write(rt.alloc(), Dialect::Sqlite, &tree)?;
    assert!(rt; written == text);
    Ok(())
}

#[test]
fn deeper_texts_are_out_of_memory(rt: HostRuntime) -> Result<(), Fail> {
    let text = nested(rt.alloc(), MAX_DEPTH + 1)?;
    assert!(rt; is_out_of_memory(rt.alloc(), text.as_str()));
    Ok(())
}

#[test]
fn brackets_that_stay_open_have_no_reading(rt: HostRuntime) -> Result<(), Fail> {
    let mut text = String::new(rt.alloc());
    for _ in 0..1000000 {
        text.push_str("(")?;
    }
    let answer = read(rt.alloc(), Dialect::Sqlite, text.as_str());
    assert!(rt; matches!(answer, Err(ReadError::NotInGrammar)));
    Ok(())
}
