ghost use Rattle.std.specs.Prelude.{◌≡◌, IfOk, string_bytes};
ghost use Rattle.serde_json.specs.View.{view};
ghost use Rattle.sql_read.specs.Seen.{tree_of};
ghost use Rattle.sql_tool_read.specs.Line.{IsReadingLine, IsReadingObject, refused as refused_data, written as written_data};

use serde_json::{Value as Json, json};
use sql_dialect::Dialect;
use sql_read::{ReadError, Tree, placeholders, read, write};
use std::alloc::{AllocError, Global};

/// The object of a text that is read as this tree: `{"placeholders":1,"sql":"SELECT .."}`.
fn written(alloc: Global, dialect: Dialect, tree: &Tree) -> Result<Json, AllocError>
    ensures { IfOk result (λ v. view v ≡ written_data dialect (tree_of tree.now)) }
{
    let text = write(alloc, dialect, tree)?;
    json!(in alloc; {
        "placeholders": placeholders(tree),
        "sql": text.as_str(),
    })
}

/// The object of a text that has no reading.
fn refused(alloc: Global) -> Result<Json, AllocError>
    ensures { IfOk result (λ v. view v ≡ refused_data) }
{
    json!(in alloc; {"refused": "NotInGrammar"})
}

fn reading_object(alloc: Global, dialect: Dialect, text: &str) -> Result<Json, AllocError>
    ensures { IfOk result (λ v. IsReadingObject dialect text.now (view v)) }
{
    match read(alloc, dialect, text) {
        Ok(tree) => written(alloc, dialect, &tree),
        Err(ReadError::NotInGrammar) => refused(alloc),
        Err(ReadError::NoMemory) => Err(AllocError),
    }
}

/// The line of a text in a dialect: `{"placeholders":1,"sql":"SELECT .."}` with the text that its tree is written as, or
/// `{"refused":"NotInGrammar"}` where it has none.
pub fn reading_line(alloc: Global, dialect: Dialect, text: &str) -> Result<String, AllocError>
    ensures { IfOk result (λ line. IsReadingLine dialect text.now (string_bytes line)) }
{
    let object = reading_object(alloc, dialect, text)?;
    let mut line = object.to_string(alloc)?;
    line.push_str("\n")?;
    Ok(line)
}
