ghost use Rattle.std.specs.Prelude.{◌≡◌, ◌⊎◌, ◌∷◌, [], Some, IfOk, map, string_bytes, true};
ghost use Rattle.sql_tool_run.specs.Command.{AreWordsOf, IsOutputOf, IsOutputPrefixOf, reads_source};
ghost use Rattle.sql_tool_run.specs.Run.{status_of};
ghost use Rattle.sql_tool_run.specs.declared.status.Status.{Status};

use crate::buffer::Buffer;
use sql_tool_document::dialect_name;
use sql_tool_run::{Command, Status, run};
use sql_tool_stream::SureSource;
use std::alloc::{AllocError, Global};

/// How a command ended, and what it wrote.
#[derive(Drop)]
pub struct Reply {
    pub status: Status,
    pub lines: Vec<u8>,
}

/// An answer with no lines.
fn nothing(alloc: Global, status: Status) -> Reply
    ensures { (result.status ≡ status) × (result.lines.items ≡ []) }
{
    Reply {
        status,
        lines: Vec::new(alloc),
    }
}

fn one_word(alloc: Global, word: &str) -> Result<Vec<String>, AllocError>
    ensures { IfOk result (λ words. map string_bytes words.items ≡ word.now ∷ []) }
{
    let word = String::from_str(alloc, word)?;
    let mut words = Vec::new(alloc);
    words.push(word)?;
    Ok(words)
}

fn two_words(alloc: Global, word: &str, argument: &str) -> Result<Vec<String>, AllocError>
    ensures { IfOk result (λ words. map string_bytes words.items
        ≡ word.now ∷ argument.now ∷ []) }
{
    let word = String::from_str(alloc, word)?;
    let argument = String::from_str(alloc, argument)?;
    let mut words = Vec::new(alloc);
    words.push(word)?;
    words.push(argument)?;
    Ok(words)
}

/// The words of a command that reads its input.
fn words_of(alloc: Global, command: Command) -> Result<Vec<String>, AllocError>
    requires { reads_source command ≡ true }
    ensures { IfOk result (λ words. AreWordsOf command (map string_bytes words.items)) }
{
    match command {
        Command::Build => one_word(alloc, "build"),
        Command::Guard => one_word(alloc, "guard"),
        Command::Tenant => one_word(alloc, "tenant"),
        Command::Read(dialect) => two_words(alloc, "read", dialect_name(dialect)),
        Command::Audit(dialect) => two_words(alloc, "audit", dialect_name(dialect)),
        Command::Generate(_) => unreachable!(),
    }
}

/// Returns the lines that the program writes for a command with these bytes on its input, and the status with which it ends, `NoMemory`
/// where memory runs out. On `NoMemory` these are the lines that were written before that, and on any other status but Done there are none.
#[tactic(auto, using(crate::proofs::Calls::done_output))]
pub fn answer(alloc: Global, command: Command, input: &[u8]) -> Reply
    requires { reads_source command ≡ true }
    ensures output { result.status ≡ Status.Done
        → IsOutputOf command input.now result.lines.items }
    // Out of memory, it is nothing or a prefix of the output.
    ensures partial { result.status ≡ Status.NoMemory → (result.lines.items ≡ [])
        ⊎ IsOutputPrefixOf command input.now result.lines.items }
    ensures nothing { (result.status ≡ Status.Done → ⊥) → (result.status ≡ Status.NoMemory → ⊥)
        → result.lines.items ≡ [] }
    ensures status { (result.status ≡ Status.NoMemory)
        ⊎ (result.status ≡ status_of (Some command) input.now) }
{
    let Ok(words) = words_of(alloc, command) else {
        return nothing(alloc, Status::NoMemory);
    };
    let Ok(bytes) = Vec::from_slice(alloc, input) else {
        return nothing(alloc, Status::NoMemory);
    };
    let mut source = SureSource::new(bytes);
    let mut sink = Buffer::new(alloc);
    match run(alloc, words.as_slice(), &mut source, &mut sink) {
        Status::Done => Reply {
            status: Status::Done,
            lines: sink.into_bytes(),
        },
        Status::BadDocument => nothing(alloc, Status::BadDocument),
        Status::TooLarge => nothing(alloc, Status::TooLarge),
        Status::NoMemory | Status::WriteFault => Reply {
            status: Status::NoMemory,
            lines: sink.into_bytes(),
        },
        Status::Usage | Status::ReadFault => unreachable!(),
    }
}
