ghost use Rattle.std.specs.Prelude.{◌≡◌, ◌∷◌, ◌↔◌, List, ℕ, [], None, codes, map, string_bytes, IsTrue};
ghost use Rattle.sql_tool_run.specs.Command.{command_of};
ghost use Rattle.sql_tool_talk.specs.Talk.{ending_of, is_session as is_session_of};

use sql_tool_lines::Stop;
use sql_tool_run::Status;

/// Tells whether the words are the command `session`, which `run` of `sql_tool_run` does not know: that one has all other commands.
pub fn is_session(words: &[String]) -> bool
    ensures told { result ≡ is_session_of (map string_bytes words.now) }
    // These words are no command of `run`.
    ensures apart { command_of (codes "session" ∷ []) ≡ None }
{
    match words {
        [word] => word.as_str() == "session",
        _ => false,
    }
}

/// Returns the status with which the program ends after a conversation.
pub fn ending(end: Result<(), Stop>) -> Status
    ensures { result ≡ ending_of end }
{
    match end {
        Ok(()) => Status::Done,
        Err(Stop::ReadFault) => Status::ReadFault,
        Err(Stop::WriteFault) => Status::WriteFault,
        Err(Stop::NoMemory) => Status::NoMemory,
    }
}
