ghost use Rattle.std.specs.Prelude.{◌≡◌, ◌<◌, ◌↔◌, ◌⊎◌, ◌∷◌, [], length, map, slice_index, string_bytes, IsTrue};
ghost use Rattle.sql_tool_run.specs.Command.{command_of, count_of, reads_source};

use sql_dialect::Dialect;
use sql_tool_document::dialect;

/// How many requests `generate` makes at most.
pub const MAX_REQUESTS: u32 = 100000;

/// A command of the program.
#[derive(Debug, Clone, Copy, PartialEq, Eq)]
pub enum Command {
    /// `build`: reads a document, and writes a line for each of its requests.
    Build,
    /// `generate N`: makes N requests of its own, and writes what becomes of them in one line. It reads nothing.
    Generate(u32),
    /// `read D`: reads a text in a dialect, and writes it as its tree is written, in one line.
    Read(Dialect),
    /// `audit D`: reads a schema and texts in a dialect, and writes a line for each text: which tables and columns it uses.
    Audit(Dialect),
    /// `guard`: reads a document with a tenant, and writes a line for each of its requests, restricted to the tenant's rows.
    Guard,
    /// `tenant`: reads a document with policies, and writes a line for each of its requests, guarded by them.
    Tenant,
}

impl Command {
    /// The command that the words are, if they are one.
    pub fn from_words(words: &[String]) -> Option<Command>
        ensures { result ≡ command_of (map string_bytes words.now) }
    {
        match words {
            [word] => Command::from_word(word.as_str()),
            [word, argument] => Command::with_argument(word.as_str(), argument.as_str()),
            _ => None,
        }
    }

    fn from_word(word: &str) -> Option<Command>
        ensures { result ≡ command_of (word.now ∷ []) }
    {
        match word {
            "build" => Some(Command::Build),
            "guard" => Some(Command::Guard),
            "tenant" => Some(Command::Tenant),
            _ => None,
        }
    }

    fn with_argument(word: &str, argument: &str) -> Option<Command>
        ensures { result ≡ command_of (word.now ∷ argument.now ∷ []) }
    {
        match word {
            "generate" => Some(Command::Generate(count(argument)?)),
            "read" => Some(Command::Read(dialect(argument)?)),
            "audit" => Some(Command::Audit(dialect(argument)?)),
            _ => None,
        }
    }

    /// Whether the command reads its source.
    pub fn reads_source(self) -> bool
        ensures { result ≡ reads_source self }
    {
        match self {
            Command::Build
            | Command::Read(_)
            | Command::Audit(_)
            | Command::Guard
            | Command::Tenant => true,
            Command::Generate(_) => false,
        }
    }
}

/// Whether the word begins with a sign, or with a zero before other bytes, as no number is written.
fn is_respelled(word: &str) -> bool
    ensures { IsTrue result ↔ ((slice_index word.now 0 ≡ 43)
        ⊎ ((slice_index word.now 0 ≡ 48) × (1 < length word.now))) }
{
    match word.as_bytes() {
        [b'+', ..] | [b'0', _, ..] => true,
        _ => false,
    }
}

/// The number that the word writes, where it has no sign and no leading zero and is at most `MAX_REQUESTS`.
fn count(word: &str) -> Option<u32>
    ensures { result ≡ count_of word.now }
{
    if is_respelled(word) {
        return None;
    }
    match word.parse() {
        Ok(count) if count <= MAX_REQUESTS => Some(count),
        _ => None,
    }
}
