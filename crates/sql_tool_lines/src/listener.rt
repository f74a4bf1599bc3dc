ghost use Rattle.std.specs.Prelude.{◌≡◌, ◌≤◌, ◌<◌, ◌∷◌, ℕ, List, [], length, IfOk};
ghost use Rattle.sql_tool_lines.specs.Conversation.{Moves};
ghost use Rattle.sql_tool_lines.specs.declared.listener.Stop.TheVariants.{NoMemory};

use std::alloc::{AllocError, Global};

/// Why a conversation has stopped before its end.
#[derive(Debug, Clone, Copy, PartialEq, Eq)]
pub enum Stop {
    /// A read failed.
    ReadFault,
    /// A write failed.
    WriteFault,
    NoMemory,
}

impl From<AllocError> for Stop {
    ghost from_gives = { λ _ e. e ≡ NoMemory };

    fn from(_: AllocError) -> Stop {
        Stop::NoMemory
    }
}

/// Answers lines, one after the other.
pub trait Listener {
    /// Between these states, these lines are answered by this text.
    ghost Answers: { Self → Self → List (List ℕ) → List ℕ → Type 0 };

    /// How many bytes a line may have.
    ghost LIMIT: { ℕ };

    const LIMIT: usize;

    /// The answer to the next line, which is given without its end.
    fn hear(&mut self, alloc: Global, line: &[u8]) -> Result<Vec<u8>, AllocError>
        requires { length line.now ≤ LIMIT }
        ensures { IfOk result (λ text. Moves Answers self.old self.new (line.now ∷ []) text.items) };

    /// The answer to a line that has more bytes than it may have, of which nothing else is known.
    fn hear_long(&mut self, alloc: Global) -> Result<Vec<u8>, AllocError>
        ensures { IfOk result (λ text. (line : List ℕ) → LIMIT < length line
            → Moves Answers self.old self.new (line ∷ []) text.items) };
}
