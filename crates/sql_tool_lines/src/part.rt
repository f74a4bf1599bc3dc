ghost use Rattle.std.specs.Prelude.{◌≡◌, ◌↔◌, ◌++◌, IsTrue, List, ℕ, [], OnOk};
ghost use Rattle.sql_tool_lines.specs.inside.Parts.{Holds};

use std::alloc::{AllocError, Global};

/// A line whose end has not come yet: its bytes, or that it has more of them than it may have.
#[derive(Drop)]
pub(crate) struct Part {
    pub(crate) bytes: Vec<u8>,
    pub(crate) is_long: bool,
}

impl Part {
    /// A line with no byte.
    pub(crate) fn new(alloc: Global) -> Part
        ensures { (limit : ℕ) → Holds limit result [] }
    {
        Part {
            bytes: Vec::new(alloc),
            is_long: false,
        }
    }

    /// Whether the line has no byte.
    pub(crate) fn is_empty(&self) -> bool
        ensures { (limit : ℕ) (line : List ℕ) → Holds limit self.now line
            → IsTrue result ↔ (line ≡ []) }
    {
        !self.is_long && self.bytes.is_empty()
    }

    /// The line with more bytes. Of a line that is too long none is kept.
    pub(crate) fn extend(&mut self, piece: &[u8], limit: usize) -> Result<(), AllocError>
        ensures { OnOk result ((line : List ℕ) → Holds limit self.old line
            → Holds limit self.new (line ++ piece.now)) }
    {
        if self.is_long {
            return Ok(());
        }
        if piece.len() > limit.saturating_sub(self.bytes.len()) {
            self.is_long = true;
            return Ok(());
        }
        self.bytes.extend_from_slice(piece)
    }

    /// The next line begins, with no byte.
    pub(crate) fn clear(&mut self)
        ensures { (limit : ℕ) → Holds limit self.new [] }
    {
        self.bytes.clear();
        self.is_long = false;
    }
}
