ghost use Rattle.std.specs.Prelude.{◌≡◌, ◌∷◌, ◌++◌, List, ℕ, [], IfOk};
ghost use Rattle.sql_tool_talk.specs.Talk.{answer_text as answer_of, remark_text};

use std::alloc::{AllocError, Global};

/// Why a line, or what is left of its requests, is not answered.
#[derive(Debug, Clone, Copy, PartialEq, Eq)]
pub enum Remark {
    /// The first line is no document, or a later one is none that declares no table.
    BadDocument,
    /// The line has more bytes than it may have.
    TooLarge,
    /// The next request nests too deep: it and those after it are not answered.
    TooDeep,
}

impl Remark {
    /// Returns the line that says it, with its end.
    pub fn line(self) -> &'static str
        ensures { result.now ≡ remark_text self }
    {
        match self {
            Remark::BadDocument => "{\"error\":\"BadDocument\"}\n",
            Remark::TooLarge => "{\"error\":\"TooLarge\"}\n",
            Remark::TooDeep => "{\"error\":\"TooDeep\"}\n",
        }
    }
}

/// What is written for a line of the input: the lines of its requests, the remark where there is one, and an empty line.
pub(crate) fn answer_text(
    alloc: Global,
    lines: &[u8],
    remark: Option<Remark>,
) -> Result<Vec<u8>, AllocError>
    ensures { IfOk result (λ text. text.items ≡ answer_of lines.now remark) }
{
    let mut text = Vec::from_slice(alloc, lines)?;
    if let Some(remark) = remark {
        text.extend_from_slice(remark.line().as_bytes())?;
    }
    text.push(b'\n')?;
    Ok(text)
}
