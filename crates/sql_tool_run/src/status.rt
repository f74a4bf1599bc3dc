ghost use Rattle.std.specs.Prelude.{◌≡◌};
ghost use Rattle.sql_tool_run.specs.Status.{code_of, status_text};

/// How a run ends.
#[derive(Debug, Clone, Copy, PartialEq, Eq)]
pub enum Status {
    /// All was written.
    Done,
    /// The words are no command. Nothing was read.
    Usage,
    /// The input is no document, or on `read` no text.
    BadDocument,
    /// The source failed.
    ReadFault,
    /// The sink failed.
    WriteFault,
    NoMemory,
    /// The input has more bytes than it may have.
    TooLarge,
}

impl Status {
    /// The exit status of the process.
    pub fn code(self) -> u8
        ensures { result ≡ code_of self }
    {
        match self {
            Status::Done => 0,
            Status::Usage => 2,
            Status::BadDocument => 3,
            Status::ReadFault => 4,
            Status::WriteFault => 5,
            Status::NoMemory => 6,
            Status::TooLarge => 7,
        }
    }

    /// The word that the process writes to standard error.
    pub fn name(self) -> &'static str
        ensures { result.now ≡ status_text self }
    {
        match self {
            Status::Done => "Done",
            Status::Usage => "Usage",
            Status::BadDocument => "BadDocument",
            Status::ReadFault => "ReadFault",
            Status::WriteFault => "WriteFault",
            Status::NoMemory => "NoMemory",
            Status::TooLarge => "TooLarge",
        }
    }
}
