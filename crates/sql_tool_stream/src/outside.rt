ghost use Rattle.std.specs.Prelude.{◌≡◌, ◌<◌, ℕ, List, Option, length, min, take, IfOk};
ghost use Rattle.std.specs.Io.{ReadsAtMost, WritesAtMost};
ghost use Rattle.std.specs.Io.KnownBytes.{WriteAppends};
ghost use Rattle.sql_tool_stream.specs.Causes.{HasCause};
ghost use Rattle.sql_tool_stream.specs.Reading.{Reads};

/// How many bytes are read, or of short texts written, at once: a call of the operating system then costs little beside them.
pub(crate) const PIECE: usize = 65536;

/// An object outside has failed, and has counted it.
#[derive(Debug, Clone, Copy, PartialEq, Eq)]
pub struct Failed;

/// Bytes from outside.
pub trait Source {
    /// The bytes left, or None where they are not known. A source that loses bytes when a read fails does not know them
    /// from then on.
    ghost left: { Self → Option (List ℕ) };

    /// A count of faults. It never falls, a call that returns Ok leaves it, and one that fails raises it, by one or more,
    /// or leaves it at its last value, 2^64 - 1.
    ghost faults: { Self → ℕ };

    /// Fills a prefix of the buffer with the next bytes and returns its length. Ok(0) for a buffer that isn't empty is the
    /// end.
    fn read(&mut self, out: &mut [u8]) -> Result<usize, Failed>
        ensures bound { ReadsAtMost result out.new }
        ensures bytes { Reads (left self.old) (left self.new) result out.new }
        ensures cause { HasCause (faults self.old) (faults self.new) result };
}

/// Bytes to outside.
pub trait Sink {
    /// The bytes held, or None where they are not known.
    ghost held: { Self → Option (List ℕ) };

    /// A count of faults. It never falls, a call that returns Ok leaves it, and one that fails raises it, by one or more,
    /// or leaves it at its last value, 2^64 - 1.
    ghost faults: { Self → ℕ };

    /// Takes a prefix of the piece and returns its length, at least one byte of a piece that isn't empty. A call that
    /// fails leaves the bytes held as they were.
    fn write(&mut self, piece: &[u8]) -> Result<usize, Failed>
        ensures bound { WritesAtMost result piece.now }
        ensures some { IfOk result (λ n. 0 < length piece.now → 0 < n) }
        ensures bytes { WriteAppends (held self.old) (held self.new) result piece.now }
        ensures cause { HasCause (faults self.old) (faults self.new) result };
}

/// Copies a prefix of the bytes, at most so many, to the start of the buffer, and returns its length.
pub(crate) fn give(bytes: &[u8], out: &mut [u8], most: usize) -> usize
    ensures count { result ≡ min (min (length bytes.now) (length out.old)) most }
    ensures prefix { take result out.new ≡ take result bytes.now }
{
    let count = bytes.len().min(out.len()).min(most);
    out[..count].copy_from_slice(&bytes[..count]);
    count
}
