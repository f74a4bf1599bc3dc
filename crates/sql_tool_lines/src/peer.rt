ghost use Rattle.std.specs.Prelude.{◌≡◌, ◌<◌, ℕ, List, Option, length, IfOk};
ghost use Rattle.std.specs.Io.{ReadsAtMost, WritesAtMost};
ghost use Rattle.sql_tool_stream.specs.Causes.{HasCause};
ghost use Rattle.sql_tool_lines.specs.Turns.{Event, Reads, Writes};

use sql_tool_stream::Failed;

/// Whom a conversation is with: bytes come from it, and bytes go to it.
pub trait Peer {
    /// What was read and written so far, in order, or None where that is not known.
    ghost history: { Self → Option (List Event) };

    /// A count of the reads that failed. It never falls, and a read that fails raises it, or leaves it at its last value, 2^64 - 1.
    ghost read_faults: { Self → ℕ };

    /// The same of writes.
    ghost write_faults: { Self → ℕ };

    /// Fills a prefix of the buffer with the next bytes, as soon as there are some, and returns its length. Ok(0) for a buffer that isn't
    /// empty is the end.
    fn read(&mut self, out: &mut [u8]) -> Result<usize, Failed>
        ensures bound { ReadsAtMost result out.new }
        ensures history { Reads (history self.old) (history self.new) result out.new }
        ensures cause { HasCause (read_faults self.old) (read_faults self.new) result }
        ensures other { write_faults self.new ≡ write_faults self.old };

    /// Takes a prefix of the piece, passes it on at once, and returns its length, at least one byte of a piece that isn't empty. A call that
    /// fails has passed on nothing.
    fn write(&mut self, piece: &[u8]) -> Result<usize, Failed>
        ensures bound { WritesAtMost result piece.now }
        ensures some { IfOk result (λ n. 0 < length piece.now → 0 < n) }
        ensures history { Writes (history self.old) (history self.new) result piece.now }
        ensures cause { HasCause (write_faults self.old) (write_faults self.new) result }
        ensures other { read_faults self.new ≡ read_faults self.old };
}
