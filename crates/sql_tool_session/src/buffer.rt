ghost use Rattle.std.specs.Prelude.{◌≡◌, Some, []};

use sql_tool_stream::{Failed, Sink};
use std::alloc::Global;

/// A sink over memory that grows. It fails where memory runs out.
#[derive(Drop)]
pub(crate) struct Buffer {
    bytes: Vec<u8>,
    faults: u64,
}

impl Buffer {
    /// An empty buffer, with no failure counted.
    pub(crate) fn new(alloc: Global) -> Buffer
        ensures { (result.bytes.items ≡ []) × (result.faults ≡ 0) }
    {
        Buffer {
            bytes: Vec::new(alloc),
            faults: 0,
        }
    }

    /// Returns the bytes that it has taken.
    pub(crate) fn into_bytes(self) -> Vec<u8>
        ensures { result.items ≡ self.bytes.items }
    {
        self.bytes
    }
}

impl Sink for Buffer {
    ghost held = { λ b. Some b.bytes.items };

    ghost faults = { λ b. b.faults };

    fn write(&mut self, piece: &[u8]) -> Result<usize, Failed> {
        match self.bytes.extend_from_slice(piece) {
            Ok(()) => Ok(piece.len()),
            Err(_) => {
                self.faults = self.faults.saturating_add(1);
                Err(Failed)
            }
        }
    }
}
