ghost use Rattle.std.specs.Prelude.{◌≡◌, None};

use crate::peer::Peer;
use sql_tool_stream::{Failed, Sink, Source};

/// A peer whose bytes come from a source and go to a sink. What it has read and written, in order, is not known.
#[derive(Drop)]
pub struct Streams<S, K> {
    source: S,
    sink: K,
}

impl<S: Source, K: Sink> Streams<S, K> {
    /// Joins a source and a sink.
    pub fn new(source: S, sink: K) -> Streams<S, K>
        ensures source { ⟦<Streams<S, K> as Peer>⟧.read_faults result ≡ S.faults source }
        ensures sink { ⟦<Streams<S, K> as Peer>⟧.write_faults result ≡ K.faults sink }
    {
        Streams { source, sink }
    }
}

impl<S: Source, K: Sink> Peer for Streams<S, K> {
    ghost history = { λ _. None };

    ghost read_faults = { λ p. S.faults p.source };

    ghost write_faults = { λ p. K.faults p.sink };

    fn read(&mut self, out: &mut [u8]) -> Result<usize, Failed> {
        self.source.read(out)
    }

    fn write(&mut self, piece: &[u8]) -> Result<usize, Failed> {
        self.sink.write(piece)
    }
}
