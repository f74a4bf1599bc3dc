ghost use Rattle.std.specs.Prelude.{◌≡◌, None};

use crate::outside::{Failed, Sink, Source};
use std::fmt;
use std::io::{Lock, Read, StdinLock, StdoutLock, Write};

/// A reader of std, whose failures are counted. Its bytes are known where the reader's are.
#[derive(Drop)]
pub struct CountedReader<R> {
    inner: R,
    faults: u64,
}

impl<R> fmt::Debug for CountedReader<R> {
    fn fmt<W: fmt::Write>(&self, f: &mut fmt::Formatter<W>) -> fmt::Result {
        f.write_str("CountedReader { .. }")
    }
}

impl<R: Read> CountedReader<R> {
    /// The reader, with no failure counted.
    pub fn over(inner: R) -> CountedReader<R>
        ensures left { ⟦<CountedReader<R> as Source>⟧.left result ≡ R.remaining inner }
        ensures faults { ⟦<CountedReader<R> as Source>⟧.faults result ≡ 0 }
    {
        CountedReader { inner, faults: 0 }
    }
}

/// Standard input. Its bytes are not known.
pub type StdSource = CountedReader<StdinLock<'static>>;

impl CountedReader<StdinLock<'static>> {
    /// Standard input, locked for as long as the value lives, with no failure counted.
    pub fn new(rt: &HostRuntime) -> StdSource
        ensures { ⟦<CountedReader<StdinLock<'static>> as Source>⟧.faults result ≡ 0 }
    {
        CountedReader::over(rt.reader())
    }
}

impl<R: Read> Source for CountedReader<R> {
    ghost left = { λ s. R.remaining s.inner };

    ghost faults = { λ s. s.faults };

    fn read(&mut self, out: &mut [u8]) -> Result<usize, Failed> {
        match self.inner.read(out) {
            Ok(count) => Ok(count),
            Err(_) => {
                self.faults = self.faults.saturating_add(1);
                Err(Failed)
            }
        }
    }
}

/// Standard output, flushed in each write. What it holds is not known.
#[derive(Drop)]
pub struct StdSink {
    inner: StdoutLock<'static>,
    faults: u64,
}

impl fmt::Debug for StdSink {
    fn fmt<W: fmt::Write>(&self, f: &mut fmt::Formatter<W>) -> fmt::Result {
        f.write_str("StdSink { .. }")
    }
}

impl StdSink {
    /// Standard output, locked for as long as the value lives, with no failure counted.
    pub fn new(rt: &HostRuntime) -> StdSink
        ensures { ⟦<StdSink as Sink>⟧.faults result ≡ 0 }
    {
        StdSink {
            inner: rt.stdout().lock(),
            faults: 0,
        }
    }
}

impl Sink for StdSink {
    ghost held = { λ _. None };

    ghost faults = { λ s. s.faults };

    fn write(&mut self, piece: &[u8]) -> Result<usize, Failed> {
        if let Ok(count) = self.inner.write(piece) {
            if (count > 0 || piece.is_empty()) && self.inner.flush().is_ok() {
                return Ok(count);
            }
        }
        self.faults = self.faults.saturating_add(1);
        Err(Failed)
    }
}
