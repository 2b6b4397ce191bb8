// Files and sinks of which a number of bytes at most goes over at a time, and whose calls are
// counted.
ghost use Rattle.std.specs.Prelude.{◌≤◌};

use tib_io::{Failed, Files, NotRead, Sink};

/// Files that give, or a sink that takes, at most `most` bytes at a time, and at least one where
/// there is one. It counts the reads or writes, and the calls of `finish`.
#[derive(Drop)]
pub struct Watched<T> {
    inner: T,
    most: usize,
    calls: u64,
    finishes: u64,
    ghost some: { 1 ≤ most },
}

impl<T> Watched<T> {
    /// At least one byte goes over at a time.
    pub fn new(inner: T, most: usize) -> Watched<T> {
        Watched {
            inner,
            most: most.max(1),
            calls: 0,
            finishes: 0,
        }
    }

    /// The files, or the sink, with the number of reads or writes and that of the calls of
    /// `finish`.
    pub fn into_parts(self) -> (T, u64, u64) {
        let Watched {
            inner,
            calls,
            finishes,
            ..
        } = self;
        (inner, calls, finishes)
    }
}

impl<F: Files> Files for Watched<F> {
    ghost held = { λ s. F.held s.inner };

    ghost faults = { λ s. F.faults s.inner };

    ghost sure = { λ s. F.sure s.inner };

    fn read(&mut self, name: &str, at: u64, into: &mut [u8]) -> Result<usize, NotRead> {
        self.calls = self.calls.saturating_add(1);
        let room = into.len().min(self.most);
        self.inner.read(name, at, &mut into[..room])
    }
}

impl<W: Sink> Sink for Watched<W> {
    ghost seen = { λ s. W.seen s.inner };

    fn write(&mut self, piece: &[u8]) -> Result<usize, Failed> {
        self.calls = self.calls.saturating_add(1);
        let count = piece.len().min(self.most);
        self.inner.write(&piece[..count])
    }

    fn finish(&mut self) -> Result<(), Failed> {
        self.finishes = self.finishes.saturating_add(1);
        self.inner.finish()
    }
}
