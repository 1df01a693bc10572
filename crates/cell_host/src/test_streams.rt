// A source and a sink that move few bytes at a time.
ghost use Rattle.std.specs.Prelude.{ℕ, List, Some};

use host_edge::{Failed, MemSink, MemSource, Sink, Source};

/// A source whose first read gives so many bytes at most, and each further read so many.
#[derive(Drop)]
pub(crate) struct Pieces {
    pub(crate) source: MemSource,
    pub(crate) first: usize,
    pub(crate) size: usize,
}

impl Source for Pieces {
    ghost left = { λ s. Some s.source.left };

    ghost taken = { λ s. Some s.source.taken };

    ghost faults = { λ s. s.source.faults };

    fn read(&mut self, into: &mut [u8]) -> Result<usize, Failed> {
        let most = into.len().min(self.first.max(1));
        self.first = self.size;
        self.source.read(&mut into[..most])
    }
}

/// A sink that takes one byte of a piece.
#[derive(Drop)]
pub(crate) struct Drops {
    pub(crate) sink: MemSink,
}

impl Sink for Drops {
    ghost held = { λ s. Some s.sink.held };

    ghost faults = { λ s. s.sink.faults };

    fn write(&mut self, piece: &[u8]) -> Result<usize, Failed> {
        let count = piece.len().min(1);
        self.sink.write(&piece[..count])
    }
}
