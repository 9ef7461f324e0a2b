//! The trait `Sink` over the streams of the process.

ghost use Rattle.std.specs.Prelude.{◌≡◌, None};

use gx_outside::{Failed, Sink};
use std::io::Write;

/// A stream of the process, as its standard output. What was written is unknown to contracts.
/// Faults are counted, and a write that takes nothing of a piece that is not empty is one.
#[derive(Drop)]
pub struct Stream<W: Write + Drop> {
    writer: W,
    faults: u64,
}

impl<W: Write + Drop> Stream<W> {
    /// The stream, before any write.
    pub fn new(writer: W) -> Self
        ensures { result.faults ≡ 0 }
    {
        Stream { writer, faults: 0 }
    }
}

impl<W: Write + Drop> Sink for Stream<W> {
    ghost written = { λ _. None };

    ghost faults = { λ s. s.faults };

    fn write(&mut self, piece: &[u8]) -> Result<usize, Failed> {
        match self.writer.write(piece) {
            Ok(count) if count > 0 || piece.is_empty() => Ok(count),
            _ => {
                self.faults = self.faults.saturating_add(1);
                Err(Failed)
            }
        }
    }
}
