//! A stream of std of which a signal interrupts the first calls.
ghost use Rattle.std.specs.Prelude.{◌≡◌};

use std::io;
use std::io::{ErrorKind, Read, Write};

/// It reads and writes what is under it, once its first calls were interrupted.
#[derive(Debug, Drop)]
pub struct Interrupted<S: Drop> {
    stream: S,
    interruptions: u32,
}

impl<S: Drop> Interrupted<S> {
    /// A stream over this one. So many calls are interrupted first.
    pub fn new(stream: S, interruptions: u32) -> Interrupted<S> {
        Interrupted {
            stream,
            interruptions,
        }
    }

    // Whether the next call is interrupted.
    fn is_interrupted(&mut self) -> bool
        ensures stream { self.new.stream ≡ self.old.stream }
    {
        let is_next = self.interruptions > 0;
        self.interruptions = self.interruptions.saturating_sub(1);
        is_next
    }
}

impl<R: Read + Drop> Read for Interrupted<R> {
    ghost remaining = { λ s. R.remaining s.stream };

    fn read(&mut self, into: &mut [u8]) -> io::Result<usize> {
        if self.is_interrupted() {
            return Err(ErrorKind::Interrupted.into());
        }
        self.stream.read(into)
    }
}

impl<W: Write + Drop> Write for Interrupted<W> {
    ghost contents = { λ s. W.contents s.stream };

    fn write(&mut self, bytes: &[u8]) -> io::Result<usize> {
        if self.is_interrupted() {
            return Err(ErrorKind::Interrupted.into());
        }
        self.stream.write(bytes)
    }

    fn flush(&mut self) -> io::Result<()> {
        self.stream.flush()
    }
}
