//! Standard output, which may be a pipe that nobody reads any more.

ghost use Rattle.std.specs.Prelude.{◌≡◌, false};

use std::io;
use std::io::{ErrorKind, Write};

/// A writer that passes on what it is given, and remembers that its reader has gone.
#[derive(Drop)]
pub struct Piped<W> {
    writer: W,
    is_closed: bool,
}

impl<W> Piped<W> {
    /// The writer, of which no write has failed.
    pub fn new(writer: W) -> Piped<W>
        ensures writer { result.writer ≡ writer }
        ensures open { result.is_closed ≡ false }
    {
        Piped {
            writer,
            is_closed: false,
        }
    }

    /// The writer is a pipe, and a write failed since its reader has gone.
    pub fn is_closed(&self) -> bool
        ensures { result ≡ self.now.is_closed }
    {
        self.is_closed
    }
}

/// What is written is what the writer was given.
impl<W: Write> Write for Piped<W> {
    ghost contents = { λ piped. W.contents piped.writer };

    fn write(&mut self, buf: &[u8]) -> io::Result<usize> {
        match self.writer.write(buf) {
            Ok(count) => Ok(count),
            Err(fault) => {
                self.is_closed = fault.kind() == ErrorKind::BrokenPipe;
                Err(fault)
            }
        }
    }

    fn flush(&mut self) -> io::Result<()> {
        self.writer.flush()
    }
}
