//! A reader that remembers why its last read failed.

ghost use Rattle.std.specs.Prelude.{◌≡◌, None};
ghost use Rattle.std.specs.Io.{ReadsAtMost};
ghost use Rattle.std.specs.Io.KnownBytes.{ReadConsumes};
ghost use Rattle.snmpsec_io.specs.Causes.{Remembers};

use crate::fault::ReadFault;
use std::io;
use std::io::Read;

/// A reader that passes on what another reads, and remembers why the last read failed.
#[derive(Drop)]
pub struct Watched<R> {
    reader: R,
    fault: Option<ReadFault>,
}

impl<R> Watched<R> {
    /// The reader, of which no read has failed.
    pub fn new(reader: R) -> Watched<R>
        ensures reader { result.reader ≡ reader }
        ensures none { result.fault ≡ None }
    {
        Watched {
            reader,
            fault: None,
        }
    }

    /// Why the last read failed. None if it didn't, or there was none.
    pub fn fault(&self) -> Option<ReadFault>
        ensures { result ≡ self.now.fault }
    {
        self.fault
    }
}

impl<R: Read> Read for Watched<R> {
    ghost remaining = { λ watched. R.remaining watched.reader };

    fn read(&mut self, buf: &mut [u8]) -> io::Result<usize>
        ensures bound { ReadsAtMost result buf.new }
        ensures bytes { ReadConsumes (R.remaining self.old.reader) (R.remaining self.new.reader) result buf.new }
        ensures remembers { Remembers result self.new.fault }
    {
        match self.reader.read(buf) {
            Ok(count) => {
                self.fault = None;
                Ok(count)
            }
            Err(fault) => {
                self.fault = Some(ReadFault::of(&fault));
                Err(fault)
            }
        }
    }
}
