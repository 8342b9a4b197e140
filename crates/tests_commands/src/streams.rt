//! Readers and writers that are interrupted, or fail.

use snmpsec_io::{FileFault, read_whole};
use std::alloc::Global;
use std::io;
use std::io::{ErrorKind, Read, Write};
use std::test::Fail;

/// At which of its calls a reader or a writer is interrupted or fails.
#[derive(Clone, Copy)]
pub(super) struct Calls {
    /// How often each call is interrupted before it does something.
    pub(super) interruptions: u32,
    /// The call that fails, from 0.
    pub(super) failing: Option<u32>,
}

impl Calls {
    pub(super) const GOOD: Calls = Calls {
        interruptions: 0,
        failing: None,
    };

    pub(super) const fn interrupted(interruptions: u32) -> Calls {
        Calls {
            interruptions,
            failing: None,
        }
    }

    pub(super) const fn failing(call: u32) -> Calls {
        Calls {
            interruptions: 0,
            failing: Some(call),
        }
    }
}

/// How far a reader or a writer has come.
#[derive(Clone, Copy)]
struct Progress {
    calls: Calls,
    interrupted: u32,
    done: u32,
}

impl Progress {
    fn new(calls: Calls) -> Progress {
        Progress {
            calls,
            interrupted: 0,
            done: 0,
        }
    }

    /// Returns the error of the next call, if it has one.
    fn next(&mut self) -> io::Result<()> {
        if self.interrupted < self.calls.interruptions {
            self.interrupted += 1;
            return Err(io::Error::from(ErrorKind::Interrupted));
        }
        self.interrupted = 0;
        if self.calls.failing == Some(self.done) {
            return Err(io::Error::from(ErrorKind::BrokenPipe));
        }
        self.done = self.done.saturating_add(1);
        Ok(())
    }
}

/// Gives one octet a read.
#[derive(Drop)]
pub(super) struct Slow<'a> {
    text: &'a [u8],
    progress: Progress,
}

impl<'a> Slow<'a> {
    pub(super) fn new(text: &'a [u8], calls: Calls) -> Slow<'a> {
        Slow {
            text,
            progress: Progress::new(calls),
        }
    }
}

impl Read for Slow<'_> {
    fn read(&mut self, buf: &mut [u8]) -> io::Result<usize> {
        self.progress.next()?;
        match (self.text.split_first(), buf.first_mut()) {
            (Some((octet, rest)), Some(place)) => {
                *place = *octet;
                self.text = rest;
                Ok(1)
            }
            _ => Ok(0),
        }
    }
}

/// Takes at most three octets a write, and compares them with what is to be written.
#[derive(Drop)]
pub(super) struct Choppy<'a> {
    wanted: &'a [u8],
    is_other: bool,
    progress: Progress,
}

impl<'a> Choppy<'a> {
    pub(super) fn new(wanted: &'a [u8], calls: Calls) -> Choppy<'a> {
        Choppy {
            wanted,
            is_other: false,
            progress: Progress::new(calls),
        }
    }

    /// Whether all that is to be written was, and nothing else.
    pub(super) fn has_all(&self) -> bool {
        !self.is_other && self.wanted.is_empty()
    }

    /// Whether the beginning of what is to be written was, and nothing else.
    pub(super) fn has_beginning(&self) -> bool {
        !self.is_other
    }
}

impl Write for Choppy<'_> {
    fn write(&mut self, buf: &[u8]) -> io::Result<usize> {
        self.progress.next()?;
        let most = buf.len().min(3);
        match self.wanted.strip_prefix(&buf[..most]) {
            Some(rest) => self.wanted = rest,
            None => self.is_other = true,
        }
        Ok(most)
    }

    fn flush(&mut self) -> io::Result<()> {
        Ok(())
    }
}

/// Reads a file of six octets, up to a limit, and says whether they were read. Out of memory is an error.
fn is_read(alloc: Global, limit: usize, calls: Calls) -> Result<bool, FileFault> {
    let mut reader = Slow::new(b"clocks", calls);
    match read_whole(alloc, &mut reader, limit) {
        Ok(octets) => Ok(octets.as_slice() == b"clocks".as_slice()),
        Err(FileFault::CannotRead) => Ok(false),
        Err(fault) => Err(fault),
    }
}

#[test]
fn a_file_is_read_whole_up_to_a_limit(rt: HostRuntime) -> Result<(), Fail> {
    let alloc = rt.alloc();
    for interruptions in [0, 1, 999] {
        assert!(rt; is_read(alloc, 6, Calls::interrupted(interruptions))?);
    }
    // Over the limit, interrupted too often, and at each read that fails.
    assert!(rt; !is_read(alloc, 5, Calls::GOOD)?);
    assert!(rt; !is_read(alloc, 6, Calls::interrupted(1000))?);
    for read in 0..7 {
        assert!(rt; !is_read(alloc, 6, Calls::failing(read))?);
    }
    Ok(())
}
