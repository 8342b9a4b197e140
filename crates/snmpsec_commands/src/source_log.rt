//! What is printed of a file of datagrams, which may end with a line that refuses the file.

ghost use Rattle.std.specs.Prelude.{◌≡◌, None};

use std::alloc::{AllocError, Global};
use std::io::Write;
use std::{fmt, io};

/// How a line begins that refuses a file.
const REFUSED: &str = "refused datagrams ";

/// Where a file is out of its form.
#[derive(Clone, Copy, Debug, PartialEq, Eq)]
pub enum FaultPlace {
    /// At this octet of a capture, from 0.
    Octet(u64),
    /// In this line, from 1.
    Line(u64),
    /// In this line at this column, both from 1.
    Column { line: u64, column: u64 },
}

impl fmt::Display for FaultPlace {
    fn fmt<W: fmt::Write>(&self, f: &mut fmt::Formatter<W>) -> fmt::Result {
        match self {
            FaultPlace::Octet(octet) => write!(f, "octet {octet}"),
            FaultPlace::Line(line) => write!(f, "line {line}"),
            FaultPlace::Column { line, column } => write!(f, "line {line} column {column}"),
        }
    }
}

/// What becomes of the line that refuses the file.
#[derive(Clone, Copy, Debug, PartialEq, Eq)]
pub enum RefusalLine {
    /// It is written as it is.
    Kept,
    /// It isn't written.
    LeftOut,
}

/// A log of what is printed of the file of this name, and where the file is refused, if it is. Each write gives it a
/// whole text.
#[derive(Drop)]
pub struct SourceLog<'a, W> {
    alloc: Global,
    name: &'a str,
    refusal: RefusalLine,
    place: Option<FaultPlace>,
    log: &'a mut W,
}

impl<'a, W> SourceLog<'a, W> {
    /// The texts go into this log.
    pub fn new(
        alloc: Global,
        name: &'a str,
        refusal: RefusalLine,
        log: &'a mut W,
    ) -> SourceLog<'a, W>
        ensures { result.place ≡ None }
    {
        SourceLog {
            alloc,
            name,
            refusal,
            place: None,
            log,
        }
    }

    /// Where the file is out of its form, if that was written.
    pub fn place(&self) -> Option<FaultPlace>
        ensures { result ≡ self.now.place }
    {
        self.place
    }

    /// Why the file is refused, in words that say what to do. None if it isn't, or if standard error has it from the
    /// reader of its form.
    pub fn why(&self) -> Result<Option<String>, AllocError> {
        let name = self.name;
        match self.place {
            Some(FaultPlace::Octet(octet)) => Ok(Some(format!(in self.alloc;
                "{name}: it is cut or malformed from octet {octet} on; copy a capture after its writer has ended"
            )?)),
            Some(place) if self.refusal == RefusalLine::LeftOut => Ok(Some(format!(in self.alloc;
                "{name}: it is out of its form from {place} on; what stands before is printed"
            )?)),
            _ => Ok(None),
        }
    }
}

impl<W: Write> Write for SourceLog<'_, W> {
    fn write(&mut self, buf: &[u8]) -> io::Result<usize> {
        let place = refused_place(self.name, buf);
        if place.is_some() {
            self.place = place;
        }
        if place.is_none() || self.refusal == RefusalLine::Kept {
            self.log.write_all(buf)?;
        }
        Ok(buf.len())
    }

    fn flush(&mut self) -> io::Result<()> {
        self.log.flush()
    }
}

/// Where the file of this name is out of its form, if these octets are the line that refuses it.
fn refused_place(name: &str, octets: &[u8]) -> Option<FaultPlace> {
    let rest = octets.strip_prefix(REFUSED.as_bytes())?;
    let place = rest.strip_prefix(name.as_bytes())?;
    let place = std::str::from_utf8(place).ok()?;
    if let Some(octet) = number_behind(place, "octet") {
        return Some(FaultPlace::Octet(octet));
    }
    let line = number_behind(place, "line")?;
    match number_behind(place, "column") {
        Some(column) => Some(FaultPlace::Column { line, column }),
        None => Some(FaultPlace::Line(line)),
    }
}

/// The number behind this word.
fn number_behind(text: &str, word: &str) -> Option<u64> {
    let mut words = text.split_whitespace();
    while let Some(found) = words.next() {
        if found == word {
            return words.next()?.parse().ok();
        }
    }
    None
}
