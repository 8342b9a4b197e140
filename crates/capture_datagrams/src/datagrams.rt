//! `snmpsec datagrams`: the datagrams of a capture, as a log.

ghost use Rattle.std.specs.Prelude.{◌≡◌, ◌<◌, ◌≤◌, ◌^◌, ℕ, List, Option, length, decimal, map, IfErr, IfOk, IfSome};
ghost use Rattle.std.specs.Prelude.{OnOk, Some, string_bytes};
ghost use Rattle.std.specs.Io.KnownBytes.{Appends, Consumes, IsAtEnd};
ghost use Rattle.capture_datagrams.specs.Datagrams.{AskPorts, IsPassedLine, LosesLine, LosesPassed, Tells};
ghost use Rattle.capture_datagrams.specs.Datagrams.{TellsNot, TellsNoPorts, TellsPassed, refused_line};
ghost use Rattle.capture_datagrams.specs.declared.datagrams.PortsFault.TheVariants as no_ports;
ghost use Rattle.capture_files.specs.Datagrams.{streams};
ghost use Rattle.capture_files.specs.Tally.{counts_of};

use crate::forms::ReadOptions;
use capture_files::{CaptureFault, Printer, SNMP_PORTS, Tally, print_datagrams_behind};
use snmp_ber::read_decimal;
use snmpsec_io::write_whole;
use std::alloc::{AllocError, AllocFailed, Global};
use std::io::{Read, Write};
use thiserror::Error;

/// Why a capture wasn't read, or why its output wasn't written.
#[derive(Clone, Copy, Debug, PartialEq, Eq, Drop, Error)]
pub enum Unread {
    /// A read failed.
    #[error("cannot read the capture")]
    CannotRead,
    /// A write failed.
    #[error("cannot write")]
    CannotWrite,
    /// A growth of memory was refused.
    #[error("out of memory")]
    OutOfMemory,
}

/// A port of UDP, 0 to 65535, in decimal without sign or leading zeros.
fn port_of(word: &str) -> Option<u16>
    ensures found { IfSome result (λ port. word.now ≡ decimal port) }
    ensures all { (port : ℕ) → port < 2 ^ 16 → word.now ≡ decimal port → result ≡ Some port }
{
    let port = read_decimal(word.as_bytes(), u64::from(u16::MAX))?;
    Some(port as u16)
}

/// Why the words ask for no ports.
#[derive(Clone, Copy, Debug, PartialEq, Eq, Drop, Error)]
pub enum PortsFault<'a> {
    /// This word is the first that isn't a port.
    #[error("a word is no port")]
    NoPort(&'a str),
    /// A growth of memory was refused.
    #[error("out of memory")]
    OutOfMemory,
}

impl From<AllocError> for PortsFault<'_> {
    ghost from_gives = { λ _ e. e ≡ no_ports.OutOfMemory };

    fn from(_fault: AllocError) -> Self {
        PortsFault::OutOfMemory
    }
}

impl<T: Drop> From<AllocFailed<T>> for PortsFault<'_> {
    ghost from_gives = { λ _ e. e ≡ no_ports.OutOfMemory };

    fn from(_fault: AllocFailed<T>) -> Self {
        PortsFault::OutOfMemory
    }
}

/// The ports that the words ask for: theirs, or 161 and 162 (RFC 3417, section 3.1) if there is no word.
pub fn ports_of<'a>(alloc: Global, words: &[&'a str]) -> Result<Vec<u16>, PortsFault<'a>>
    ensures found { IfOk result (λ ports. AskPorts (map (λ word. word.now) words.now) ports.items) }
    ensures none { IfErr result (TellsNoPorts (map (λ word. word.now) words.now)) }
{
    if words.is_empty() {
        return Ok(SNMP_PORTS.to_vec(alloc)?);
    }
    let mut ports = Vec::new(alloc);
    for word in words {
        let Some(port) = port_of(word) else {
            return Err(PortsFault::NoPort(*word));
        };
        ports.push(port)?;
    }
    Ok(ports)
}

/// What is done with a capture of which the first 24 octets were read, or all if it has fewer, with the status that it
/// ends with: what the printer makes of each datagram is written, and then a line in `notes` for what was passed over,
/// if anything was, with status 0, or 1 if a datagram is refused. If the capture is out of its form, a line in the log
/// names the first octet that is, with status 1.
pub(crate) fn datagrams_behind<P: Printer, R: Read, L: Write, N: Write>(
    alloc: Global,
    front: &[u8],
    asked: ReadOptions<'_>,
    printer: &mut P,
    reader: &mut R,
    log: &mut L,
    notes: &mut N,
) -> Result<u8, Unread>
    requires short { length front.now ≤ 24 }
    requires end { length front.now < 24 → IsAtEnd (R.remaining reader.old) }
    ensures ok { (unread : Option (List ℕ)) → Consumes unread (R.remaining reader.old) front.now
        → IfOk result (Tells (P.prints printer.old) asked.entry.ports.now asked.entry.name.now
        (streams unread (R.remaining reader.new) (L.contents log.old)
        (L.contents log.new) (N.contents notes.old)
        (N.contents notes.new))) }
    ensures err { (unread : Option (List ℕ)) → Consumes unread (R.remaining reader.old) front.now
        → IfErr result (TellsNot (P.prints printer.old) asked.entry.ports.now asked.entry.name.now
        (streams unread (R.remaining reader.new) (L.contents log.old)
        (L.contents log.new) (N.contents notes.old)
        (N.contents notes.new))) }
{
    match print_datagrams_behind(alloc, front, asked.ports, printer, reader, log, notes) {
        Ok(passed) => match tell_passed(alloc, &passed, notes) {
            Ok(()) => Ok(u8::from(passed.refused)),
            Err(fault) => Err(fault),
        },
        Err(CaptureFault::Octet(place)) => match refuse(alloc, asked.name, place, log) {
            Ok(()) => Ok(1),
            Err(fault) => Err(fault),
        },
        Err(CaptureFault::CannotRead) => Err(Unread::CannotRead),
        Err(CaptureFault::CannotWrite) => Err(Unread::CannotWrite),
        Err(CaptureFault::OutOfMemory) => Err(Unread::OutOfMemory),
    }
}

/// Writes the line for what was passed over.
fn tell_passed<N: Write>(alloc: Global, passed: &Tally, notes: &mut N) -> Result<(), Unread>
    ensures ok { OnOk result (TellsPassed (counts_of passed.now)
        (N.contents notes.old) (N.contents notes.new)) }
    ensures err { IfErr result (LosesPassed (counts_of passed.now)
        (N.contents notes.old) (N.contents notes.new)) }
{
    let Ok(line) = passed_line(alloc, passed) else {
        return Err(Unread::OutOfMemory);
    };
    match write_whole(notes, line.as_bytes()) {
        Ok(()) => Ok(()),
        Err(_) => Err(Unread::CannotWrite),
    }
}

/// Writes the line for a file that isn't a capture from this octet on.
fn refuse<L: Write>(alloc: Global, name: &str, place: u64, log: &mut L) -> Result<(), Unread>
    ensures ok { OnOk result (Appends (L.contents log.old) (L.contents log.new)
        (refused_line name.now place)) }
    ensures err { IfErr result (LosesLine (L.contents log.old)
        (L.contents log.new) (refused_line name.now place)) }
{
    let Ok(line) = refused_line(alloc, name, place) else {
        return Err(Unread::OutOfMemory);
    };
    match write_whole(log, line.as_bytes()) {
        Ok(()) => Ok(()),
        Err(_) => Err(Unread::CannotWrite),
    }
}

/// The text for what was passed over: a line, or nothing where nothing was.
pub(crate) fn passed_line(alloc: Global, passed: &Tally) -> Result<String, AllocError>
    ensures { IfOk result (λ text. IsPassedLine (counts_of passed.now) (string_bytes text)) }
{
    let words = passed.words(alloc)?;
    if words.is_empty() {
        return Ok(words);
    }
    format!(in alloc; "snmpsec: passed over: {words}\n")
}

/// The text of the line for a file that isn't a capture from this octet on.
fn refused_line(alloc: Global, name: &str, place: u64) -> Result<String, AllocError>
    ensures { IfOk result (λ text. string_bytes text ≡ refused_line name.now place) }
{
    format!(in alloc; "refused datagrams {name} octet {place}\n")
}
