//! A log, of whose datagrams something else is printed.

ghost use Rattle.std.specs.Prelude.{◌≡◌, ◌↔◌, ◌≤◌, IsTrue, IfErr, IfOk, length, string_bytes};
ghost use Rattle.capture_files.specs.Datagrams.{PrintsAs, streams};
ghost use Rattle.capture_datagrams.specs.Datagrams.{status_of};
ghost use Rattle.capture_datagrams.specs.Dumped.{refused_row};
ghost use Rattle.capture_datagrams.specs.LogPrints.{IsLineNote, StopsEntry, StopsLog, StopsRefusal, TellsLog};
ghost use Rattle.capture_datagrams.specs.LogPrints.{WritesEntry, WritesRefusal};
ghost use Rattle.capture_datagrams.specs.Logs.{AreHexDigits, BeginsLog, IsFirstLine, IsMoment};

use crate::datagrams::Unread;
use crate::dump_texts::{either, refused_row};
use capture_files::Printer;
use snmp_ber::{read_decimal, split_once};
use snmpsec_io::write_whole;
use snmpsec_replay::{
    LINE_LIMIT, LogLineFault, LoggedDatagram, NextEntry, ReplayFault, next_entry,
};
use std::alloc::{AllocError, Global};
use std::io::{BufRead, Write};

/// How many octets of a file tell whether it is a log.
pub const FRONT: usize = 24;

/// A file that begins so is a log, as far as its first line is in these octets: a moment, a blank, and pairs of hex
/// digits. The moment doesn't begin with the digits `30`, since messages in hex do.
pub fn begins_log(front: &[u8]) -> bool
    ensures { IsTrue result ↔ BeginsLog front.now }
{
    let Some((moment, rest)) = split_once(front, b' ') else {
        return false;
    };
    is_moment(moment) && are_pairs(first_line(rest))
}

/// Whether the word is whole seconds, and doesn't begin as a message in hex.
fn is_moment(word: &[u8]) -> bool
    ensures { IsTrue result ↔ IsMoment word.now }
{
    !word.starts_with(b"30") && read_decimal(word, u64::MAX).is_some()
}

/// The octets before the first line feed, or all of them.
fn first_line(text: &[u8]) -> &[u8]
    ensures { IsFirstLine text.now result.now }
{
    match split_once(text, b'\n') {
        Some((line, _)) => line,
        None => text,
    }
}

/// Whether the octets are hex digits, two or more.
fn are_pairs(digits: &[u8]) -> bool
    ensures { IsTrue result ↔ (2 ≤ length digits.now × AreHexDigits digits.now) }
{
    digits.len() >= 2 && digits.iter().all(|digit| digit.is_ascii_hexdigit())
}

/// Writes what is printed of the datagrams of a log, whose lines are numbered from 1, and answers the status: 1 if that
/// tells a refusal. A line that is none ends it with a line in `out` that has its number, a line in `notes` that says
/// what is wrong with it, and status 1. One line is held at a time.
///
/// The errors are CannotRead, CannotWrite and OutOfMemory.
pub fn print_log<P: Printer, R: BufRead, L: Write, N: Write>(
    alloc: Global,
    name: &str,
    printer: &mut P,
    reader: &mut R,
    out: &mut L,
    notes: &mut N,
) -> Result<u8, Unread>
    ensures ok { IfOk result (TellsLog (P.prints printer.old) name.now
        (streams (R.remaining reader.old) (R.remaining reader.new) (L.contents out.old)
        (L.contents out.new) (N.contents notes.old)
        (N.contents notes.new))) }
    ensures err { IfErr result (StopsLog (P.prints printer.old) name.now
        (streams (R.remaining reader.old) (R.remaining reader.new) (L.contents out.old)
        (L.contents out.new) (N.contents notes.old)
        (N.contents notes.new))) }
{
    let Ok(mut line) = Vec::with_capacity(alloc, LINE_LIMIT) else {
        return Err(Unread::OutOfMemory);
    };
    let mut refused = false;
    for number in 1..u64::MAX {
        let entry = match next_entry(alloc, reader, &mut line) {
            Ok(NextEntry::Entry(entry)) => entry,
            Ok(NextEntry::End) => return Ok(status_of(refused)),
            Ok(NextEntry::Faulty(why)) => return refuse(alloc, name, number, why, out, notes),
            Err(ReplayFault::CannotRead) => return Err(Unread::CannotRead),
            Err(_) => return Err(Unread::OutOfMemory),
        };
        match print_entry(alloc, number, &entry, printer, out) {
            Ok(tells) => refused = either(refused, tells),
            Err(fault) => return Err(fault),
        }
    }
    Ok(status_of(refused))
}

/// The status: 1 if what is printed tells a refusal.
fn status_of(refused: bool) -> u8
    ensures { result ≡ status_of refused }
{
    u8::from(refused)
}

/// Writes what is printed of an entry's datagram, and answers whether that tells a refusal.
fn print_entry<P: Printer, L: Write>(
    alloc: Global,
    number: u64,
    entry: &LoggedDatagram,
    printer: &mut P,
    out: &mut L,
) -> Result<bool, Unread>
    ensures ok { IfOk result (WritesEntry (P.prints printer.old) number entry.now
        (L.contents out.old) (L.contents out.new)) }
    ensures err { IfErr result (StopsEntry (P.prints printer.old) number entry.now
        (L.contents out.old) (L.contents out.new)) }
    ensures keeps { PrintsAs (P.prints printer.new) (P.prints printer.old) }
{
    let Ok(printed) = printer.print(alloc, number, entry.moment, &entry.datagram) else {
        return Err(Unread::OutOfMemory);
    };
    match write_whole(out, &printed.text) {
        Ok(()) => Ok(printed.refused),
        Err(_) => Err(Unread::CannotWrite),
    }
}

/// Writes the lines for the line of this number, which is none, and answers the status.
fn refuse<L: Write, N: Write>(
    alloc: Global,
    name: &str,
    number: u64,
    why: LogLineFault,
    out: &mut L,
    notes: &mut N,
) -> Result<u8, Unread>
    ensures ok { IfOk result (WritesRefusal name.now number (L.contents out.old) (L.contents out.new)
        (N.contents notes.old) (N.contents notes.new)) }
    ensures err { IfErr result (StopsRefusal name.now number (L.contents out.old) (L.contents out.new)
        (N.contents notes.old) (N.contents notes.new)) }
{
    let Ok(line) = refused_row(alloc, name, number) else {
        return Err(Unread::OutOfMemory);
    };
    let Ok(note) = line_note(alloc, number, why) else {
        return Err(Unread::OutOfMemory);
    };
    let Ok(()) = write_whole(out, line.as_bytes()) else {
        return Err(Unread::CannotWrite);
    };
    match write_whole(notes, note.as_bytes()) {
        Ok(()) => Ok(1),
        Err(_) => Err(Unread::CannotWrite),
    }
}

/// The note on what is wrong with the line of this number.
fn line_note(alloc: Global, number: u64, why: LogLineFault) -> Result<String, AllocError>
    ensures { IfOk result (λ note. IsLineNote number (string_bytes note)) }
{
    let words = why.to_string(alloc)?;
    format!(in alloc; "snmpsec: line {number}: {words}\n")
}
