//! The entries of a log, one after another.

ghost use Rattle.std.specs.Prelude.{◌≡◌, ◌≤◌, IfOk, IfErr, vec_capacity};
ghost use Rattle.snmpsec_replay.specs.Entries.{StopsNext, TellsLineAs, TellsNext};
ghost use Rattle.snmpsec_replay.specs.declared.fault.ReplayFault.TheVariants as faults;

use crate::fault::ReplayFault;
use crate::line_fault::{LogLineFault, line_fault};
use crate::log::{LoggedDatagram, NextLine, read_entry, read_line};
use std::alloc::Global;
use std::io::BufRead;

/// What is next in a log.
#[derive(Drop)]
pub enum NextEntry {
    /// A line with its line feed says this.
    Entry(LoggedDatagram),
    /// Nothing.
    End,
    /// What isn't a line of a log, and why.
    Faulty(LogLineFault),
}

/// Reads what is next in a log: a line with its line feed, of at most 131,072 octets without it. The line is held in
/// `line`, which has room for that.
///
/// The errors are CannotRead, where a read fails or is interrupted 1,000 times in a row, and OutOfMemory.
pub fn next_entry<R: BufRead>(
    alloc: Global,
    reader: &mut R,
    line: &mut Vec<u8>,
) -> Result<NextEntry, ReplayFault>
    requires { 131072 ≤ vec_capacity line.old }
    ensures capacity { 131072 ≤ vec_capacity line.new }
    ensures ok { IfOk result (TellsNext (R.remaining reader.old) (R.remaining reader.new)) }
    ensures err { IfErr result (StopsNext (R.remaining reader.old) (R.remaining reader.new)) }
{
    let Ok(next) = read_line(reader, line) else {
        return Err(ReplayFault::CannotRead);
    };
    match next {
        NextLine::Whole => entry_of(alloc, line),
        NextLine::End => Ok(NextEntry::End),
        NextLine::TooLong => Ok(NextEntry::Faulty(LogLineFault::TooLong)),
        NextLine::NoLineFeed => Ok(NextEntry::Faulty(line_fault(line))),
    }
}

/// What a line with its line feed is.
fn entry_of(alloc: Global, line: &[u8]) -> Result<NextEntry, ReplayFault>
    ensures ok { IfOk result (TellsLineAs line.now) }
    ensures err { IfErr result (λ fault. fault ≡ faults.OutOfMemory) }
{
    let Ok(entry) = read_entry(alloc, line) else {
        return Err(ReplayFault::OutOfMemory);
    };
    match entry {
        Some(entry) => Ok(NextEntry::Entry(entry)),
        None => Ok(NextEntry::Faulty(line_fault(line))),
    }
}
