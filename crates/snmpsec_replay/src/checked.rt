//! Whether a text is a log, and what is wrong where it isn't.

ghost use Rattle.std.specs.Prelude.{IfOk, IfErr};
ghost use Rattle.snmpsec_replay.specs.Checked.{TellsLog, StopsLog};

use crate::entries::{NextEntry, next_entry};
use crate::fault::ReplayFault;
use crate::line_fault::LogLineFault;
use crate::log::{LINE_LIMIT, LINES_LIMIT};
use snmpsec_io::read_octet;
use std::alloc::Global;
use std::io::BufRead;

/// What a text is to `replay_log`.
#[derive(Clone, Copy, Debug, PartialEq, Eq, Drop)]
pub enum CheckedLog {
    /// A log of so many lines.
    Whole(u64),
    /// The line of this number, from 1, is the first that is none; and what is wrong with it.
    Faulty { number: u64, why: LogLineFault },
}

/// Reads a log line by line as `replay_log` does, and takes nothing of it: how many lines it has, or which is
/// the first that is out of its form or past the limits, and why. One line is held at a time.
///
/// The errors are CannotRead, where a read fails or is interrupted 1,000 times in a row, before which nothing
/// stood that isn't a line, and OutOfMemory.
pub fn check_log<R: BufRead>(alloc: Global, reader: &mut R) -> Result<CheckedLog, ReplayFault>
    ensures ok { IfOk result (TellsLog (R.remaining reader.old) (R.remaining reader.new)) }
    ensures err { IfErr result (StopsLog (R.remaining reader.old) (R.remaining reader.new)) }
{
    let Ok(mut line) = Vec::with_capacity(alloc, LINE_LIMIT) else {
        return Err(ReplayFault::OutOfMemory);
    };
    for taken in 0..LINES_LIMIT {
        match next_entry(alloc, reader, &mut line)? {
            NextEntry::Entry(_) => {}
            NextEntry::End => return Ok(CheckedLog::Whole(taken)),
            NextEntry::Faulty(why) => {
                let number = taken + 1;
                return Ok(CheckedLog::Faulty { number, why });
            }
        }
    }
    let Ok(next) = read_octet(reader) else {
        return Err(ReplayFault::CannotRead);
    };
    if next.is_some() {
        let number = LINES_LIMIT + 1;
        let why = LogLineFault::TooManyLines;
        return Ok(CheckedLog::Faulty { number, why });
    }
    Ok(CheckedLog::Whole(LINES_LIMIT))
}
