//! A log taken by a manager, line by line.
ghost use Rattle.std.specs.Prelude.{◌≡◌, ◌≤◌, ◌++◌, [], IfOk, OnOk, OnErr, IfErr, IfSome, List, ℕ, string_bytes};
ghost use Rattle.std.specs.Io.KnownBytes.{Appends};
ghost use Rattle.engine_clock.specs.Saved.{AreMarks, listing};
ghost use Rattle.snmpsec_io.specs.Transfer.{WritesFront};
ghost use Rattle.snmpsec_replay.specs.Replay.{AnswersLine, Ends, EndsBehind, ReplayText, SavesUnless, StopsBy};
ghost use Rattle.snmpsec_replay.specs.Replay.{WriteFails, WritesSome, answer_line, from_line_1, outcome_text};
ghost use Rattle.snmpsec_replay.specs.Replay.{printed_line, streams};

use crate::fault::ReplayFault;
use crate::line_fault::{LogLineFault, line_fault};
use crate::log::{LINE_LIMIT, LINES_LIMIT, NextLine, read_entry, read_line};
use crate::printing::Printing;
use snmp_manager::{Manager, Outcome};
use snmpsec_config::level_word;
use snmpsec_io::{Failed, read_octet, write_whole};
use std::alloc::{AllocError, Global};
use std::io::{BufRead, Write};

/// How many octets wait before they are written.
const PIECE: usize = 8_192;

/// Where the lines of a log end.
#[derive(Clone, Copy, Debug, PartialEq, Eq)]
pub(crate) enum Ending {
    /// Each line was taken.
    Whole,
    /// The line of this number is out of its form or past the limits, and why.
    LogLine(u64, LogLineFault),
    /// A read failed.
    CannotRead,
    /// A growth of memory was refused.
    OutOfMemory,
}

/// What became of a line.
#[derive(Clone, Copy, Debug, PartialEq, Eq)]
pub(crate) enum Step {
    /// Its datagram was taken.
    Answered,
    /// It isn't a line of a log, and why.
    OutOfForm(LogLineFault),
    /// A growth of memory was refused.
    OutOfMemory,
}

/// The words for an outcome.
fn outcome_text(alloc: Global, outcome: Outcome) -> Result<String, AllocError>
    ensures { IfOk result (λ text. string_bytes text ≡ outcome_text outcome) }
{
    match outcome {
        Outcome::Accepted { level, tag } => {
            let mut text = String::from_str(alloc, "accepted ")?;
            text.push_str(level_word(level))?;
            text.push_str(" ")?;
            text.push_str(hex::encode(alloc, [tag].as_slice())?.as_str())?;
            Ok(text)
        }
        Outcome::Refused(why) => {
            let (number, name) = (why.number(), why.name());
            format!(in alloc; "refused {number} {name}")
        }
    }
}

/// The line for the datagram of line `number`: its number, its moment and the outcome. The error is out of memory.
#[tactic(auto, unfolding(crate::specs::Replay::answer_line))]
pub fn answer_line(
    alloc: Global,
    number: u64,
    moment: u64,
    outcome: Outcome,
) -> Result<String, AllocError>
    ensures { IfOk result (λ text. string_bytes text ≡ answer_line number moment outcome) }
{
    let words = outcome_text(alloc, outcome)?;
    format!(in alloc; "{number} {moment} {words}\n")
}

/// Adds the line for a datagram to what waits to be written, where lines are wanted.
fn push_line(
    alloc: Global,
    lines: bool,
    number: u64,
    moment: u64,
    outcome: Outcome,
    waiting: &mut Vec<u8>,
) -> Result<(), AllocError>
    ensures ok { OnOk result (waiting.new.items
        ≡ waiting.old.items ++ printed_line lines number moment outcome) }
    ensures err { OnErr result (waiting.new.items ≡ waiting.old.items) }
{
    if !lines {
        return Ok(());
    }
    let text = answer_line(alloc, number, moment, outcome)?;
    waiting.extend_from_slice(text.as_bytes())
}

/// Takes the datagram of a line, and adds its answer to what waits to be written.
fn answer(
    alloc: Global,
    manager: &mut Manager,
    lines: bool,
    number: u64,
    line: &[u8],
    waiting: &mut Vec<u8>,
) -> Step
    ensures { AnswersLine lines manager.old number line.now waiting.old.items
        manager.new waiting.new.items result }
{
    let Ok(entry) = read_entry(alloc, line) else {
        return Step::OutOfMemory;
    };
    let Some(entry) = entry else {
        return Step::OutOfForm(line_fault(line));
    };
    let Ok(outcome) = manager.take_one(entry.moment, &entry.datagram) else {
        return Step::OutOfMemory;
    };
    let Ok(()) = push_line(alloc, lines, number, entry.moment, outcome, waiting) else {
        return Step::OutOfMemory;
    };
    Step::Answered
}

/// Writes what waits, where it is a piece.
fn write_piece<W: Write>(writer: &mut W, waiting: &mut Vec<u8>) -> Result<(), Failed>
    ensures ok { OnOk result
        (WritesSome (W.contents writer.old)
        (W.contents writer.new) waiting.old.items waiting.new.items) }
    ensures err { OnErr result (WritesFront (W.contents writer.old)
        (W.contents writer.new) waiting.old.items) }
{
    if waiting.len() < PIECE {
        return Ok(());
    }
    let Ok(()) = write_whole(writer, waiting) else {
        return Err(Failed);
    };
    waiting.clear();
    Ok(())
}

/// How a log ends behind the last line that is taken, where the line after that has this number.
fn end_behind<R: BufRead>(reader: &mut R, number: u64) -> Ending
    ensures { EndsBehind number (R.remaining reader.old) (R.remaining reader.new) result }
{
    match read_octet(reader) {
        Ok(None) => Ending::Whole,
        Ok(Some(_)) => Ending::LogLine(number, LogLineFault::TooManyLines),
        Err(_) => Ending::CannotRead,
    }
}

/// Takes the lines of a log. What answers them is written, or waits to be.
fn answer_lines<R: BufRead, W: Write>(
    alloc: Global,
    manager: &mut Manager,
    printing: Printing,
    reader: &mut R,
    writer: &mut W,
    waiting: &mut Vec<u8>,
) -> Result<Ending, Failed>
    requires none { waiting.old.items ≡ [] }
    requires first { printing.first ≤ 1000000000000000 }
    ensures ok { IfOk result
        (Ends printing manager.old manager.new
        (streams (R.remaining reader.old) (R.remaining reader.new) (W.contents writer.old)
        (W.contents writer.new)) waiting.new.items) }
    ensures err { OnErr result
        (WriteFails printing manager.old
        (streams (R.remaining reader.old) (R.remaining reader.new) (W.contents writer.old)
        (W.contents writer.new))) }
{
    let Ok(mut line) = Vec::with_capacity(alloc, LINE_LIMIT) else {
        return Ok(Ending::OutOfMemory);
    };
    for taken in 0..LINES_LIMIT {
        let number = printing.first + taken;
        let Ok(next) = read_line(reader, &mut line) else {
            return Ok(Ending::CannotRead);
        };
        match next {
            NextLine::Whole => {}
            NextLine::End => return Ok(Ending::Whole),
            NextLine::TooLong => return Ok(Ending::LogLine(number, LogLineFault::TooLong)),
            NextLine::NoLineFeed => return Ok(Ending::LogLine(number, line_fault(&line))),
        }
        match answer(alloc, manager, printing.lines, number, &line, waiting) {
            Step::Answered => {}
            Step::OutOfForm(why) => return Ok(Ending::LogLine(number, why)),
            Step::OutOfMemory => return Ok(Ending::OutOfMemory),
        }
        let Ok(()) = write_piece(writer, waiting) else {
            return Err(Failed);
        };
    }
    Ok(end_behind(reader, printing.first + LINES_LIMIT))
}

/// Writes the saved text.
fn save<W: Write>(manager: &Manager, writer: &mut W) -> Result<(), ReplayFault>
    ensures fits { AreMarks manager.now.clocks }
    ensures ok { OnOk result (Appends (W.contents writer.old)
        (W.contents writer.new) (listing manager.now.clocks)) }
    ensures err { IfErr result
        (SavesUnless (listing manager.now.clocks) (W.contents writer.old) (W.contents writer.new)) }
{
    let Ok(text) = manager.save() else {
        return Err(ReplayFault::OutOfMemory);
    };
    match write_whole(writer, &text) {
        Ok(()) => Ok(()),
        Err(_) => Err(ReplayFault::CannotWrite),
    }
}

/// Takes the datagrams of a log, one a line, and writes a line for each, and at the end the saved text of
/// what the manager holds. It holds one line at a time, of at most 131,072 octets, and reads at most
/// 1,000,000. A reader that doesn't read ahead is given in a `BufReader`.
///
/// The errors are LogLine(n, why), where line n is the first that is out of its form or past these limits;
/// CannotRead and CannotWrite, where a read or a write fails, or is interrupted 1,000 times in a row; and
/// OutOfMemory. Before each of them but CannotWrite the lines of all datagrams that were taken are written,
/// and no saved text.
pub fn replay_log<R: BufRead, W: Write>(
    alloc: Global,
    manager: Manager,
    reader: &mut R,
    writer: &mut W,
) -> Result<(), ReplayFault>
    ensures ok { OnOk result
        (IfSome (R.remaining reader.old)
        (λ log. (text : List ℕ) × ReplayText from_line_1 manager log text
        × Appends (W.contents writer.old) (W.contents writer.new) text)) }
    ensures err { IfErr result (StopsBy from_line_1 manager record {
      unread = R.remaining reader.old;
      left = R.remaining reader.new;
      held = W.contents writer.old;
      written = W.contents writer.new;
    }) }
{
    let printing = Printing {
        first: 1,
        lines: true,
    };
    replay_as(alloc, manager, printing, reader, writer)
}

/// Replays a log as `replay_log` does, with lines numbered from `printing.first`, at most 10^15, in what is
/// written and in LogLine; and where no lines are wanted, with the saved text alone. So a log of more lines
/// can be replayed in pieces, whose lines go on in number.
pub fn replay_as<R: BufRead, W: Write>(
    alloc: Global,
    mut manager: Manager,
    printing: Printing,
    reader: &mut R,
    writer: &mut W,
) -> Result<(), ReplayFault>
    requires { printing.first ≤ 1000000000000000 }
    ensures ok { OnOk result
        (IfSome (R.remaining reader.old)
        (λ log. (text : List ℕ) × ReplayText printing manager log text
        × Appends (W.contents writer.old) (W.contents writer.new) text)) }
    ensures err { IfErr result (StopsBy printing manager record {
      unread = R.remaining reader.old;
      left = R.remaining reader.new;
      held = W.contents writer.old;
      written = W.contents writer.new;
    }) }
{
    let mut waiting = Vec::new(alloc);
    let Ok(ending) = answer_lines(alloc, &mut manager, printing, reader, writer, &mut waiting)
    else {
        return Err(ReplayFault::CannotWrite);
    };
    let Ok(()) = write_whole(writer, &waiting) else {
        return Err(ReplayFault::CannotWrite);
    };
    match ending {
        Ending::Whole => save(&manager, writer),
        Ending::LogLine(number, why) => Err(ReplayFault::LogLine(number, why)),
        Ending::CannotRead => Err(ReplayFault::CannotRead),
        Ending::OutOfMemory => Err(ReplayFault::OutOfMemory),
    }
}
