//! Lines of a log, and notes.

ghost use Rattle.std.specs.Prelude.{◌≡◌, IfOk};
ghost use Rattle.std.specs.Prelude.{string_bytes};
ghost use Rattle.capture_files.specs.Datagrams.{log_line, note_line};
ghost use Rattle.capture_files.specs.Datagrams.{told_word};

use crate::datagrams::Telling;
use std::alloc::{AllocError, Global};

/// The words for a record that is reported.
fn told_word(why: Telling) -> &'static str
    ensures { result.now ≡ told_word why }
{
    match why {
        Telling::Fragment => "fragment",
        Telling::CutShort => "cut short",
        Telling::BadLength => "bad length",
        Telling::Empty => "empty datagram",
        Telling::NoMoment => "no moment",
    }
}

/// The line of a log for a datagram, `MOMENT HEX` and a line feed, with the moment in decimal and two small
/// hex digits an octet.
#[tactic(auto, unfolding(crate::specs::Datagrams::log_line))]
pub fn log_line(alloc: Global, moment: u64, datagram: &[u8]) -> Result<String, AllocError>
    ensures { IfOk result (λ text. string_bytes text ≡ log_line moment datagram.now) }
{
    let digits = hex::encode(alloc, datagram)?;
    format!(in alloc; "{moment} {digits}\n")
}

/// The line that tells a record.
#[tactic(auto, unfolding(crate::specs::Datagrams::note_line))]
pub(crate) fn note_line(alloc: Global, number: u64, why: Telling) -> Result<String, AllocError>
    ensures { IfOk result (λ text. string_bytes text ≡ note_line number why) }
{
    let word = told_word(why);
    format!(in alloc; "snmpsec: record {number}: {word}\n")
}
