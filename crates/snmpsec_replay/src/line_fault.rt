//! Why a line isn't a line of a log, in words for its author.

use crate::log::{LINE_LIMIT, LINES_LIMIT};
use snmp_ber::{read_decimal, split_once};
use snmpsec_io::{DigitsFault, Excerpt, octet_digits_fault};
use std::fmt;

/// Why a line of a log is out of its form. It has the beginning of the value that is at fault, and no memory.
#[derive(Clone, Copy, Debug, PartialEq, Eq, Drop)]
pub enum LogLineFault {
    /// The log has over 1,000,000 lines.
    TooManyLines,
    /// The line has over 131,072 octets.
    TooLong,
    /// A carriage return comes before the line feed.
    CarriageReturn,
    /// It isn't two words with one blank between.
    Words,
    /// The first word isn't a moment.
    Moment(Excerpt),
    /// The second word isn't pairs of hex digits.
    Digits(Excerpt, DigitsFault),
    /// The last line has no line feed.
    NoLineFeed,
}

/// What is wrong with a line that says nothing, given without its line feed: the first fault from its beginning, and
/// that its line feed is missing if there is no other.
pub(crate) fn line_fault(line: &[u8]) -> LogLineFault {
    if line.ends_with(b"\r") {
        return LogLineFault::CarriageReturn;
    }
    let Some((moment, digits)) = split_once(line, b' ') else {
        return LogLineFault::Words;
    };
    if digits.contains(&b' ') {
        return LogLineFault::Words;
    }
    if read_decimal(moment, u64::MAX).is_none() {
        return LogLineFault::Moment(Excerpt::of(moment));
    }
    match octet_digits_fault(digits) {
        Some(fault) => LogLineFault::Digits(Excerpt::of(digits), fault),
        None => LogLineFault::NoLineFeed,
    }
}

impl fmt::Display for LogLineFault {
    fn fmt<W: fmt::Write>(&self, f: &mut fmt::Formatter<W>) -> fmt::Result {
        match self {
            LogLineFault::TooManyLines => {
                write!(
                    f,
                    "a log has at most {LINES_LIMIT} lines: split it, and merge the clocks"
                )
            }
            LogLineFault::TooLong => write!(f, "it has over {LINE_LIMIT} octets"),
            LogLineFault::CarriageReturn => write!(f, "a carriage return before the line feed"),
            LogLineFault::Words => write!(f, "MOMENT, one blank and HEX are wanted"),
            LogLineFault::Moment(word) => {
                let most = u64::MAX;
                write!(
                    f,
                    "MOMENT {word}: whole seconds from 0 to {most} are wanted, without 0 in front"
                )
            }
            LogLineFault::Digits(word, fault) => write!(f, "HEX {word}: {fault}"),
            LogLineFault::NoLineFeed => write!(f, "it has no line feed at its end"),
        }
    }
}
