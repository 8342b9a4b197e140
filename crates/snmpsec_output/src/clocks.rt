//! What is wrong with a line of saved clocks: the heading, or `ENGINE BOOTS TIME` and, after the heading
//! `snmp-clocks 2`, the moment `SEEN`.

use snmp_ber::{MAX_INTEGER32, read_decimal, split_once};
use snmpsec_io::Excerpt;
use std::alloc::{AllocError, Global};
use std::fmt;

/// The heading if a moment is on each line.
const WITH_SEEN: &str = "snmp-clocks 2";

/// The heading if none does.
const WITHOUT_SEEN: &str = "snmp-clocks 1";

/// The greatest number of boots and of seconds (RFC 3414, section 2.2).
const GREATEST: u64 = MAX_INTEGER32 as u64;

/// Why a line of saved clocks is out of its form.
#[derive(Clone, Copy)]
enum ClocksFault<'a> {
    /// The first line isn't a heading.
    Heading,
    CarriageReturn,
    /// There are more words or fewer, or not one blank between two; and whether a moment is one of them.
    Words { with_seen: bool },
    Engine(&'a [u8]),
    Boots(&'a [u8]),
    Time(&'a [u8]),
    Seen(&'a [u8]),
    /// The engine isn't above that of the line before.
    Order(&'a [u8]),
    NoLineFeed,
}

/// The words of an engine's line.
#[derive(Clone, Copy)]
struct EngineWords<'a> {
    engine: &'a [u8],
    boots: &'a [u8],
    time: &'a [u8],
    /// `0` if the heading has no moments.
    seen: &'a [u8],
}

/// What is wrong with the first faulty line of saved clocks, the one of this number, from 1, and what is wanted.
pub(crate) fn clocks_words(
    alloc: Global,
    octets: &[u8],
    number: usize,
) -> Result<String, AllocError> {
    match clocks_fault(octets, number) {
        Some(fault) => format!(in alloc; "line {number}: {fault}"),
        None => format!(in alloc; "line {number}: it is no line of saved clocks"),
    }
}

/// The line of this number, from 1, without its line feed, and what comes after that. None if there is no such line.
fn line_at(octets: &[u8], number: usize) -> Option<(&[u8], Option<&[u8]>)> {
    let mut rest = octets;
    for _ in 1..number {
        let (_, behind) = split_once(rest, b'\n')?;
        rest = behind;
    }
    match split_once(rest, b'\n') {
        Some((line, behind)) => Some((line, Some(behind))),
        None => Some((rest, None)),
    }
}

/// What is wrong with the line of this number, from 1. None if it is in its form, or there is no such line.
fn clocks_fault(octets: &[u8], number: usize) -> Option<ClocksFault<'_>> {
    let (heading, _) = line_at(octets, 1)?;
    let (line, behind) = line_at(octets, number)?;
    let with_seen = heading == WITH_SEEN.as_bytes();
    let fault = match number {
        1 => heading_fault(line, behind.is_some()),
        2 => entry_fault(line, with_seen, b""),
        _ => {
            let (before, _) = line_at(octets, number.saturating_sub(1))?;
            entry_fault(line, with_seen, engine_of(before))
        }
    };
    if fault.is_none() && behind.is_none() {
        return Some(ClocksFault::NoLineFeed);
    }
    fault
}

/// The first word of a line.
fn engine_of(line: &[u8]) -> &[u8] {
    match split_once(line, b' ') {
        Some((engine, _)) => engine,
        None => line,
    }
}

/// What is wrong with the first line, given without its line feed.
fn heading_fault(line: &[u8], has_end: bool) -> Option<ClocksFault<'_>> {
    if line == WITH_SEEN.as_bytes() || line == WITHOUT_SEEN.as_bytes() {
        return None;
    }
    if has_end && line.ends_with(b"\r") {
        return Some(ClocksFault::CarriageReturn);
    }
    Some(ClocksFault::Heading)
}

/// What is wrong with the line of an engine, given without its line feed, after the line of the engine `before`.
fn entry_fault<'a>(line: &'a [u8], with_seen: bool, before: &[u8]) -> Option<ClocksFault<'a>> {
    if line.ends_with(b"\r") {
        return Some(ClocksFault::CarriageReturn);
    }
    let Some(words) = words_of(line, with_seen) else {
        return Some(ClocksFault::Words { with_seen });
    };
    if !is_engine(words.engine) {
        return Some(ClocksFault::Engine(words.engine));
    }
    if let Some(fault) = numbers_fault(&words) {
        return Some(fault);
    }
    if words.engine <= before {
        return Some(ClocksFault::Order(words.engine));
    }
    None
}

/// The three or four words of a line with one blank between two.
fn words_of(line: &[u8], with_seen: bool) -> Option<EngineWords<'_>> {
    let (engine, rest) = split_once(line, b' ')?;
    let (boots, rest) = split_once(rest, b' ')?;
    let (time, seen) = if with_seen {
        split_once(rest, b' ')?
    } else {
        (rest, b"0".as_slice())
    };
    if time.contains(&b' ') || seen.contains(&b' ') {
        return None;
    }
    Some(EngineWords {
        engine,
        boots,
        time,
        seen,
    })
}

/// A word is 5 to 32 octets in lower-case hex digits.
fn is_engine(word: &[u8]) -> bool {
    let is_lower = |octet: &u8| matches!(octet, b'0'..=b'9' | b'a'..=b'f');
    word.len() % 2 == 0 && (10..=64).contains(&word.len()) && word.iter().all(is_lower)
}

/// What is wrong with the numbers of a line.
fn numbers_fault<'a>(words: &EngineWords<'a>) -> Option<ClocksFault<'a>> {
    if read_decimal(words.boots, GREATEST).is_none() {
        return Some(ClocksFault::Boots(words.boots));
    }
    if read_decimal(words.time, GREATEST).is_none() {
        return Some(ClocksFault::Time(words.time));
    }
    if read_decimal(words.seen, u64::MAX).is_none() {
        return Some(ClocksFault::Seen(words.seen));
    }
    None
}

/// What is wrong with the number of this name, and what is wanted.
fn write_number<W: fmt::Write>(
    f: &mut fmt::Formatter<W>,
    name: &str,
    word: &[u8],
    greatest: u64,
) -> fmt::Result {
    let word = Excerpt::of(word);
    write!(
        f,
        "{name} {word}: a whole number from 0 to {greatest} is wanted, without 0 in front"
    )
}

impl fmt::Display for ClocksFault<'_> {
    fn fmt<W: fmt::Write>(&self, f: &mut fmt::Formatter<W>) -> fmt::Result {
        match self {
            ClocksFault::Heading => write!(f, "{WITH_SEEN} is wanted"),
            ClocksFault::CarriageReturn => write!(f, "a carriage return before the line feed"),
            ClocksFault::Words { with_seen } => {
                let (count, seen) = if *with_seen { (4, " SEEN") } else { (3, "") };
                write!(
                    f,
                    "{count} words with a blank between are wanted: ENGINE BOOTS TIME{seen}"
                )
            }
            ClocksFault::Engine(word) => {
                let word = Excerpt::of(word);
                write!(
                    f,
                    "ENGINE {word}: 10 to 64 lower-case hex digits in pairs are wanted"
                )
            }
            ClocksFault::Boots(word) => write_number(f, "BOOTS", word, GREATEST),
            ClocksFault::Time(word) => write_number(f, "TIME", word, GREATEST),
            ClocksFault::Seen(word) => write_number(f, "SEEN", word, u64::MAX),
            ClocksFault::Order(word) => write_order(f, word),
            ClocksFault::NoLineFeed => write!(f, "it has no line feed at its end"),
        }
    }
}

/// What is wrong with an engine that comes after a greater one, or twice.
fn write_order<W: fmt::Write>(f: &mut fmt::Formatter<W>, engine: &[u8]) -> fmt::Result {
    write!(f, "ENGINE ")?;
    for octet in engine {
        write!(f, "{}", char::from(*octet))?;
    }
    write!(f, ": one above that of the line before is wanted")
}
