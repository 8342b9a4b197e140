//! The lines of a log.
ghost use Rattle.std.specs.Prelude.{◌≡◌, ◌<◌, ◌≤◌, [], Ok, length, IfOk, OnErr, vec_capacity, vec_len};
ghost use Rattle.std.specs.Io.KnownBytes.{Consumes, IsAtEnd, Keeps};
ghost use Rattle.std.specs.Option.{option_map};
ghost use Rattle.snmpsec_replay.specs.Lines.{AreReadAs, IsCut, IsReadAs, Looks, LooksAhead, ReadsLine, ReadsPart};

use hex::FromHexError;
use snmp_ber::{find, read_decimal, split_once};
use snmpsec_io::{Failed, TRIES, read_octet};
use std::alloc::{AllocError, Global};
use std::io::{BufRead, ErrorKind, Read};
use std::marker::Model;

/// The most octets of a line without its line feed.
pub const LINE_LIMIT: usize = 131_072;

/// The most lines of a log.
pub(crate) const LINES_LIMIT: u64 = 1_000_000;

/// A datagram, and the moment at which it came.
#[derive(Drop)]
pub struct LoggedDatagram {
    /// In seconds.
    pub moment: u64,
    pub datagram: Vec<u8>,
}

impl Model for LoggedDatagram {
    ghost use Rattle.snmpsec_replay.specs.Log.{LogEntry};

    ghost Value = { LogEntry };

    ghost view = { λ e. record { moment = e.moment; «datagram» = e.datagram.items } };
}

/// The octets that one or more pairs of hex digits write.
fn read_pairs(alloc: Global, digits: &[u8]) -> Result<Option<Vec<u8>>, AllocError>
    ensures { IfOk result (λ octets. AreReadAs digits.now (option_map (λ v. v.items) octets)) }
{
    if digits.is_empty() {
        return Ok(None);
    }
    match hex::decode(alloc, digits) {
        Ok(octets) => Ok(Some(octets)),
        Err(FromHexError::OutOfMemory) => Err(AllocError),
        Err(FromHexError::InvalidHexCharacter { .. }) => Ok(None),
        Err(FromHexError::OddLength) => Ok(None),
        Err(FromHexError::InvalidStringLength) => Ok(None),
    }
}

/// What a line says, without its line feed.
pub(crate) fn read_entry(alloc: Global, line: &[u8]) -> Result<Option<LoggedDatagram>, AllocError>
    ensures { IfOk result (λ entry. IsReadAs line.now entry) }
{
    let Some((digits, pairs)) = split_once(line, b' ') else {
        return Ok(None);
    };
    let Some(moment) = read_decimal(digits, u64::MAX) else {
        return Ok(None);
    };
    match read_pairs(alloc, pairs)? {
        Some(datagram) => Ok(Some(LoggedDatagram { moment, datagram })),
        None => Ok(None),
    }
}

/// What a read of the next line met: the line, the end, or octets that are no line.
#[derive(Clone, Copy, Debug, PartialEq, Eq)]
pub(crate) enum NextLine {
    /// A line with its line feed.
    Whole,
    /// No octet more.
    End,
    /// Over the limit.
    TooLong,
    /// A last line without its line feed.
    NoLineFeed,
}

/// What octets that are read ahead are to a line.
#[derive(Clone, Copy, Debug, PartialEq, Eq)]
pub(crate) enum Ahead {
    /// They have its line feed.
    LineFeed,
    /// All of them are the line's, which goes on.
    More,
    /// There are none.
    End,
    /// They make it longer than the limit.
    TooLong,
}

/// How octets that are read ahead are cut.
#[derive(Clone, Copy, Debug, PartialEq, Eq)]
pub(crate) struct CutAhead {
    pub(crate) ahead: Ahead,
    /// How many of them the line gets.
    pub(crate) taken: usize,
    /// How many of them are not looked at again.
    pub(crate) passed: usize,
}

/// Cuts octets that are read ahead, where the line has room for so many more.
fn cut_ahead(octets: &[u8], room: usize) -> CutAhead
    requires { room ≤ 131072 }
    ensures taken { (result.taken ≤ length octets.now) × (result.taken ≤ room) }
    ensures passed { result.passed ≤ length octets.now }
    ensures cut { IsCut octets.now room result.ahead result.taken result.passed }
{
    let end = find(octets, b'\n');
    if end > room {
        return CutAhead {
            ahead: Ahead::TooLong,
            taken: 0,
            passed: room + 1,
        };
    }
    if end < octets.len() {
        return CutAhead {
            ahead: Ahead::LineFeed,
            taken: end,
            passed: end + 1,
        };
    }
    let ahead = if end == 0 { Ahead::End } else { Ahead::More };
    CutAhead {
        ahead,
        taken: end,
        passed: end,
    }
}

/// Looks once at what is read ahead, and moves to `line` what the line has of it. `None` is for a read that
/// was interrupted.
fn look<R: BufRead>(reader: &mut R, line: &mut Vec<u8>) -> Result<Option<Ahead>, Failed>
    requires short { vec_len line.old ≤ 131072 }
    requires capacity { 131072 ≤ vec_capacity line.old }
    ensures ok { IfOk result
        (λ ahead. Looks line.old.items line.new.items (R.remaining reader.old)
        (R.remaining reader.new) ahead) }
    ensures err { OnErr result
        ((line.new.items ≡ line.old.items)
        × Keeps (R.remaining reader.old) (R.remaining reader.new)) }
    ensures short { vec_len line.new ≤ 131072 }
    ensures capacity { 131072 ≤ vec_capacity line.new }
{
    let octets = match reader.fill_buf() {
        Ok(octets) => octets,
        Err(e) => {
            return if e.kind() == ErrorKind::Interrupted {
                Ok(None)
            } else {
                Err(Failed)
            };
        }
    };
    let cut = cut_ahead(octets, LINE_LIMIT - line.len());
    line.extend_from_slice(&octets[..cut.taken]).unwrap();
    reader.consume(cut.passed);
    Ok(Some(cut.ahead))
}

/// Looks at what is read ahead, again where a read is interrupted, up to a thousand times in a row.
fn look_on<R: BufRead>(reader: &mut R, line: &mut Vec<u8>) -> Result<Ahead, Failed>
    requires short { vec_len line.old ≤ 131072 }
    requires capacity { 131072 ≤ vec_capacity line.old }
    ensures ok { IfOk result
        (LooksAhead line.old.items line.new.items (R.remaining reader.old)
        (R.remaining reader.new)) }
    ensures err { OnErr result
        ((line.new.items ≡ line.old.items)
        × Keeps (R.remaining reader.old) (R.remaining reader.new)) }
    ensures short { vec_len line.new ≤ 131072 }
    ensures capacity { 131072 ≤ vec_capacity line.new }
{
    for _ in 0..TRIES {
        if let Some(ahead) = look(reader, line)? {
            return Ok(ahead);
        }
    }
    Err(Failed)
}

/// Reads one octet more, and moves it to `line` where the line has it. At the end there is none.
fn take_octet<R: Read>(reader: &mut R, line: &mut Vec<u8>) -> Result<Ahead, Failed>
    requires short { vec_len line.old ≤ 131072 }
    requires capacity { 131072 ≤ vec_capacity line.old }
    ensures ok { IfOk result
        (LooksAhead line.old.items line.new.items (R.remaining reader.old)
        (R.remaining reader.new)) }
    ensures end { result ≡ Ok Ahead.End → IsAtEnd (R.remaining reader.new) }
    ensures err { OnErr result
        ((line.new.items ≡ line.old.items)
        × Keeps (R.remaining reader.old) (R.remaining reader.new)) }
    ensures short { vec_len line.new ≤ 131072 }
    ensures capacity { 131072 ≤ vec_capacity line.new }
{
    let Some(octet) = read_octet(reader)? else {
        return Ok(Ahead::End);
    };
    if octet == b'\n' {
        return Ok(Ahead::LineFeed);
    }
    if line.len() == LINE_LIMIT {
        return Ok(Ahead::TooLong);
    }
    line.push(octet).unwrap();
    Ok(Ahead::More)
}

/// Moves some octets more to `line`, up to its line feed. Where none is read ahead, it is the reader who says
/// that it is at its end.
fn take_more<R: BufRead>(reader: &mut R, line: &mut Vec<u8>) -> Result<Ahead, Failed>
    requires short { vec_len line.old ≤ 131072 }
    requires capacity { 131072 ≤ vec_capacity line.old }
    ensures ok { IfOk result
        (LooksAhead line.old.items line.new.items (R.remaining reader.old)
        (R.remaining reader.new)) }
    ensures end { result ≡ Ok Ahead.End → IsAtEnd (R.remaining reader.new) }
    ensures err { OnErr result
        ((line.new.items ≡ line.old.items)
        × Consumes (R.remaining reader.old) (R.remaining reader.new) []) }
    ensures short { vec_len line.new ≤ 131072 }
    ensures capacity { 131072 ≤ vec_capacity line.new }
{
    match look_on(reader, line)? {
        Ahead::LineFeed => Ok(Ahead::LineFeed),
        Ahead::More => Ok(Ahead::More),
        Ahead::End => take_octet(reader, line),
        Ahead::TooLong => Ok(Ahead::TooLong),
    }
}

/// Reads the next line into `line`, without its line feed.
pub(crate) fn read_line<R: BufRead>(reader: &mut R, line: &mut Vec<u8>) -> Result<NextLine, Failed>
    requires { 131072 ≤ vec_capacity line.old }
    ensures ok { IfOk result (ReadsLine line.new.items (R.remaining reader.old)
        (R.remaining reader.new)) }
    ensures err { OnErr result (ReadsPart (R.remaining reader.old) (R.remaining reader.new)) }
    ensures capacity { 131072 ≤ vec_capacity line.new }
{
    line.clear();
    'pieces: loop {
        match take_more(reader, line)? {
            Ahead::LineFeed => return Ok(NextLine::Whole),
            Ahead::More => {}
            Ahead::End => {
                if line.is_empty() {
                    return Ok(NextLine::End);
                }
                return Ok(NextLine::NoLineFeed);
            }
            Ahead::TooLong => return Ok(NextLine::TooLong),
        }
    }
}
