//! Dumps: texts with an offset before the octets of each line. They are known by their first line, and not read.

ghost use Rattle.std.specs.Prelude.{◌≡◌, ◌-◌, ◌<◌, ◌≤◌, ◌==◌, false, length, MatchBool, MatchOption};
ghost use Rattle.capture_dumps.specs.Dump.{BeginsLine, HasDumpOn, HasNoDump, IsFirstDump, begins_dump, begins_octets};
ghost use Rattle.capture_dumps.specs.Dump.{begins_offset, begins_pair, begins_prefix, blanks, colon_size, is_blank};
ghost use Rattle.capture_dumps.specs.Dump.{prefix_size, zeros};

use crate::part::{digit_value, octet_at};
use crate::place::place_behind;

/// A blank or a tab.
pub fn is_blank(octet: u8) -> bool
    ensures { result ≡ is_blank octet }
{
    octet == b' ' || octet == b'\t'
}

/// How many blanks and tabs the text begins with.
pub fn blanks(text: &[u8]) -> usize
    ensures within { result ≤ length text.now }
    ensures is { result ≡ blanks text.now }
{
    for (place, octet) in text.iter().enumerate() {
        if !is_blank(*octet) {
            return place;
        }
    }
    text.len()
}

/// How many digits 0 the text begins with.
fn zeros(text: &[u8]) -> usize
    ensures within { result ≤ length text.now }
    ensures is { result ≡ zeros text.now }
{
    for (place, octet) in text.iter().enumerate() {
        if *octet != b'0' {
            return place;
        }
    }
    text.len()
}

/// How many octets `0x` or `0X` has at the beginning of the text: 2, or 0 if neither is there.
pub fn prefix_size(text: &[u8]) -> usize
    ensures within { result ≤ length text.now }
    ensures is { result ≡ prefix_size text.now }
{
    let second = octet_at(text, 1);
    if octet_at(text, 0) == b'0' && (second == b'x' || second == b'X') {
        2
    } else {
        0
    }
}

/// How many colons the text begins with, at most 1.
pub fn colon_size(text: &[u8]) -> usize
    ensures within { result ≤ length text.now }
    ensures is { result ≡ colon_size text.now }
{
    if octet_at(text, 0) == b':' { 1 } else { 0 }
}

/// The text begins with a pair of hex digits.
fn begins_pair(text: &[u8]) -> bool
    ensures { result ≡ begins_pair text.now }
{
    digit_value(octet_at(text, 0)).is_some() && digit_value(octet_at(text, 1)).is_some()
}

/// The text begins as one does behind an offset and a colon: a blank at least, and a pair.
fn begins_octets(text: &[u8]) -> bool
    ensures { result ≡ begins_octets text.now }
{
    let gap = blanks(text);
    gap >= 1 && begins_pair(&text[gap..])
}

/// The text begins with an offset 0 and an octet behind it.
fn begins_offset(text: &[u8]) -> bool
    ensures { result ≡ begins_offset text.now }
{
    let digits = zeros(text);
    if digits < 4 || digits > 8 {
        return false;
    }
    let behind = &text[digits..];
    begins_octets(&behind[colon_size(behind)..])
}

/// The text begins with an offset 0, perhaps behind `0x` or `0X`, and an octet.
fn begins_prefix(text: &[u8]) -> bool
    ensures { result ≡ begins_prefix text.now }
{
    begins_offset(&text[prefix_size(text)..])
}

/// The text begins as a dump does.
fn begins_dump(text: &[u8]) -> bool
    ensures { result ≡ begins_dump text.now }
{
    begins_prefix(&text[blanks(text)..])
}

/// At this place begins a line.
fn begins_line(text: &[u8], place: usize) -> bool
    requires { place ≤ length text.now }
    ensures { MatchBool result (BeginsLine text.now place) (BeginsLine text.now place → ⊥) }
{
    place == 0 || text[place - 1] == b'\n'
}

/// The first place at which a line begins, and a dump.
fn dump_place(text: &[u8]) -> Option<usize>
    ensures { MatchOption result (HasNoDump text.now)
        (λ place. (place ≤ length text.now) × IsFirstDump text.now place) }
{
    for place in 0..text.len() {
        if begins_line(text, place) && begins_dump(&text[place..]) {
            return Some(place);
        }
    }
    None
}

/// The number of the line, from 1, on which a dump first begins in a text: blanks, perhaps `0x` or `0X`, an
/// offset of 4 to 8 digits 0, perhaps a colon, a blank at least, and a pair of hex digits. `None` where no
/// line is so.
pub fn dump_line(text: &[u8]) -> Option<u64>
    ensures { MatchOption result (HasNoDump text.now) (λ line. HasDumpOn text.now line) }
{
    let place = dump_place(text)?;
    Some(place_behind(&text[..place]).line)
}
