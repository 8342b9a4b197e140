//! The lines of a text with dumps.

ghost use Rattle.std.specs.Prelude.{◌≡◌, ◌≢◌, ◌<◌, ◌≤◌, [], true, length, map, IfOk};
ghost use Rattle.capture_dumps.specs.Line as spec;
ghost use Rattle.capture_dumps.specs.Line.{AreLines, IsFirstLine, IsKindAt, IsKindOf, are_digits, are_pairs};
ghost use Rattle.capture_dumps.specs.Line.{first_word, has_pairs, kind, word_size};
ghost use Rattle.capture_dumps.specs.Offset.{told};

use crate::column::are_blanks;
use crate::dump::{blanks, is_blank};
use crate::offset::{Offset, is_zero_offset, offset_of};
use crate::part::digit_value;
use crate::row::row_octets;
use snmp_ber::split_once;
use std::alloc::{AllocError, Global};

/// What a line is to a dump.
#[derive(Drop)]
pub(crate) enum Line<'a> {
    /// It begins with no offset.
    Other,
    /// The first line of a dump, with the offset 0 and these octets.
    Begin { octets: Vec<u8> },
    /// A line with the offset that these digits write and these octets, or without octets.
    More { digits: &'a [u8], octets: Vec<u8> },
    /// Something else than a pair comes after the offset.
    Words,
    /// Pairs come after the offset, and can't be read.
    Bad,
}

/// How many octets the text has before its first blank.
fn word_size(text: &[u8]) -> usize
    ensures within { result ≤ length text.now }
    ensures is { result ≡ word_size text.now }
{
    for (place, octet) in text.iter().enumerate() {
        if is_blank(*octet) {
            return place;
        }
    }
    text.len()
}

/// The first word of a text.
fn first_word(text: &[u8]) -> &[u8]
    ensures { result.now ≡ first_word text.now }
{
    let (_, text) = text.split_at(blanks(text));
    let (word, _) = text.split_at(word_size(text));
    word
}

/// Nothing but hex digits.
fn are_digits(word: &[u8]) -> bool
    ensures { result ≡ are_digits word.now }
{
    word.iter().all(|octet| digit_value(*octet).is_some())
}

/// The word is pairs of hex digits, one at least.
fn are_pairs(word: &[u8]) -> bool
    ensures { result ≡ are_pairs word.now }
{
    !word.is_empty() && word.len() % 2 == 0 && are_digits(word)
}

/// The first word behind the offset is pairs.
fn has_pairs(offset: &Offset<'_>) -> bool
    ensures { result ≡ has_pairs (told offset.now) }
{
    are_pairs(first_word(offset.rest))
}

/// Behind a colon pairs may be joined; else the first is by itself.
fn is_apart(offset: &Offset<'_>) -> bool
    ensures { result ≡ spec.is_apart (told offset.now) }
{
    offset.colon || first_word(offset.rest).len() == 2
}

/// What a line is whose offset is followed by pairs.
fn row_line<'a>(alloc: Global, offset: &Offset<'a>) -> Result<Line<'a>, AllocError>
    requires { has_pairs (told offset.now) ≡ true }
    ensures { IfOk result (λ line. IsKindAt (told offset.now) (kind line)) }
{
    if !is_apart(offset) {
        return Ok(Line::Bad);
    }
    let Some(octets) = row_octets(alloc, offset.rest)? else {
        return Ok(Line::Bad);
    };
    let digits = offset.digits;
    if is_zero_offset(digits) {
        return Ok(Line::Begin { octets });
    }
    Ok(Line::More { digits, octets })
}

/// What a line is that begins with this offset.
fn line_at<'a>(alloc: Global, offset: &Offset<'a>) -> Result<Line<'a>, AllocError>
    ensures { IfOk result (λ line. IsKindAt (told offset.now) (kind line)) }
{
    if has_pairs(offset) {
        return row_line(alloc, offset);
    }
    if !are_blanks(offset.rest) {
        return Ok(Line::Words);
    }
    let digits = offset.digits;
    let octets = Vec::new(alloc);
    Ok(Line::More { digits, octets })
}

/// The text without a carriage return at its end.
fn without_return(text: &[u8]) -> &[u8]
    ensures { result.now ≡ spec.without_return text.now }
{
    let size = text.len();
    if size > 0 && text[size - 1] == b'\r' {
        text.split_at(size - 1).0
    } else {
        text
    }
}

/// What a line is.
fn read_line(alloc: Global, text: &[u8]) -> Result<Line<'_>, AllocError>
    ensures { IfOk result (λ line. IsKindOf text.now (kind line)) }
{
    match offset_of(without_return(text)) {
        Some(offset) => line_at(alloc, &offset),
        None => Ok(Line::Other),
    }
}

/// The first line, without its line feed, and the text behind it.
fn first_line(text: &[u8]) -> (&[u8], &[u8])
    requires some { text.now ≢ [] }
    ensures line { IsFirstLine text.now result.0.now result.1.now }
    ensures shorter { length result.1.now < length text.now }
{
    match split_once(text, b'\n') {
        Some(parts) => parts,
        None => (text, &[]),
    }
}

/// What the lines of a text are.
pub(crate) fn read_lines(alloc: Global, text: &[u8]) -> Result<Vec<Line<'_>>, AllocError>
    ensures { IfOk result (λ lines. AreLines text.now (map kind lines.items)) }
{
    let mut lines = Vec::new(alloc);
    let mut rest = text;
    'lines: while !rest.is_empty() {
        let (line, later) = first_line(rest);
        lines.push(read_line(alloc, line)?)?;
        rest = later;
    }
    Ok(lines)
}
