//! The offset at the beginning of a line.

ghost use Rattle.std.specs.Prelude.{◌≡◌, ◌≤◌, None, Some, length, MatchOption};
ghost use Rattle.capture_dumps.specs.Offset as spec;
ghost use Rattle.capture_dumps.specs.Offset.{digit_count, stands_apart, told};

use crate::dump::{blanks, colon_size, is_blank, prefix_size};
use crate::part::digit_value;

/// An offset at the beginning of a line.
#[derive(Clone, Copy)]
pub(crate) struct Offset<'a> {
    /// Its hex digits, 4 to 8.
    pub(crate) digits: &'a [u8],
    /// Whether a colon follows it.
    pub(crate) colon: bool,
    /// What follows: a blank and more, or nothing.
    pub(crate) rest: &'a [u8],
}

/// How many hex digits the text begins with.
fn digit_count(text: &[u8]) -> usize
    ensures within { result ≤ length text.now }
    ensures is { result ≡ digit_count text.now }
{
    for (place, octet) in text.iter().enumerate() {
        if digit_value(*octet).is_none() {
            return place;
        }
    }
    text.len()
}

/// The text ends, or begins with a blank.
fn stands_apart(text: &[u8]) -> bool
    ensures { result ≡ stands_apart text.now }
{
    text.is_empty() || is_blank(text[0])
}

/// The offset that the text begins with.
fn digits_of(text: &[u8]) -> Option<Offset<'_>>
    ensures { MatchOption result (spec.digits_of text.now ≡ None)
        (λ offset. spec.digits_of text.now ≡ Some (told offset)) }
{
    let count = digit_count(text);
    if count < 4 || count > 8 {
        return None;
    }
    let (digits, behind) = text.split_at(count);
    let colon = colon_size(behind);
    let (_, rest) = behind.split_at(colon);
    if !stands_apart(rest) {
        return None;
    }
    Some(Offset {
        digits,
        colon: colon == 1,
        rest,
    })
}

/// The same, perhaps behind `0x` or `0X`.
fn read_prefixed(text: &[u8]) -> Option<Offset<'_>>
    ensures { MatchOption result (spec.prefixed text.now ≡ None)
        (λ offset. spec.prefixed text.now ≡ Some (told offset)) }
{
    let (_, text) = text.split_at(prefix_size(text));
    digits_of(text)
}

/// The offset that the text begins with, perhaps behind blanks: perhaps `0x` or `0X`, 4 to 8 hex digits,
/// perhaps a colon, and a blank or the end of the text.
pub(crate) fn offset_of(text: &[u8]) -> Option<Offset<'_>>
    ensures { MatchOption result (spec.offset_of text.now ≡ None)
        (λ offset. spec.offset_of text.now ≡ Some (told offset)) }
{
    let (_, text) = text.split_at(blanks(text));
    read_prefixed(text)
}

/// The digits are zeros.
pub(crate) fn is_zero_offset(digits: &[u8]) -> bool
    ensures { result ≡ spec.is_zero_offset digits.now }
{
    digits.iter().all(|digit| *digit == b'0')
}
