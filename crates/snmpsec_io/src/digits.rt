//! Pairs of hex digits.

ghost use Rattle.std.specs.Prelude.{◌≡◌, ◌<◌, ◌≤◌, ℕ, length, slice_index, true, false, MatchOption};
ghost use Rattle.std.specs.Char.{is_ascii_hexdigit};
ghost use Rattle.snmpsec_io.specs.Digits.{ArePairs, TellsDigits};

use crate::quoted::write_escaped;
use std::fmt;

/// Why a word isn't one or more pairs of hex digits.
#[derive(Clone, Copy, Debug, PartialEq, Eq, Drop)]
pub enum DigitsFault {
    Empty,
    /// The number of the first character that isn't a hex digit, from 1, and the character.
    NoDigit { at: usize, found: char },
    /// All are digits, and this many.
    Odd { count: usize },
}

/// What is wrong with a word that has to be one or more pairs of hex digits, of either case. None if nothing is.
pub fn digits_fault(word: &str) -> Option<DigitsFault>
    ensures exact { MatchOption result (ArePairs word.now) (TellsDigits word.now) }
{
    match octet_digits_fault(word.as_bytes()) {
        Some(DigitsFault::NoDigit { at, .. }) => {
            let found = word
                .chars()
                .nth(at.saturating_sub(1))
                .unwrap_or(char::REPLACEMENT_CHARACTER);
            Some(DigitsFault::NoDigit { at, found })
        }
        other => other,
    }
}

/// What is wrong with octets that have to be one or more pairs of hex digits. An octet that isn't a digit is the
/// character of its number (ISO 8859-1).
pub fn octet_digits_fault(octets: &[u8]) -> Option<DigitsFault>
    ensures exact { MatchOption result (ArePairs octets.now) (TellsDigits octets.now) }
{
    if octets.is_empty() {
        return Some(DigitsFault::Empty);
    }
    let front = digits_in_front(octets);
    if front < octets.len() {
        let at = front + 1;
        let found = char::from(octets[front]);
        return Some(DigitsFault::NoDigit { at, found });
    }
    if front % 2 == 1 {
        return Some(DigitsFault::Odd { count: front });
    }
    None
}

/// How many octets come before the first that isn't a hex digit.
fn digits_in_front(octets: &[u8]) -> usize
    ensures within { result ≤ length octets.now }
    ensures before { (k : ℕ) → k < result → is_ascii_hexdigit (slice_index octets.now k) ≡ true }
    ensures found { result < length octets.now
        → is_ascii_hexdigit (slice_index octets.now result) ≡ false }
{
    for (count, octet) in octets.iter().enumerate() {
        if !octet.is_ascii_hexdigit() {
            return count;
        }
    }
    octets.len()
}

impl fmt::Display for DigitsFault {
    fn fmt<W: fmt::Write>(&self, f: &mut fmt::Formatter<W>) -> fmt::Result {
        match self {
            DigitsFault::Empty => write!(f, "it is empty"),
            DigitsFault::NoDigit { at, found } => {
                write!(f, "character {at}, \"")?;
                write_escaped(f, *found)?;
                write!(f, "\", is no hex digit")
            }
            DigitsFault::Odd { count } => write!(f, "its {count} digits are an odd number"),
        }
    }
}
