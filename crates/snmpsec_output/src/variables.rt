//! Object identifiers in decimals with dots between.

ghost use Rattle.std.specs.Prelude.{◌≡◌, MatchOption};
ghost use Rattle.std.specs.Char.{is_ascii_digit};
ghost use Rattle.std.specs.List.{list_all};
ghost use Rattle.snmpsec_output.specs.Variables.{IsDotted, IsNumber, TellsNumber, TellsVariable};

use snmp_ber::read_decimal;
use snmpsec_io::Quoted;
use std::fmt;

/// The most numbers of an object identifier (RFC 2578, section 3.5).
const NUMBERS: usize = 128;

/// Why a word isn't the numbers of an object identifier with dots between. Numbers are counted from 1.
#[derive(Clone, Copy)]
pub enum VariableFault<'a> {
    Empty,
    /// There is a dot before the first number; and what follows it.
    DotInFront { rest: &'a str },
    /// There is nothing where this number would be.
    Missing { at: usize },
    /// What is there has something else than digits.
    NoNumber { at: usize, word: &'a str },
    /// The number there is above 4294967295, or has a 0 in front.
    OutOfRange { at: usize, word: &'a str },
    /// There are over 128 numbers: this many.
    TooMany { count: usize },
}

/// What is wrong with a word that has to be 1 to 128 numbers of 32 bits with dots between, in decimal without
/// sign or leading zeros. None where it is.
pub fn variable_fault(word: &str) -> Option<VariableFault<'_>>
    ensures exact { MatchOption result (IsDotted word.now) (TellsVariable word.now) }
{
    if word.is_empty() {
        return Some(VariableFault::Empty);
    }
    if let Some(rest) = word.strip_prefix('.') {
        return Some(VariableFault::DotInFront { rest });
    }
    let mut count = 0usize;
    for part in word.split('.') {
        count = count.saturating_add(1);
        if let Some(fault) = number_fault(count, part) {
            return Some(fault);
        }
    }
    if count > NUMBERS {
        return Some(VariableFault::TooMany { count });
    }
    None
}

/// What is wrong with the number at this place. None where it is one.
fn number_fault(at: usize, word: &str) -> Option<VariableFault<'_>>
    ensures exact { MatchOption result (IsNumber word.now) (TellsNumber at word.now) }
{
    if read_decimal(word.as_bytes(), u64::from(u32::MAX)).is_some() {
        return None;
    }
    if word.is_empty() {
        return Some(VariableFault::Missing { at });
    }
    if are_digits(word.as_bytes()) {
        return Some(VariableFault::OutOfRange { at, word });
    }
    Some(VariableFault::NoNumber { at, word })
}

/// All are decimal digits.
fn are_digits(octets: &[u8]) -> bool
    ensures { result ≡ list_all is_ascii_digit octets.now }
{
    octets.iter().all(|octet| octet.is_ascii_digit())
}

impl fmt::Display for VariableFault<'_> {
    fn fmt<W: fmt::Write>(&self, f: &mut fmt::Formatter<W>) -> fmt::Result {
        match self {
            VariableFault::Empty => write!(f, "it is empty"),
            VariableFault::DotInFront { rest } => {
                write!(f, "it begins with a dot, try {}", Quoted(rest))
            }
            VariableFault::Missing { at } => write!(f, "number {at} is missing"),
            VariableFault::NoNumber { at, word } => {
                let word = Quoted(word);
                write!(
                    f,
                    "number {at}, {word}, isn't a number (`snmptranslate -On` prints those of a name)"
                )
            }
            VariableFault::OutOfRange { at, word } => {
                let word = Quoted(word);
                write!(
                    f,
                    "number {at}, {word}, is above 4294967295 or begins with 0"
                )
            }
            VariableFault::TooMany { count } => {
                write!(f, "it has {count} numbers, and may have {NUMBERS} at most")
            }
        }
    }
}
