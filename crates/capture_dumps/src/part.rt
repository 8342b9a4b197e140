//! What a text of hex begins with.

ghost use Rattle.std.specs.Prelude.{◌≡◌, ◌≤◌, slice_index};
ghost use Rattle.hex.specs.Hex.{hex_digit_value};
ghost use Rattle.capture_dumps.specs.Text.{is_between};
ghost use Rattle.capture_dumps.specs.Part.{first_part, gap_size, pair_value, prefix_size};

/// What is at the beginning of a text.
#[derive(Clone, Copy, Debug, PartialEq, Eq)]
pub(crate) enum Part {
    /// So many octets between pairs.
    Gap(usize),
    /// An octet, written by so many.
    Octet { octet: u8, size: usize },
}

/// The octet of the text at a place, or 0 behind its end.
pub(crate) fn octet_at(text: &[u8], place: usize) -> u8
    ensures { result ≡ slice_index text.now place }
{
    match text.get(place) {
        Some(octet) => *octet,
        None => 0,
    }
}

/// The octet may stand between pairs: a blank, a tab, one of a line end, or one of `:`, `,`, `-` and `"`.
fn is_between(octet: u8) -> bool
    ensures { result ≡ is_between octet }
{
    octet == b' '
        || octet == b'\t'
        || octet == b'\n'
        || octet == b'\r'
        || octet == b':'
        || octet == b','
        || octet == b'-'
        || octet == b'"'
}

/// How many octets between pairs the text begins with: one that may stand there, or a backslash and a line end, or 0.
fn gap_size(text: &[u8]) -> usize
    ensures { result ≡ gap_size text.now }
{
    let (first, second) = (octet_at(text, 0), octet_at(text, 1));
    if is_between(first) {
        return 1;
    }
    if first != b'\\' {
        return 0;
    }
    if second == b'\n' {
        return 2;
    }
    if second == b'\r' && octet_at(text, 2) == b'\n' {
        return 3;
    }
    0
}

/// How many octets `0x`, `0X` or `\x` has at the beginning of the text: 2, or 0 if none of them is there.
fn prefix_size(text: &[u8]) -> usize
    ensures { result ≡ prefix_size text.now }
{
    let (first, second) = (octet_at(text, 0), octet_at(text, 1));
    if first == b'0' && (second == b'x' || second == b'X') {
        return 2;
    }
    if first == b'\\' && second == b'x' {
        return 2;
    }
    0
}

/// The value of a hex digit of either case.
pub fn digit_value(digit: u8) -> Option<u8>
    ensures { result ≡ hex_digit_value digit }
{
    match digit {
        b'A'..=b'F' => Some(digit - 55),
        b'a'..=b'f' => Some(digit - 87),
        b'0'..=b'9' => Some(digit - 48),
        _ => None,
    }
}

/// The octet whose digits stand at a place of the text.
fn pair_value(text: &[u8], place: usize) -> Option<u8>
    requires { place ≤ 2 }
    ensures { result ≡ pair_value text.now place }
{
    let high = digit_value(octet_at(text, place))?;
    let low = digit_value(octet_at(text, place + 1))?;
    Some(high * 16 + low)
}

/// What the text begins with, or `None` where that isn't part of a text of hex.
pub(crate) fn first_part(text: &[u8]) -> Option<Part>
    ensures { result ≡ first_part text.now }
{
    let gap = gap_size(text);
    if gap > 0 {
        return Some(Part::Gap(gap));
    }
    let prefix = prefix_size(text);
    match pair_value(text, prefix) {
        Some(octet) => Some(Part::Octet {
            octet,
            size: prefix + 2,
        }),
        None => None,
    }
}
