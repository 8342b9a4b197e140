//! A value as a message shows it: between quotes, and cut if it is long.

ghost use Rattle.std.specs.Prelude.{◌≡◌, ◌↔◌, ◌<◌, IsTrue, length, take};
ghost use Rattle.snmpsec_io.specs.declared.quoted.TheConstants.{SHOWN};

use std::fmt;

/// The most characters of a value that are shown.
const SHOWN: usize = 40;

/// A text between quotes, its first 40 characters as a TOML basic string has them. `...` follows a longer one.
#[derive(Clone, Copy, Debug, PartialEq, Eq)]
pub struct Quoted<'a>(pub &'a str);

impl fmt::Display for Quoted<'_> {
    fn fmt<W: fmt::Write>(&self, f: &mut fmt::Formatter<W>) -> fmt::Result {
        write!(f, "\"")?;
        for character in self.0.chars().take(SHOWN) {
            write_escaped(f, character)?;
        }
        let is_cut = self.0.chars().nth(SHOWN).is_some();
        write!(f, "\"{}", if is_cut { "..." } else { "" })
    }
}

/// The first 40 octets of a value that may be no text, and whether there are more. Each octet is shown as the
/// character of its number (ISO 8859-1), between quotes as `Quoted` shows a text. It holds no memory.
#[derive(Clone, Copy, PartialEq, Eq)]
pub struct Excerpt {
    octets: [u8; SHOWN],
    len: usize,
    is_cut: bool,
}

impl Excerpt {
    /// The beginning of these octets.
    pub fn of(octets: &[u8]) -> Excerpt
        ensures shown { take result.len result.octets ≡ take SHOWN octets.now }
        ensures cut { IsTrue result.is_cut ↔ SHOWN < length octets.now }
    {
        let mut beginning = [0u8; SHOWN];
        let len = octets.len().min(SHOWN);
        beginning[..len].copy_from_slice(&octets[..len]);
        Excerpt {
            octets: beginning,
            len,
            is_cut: octets.len() > SHOWN,
        }
    }
}

impl fmt::Display for Excerpt {
    fn fmt<W: fmt::Write>(&self, f: &mut fmt::Formatter<W>) -> fmt::Result {
        write!(f, "\"")?;
        for octet in self.octets.iter().take(self.len) {
            write_escaped(f, char::from(*octet))?;
        }
        write!(f, "\"{}", if self.is_cut { "..." } else { "" })
    }
}

impl fmt::Debug for Excerpt {
    fn fmt<W: fmt::Write>(&self, f: &mut fmt::Formatter<W>) -> fmt::Result {
        write!(f, "{self}")
    }
}

/// A character as a TOML basic string has it.
pub(crate) fn write_escaped<W: fmt::Write>(
    f: &mut fmt::Formatter<W>,
    character: char,
) -> fmt::Result {
    match character {
        '"' | '\\' => write!(f, "\\{character}"),
        '\0'..='\u{1f}' | '\u{7f}' => write!(f, "\\u{:04X}", character as u32),
        _ => write!(f, "{character}"),
    }
}
