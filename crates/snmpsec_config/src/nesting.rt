//! How deep a text is nested, looked at before it is read as TOML. Reading takes stack for each level.

ghost use Rattle.std.specs.Prelude.{◌≡◌, ◌-◌, ◌<◌, ◌≤◌, length, IfOk, IfSome, MatchOption, IsUtf8};
ghost use Rattle.std.specs.Prelude.{option_map, MatchBool};
ghost use Rattle.toml_parser.specs.Lexical.{skip_blank};
ghost use Rattle.snmpsec_config.specs.declared.nesting.Mark.TheVariants.{Opens};
ghost use Rattle.snmpsec_config.specs.Nesting as spec;
ghost use Rattle.snmpsec_config.specs.Nesting.{IsShallow, IsTooDeepAt, OpensTooMany};

use std::alloc::{AllocError, Global};
use toml_parser::text::{first, skip, skip_blank};
use toml_parser::{ParseError, quoted, starts_string};

/// The most brackets that may be open. The rows of a configuration have two.
const MOST_OPEN: usize = 16;

/// What a piece of a text does, outside of strings and comments.
#[derive(Clone, Copy)]
pub(crate) enum Mark {
    /// It opens a bracket.
    Opens,
    /// It closes one.
    Closes,
    /// It does neither.
    Neither,
}

impl Mark {
    /// What an octet does.
    fn of(octet: u8) -> Mark
        ensures { result ≡ spec.mark_of octet }
    {
        match octet {
            b'[' | b'{' => Mark::Opens,
            b']' | b'}' => Mark::Closes,
            _ => Mark::Neither,
        }
    }

    /// It opens a bracket beside as many as may be open.
    fn opens_too_many(self, count: usize) -> bool
        ensures { MatchBool result ((self ≡ Opens) × (count ≡ 16))
            (count ≡ 16 → self ≡ Opens → ⊥) }
    {
        matches!(self, Mark::Opens) && count == MOST_OPEN
    }

    /// How many brackets are open behind it, of which so many were open in front.
    fn open_behind(self, count: usize) -> usize
        requires { count ≤ 16 }
        ensures { result ≡ spec.open_behind self count }
    {
        match self {
            Mark::Opens => count + 1,
            Mark::Closes => count.saturating_sub(1),
            Mark::Neither => count,
        }
    }
}

/// Reads the piece with which a text begins, a string or an octet, and answers what is behind it.
fn read_piece(alloc: Global, text: &str) -> Result<Option<(Mark, &str)>, AllocError>
    ensures piece { IfOk result
        (λ read. option_map (λ r. (r.0, r.1.now)) read ≡ spec.piece text.now) }
    ensures shorter { IfOk result
        (λ read. IfSome read (λ r. length r.1.now < length text.now)) }
{
    if starts_string(text) {
        return match quoted(alloc, text) {
            Ok((_, behind)) => Ok(Some((Mark::Neither, behind))),
            Err(ParseError::OutOfMemory) => Err(AllocError),
            Err(ParseError::At(..)) => Ok(None),
        };
    }
    let octet = first(text);
    if octet == 0 || octet >= 128 {
        return Ok(None);
    }
    Ok(Some((Mark::of(octet), skip(text, 1))))
}

/// The text from the first bracket on that opens beside 16 others.
fn too_deep(alloc: Global, text: &str) -> Result<Option<&str>, AllocError>
    ensures { IfOk result
        (λ found. MatchOption found (IsShallow text.now)
        (λ rest. OpensTooMany 0 text.now (length rest.now) × (length rest.now ≤ length text.now))) }
{
    let mut count = 0usize;
    let mut rest = text;
    'pieces: loop {
        let here = skip_blank(rest, true);
        let Some((mark, behind)) = read_piece(alloc, here)? else {
            return Ok(None);
        };
        if mark.opens_too_many(count) {
            return Ok(Some(here));
        }
        count = mark.open_behind(count);
        rest = behind;
    }
}

/// The line and the column behind these octets of a text, from 1. A column counts characters.
fn position_behind(octets: &[u8]) -> (usize, usize)
    ensures { result ≡ spec.position_behind octets.now }
{
    let (mut line, mut column) = (1usize, 1usize);
    for octet in octets {
        if *octet == b'\n' {
            line += 1;
            column = 1;
        } else if *octet / 64 != 2 {
            column += 1;
        }
    }
    (line, column)
}

/// The line and the column of the first bracket that opens beside 16 others, where the text is in UTF-8.
pub(crate) fn too_deep_at(alloc: Global, text: &[u8]) -> Result<Option<(usize, usize)>, AllocError>
    ensures { IfOk result
        (λ found. MatchOption found (IsUtf8 text.now → IsShallow text.now)
        (λ at. IsUtf8 text.now × IsTooDeepAt text.now at.0 at.1)) }
{
    let Ok(octets) = std::str::from_utf8(text) else {
        return Ok(None);
    };
    match too_deep(alloc, octets)? {
        Some(rest) => Ok(Some(position_behind(&text[..text.len() - rest.len()]))),
        None => Ok(None),
    }
}
