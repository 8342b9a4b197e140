//! How a key is shown.

ghost use Rattle.std.specs.Prelude.{◌≡◌, ◌++◌, ◌<◌, OnOk, IfOk, string_bytes};
ghost use Rattle.std.specs.List.{list_all};
ghost use Rattle.toml_parser.specs.Lexical.{is_bare};
ghost use Rattle.snmpsec_config.specs.Shown as spec;
ghost use Rattle.snmpsec_config.specs.Shown.{quoted_char, quoted_key, is_bare_key};

use std::alloc::{AllocError, Global};
use toml_parser::bytes::is_bare;

/// A bare key of TOML may have each of the octets.
fn are_bare(octets: &[u8]) -> bool
    ensures { result ≡ list_all is_bare octets.now }
{
    octets.iter().all(|octet| is_bare(*octet))
}

/// The key needs no quotes in TOML.
fn is_bare_key(key: &str) -> bool
    ensures { result ≡ is_bare_key key.now }
{
    !key.is_empty() && are_bare(key.as_bytes())
}

/// A hex digit, with capitals.
fn digit(value: u8) -> char
    requires { value < 16 }
    ensures { result ≡ spec.digit value }
{
    char::from(if value < 10 { 48 + value } else { 55 + value })
}

/// Appends a control character by its number.
fn push_number(out: &mut String, number: u8) -> Result<(), AllocError>
    ensures { OnOk result (string_bytes out.new ≡ string_bytes out.old ++ spec.number_of number) }
{
    out.push_str("\\u00")?;
    out.push(digit(number / 16))?;
    out.push(digit(number % 16))
}

/// Appends a character as a basic string of TOML has it.
fn push_quoted(out: &mut String, character: char) -> Result<(), AllocError>
    ensures { OnOk result (string_bytes out.new ≡ string_bytes out.old ++ quoted_char character) }
{
    match character {
        '"' => out.push_str("\\\""),
        '\\' => out.push_str("\\\\"),
        '\0'..='\u{1f}' | '\u{7f}' => push_number(out, character as u8),
        _ => out.push(character),
    }
}

/// The key as a basic string of TOML.
fn quoted_key(alloc: Global, key: &str) -> Result<String, AllocError>
    ensures { IfOk result (λ text. string_bytes text ≡ quoted_key key.now) }
{
    let mut text = String::from_str(alloc, "\"")?;
    for character in key.chars() {
        push_quoted(&mut text, character)?;
    }
    text.push_str("\"")?;
    Ok(text)
}

/// Returns the key as TOML has it: as it is if it is bare, else as a basic string.
pub fn shown_key(alloc: Global, key: &str) -> Result<String, AllocError>
    ensures { IfOk result (λ text. string_bytes text ≡ spec.shown_key key.now) }
{
    if is_bare_key(key) {
        return String::from_str(alloc, key);
    }
    quoted_key(alloc, key)
}
