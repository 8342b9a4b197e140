//! Names of users, groups, views and contexts as all commands print them.

ghost use Rattle.std.specs.Prelude.{◌≡◌, ◌<◌, ◌&&◌, not, true, ◌++◌, OnOk, IfOk, flat_map, chars, string_bytes};
ghost use Rattle.std.specs.List.{list_all};
ghost use Rattle.snmpsec_access.specs.NameText as spec;
ghost use Rattle.snmpsec_access.specs.NameText.{digit, escaped, escaped_octet, four_digits, inside_quotes};
ghost use Rattle.snmpsec_access.specs.NameText.{is_graphic, is_mark};
ghost use Rattle.snmpsec_access.specs.NameText.{is_own_text, is_printable, name_text, quoted, two_digits};

use std::alloc::{AllocError, Global};

/// Whether a name may have the octet as it is: printable ASCII but a blank, a quote or a backslash.
fn is_plain(octet: u8) -> bool
    ensures { result ≡ (is_graphic octet && not (is_mark octet)) }
{
    octet > 32 && octet < 127 && !matches!(octet, b'"' | b'\'' | b'\\')
}

/// Whether a name may have each of the octets as it is.
fn are_plain(octets: &[u8]) -> bool
    ensures { result ≡ list_all (λ c. is_graphic c && not (is_mark c)) octets.now }
{
    octets.iter().all(|octet| is_plain(*octet))
}

/// Whether the name is printed as it is.
fn is_own_text(name: &[u8]) -> bool
    ensures { result ≡ is_own_text name.now }
{
    !name.is_empty() && name != b"@".as_slice() && are_plain(name)
}

/// A hexadecimal digit, with capitals.
fn digit(value: u8) -> u8
    requires { value < 16 }
    ensures { result ≡ digit value }
{
    if value < 10 { 48 + value } else { 55 + value }
}

/// Appends the last two hexadecimal digits of a number.
fn put_two(out: &mut Vec<u8>, number: u32) -> Result<(), AllocError>
    ensures { OnOk result (out.new.items ≡ out.old.items ++ two_digits number) }
{
    let high = digit((number / 16 % 16) as u8);
    let low = digit((number % 16) as u8);
    out.extend_from_slice(&[high, low])
}

/// Appends the last four hexadecimal digits of a number.
fn put_four(out: &mut Vec<u8>, number: u32) -> Result<(), AllocError>
    ensures { OnOk result (out.new.items ≡ out.old.items ++ four_digits number) }
{
    put_two(out, number / 256)?;
    put_two(out, number)
}

/// Appends what stands for a character between quotes.
fn put_escaped(out: &mut Vec<u8>, character: char) -> Result<(), AllocError>
    ensures { OnOk result (out.new.items ≡ out.old.items ++ escaped character) }
{
    let number = u32::from(character);
    match number {
        34 | 92 => out.extend_from_slice(&[b'\\', number as u8]),
        32..=126 => out.extend_from_slice(&[number as u8]),
        0..=65535 => {
            out.extend_from_slice(b"\\u")?;
            put_four(out, number)
        }
        _ => {
            out.extend_from_slice(b"\\U")?;
            put_four(out, number / 65536)?;
            put_four(out, number)
        }
    }
}

/// Appends what stands between quotes for an octet of a name that isn't UTF-8.
fn put_escaped_octet(out: &mut Vec<u8>, octet: u8) -> Result<(), AllocError>
    ensures { OnOk result (out.new.items ≡ out.old.items ++ escaped_octet octet) }
{
    match octet {
        34 | 92 => out.extend_from_slice(&[b'\\', octet]),
        32..=126 => out.extend_from_slice(&[octet]),
        _ => {
            out.extend_from_slice(b"\\x")?;
            put_two(out, u32::from(octet))
        }
    }
}

/// Appends each character between quotes.
fn put_characters(out: &mut Vec<u8>, text: &str) -> Result<(), AllocError>
    ensures { OnOk result (out.new.items ≡ out.old.items ++ flat_map escaped (chars text.now)) }
{
    for character in text.chars() {
        put_escaped(out, character)?;
    }
    Ok(())
}

/// Appends each octet of a name that isn't UTF-8.
fn put_octets(out: &mut Vec<u8>, name: &[u8]) -> Result<(), AllocError>
    ensures { OnOk result (out.new.items ≡ out.old.items ++ flat_map escaped_octet name.now) }
{
    for octet in name {
        put_escaped_octet(out, *octet)?;
    }
    Ok(())
}

/// Appends what stands for the name between quotes.
fn put_inside(out: &mut Vec<u8>, name: &[u8]) -> Result<(), AllocError>
    ensures { OnOk result (out.new.items ≡ out.old.items ++ inside_quotes name.now) }
{
    match std::str::from_utf8(name) {
        Ok(text) => put_characters(out, text),
        Err(_) => put_octets(out, name),
    }
}

/// Appends the name between quotes, as a basic string of TOML in ASCII. An octet of a name that isn't UTF-8 is `\x` and
/// two digits, which TOML doesn't have.
pub(crate) fn put_quoted(out: &mut Vec<u8>, name: &[u8]) -> Result<(), AllocError>
    ensures { OnOk result (out.new.items ≡ out.old.items ++ quoted name.now) }
{
    out.extend_from_slice(b"\"")?;
    put_inside(out, name)?;
    out.extend_from_slice(b"\"")
}

/// Appends the name of a user, a group, a view or a context as all commands print it: as it is, or between quotes if it
/// is empty, `@`, or has an octet outside of 21 to 7E, a quote or a backslash.
fn put_name(out: &mut Vec<u8>, name: &[u8]) -> Result<(), AllocError>
    ensures { OnOk result (out.new.items ≡ out.old.items ++ name_text name.now) }
{
    if is_own_text(name) {
        out.extend_from_slice(name)
    } else {
        put_quoted(out, name)
    }
}

/// Returns the text of a name (`put_name`).
#[tactic(auto, using(crate::proofs::NameTexts::text_printable))]
pub fn name_text(alloc: Global, name: &[u8]) -> Result<String, AllocError>
    ensures { IfOk result (λ text. string_bytes text ≡ spec.name_text name.now) }
{
    let mut text = Vec::new(alloc);
    put_name(&mut text, name)?;
    Ok(text_of(text))
}

/// Returns the text of the name of a context: `@` if it is empty.
pub fn context_text(alloc: Global, name: &[u8]) -> Result<String, AllocError>
    ensures { IfOk result (λ text. string_bytes text ≡ spec.context_text name.now) }
{
    if name.is_empty() {
        return String::from_str(alloc, "@");
    }
    name_text(alloc, name)
}

/// Returns the name between quotes (`put_quoted`).
#[tactic(auto, using(crate::proofs::NameTexts::quoted_printable))]
pub fn quoted_text(alloc: Global, name: &[u8]) -> Result<String, AllocError>
    ensures { IfOk result (λ text. string_bytes text ≡ quoted name.now) }
{
    let mut text = Vec::new(alloc);
    put_quoted(&mut text, name)?;
    Ok(text_of(text))
}

/// Returns octets that are printable ASCII as a text.
#[tactic(auto, using(crate::proofs::NameTexts::printable_is_utf8))]
fn text_of(octets: Vec<u8>) -> String
    requires { list_all is_printable octets.items ≡ true }
    ensures { string_bytes result ≡ octets.items }
{
    match String::from_utf8(octets) {
        Ok(text) => text,
        Err(_) => unreachable!(),
    }
}
