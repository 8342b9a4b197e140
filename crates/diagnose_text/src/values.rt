//! Values of variables, each with its type.

ghost use Rattle.std.specs.Prelude.{◌≡◌, ◌↔◌, ◌≤◌, ◌^◌, ℕ, Some, IfOk, MatchOption};
ghost use Rattle.snmp_ber.specs.Number.{IsUnsigned, number};
ghost use Rattle.snmp_msg.specs.Values.{syntax_of};
ghost use Rattle.diagnose_text.specs.Facts.{IsCounter64, IsInHex, IsInteger, IsIpAddress, IsNumber32};
ghost use Rattle.diagnose_text.specs.Facts.{IsObjectIdentifier, IsOctetString, IsValueRead};

use serde_json::{Value as Json, json};
use snmp_ber::{is_unsigned64, read_int, read_oid, read_unsigned};
use snmp_msg::Syntax;
use std::alloc::{AllocError, Global};

/// The value of a variable (RFC 3416, section 3).
#[derive(Drop)]
pub(crate) enum Value {
    Integer(i32),
    /// A number without sign of 32 bits, and which one it is.
    Unsigned(Syntax, u32),
    Counter64(u64),
    /// Octets that can be read as they are.
    Text(String),
    /// An object identifier, in decimals with dots between.
    Identifier(String),
    Address([u8; 4]),
    /// Octets in hex, and what they should be, if a syntax has the tag.
    Octets(Option<Syntax>, String),
    /// NULL, or an exception.
    Bare(Syntax),
}

/// The name of a syntax, as net-snmp prints it.
pub(crate) fn syntax_name(syntax: Syntax) -> &'static str {
    match syntax {
        Syntax::Integer32 => "INTEGER",
        Syntax::OctetString => "STRING",
        Syntax::Null => "NULL",
        Syntax::ObjectIdentifier => "OID",
        Syntax::IpAddress => "IpAddress",
        Syntax::Counter32 => "Counter32",
        Syntax::Unsigned32 => "Gauge32",
        Syntax::TimeTicks => "Timeticks",
        Syntax::Opaque => "Opaque",
        Syntax::Counter64 => "Counter64",
        Syntax::NoSuchObject => "noSuchObject",
        Syntax::NoSuchInstance => "noSuchInstance",
        Syntax::EndOfMibView => "endOfMibView",
    }
}

/// The name of a syntax, or a word for none.
pub(crate) fn type_name(syntax: Option<Syntax>) -> &'static str {
    match syntax {
        Some(syntax) => syntax_name(syntax),
        None => "value",
    }
}

/// The octets can be read as they are: all are of printable ASCII, and none is a quote or a backslash.
fn is_plain(octets: &[u8]) -> bool {
    octets.iter().all(|octet| *octet >= 0x20 && *octet < 0x7f && *octet != b'"' && *octet != b'\\')
}

/// The number whose digits in base 256 the octets are, if it has at most 64 bits.
fn wide_of(content: &[u8]) -> Option<u64>
    ensures { MatchOption result (2 ^ 64 ≤ number content.now) (λ n. number content.now ≡ n) }
{
    let mut number = 0u64;
    for octet in content {
        number = number.checked_mul(256)?.checked_add(u64::from(*octet))?;
    }
    Some(number)
}

/// The number without sign of 64 bits whose content this is.
fn read_wide(content: &[u8]) -> Option<u64>
    ensures { (n : ℕ) → (result ≡ Some n) ↔ IsUnsigned 8 n content.now }
{
    if is_unsigned64(content) {
        wide_of(content)
    } else {
        None
    }
}

/// Octets of a syntax, in hex.
fn octets_of(alloc: Global, syntax: Option<Syntax>, content: &[u8]) -> Result<Value, AllocError>
    ensures { IfOk result (IsInHex syntax content.now) }
{
    Ok(Value::Octets(syntax, hex::encode(alloc, content)?))
}

/// A number without sign, or its octets where they are no such number.
fn unsigned_of(alloc: Global, syntax: Syntax, content: &[u8]) -> Result<Value, AllocError>
    ensures { IfOk result (IsNumber32 syntax content.now) }
{
    match read_unsigned(content) {
        Some(number) => Ok(Value::Unsigned(syntax, number)),
        None => octets_of(alloc, Some(syntax), content),
    }
}

/// A number without sign of 64 bits, or its octets where they are no such number.
fn counter64_of(alloc: Global, content: &[u8]) -> Result<Value, AllocError>
    ensures { IfOk result (IsCounter64 content.now) }
{
    match read_wide(content) {
        Some(number) => Ok(Value::Counter64(number)),
        None => octets_of(alloc, Some(Syntax::Counter64), content),
    }
}

/// A number with sign, or its octets where they are no such number.
fn integer_of(alloc: Global, content: &[u8]) -> Result<Value, AllocError>
    ensures { IfOk result (IsInteger content.now) }
{
    match read_int(content) {
        Some(number) => Ok(Value::Integer(number)),
        None => octets_of(alloc, Some(Syntax::Integer32), content),
    }
}

/// An object identifier, or its octets where they are none.
fn identifier_of(alloc: Global, content: &[u8]) -> Result<Value, AllocError>
    ensures { IfOk result (IsObjectIdentifier content.now) }
{
    match read_oid(content) {
        Some(oid) => Ok(Value::Identifier(format!(in alloc; "{oid}")?)),
        None => octets_of(alloc, Some(Syntax::ObjectIdentifier), content),
    }
}

/// An address of IPv4, or octets that are none.
fn address_of(alloc: Global, content: &[u8]) -> Result<Value, AllocError>
    ensures { IfOk result (IsIpAddress content.now) }
{
    match content {
        [a, b, c, d] => Ok(Value::Address([*a, *b, *c, *d])),
        _ => octets_of(alloc, Some(Syntax::IpAddress), content),
    }
}

/// Octets, as text if they can be read.
fn string_of(alloc: Global, content: &[u8]) -> Result<Value, AllocError>
    ensures { IfOk result (IsOctetString content.now) }
{
    match std::str::from_utf8(content) {
        Ok(text) if is_plain(content) => Ok(Value::Text(String::from_str(alloc, text)?)),
        _ => octets_of(alloc, Some(Syntax::OctetString), content),
    }
}

/// The value with this tag and these octets.
pub(crate) fn value_of(alloc: Global, tag: u8, content: &[u8]) -> Result<Value, AllocError>
    ensures { IfOk result (IsValueRead (syntax_of tag) content.now) }
{
    match Syntax::of(tag) {
        Some(syntax) => value_as(alloc, syntax, content),
        None => octets_of(alloc, None, content),
    }
}

/// The value of this syntax with these octets.
fn value_as(alloc: Global, syntax: Syntax, content: &[u8]) -> Result<Value, AllocError>
    ensures { IfOk result (IsValueRead (Some syntax) content.now) }
{
    match syntax {
        Syntax::Integer32 => integer_of(alloc, content),
        Syntax::OctetString => string_of(alloc, content),
        Syntax::ObjectIdentifier => identifier_of(alloc, content),
        Syntax::IpAddress => address_of(alloc, content),
        Syntax::Counter32 => unsigned_of(alloc, Syntax::Counter32, content),
        Syntax::Unsigned32 => unsigned_of(alloc, Syntax::Unsigned32, content),
        Syntax::TimeTicks => unsigned_of(alloc, Syntax::TimeTicks, content),
        Syntax::Counter64 => counter64_of(alloc, content),
        Syntax::Opaque => octets_of(alloc, Some(Syntax::Opaque), content),
        Syntax::Null | Syntax::NoSuchObject | Syntax::NoSuchInstance | Syntax::EndOfMibView => Ok(
            Value::Bare(syntax),
        ),
    }
}

/// Adds a value after the name of its type.
pub(crate) fn put_value(out: &mut String, value: &Value) -> Result<(), AllocError> {
    out.push_str(kind_of(value))?;
    match value {
        Value::Integer(number) => write!(out, " {number}"),
        Value::Unsigned(_, number) => write!(out, " {number}"),
        Value::Counter64(number) => write!(out, " {number}"),
        Value::Text(text) => write!(out, " \"{text}\""),
        Value::Identifier(text) => write!(out, " {text}"),
        Value::Address([a, b, c, d]) => write!(out, " {a}.{b}.{c}.{d}"),
        Value::Octets(_, digits) => write!(out, " 0x{digits}"),
        Value::Bare(_) => Ok(()),
    }
}

/// The object of a variable, with the type of its value.
pub(crate) fn variable_object(
    alloc: Global,
    variable: &(String, Value),
) -> Result<Json, AllocError> {
    let name = Json::try_from_str(alloc, &variable.0)?;
    let kind = kind_of(&variable.1);
    let value = value_or_null(alloc, &variable.1)?;
    match &variable.1 {
        Value::Octets(..) => json!(in alloc; {"name": name, "type": kind, "hex": value}),
        _ => json!(in alloc; {"name": name, "type": kind, "value": value}),
    }
}

/// The name of the type of a value.
fn kind_of(value: &Value) -> &'static str {
    match value {
        Value::Integer(_) => "INTEGER",
        Value::Unsigned(syntax, _) | Value::Bare(syntax) => syntax_name(*syntax),
        Value::Counter64(_) => "Counter64",
        Value::Text(_) => "STRING",
        Value::Identifier(_) => "OID",
        Value::Address(_) => "IpAddress",
        Value::Octets(syntax, _) => type_name(*syntax),
    }
}

/// A value, or null if its type says all.
fn value_or_null(alloc: Global, value: &Value) -> Result<Json, AllocError> {
    match value {
        Value::Integer(number) => Ok(Json::from(*number)),
        Value::Unsigned(_, number) => Ok(Json::from(*number)),
        Value::Counter64(number) => Ok(Json::from(*number)),
        Value::Text(text) | Value::Identifier(text) | Value::Octets(_, text) => {
            Json::try_from_str(alloc, text)
        }
        Value::Address([a, b, c, d]) => Ok(Json::from(format!(in alloc; "{a}.{b}.{c}.{d}")?)),
        Value::Bare(_) => Ok(Json::Null),
    }
}
