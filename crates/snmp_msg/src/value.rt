//! The values of variables, by their tags (RFC 3416, section 3; RFC 2578, section 7.1).

ghost use Rattle.std.specs.Prelude.{◌≡◌, ◌↔◌, ℤ, IsTrue};
ghost use Rattle.snmp_ber.specs.Number.{IsInteger32};
ghost use Rattle.snmp_msg.specs.Values.{syntax_of, IsNumber32, IsSpelledAs, IsValueOf};

use snmp_ber::{is_oid, is_unsigned64, read_int, read_unsigned};

/// The tag of a Counter32 (RFC 2578, section 7.1.6).
pub const COUNTER32: u8 = 0x41;

/// The most octets of a string (RFC 2578, section 7.1.2).
const LONGEST_STRING: usize = 65535;

/// What the value of a variable may be.
#[derive(Clone, Copy, Debug, PartialEq, Eq)]
pub enum Syntax {
    /// INTEGER and Integer32, 02: -2147483648 to 2147483647.
    Integer32,
    /// OCTET STRING, 04, of at most 65,535 octets.
    OctetString,
    /// NULL, 05: unSpecified, as in a request.
    Null,
    /// OBJECT IDENTIFIER, 06.
    ObjectIdentifier,
    /// IpAddress, 40, of 4 octets.
    IpAddress,
    /// Counter32, 41: 0 to 4294967295.
    Counter32,
    /// Unsigned32 and Gauge32, 42: 0 to 4294967295.
    Unsigned32,
    /// TimeTicks, 43: 0 to 4294967295.
    TimeTicks,
    /// Opaque, 44, of at most 65,535 octets.
    Opaque,
    /// Counter64, 46: 0 to 18446744073709551615.
    Counter64,
    /// noSuchObject, 80.
    NoSuchObject,
    /// noSuchInstance, 81.
    NoSuchInstance,
    /// endOfMibView, 82.
    EndOfMibView,
}

/// Whether the content is of a number of 32 bits with sign.
fn is_integer32(content: &[u8]) -> bool
    ensures { IsTrue result ↔ ((n : ℤ) × IsInteger32 n content.now) }
{
    read_int(content).is_some()
}

/// Whether the content is of a number of 32 bits without sign.
fn is_number32(content: &[u8]) -> bool
    ensures { IsTrue result ↔ IsNumber32 content.now }
{
    read_unsigned(content).is_some()
}

impl Syntax {
    /// The syntax of this tag.
    pub fn of(tag: u8) -> Option<Syntax>
        ensures { result ≡ syntax_of tag }
    {
        match tag {
            0x02 => Some(Syntax::Integer32),
            0x04 => Some(Syntax::OctetString),
            0x05 => Some(Syntax::Null),
            0x06 => Some(Syntax::ObjectIdentifier),
            0x40 => Some(Syntax::IpAddress),
            COUNTER32 => Some(Syntax::Counter32),
            0x42 => Some(Syntax::Unsigned32),
            0x43 => Some(Syntax::TimeTicks),
            0x44 => Some(Syntax::Opaque),
            0x46 => Some(Syntax::Counter64),
            0x80 => Some(Syntax::NoSuchObject),
            0x81 => Some(Syntax::NoSuchInstance),
            0x82 => Some(Syntax::EndOfMibView),
            _ => None,
        }
    }

    /// Whether the content is of a value of this syntax: numbers are in two's complement in the fewest
    /// octets, and NULL and the exceptions have no octets.
    pub fn is_spelled(self, content: &[u8]) -> bool
        ensures { IsTrue result ↔ IsSpelledAs self content.now }
    {
        match self {
            Syntax::Integer32 => is_integer32(content),
            Syntax::OctetString | Syntax::Opaque => content.len() <= LONGEST_STRING,
            Syntax::ObjectIdentifier => is_oid(content),
            Syntax::IpAddress => content.len() == 4,
            Syntax::Counter32 | Syntax::Unsigned32 | Syntax::TimeTicks => is_number32(content),
            Syntax::Counter64 => is_unsigned64(content),
            Syntax::Null | Syntax::NoSuchObject | Syntax::NoSuchInstance | Syntax::EndOfMibView =>
                content.is_empty(),
        }
    }
}

/// Whether the tag is of a syntax, and the content of a value of that.
pub fn value_is(tag: u8, content: &[u8]) -> bool
    ensures { IsTrue result ↔ IsValueOf tag content.now }
{
    match Syntax::of(tag) {
        Some(syntax) => syntax.is_spelled(content),
        None => false,
    }
}
