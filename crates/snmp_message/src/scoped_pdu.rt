//! What a message carries, written in its place.

ghost use Rattle.std.specs.Prelude.{◌≡◌, ◌++◌, List, ℕ, length, OnOk};
ghost use Rattle.snmp_ber.specs.Element.{IsElement};

use snmp_ber::{one_element, read_tlv};
use std::alloc::AllocError;

/// A ScopedPDU (RFC 3412, section 6.8) that is written in its place in a message, from its octets or from what it says.
pub trait ScopedPdu {
    /// Its octets, which are one SEQUENCE.
    ghost octets: { Self → List ℕ };

    /// The content of that SEQUENCE.
    ghost content: { Self → List ℕ };

    /// It can be written.
    ghost fits: { Self → Type 0 };

    ghost is_element: { (s : Self) → fits s → IsElement 48 (content s) (octets s) };

    /// How many octets it has.
    fn octets_len(&self) -> usize
        requires { fits self.now }
        ensures { result ≡ length (octets self.now) };

    /// How many octets its content has.
    fn content_len(&self) -> usize
        requires { fits self.now }
        ensures { result ≡ length (content self.now) };

    /// Appends its octets.
    fn put_octets(&self, out: &mut Vec<u8>) -> Result<(), AllocError>
        requires { fits self.now }
        ensures ok { OnOk result (out.new.items ≡ out.old.items ++ octets self.now) };

    /// Appends its content.
    fn put_content(&self, out: &mut Vec<u8>) -> Result<(), AllocError>
        requires { fits self.now }
        ensures ok { OnOk result (out.new.items ≡ out.old.items ++ content self.now) };
}

/// A ScopedPDU in its octets.
#[derive(Clone, Copy)]
pub struct ScopedOctets<'a> {
    octets: &'a [u8],
    content: &'a [u8],
}

impl<'a> ScopedOctets<'a> {
    /// The ScopedPDU that these octets are.
    pub fn of(octets: &'a [u8]) -> ScopedOctets<'a>
        requires { (content : List ℕ) × IsElement 48 content octets.now }
        ensures octets { result.octets.now ≡ octets.now }
        ensures element { IsElement 48 result.content.now result.octets.now }
    {
        one_element();
        let Ok(tlv) = read_tlv(octets, 0, octets.len()) else {
            unreachable!();
        };
        ScopedOctets {
            octets,
            content: tlv.content,
        }
    }
}

impl<'a> ScopedPdu for ScopedOctets<'a> {
    ghost octets = { λ s. s.octets.now };

    ghost content = { λ s. s.content.now };

    ghost fits = { λ s. IsElement 48 s.content.now s.octets.now };

    ghost is_element = { λ s fits. fits };

    fn octets_len(&self) -> usize {
        self.octets.len()
    }

    fn content_len(&self) -> usize {
        self.content.len()
    }

    fn put_octets(&self, out: &mut Vec<u8>) -> Result<(), AllocError> {
        out.extend_from_slice(self.octets)
    }

    fn put_content(&self, out: &mut Vec<u8>) -> Result<(), AllocError> {
        out.extend_from_slice(self.content)
    }
}
