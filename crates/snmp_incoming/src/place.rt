//! Where a PDU is in the octets that begin with its ScopedPDU.

ghost use Rattle.std.specs.Prelude.{◌≡◌, ◌≤◌, length, Some};
ghost use Rattle.snmp_message.specs.Scoped.{Contexts, ScopedFront};
ghost use Rattle.snmp_msg.specs.Pdu.{PduText, pdu_of};
ghost use Rattle.snmp_incoming.specs.Texts.{pdu_read, pdu_placed};

use snmp_msg::Pdu;

/// The numbers of a PDU (RFC 3416, section 3), and where its list is in the octets that begin with its
/// ScopedPDU. Once it was read, no octet of it is read again.
#[derive(Clone, Copy, Debug)]
pub(crate) struct PduPlace {
    /// request-id.
    pub(crate) id: i32,
    /// error-status, or non-repeaters of a GetBulkRequest.
    pub(crate) second: i32,
    /// error-index, or max-repetitions of a GetBulkRequest.
    pub(crate) third: i32,
    /// The place of the content of variable-bindings, counted from 0.
    pub(crate) list_at: usize,
    /// The place after it, where the PDU ends.
    pub(crate) end: usize,
}

impl PduPlace {
    /// The PDU with this tag, lent from the octets that it was read in.
    pub(crate) fn lent<'a>(&self, tag: u8, octets: &'a [u8]) -> Pdu<'a>
        requires read { pdu_read octets.now ≡ Some (pdu_placed octets.now tag self.now) }
        requires ordered { self.now.list_at ≤ self.now.end }
        requires within { self.now.end ≤ length octets.now }
        ensures is_pdu { (c : Contexts) → ScopedFront octets.now c → PduText c.pdu (pdu_of result) }
        ensures tag { result.tag ≡ tag }
    {
        Pdu {
            tag,
            id: self.id,
            second: self.second,
            third: self.third,
            list: &octets[self.list_at..self.end],
        }
    }
}
