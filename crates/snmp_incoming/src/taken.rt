//! Accepted datagrams.

ghost use Rattle.std.specs.Prelude.{◌≤◌, length};
ghost use Rattle.std.proofs.Props.{props};
ghost use Rattle.snmp_ber.specs.declared.number.TheConstants.{MAX_INTEGER32};
ghost use Rattle.snmp_incoming.specs.Texts.{text_of, ContextsThere, HasTag, StandsThere};

use crate::octets::Octets;
use crate::place::PduPlace;
use engine_clock::EngineId;
use snmp_ber::Level;
use snmp_msg::{Pdu, Scoped, ScopedPlace};

/// An accepted datagram: from whom it is, and its ScopedPDU.
#[derive(Drop)]
pub struct Taken<'a> {
    /// msgAuthoritativeEngineID.
    pub engine: EngineId,
    /// msgUserName, of at most 32 octets.
    pub user: &'a [u8],
    pub level: Level,
    /// msgID, at most 2147483647.
    pub id: u32,
    /// msgMaxSize, from 484 to 2147483647: the most octets of a message that the sender can take.
    pub max_size: u32,
    /// The tag of the PDU.
    pub tag: u8,
    pub(crate) text: Octets<'a>,
    pub(crate) contexts: ScopedPlace,
    pub(crate) pdu: PduPlace,
    pub ghost user_fits: { length user.now ≤ 32 },
    pub ghost id_fits: { id ≤ MAX_INTEGER32 },
    pub ghost size_fits: { (484 ≤ max_size) × (max_size ≤ MAX_INTEGER32) },
    pub ghost is_read: { ∥ HasTag (text_of text) tag ∥₁ },
    pub ghost contexts_stand: { ContextsThere (text_of text) contexts } by { Prim.hlevel props },
    pub ghost stands: { StandsThere (text_of text) tag pdu } by { Prim.hlevel props },
    pub ghost within: { (pdu.list_at ≤ pdu.end) × (pdu.end ≤ length (text_of text)) },
}

impl<'a> Taken<'a> {
    ghost use Rattle.std.specs.Prelude.{◌≡◌};
    ghost use Rattle.snmp_message.specs.Scoped.{ScopedFront, Contexts, contexts_of};
    ghost use Rattle.snmp_msg.specs.Pdu.{PduText, pdu_of};

    /// The ScopedPDU (RFC 3412, section 6.8), as it was read when the datagram was taken. The place of its
    /// data counts from its own first octet. It takes no memory.
    pub fn scoped(&self) -> Scoped<'_>
        ensures { ScopedFront (text_of self.now.text) (contexts_of result) }
    {
        self.contexts.lent(self.text.as_slice())
    }

    /// The PDU, the data of the ScopedPDU (RFC 3416, section 3), as it was read when the datagram was taken.
    /// It takes no memory.
    pub fn pdu(&self) -> Pdu<'_>
        ensures is_pdu { (c : Contexts) → ScopedFront (text_of self.now.text) c
            → PduText c.pdu (pdu_of result) }
        ensures tag { result.tag ≡ self.now.tag }
    {
        self.pdu.lent(self.tag, self.text.as_slice())
    }
}
