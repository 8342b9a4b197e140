//! ScopedPDUs that are spelled where they stand.

ghost use Rattle.std.specs.Prelude.{◌≡◌, ◌<◌, All, length, map, IfSome, IfNone};
ghost use Rattle.snmp_msg.specs.Pdu.{IsSpelled};
ghost use Rattle.snmp_msg.specs.PduTypes.{IsPduTag};
ghost use Rattle.snmp_outgoing.specs.Bodies.{scoped_after, pdu_after};
ghost use Rattle.snmp_outgoing.specs.Scopeds.{IsMeasured};

use crate::front::Front;
use snmp_ber::{one_element, put_head};
use snmp_message::{SEQUENCE, ScopedPdu, element_len, put_contexts};
use snmp_msg::{LARGEST, Spelled, bindings_len, put_pdu_of};
use std::alloc::AllocError;

/// A ScopedPDU of these parts, with what was measured of it.
#[derive(Drop)]
pub(crate) struct Measured<'a, B> {
    pub(crate) front: Front<'a>,
    bindings: &'a [B],
    /// How many octets its list of bindings has.
    pub(crate) list_len: usize,
    content_len: usize,
}

impl<'a, B: Spelled> ScopedPdu for Measured<'a, B> {
    ghost use Rattle.std.specs.Prelude.{map};
    ghost use Rattle.snmp_outgoing.specs.Bodies.{scoped_after, contexts_after};
    ghost use Rattle.snmp_outgoing.specs.Scopeds.{IsMeasured};

    ghost octets = { λ m. scoped_after m.front (map B.says m.bindings.now) };

    ghost content = { λ m. contexts_after m.front (map B.says m.bindings.now) };

    ghost fits = { IsMeasured B.fits B.says };

    ghost is_element = { λ m fits. fits.element };

    fn octets_len(&self) -> usize {
        element_len(self.content_len)
    }

    fn content_len(&self) -> usize {
        self.content_len
    }

    fn put_octets(&self, out: &mut Vec<u8>) -> Result<(), AllocError> {
        put_head(out, SEQUENCE, self.content_len)?;
        self.put_content(out)?;
        Ok(())
    }

    fn put_content(&self, out: &mut Vec<u8>) -> Result<(), AllocError> {
        let front = &self.front;
        put_contexts(out, front.context_engine, front.context_name)?;
        put_pdu_of(
            out,
            front.tag,
            front.id,
            front.second,
            front.third,
            self.bindings,
            self.list_len,
        )?;
        Ok(())
    }
}

impl<'a, B: Spelled> Measured<'a, B> {
    /// The ScopedPDU of these parts (RFC 3412, section 6.8). It is None only where that has more than 65,507 octets.
    pub(crate) fn of(front: &Front<'a>, bindings: &'a [B]) -> Option<Measured<'a, B>>
        requires tag { IsPduTag front.now.tag }
        requires fit { All (λ b. B.fits b) bindings.now }
        ensures fits { IfSome result (IsMeasured B.fits B.says) }
        ensures front { IfSome result (λ m. m.front ≡ front.now) }
        ensures bindings { IfSome result (λ m. m.bindings.now ≡ bindings.now) }
        ensures spelled { IfSome result
            (λ _. IsSpelled (pdu_after front.now (map B.says bindings.now))) }
        ensures none { IfNone result (LARGEST < length
            (scoped_after front.now (map B.says bindings.now))) }
    {
        one_element();
        if front.context_engine.len().max(front.context_name.len()) > LARGEST {
            return None;
        }
        let _numbers = (front.id, front.second, front.third);
        let Some(list_len) = bindings_len(bindings) else {
            return None;
        };
        Some(Measured {
            front: *front,
            bindings,
            list_len,
            content_len: front.content_len(list_len),
        })
    }
}
