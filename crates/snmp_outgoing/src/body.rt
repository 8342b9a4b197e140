//! Bodies of messages: contexts and a PDU.

ghost use Rattle.std.specs.Prelude.{◌≡◌, map};
ghost use Rattle.snmp_msg.specs.Variables.{variable_of};
ghost use Rattle.snmp_outgoing.specs.Bodies.{pdu_in, scoped_of, front_in, pdu_after, scoped_after};

use crate::front::Front;
use snmp_msg::Binding;

/// What a message says: a ScopedPDU (RFC 3412, section 6.8) with a PDU (RFC 3416, section 3).
///
/// It can be written where its tag is a PDU's, each name is an identifier with `is_object_id`, and no value's
/// tag has low five bits that are all ones.
#[derive(Clone, Copy)]
pub struct Body<'a> {
    /// contextEngineID, of any length.
    pub context_engine: &'a [u8],
    /// contextName, of any length.
    pub context_name: &'a [u8],
    /// The tag of the PDU, A0 to A8 and not A4.
    pub tag: u8,
    /// request-id.
    pub id: i32,
    /// error-status, or non-repeaters of a GetBulkRequest.
    pub second: i32,
    /// error-index, or max-repetitions of a GetBulkRequest.
    pub third: i32,
    pub bindings: &'a [Binding<'a>],
}

impl<'a> Body<'a> {
    /// What it says besides its bindings. With these it says the same.
    pub fn front(&self) -> Front<'a>
        ensures is { result ≡ front_in self.now }
        ensures tag { result.tag ≡ self.now.tag }
        ensures pdu { pdu_after result (map variable_of self.now.bindings.now) ≡ pdu_in self.now }
        ensures scoped { scoped_after result (map variable_of self.now.bindings.now)
            ≡ scoped_of self.now }
    {
        Front {
            context_engine: self.context_engine,
            context_name: self.context_name,
            tag: self.tag,
            id: self.id,
            second: self.second,
            third: self.third,
        }
    }
}
