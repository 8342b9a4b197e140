//! What a body says besides its bindings.

ghost use Rattle.std.specs.Prelude.{◌≡◌, ◌*◌, ◌≤◌, List, length};
ghost use Rattle.snmp_msg.specs.Variables.{Variable, variables_text};
ghost use Rattle.snmp_outgoing.specs.Bodies.{contexts_after};

use snmp_message::contexts_len;
use snmp_msg::{LARGEST, written_pdu_len};

/// The contexts of a ScopedPDU (RFC 3412, section 6.8), and the tag and the numbers of its PDU (RFC 3416,
/// section 3). `send_of` takes the bindings beside it, in any form.
#[derive(Clone, Copy)]
pub struct Front<'a> {
    /// contextEngineID, of any length.
    pub context_engine: &'a [u8],
    /// contextName, of any length.
    pub context_name: &'a [u8],
    /// The tag of the PDU, A0 to A8 and not A4.
    pub tag: u8,
    /// request-id.
    pub id: i32,
    /// error-status, or non-repeaters of a GetBulkRequest.
    pub second: i32,
    /// error-index, or max-repetitions of a GetBulkRequest.
    pub third: i32,
}

impl<'a> Front<'a> {
    /// How many octets the content of a ScopedPDU of it has, with a list of bindings of this size.
    pub(crate) fn content_len(&self, list_len: usize) -> usize
        requires engine { length self.now.context_engine.now ≤ LARGEST }
        requires name { length self.now.context_name.now ≤ LARGEST }
        requires list { list_len ≤ LARGEST }
        ensures size { (vs : List Variable) → length (variables_text vs) ≡ list_len
            → result ≡ length (contexts_after self.now vs) }
        ensures most { result ≤ 6 * LARGEST }
    {
        let pdu_len = written_pdu_len(self.id, self.second, self.third, list_len);
        contexts_len(self.context_engine, self.context_name, pdu_len)
    }
}

/// A text with the bindings at the front of a list.
#[derive(Drop)]
pub struct Fronted {
    pub text: Vec<u8>,
    /// How many bindings it has.
    pub count: usize,
}
