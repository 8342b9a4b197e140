//! The PDUs that an agent is asked by, and those that are answers.

ghost use Rattle.std.specs.Prelude.{◌↔◌, IsTrue};
ghost use Rattle.snmp_msg.specs.PduTypes.{IsResponse};
ghost use Rattle.snmp_agent.specs.Dispatch.{IsCommand};

use snmp_msg::PduType;

/// Whether the tag is of a PDU that a command responder is registered for: GetRequest, GetNextRequest,
/// GetBulkRequest or SetRequest (RFC 3413, section 3.2).
pub(crate) fn is_command(tag: u8) -> bool
    ensures { IsTrue result ↔ IsCommand tag }
{
    match PduType::of(tag) {
        Some(pdu_type) => pdu_type.is_read() || pdu_type.is_write(),
        None => false,
    }
}

/// Whether the tag is of a PDU of the Response Class: Response or Report (RFC 3411, section 2.8).
pub(crate) fn is_response(tag: u8) -> bool
    ensures { IsTrue result ↔ IsResponse tag }
{
    match PduType::of(tag) {
        Some(pdu_type) => pdu_type.is_response(),
        None => false,
    }
}
