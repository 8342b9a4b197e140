//! What a device is asked.

ghost use Rattle.std.specs.Prelude.{◌≡◌};

use snmp_msg::PduType;

/// What a request asks of a device: RFC 3416, section 4.2.1 or 4.2.2.
#[derive(Clone, Copy, Debug, PartialEq, Eq)]
pub enum ReadOperation {
    /// A GetRequest.
    Get,
    /// A GetNextRequest.
    GetNext,
}

impl ReadOperation {
    /// Returns the type of PDU that asks for this.
    pub fn pdu_type(self) -> PduType
        ensures get { self ≡ ReadOperation.Get → result ≡ PduType.GetRequest }
        ensures next { self ≡ ReadOperation.GetNext → result ≡ PduType.GetNextRequest }
    {
        match self {
            ReadOperation::Get => PduType::GetRequest,
            ReadOperation::GetNext => PduType::GetNextRequest,
        }
    }
}
