//! The types of PDUs (RFC 3416, section 3), and their classes (RFC 3411, section 2.8).

ghost use Rattle.std.specs.Prelude.{◌≡◌, ◌↔◌, IsTrue, MatchOption};
ghost use Rattle.snmp_msg.specs.PduTypes.{IsPduTag, IsRead, IsResponse, IsWrite, is_confirmed, pdu_tag};

/// The type of a PDU. Each type's number is its tag.
#[derive(Clone, Copy, Debug, PartialEq, Eq)]
pub enum PduType {
    GetRequest = 0xA0,
    GetNextRequest = 0xA1,
    Response = 0xA2,
    SetRequest = 0xA3,
    GetBulkRequest = 0xA5,
    InformRequest = 0xA6,
    /// SNMPv2-Trap. The Trap of SNMPv1, A4, isn't a PDU of SNMPv3.
    SNMPv2Trap = 0xA7,
    Report = 0xA8,
}

impl PduType {
    /// The tag of PDUs of this type, A0 to A3 or A5 to A8.
    pub fn tag(self) -> u8
        ensures value { result ≡ pdu_tag self }
        ensures allowed { IsPduTag result }
    {
        self as u8
    }

    /// The type of PDUs with this tag, or None where no PDU has it.
    pub fn of(tag: u8) -> Option<PduType>
        ensures { MatchOption result (IsPduTag tag → ⊥) (λ pdu_type. tag ≡ pdu_tag pdu_type) }
    {
        match tag {
            0xA0 => Some(PduType::GetRequest),
            0xA1 => Some(PduType::GetNextRequest),
            0xA2 => Some(PduType::Response),
            0xA3 => Some(PduType::SetRequest),
            0xA5 => Some(PduType::GetBulkRequest),
            0xA6 => Some(PduType::InformRequest),
            0xA7 => Some(PduType::SNMPv2Trap),
            0xA8 => Some(PduType::Report),
            _ => None,
        }
    }

    /// Whether it is of the Read Class, which asks for variables: GetRequest, GetNextRequest or
    /// GetBulkRequest.
    pub fn is_read(self) -> bool
        ensures { IsTrue result ↔ IsRead (pdu_tag self) }
    {
        matches!(
            self,
            PduType::GetRequest | PduType::GetNextRequest | PduType::GetBulkRequest
        )
    }

    /// Whether it is of the Write Class, which sets variables: SetRequest.
    pub fn is_write(self) -> bool
        ensures { IsTrue result ↔ IsWrite (pdu_tag self) }
    {
        matches!(self, PduType::SetRequest)
    }

    /// Whether it is of the Response Class, which is sent in answer to a request: Response or Report.
    pub fn is_response(self) -> bool
        ensures { IsTrue result ↔ IsResponse (pdu_tag self) }
    {
        matches!(self, PduType::Response | PduType::Report)
    }

    /// Whether it is of the Confirmed Class, which is answered: GetRequest, GetNextRequest, SetRequest,
    /// GetBulkRequest or InformRequest. A message with such a PDU asks for reports.
    pub fn is_confirmed(self) -> bool
        ensures { result ≡ is_confirmed (pdu_tag self) }
    {
        matches!(
            self,
            PduType::GetRequest
                | PduType::GetNextRequest
                | PduType::SetRequest
                | PduType::GetBulkRequest
                | PduType::InformRequest
        )
    }
}

/// Whether the tag is of a PDU.
pub fn is_pdu_tag(tag: u8) -> bool
    ensures { IsTrue result ↔ IsPduTag tag }
{
    PduType::of(tag).is_some()
}

/// Whether the tag is of a PDU of the Confirmed Class, which is answered.
pub fn is_confirmed(tag: u8) -> bool
    ensures { result ≡ is_confirmed tag }
{
    match PduType::of(tag) {
        Some(pdu_type) => pdu_type.is_confirmed(),
        None => false,
    }
}
