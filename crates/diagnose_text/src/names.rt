//! Names of PDUs, levels and error-statuses, as RFCs and tcpdump write them.

use snmp_ber::Level;
use snmp_msg::PduType;

/// The name of a PDU of this type (RFC 3416, section 3).
pub(crate) fn pdu_name(kind: Option<PduType>) -> &'static str {
    match kind {
        Some(PduType::GetRequest) => "Get",
        Some(PduType::GetNextRequest) => "GetNext",
        Some(PduType::Response) => "Response",
        Some(PduType::SetRequest) => "Set",
        Some(PduType::GetBulkRequest) => "GetBulk",
        Some(PduType::InformRequest) => "Inform",
        Some(PduType::SNMPv2Trap) => "Trap",
        Some(PduType::Report) => "Report",
        None => "PDU",
    }
}

/// The name of a level (RFC 3411, section 3.4.3).
pub(crate) fn level_name(level: Level) -> &'static str {
    match level {
        Level::NoAuthNoPriv => "noAuthNoPriv",
        Level::AuthNoPriv => "authNoPriv",
        Level::AuthPriv => "authPriv",
    }
}

/// The names of error-status from 0 on (RFC 3416, section 3).
static STATUSES: [&str; 19] = [
    "noError",
    "tooBig",
    "noSuchName",
    "badValue",
    "readOnly",
    "genErr",
    "noAccess",
    "wrongType",
    "wrongLength",
    "wrongEncoding",
    "wrongValue",
    "noCreation",
    "inconsistentValue",
    "resourceUnavailable",
    "commitFailed",
    "undoFailed",
    "authorizationError",
    "notWritable",
    "inconsistentName",
];

/// The name of an error-status.
pub(crate) fn status_name(status: i32) -> &'static str {
    match usize::try_from(status) {
        Ok(status) => STATUSES.get(status).copied().unwrap_or("unknown error"),
        Err(_) => "unknown error",
    }
}
