//! Refusals with their reports.

use snmp_msg::RefusedAt;

/// Why an agent doesn't accept a datagram, and the report that answers it, where one is offered.
#[derive(Debug, Drop)]
pub struct Refused {
    pub why: RefusedAt,
    pub report: Option<Vec<u8>>,
}
