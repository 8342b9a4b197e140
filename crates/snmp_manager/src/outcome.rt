//! What a manager reports of datagrams that it took.

use snmp_ber::Level;
use snmp_msg::RefusedAt;
use thiserror::Error;

/// What a datagram was answered.
#[derive(Clone, Copy, Debug, PartialEq, Eq)]
pub enum Outcome {
    /// It is accepted; the tag is that of its PDU.
    Accepted { level: Level, tag: u8 },
    /// It is refused. This is never OutOfMemory.
    Refused(RefusedAt),
}

/// A run that stopped because memory ran out, when the first so many of its datagrams were taken.
#[derive(Clone, Copy, Debug, PartialEq, Eq, Drop, Error)]
#[error("out of memory after {taken} datagrams")]
pub struct Stopped {
    pub taken: usize,
}
