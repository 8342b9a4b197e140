//! What a gateway keeps to.

use crate::retries::Retries;

/// What a gateway keeps to. Times are in milliseconds.
#[derive(Clone, Copy, Debug, PartialEq, Eq)]
pub struct GateLimits {
    /// How many requests wait at most.
    pub waiting: usize,
    /// How many of them wait for one device at most, so that a device that doesn't answer leaves room for the others.
    pub waiting_per_device: usize,
    /// How many messages wait at most that ask the same. One waits in any case.
    pub joined: usize,
    /// How often a device is asked for one request at most.
    pub rounds: u32,
    /// How long a request waits for its device.
    pub retries: Retries,
    /// How long after it came a GetBulkRequest is answered with what is there, if that has a whole repetition.
    pub gather: u64,
    /// With more than so many octets of values and arcs of names a GetBulkRequest is answered with what is there.
    pub gathered: usize,
    /// True if a Response without authentication may be longer than 1,472 octets and twice its request.
    pub long_answers: bool,
    /// True if a request that is given up is reported as snmpUnavailableContexts (RFC 3413, section 3.2).
    pub report_unreachable: bool,
}
