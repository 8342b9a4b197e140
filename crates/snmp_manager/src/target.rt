//! To whom a request is sent.

use engine_clock::EngineId;
use snmp_ber::Level;

/// The authoritative engine of a request, and for which of its users and at which level it is sealed (RFC 3414,
/// section 3.1).
#[derive(Clone, Copy)]
pub struct Target<'a> {
    pub engine: &'a EngineId,
    /// The user's name, of at most 32 octets.
    pub user: &'a [u8],
    pub level: Level,
}
