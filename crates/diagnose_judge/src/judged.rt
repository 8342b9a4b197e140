//! What a datagram is judged to be.

use snmp_incoming::Taken;
use snmp_msg::{Refusal, RefusedAt};

/// What the authoritative engine makes of a message that was sent to it, as far as its clock is known here.
#[derive(Clone, Copy, Debug, PartialEq, Eq)]
pub enum Verdict {
    /// It accepts the message.
    Accepted,
    /// It accepts the message, unless this is outside its time window. Nothing is known of its clock.
    Unweighed,
    /// It refuses the message.
    Refused(Refusal),
}

/// What a datagram is judged to be.
#[derive(Drop)]
pub enum Judged<'a> {
    /// Its PDU isn't read, for this reason. So it isn't known which engine sent it, and no time window was looked at.
    Unread(RefusedAt),
    /// A request without authentication whose engine ID is empty (RFC 3414, section 4).
    Discovery,
    /// The authoritative engine sent it: a Response, a Report or a Trap. A manager accepts it if it is in the window.
    SentBy { taken: Taken<'a>, in_window: bool },
    /// It was sent to the authoritative engine: a request.
    SentTo { taken: Taken<'a>, verdict: Verdict },
}
