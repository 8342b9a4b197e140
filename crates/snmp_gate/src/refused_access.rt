//! Which requests aren't asked of a device, by the answers on access.

ghost use Rattle.std.specs.Prelude.{All, MatchOption};
ghost use Rattle.snmp_gate.specs.Access.{IsFirstRefused, IsGranted, IsPassed, IsRefusedBy};

use snmp_agent::{Status, status_of};
use vacm_core::Access;

/// What a request is answered that isn't asked of its device (RFC 3413, section 3.2).
#[derive(Clone, Copy, Debug, PartialEq, Eq)]
pub enum AccessRefusal {
    /// authorizationError, with error-index 0.
    AuthorizationError,
    /// noAccess, with this error-index: the number of a binding of a Set, counted from 1.
    NoAccess(usize),
    /// There is no Response, but a report on snmpUnknownContexts.
    UnknownContext,
}

/// Returns what a request is answered if one of its bindings, which has this number, has this status.
fn refusal_by(status: Status, number: usize) -> Option<AccessRefusal>
    ensures { MatchOption result (IsPassed status) (IsRefusedBy status number) }
{
    match status {
        Status::NoError | Status::NoSuchObject | Status::NotSeen => None,
        Status::NoAccess => Some(AccessRefusal::NoAccess(number)),
        Status::AuthorizationError => Some(AccessRefusal::AuthorizationError),
        Status::UnknownContext => Some(AccessRefusal::UnknownContext),
    }
}

/// Returns what a request with this tag is answered without asking its device, by the answers on access for its
/// bindings, in their order (RFC 3413, section 3.2): the first binding decides that isn't granted. None: each is
/// granted, and the device may be asked. A name of a GetRequest that is outside of the view is granted, since its value
/// is noSuchObject, and so is one from which a walk goes on.
pub fn access_refusal(answers: &[Access], tag: u8) -> Option<AccessRefusal>
    ensures { MatchOption result (All (IsGranted tag) answers.now) (IsFirstRefused tag answers.now) }
{
    for (place, access) in answers.iter().enumerate() {
        if let Some(refusal) = refusal_by(status_of(*access, tag), place + 1) {
            return Some(refusal);
        }
    }
    None
}
