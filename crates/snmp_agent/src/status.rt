//! What becomes of a request by the answers on access (RFC 3413, section 3.2).

ghost use Rattle.std.specs.Prelude.{◌≡◌};
ghost use Rattle.snmp_agent.specs.Statuses.{IsStatusOf, status_number};

use snmp_msg::PduType;
use vacm_core::Access;

/// What becomes of a variable of a request, or of the whole request, by the answer of isAccessAllowed on it.
#[derive(Clone, Copy, Debug, PartialEq, Eq)]
pub enum Status {
    /// noError: the variable may be seen, or set.
    NoError,
    /// noAccess: the variable can't be set, and the Response tells its index.
    NoAccess,
    /// authorizationError: the Response has error-index 0 and the bindings as they came.
    AuthorizationError,
    /// The exception noSuchObject replaces the value.
    NoSuchObject,
    /// A walk doesn't see the variable, and goes on to the next one.
    NotSeen,
    /// There is no Response, but a report on snmpUnknownContexts.
    UnknownContext,
}

impl Status {
    /// Its number: that of the error-status (0 noError, 6 noAccess, 16 authorizationError), 128 for
    /// noSuchObject, whose tag it is, and 256 and 257 for NotSeen and UnknownContext, which no message has.
    pub fn number(self) -> u16
        ensures { result ≡ status_number self }
    {
        match self {
            Status::NoError => 0,
            Status::NoAccess => 6,
            Status::AuthorizationError => 16,
            Status::NoSuchObject => 128,
            Status::NotSeen => 256,
            Status::UnknownContext => 257,
        }
    }
}

/// What becomes of a variable for which access was answered so, in a request whose PDU has this tag: a
/// GetRequest (A0), a SetRequest (A3), or a walk, as a GetNextRequest (A1) or a GetBulkRequest (A5).
pub fn status_of(access: Access, tag: u8) -> Status
    ensures { IsStatusOf access tag result }
{
    match access {
        Access::AccessAllowed => Status::NoError,
        Access::NoSuchContext => Status::UnknownContext,
        Access::NoGroupName | Access::NoAccessEntry | Access::NoSuchView => {
            Status::AuthorizationError
        }
        Access::NotInView => {
            if tag == PduType::SetRequest.tag() {
                Status::NoAccess
            } else if tag == PduType::GetRequest.tag() {
                Status::NoSuchObject
            } else {
                Status::NotSeen
            }
        }
    }
}
