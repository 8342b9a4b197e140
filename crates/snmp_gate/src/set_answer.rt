//! What the Response to a Set says.

ghost use Rattle.std.specs.Prelude.{◌≡◌, ◌↔◌, IsTrue};
ghost use Rattle.snmp_gate.specs.SetOutcome.{IsNumberOfBinding, IsToldIndex, IsToldStatus};

/// error-status noError (RFC 3416, section 3).
pub const NO_ERROR: i32 = 0;
/// error-status tooBig.
pub const TOO_BIG: i32 = 1;
/// error-status noSuchName.
pub const NO_SUCH_NAME: i32 = 2;
/// error-status genErr.
pub const GEN_ERR: i32 = 5;
/// error-status noAccess.
pub const NO_ACCESS: i32 = 6;
/// error-status resourceUnavailable.
pub const RESOURCE_UNAVAILABLE: i32 = 13;
/// error-status authorizationError.
pub const AUTHORIZATION_ERROR: i32 = 16;
/// The last error-status of RFC 3416, section 3: inconsistentName.
pub const INCONSISTENT_NAME: i32 = 18;

/// What a Response says of its request as a whole (RFC 3416, section 3).
#[derive(Clone, Copy, Debug, PartialEq, Eq)]
pub struct ResponseStatus {
    /// error-status, 0 to 18.
    pub status: i32,
    /// error-index: 0, or the number of one of the Set's bindings, counted from 1.
    pub index: i32,
}

/// Returns the error-status of the Response.
fn told_status(status: i32) -> i32
    ensures { IsToldStatus status result }
{
    if status < NO_ERROR || status > INCONSISTENT_NAME {
        return GEN_ERR;
    }
    status
}

/// Returns true if the error-index is that of a binding, of so many.
fn is_number_of_binding(index: i32, bindings: usize) -> bool
    ensures { IsTrue result ↔ IsNumberOfBinding index bindings }
{
    let Ok(number) = usize::try_from(index) else {
        return false;
    };
    number > 0 && number <= bindings
}

/// Returns the error-index of the Response.
fn told_index(status: i32, index: i32, bindings: usize) -> i32
    ensures { IsToldIndex status index bindings result }
{
    if status == NO_ERROR || status == TOO_BIG {
        return 0;
    }
    if is_number_of_binding(index, bindings) {
        index
    } else {
        0
    }
}

/// Returns what the Response to a Set says whose device answered with this error-status and this error-index, where the
/// Set has so many bindings (RFC 3416, section 4.2.5). The error-status is the device's; one that RFC 3416 doesn't have
/// is genErr. The error-index is the device's if it is that of a binding, but 0 at noError and tooBig.
pub fn set_outcome(status: i32, index: i32, bindings: usize) -> ResponseStatus
    ensures status { IsToldStatus status result.status }
    ensures index { IsToldIndex status index bindings result.index }
{
    ResponseStatus {
        status: told_status(status),
        index: told_index(status, index, bindings),
    }
}
