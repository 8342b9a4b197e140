//! Why a call of a handle isn't done.

ghost use Rattle.std.specs.Prelude.{◌≡◌};
ghost use Rattle.snmp_handles.specs.Faults.{code, fault_code, unhandled_code, IsStatusCode};

use crate::numbers::{access_of, unhandled_number};
use snmp_agent::{Unhandled, status_of};
use snmp_msg::Refusal;

/// Why a call of a handle isn't done.
#[derive(Clone, Copy, Debug, PartialEq, Eq)]
pub enum CallFault {
    /// The engine refuses the message that was taken, or that was to be written; out of memory is one of its refusals.
    Refused(Refusal),
    /// An argument is outside of its range.
    BadArgument,
    /// No accepted message is kept.
    NothingTaken,
    /// The message that is kept doesn't ask for a Response.
    NotAsked,
    /// The octets aren't variable bindings, one after another.
    BadBindings,
    /// The buffer is too short.
    ShortBuffer,
    /// The text isn't a configuration.
    BadConfiguration,
    /// The text saves no clocks.
    BadClocks,
    /// As many requests wait as may.
    TooManyRequests,
}

impl CallFault {
    /// The fault's number: that of the refusal, 1 to 18, or for a fault of the call -1 BadArgument, -2 NothingTaken, -3
    /// NotAsked, -4 BadBindings, -5 ShortBuffer, -6 BadConfiguration, -7 BadClocks, -8
    /// TooManyRequests.
    pub fn code(self) -> i32
        ensures { result ≡ fault_code self }
    {
        match self {
            CallFault::Refused(refusal) => i32::from(refusal.number()),
            CallFault::BadArgument => -1,
            CallFault::NothingTaken => -2,
            CallFault::NotAsked => -3,
            CallFault::BadBindings => -4,
            CallFault::ShortBuffer => -5,
            CallFault::BadConfiguration => -6,
            CallFault::BadClocks => -7,
            CallFault::TooManyRequests => -8,
        }
    }
}

/// The number of what a call tells: 0 where it was done, or the fault's.
pub fn code_of(told: Result<(), CallFault>) -> i32
    ensures { result ≡ code told }
{
    match told {
        Ok(()) => 0,
        Err(fault) => fault.code(),
    }
}

/// The number of why nothing answers what is kept: 0 where it is to be answered, 1 where no request waits for
/// it, or the number of its counter: 7 snmpUnknownPDUHandlers, 9 snmpUnknownContexts; or the fault's.
pub fn unhandled_code_of(told: Result<Option<Unhandled>, CallFault>) -> i32
    ensures { result ≡ unhandled_code told }
{
    match told {
        Ok(why) => i32::from(unhandled_number(why)),
        Err(fault) => fault.code(),
    }
}

/// The number of what becomes of a variable for which access was answered by this number, in a request whose
/// PDU has this tag, as `Status::number` has it; or that of BadArgument, where no answer has the number or
/// the tag is above 255.
pub fn status_code_of(access: u32, tag: u32) -> i32
    ensures { IsStatusCode access tag result }
{
    let Some(access) = access_of(access) else {
        return CallFault::BadArgument.code();
    };
    if tag > 255 {
        return CallFault::BadArgument.code();
    }
    i32::from(status_of(access, tag as u8).number())
}
