//! What is asked of a receiver of notifications behind a pointer, and what it tells.

ghost use Rattle.std.specs.Prelude.{◌≡◌};
ghost use Rattle.snmp_c.specs.ListenerCalls.{listener_call_of};

use crate::accepted::Accepted;

/// A call on a receiver of notifications. Each answers 0 where it is done; where it isn't, nothing is reported.
#[derive(Clone, Copy)]
pub(crate) enum ListenerCall {
    /// Takes the octets as a datagram at the moment, in seconds, from the address, and tells what becomes of it. Where
    /// it is reported it is kept; and what is to be sent to its sender is the message. Each salt is to be another one.
    /// It answers 14 if memory runs out: the datagram isn't taken, and may be taken again.
    Take,
    /// Tells what was reported last. It answers -2 where nothing is kept.
    Info,
    /// Tells the counter at the place: 1 to 18 the refusals by their numbers, 19 to 24 the events of these numbers. It
    /// answers -1 where there is no such place.
    Count,
    /// Leaves the saved text of the clocks as the message. It answers 14 if memory runs out, and then nothing changes.
    Save,
    /// Tells the boots and the time that are held of the engine. It answers -1 where the ID hasn't 5 to 32 octets, and
    /// -2 where nothing is held.
    Pair,
}

impl ListenerCall {
    /// The call of this number: their places in the list above, from 0 on.
    pub(crate) fn of(number: u32) -> Option<ListenerCall>
        ensures { result ≡ listener_call_of number }
    {
        match number {
            0 => Some(ListenerCall::Take),
            1 => Some(ListenerCall::Info),
            2 => Some(ListenerCall::Count),
            3 => Some(ListenerCall::Save),
            4 => Some(ListenerCall::Pair),
            _ => None,
        }
    }
}

/// What is asked of a receiver of notifications. A call looks at what it names alone.
#[repr(C)]
#[derive(Clone, Copy)]
pub struct ListenerAsked<'a> {
    /// The call's number.
    pub call: u32,
    /// The place of a counter.
    pub place: usize,
    /// In seconds.
    pub moment: u64,
    pub salt: u64,
    /// The address from which the datagram came.
    pub from: &'a [u8],
    /// A datagram.
    pub octets: &'a [u8],
    pub engine: &'a [u8],
}

/// What a receiver of notifications tells.
#[repr(C)]
#[derive(Clone, Copy)]
pub struct ListenerSaid {
    pub accepted: Accepted,
    /// What becomes of a datagram: 1 to 3, or 19 to 24, as `ListenerEvent::number` has it.
    pub event: u32,
    /// The number of the refusal of a datagram, 1 to 18, or 0.
    pub why: u32,
    pub boots: u32,
    pub time: u32,
    pub count: u64,
}
