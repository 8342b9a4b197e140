//! What is asked of a gateway behind a pointer, and what it tells.

ghost use Rattle.std.specs.Prelude.{◌≡◌};
ghost use Rattle.snmp_c.specs.GateCalls.{gate_call_of};

use gate_handles::GateInfo;

/// A call on a gateway. Each answers 0 where it is done; where it isn't, nothing is reported.
#[derive(Clone, Copy)]
pub(crate) enum GateCall {
    /// Takes a datagram from the client at the moment, in milliseconds, and tells what becomes of it. A refusal is
    /// answered by its number, 1 to 18, and leaves its report as the datagram to be sent, where there is one. 14 is
    /// out of memory: the datagram isn't taken, and may be taken again.
    TakeClient,
    /// Takes a datagram from the device at the moment, in milliseconds, and tells what becomes of it. It answers 14 if
    /// memory runs out: the datagram isn't taken, and may be taken again.
    TakeDevice,
    /// Does the first thing that is due at the moment, in milliseconds, tells what that is, and leaves the datagram to
    /// be sent, where there is one. Each salt is to be another one, and so is each `ask_id`. It answers 14 if memory
    /// runs out: the call may be made again.
    Next,
    /// Tells the moment, in milliseconds, from which on something is due by time alone. It answers -2 where there is
    /// none.
    Due,
    /// Tells what the last call was about, and what it told besides its event.
    Info,
    /// Tells whether the receiver may be notified of the variable with these arcs of the device. It answers -1 where
    /// there aren't 1 to 128 arcs, and -2 where there is no such receiver or device.
    MayNotify,
    /// Tells the value of a counter of the agent, usmStats 1 to 6 of RFC 3414, section 5. It answers -1 where it has
    /// another number.
    Counter,
    /// Tells the value of another counter of the agent, 7 to 14 as `AgentCall::Count` has them. It answers -1 where
    /// none has the number.
    Count,
    /// Tells as the value the kinds of the lines of the last call, each by its bit, as `GateHandle::lines` has them.
    Lines,
}

impl GateCall {
    /// The call of this number: their places in the list above, from 0 on.
    pub(crate) fn of(number: u32) -> Option<GateCall>
        ensures { result ≡ gate_call_of number }
    {
        match number {
            0 => Some(GateCall::TakeClient),
            1 => Some(GateCall::TakeDevice),
            2 => Some(GateCall::Next),
            3 => Some(GateCall::Due),
            4 => Some(GateCall::Info),
            5 => Some(GateCall::MayNotify),
            6 => Some(GateCall::Counter),
            7 => Some(GateCall::Count),
            8 => Some(GateCall::Lines),
            _ => None,
        }
    }
}

/// What is asked of a gateway. A call looks at what it names alone.
#[repr(C)]
#[derive(Clone, Copy)]
pub struct GateAsked<'a> {
    /// The call's number.
    pub call: u32,
    /// The counter's number.
    pub counter: u32,
    /// The request-id of what is asked of a device.
    pub ask_id: u32,
    /// In milliseconds.
    pub moment: u64,
    pub salt: u64,
    /// The device's number, counted from 0.
    pub device: usize,
    /// The receiver's number, counted from 0.
    pub receiver: usize,
    /// The client's address, of any octets.
    pub client: &'a [u8],
    pub datagram: &'a [u8],
    pub arcs: &'a [u32],
}

/// Which line is asked for, and what it is made of besides the gateway.
#[repr(C)]
#[derive(Clone, Copy)]
pub struct LineAsked<'a> {
    /// The line's kind, by its bit.
    pub kind: u32,
    /// The client's address, as a text.
    pub client: &'a [u8],
    /// The datagram that the last call took.
    pub datagram: &'a [u8],
}

/// What a gateway tells.
#[repr(C)]
#[derive(Clone, Copy)]
pub struct GateSaid {
    /// What becomes of a datagram, or what goes out: 0, or 20 to 30, as `GateEvent::number` has it.
    pub event: u32,
    /// The number of the refusal for which a message isn't answered, 1 to 18, or 0.
    pub why: u32,
    /// 0 accessAllowed, 1 notInView, 2 noSuchView, 3 noAccessEntry, 4 noGroupName, 5 noSuchContext.
    pub access: u32,
    /// The counter's value.
    pub value: u32,
    /// In milliseconds.
    pub due: u64,
    pub info: GateInfo,
}
