//! What is asked of a forwarder behind a pointer, and what it tells.

ghost use Rattle.std.specs.Prelude.{◌≡◌};
ghost use Rattle.snmp_c.specs.ForwardCalls.{forward_call_of};

use gate_handles::ForwardInfo;

/// A call on a forwarder. Each answers 0 where it is done; where it isn't, nothing is reported.
#[derive(Clone, Copy)]
pub(crate) enum ForwardCall {
    /// Takes a datagram from the device, and tells what becomes of it. It answers 14 if memory runs out: the datagram
    /// isn't taken, and may be taken again.
    TakeTrap,
    /// Takes a datagram from the receiver at the moment, in milliseconds, and tells what becomes of it. A refusal is
    /// answered by its number: the datagram isn't taken, and at 14, if memory runs out, it may be taken again.
    TakeReceiver,
    /// Does the first thing that is to be done at the moment, in milliseconds, tells what that is, and leaves the
    /// datagram to be sent, where there is one. Each salt is to be another one, and so is each `ask_id`, the first of
    /// them random. It answers 14 if memory runs out: the call may be made again.
    Next,
    /// Tells the moment from which on there is something to do, in milliseconds: 0 if a notification waits. It answers
    /// -2 where there is nothing to do by time alone.
    Due,
    /// Tells what the last call was about.
    Info,
}

impl ForwardCall {
    /// The call of this number: their places in the list above, from 0 on.
    pub(crate) fn of(number: u32) -> Option<ForwardCall>
        ensures { result ≡ forward_call_of number }
    {
        match number {
            0 => Some(ForwardCall::TakeTrap),
            1 => Some(ForwardCall::TakeReceiver),
            2 => Some(ForwardCall::Next),
            3 => Some(ForwardCall::Due),
            4 => Some(ForwardCall::Info),
            _ => None,
        }
    }
}

/// What is asked of a forwarder. A call looks at what it names alone.
#[repr(C)]
#[derive(Clone, Copy)]
pub struct ForwardAsked<'a> {
    /// The call's number.
    pub call: u32,
    /// A number that no earlier call had, from which msgID and request-id of what is sent are made.
    pub ask_id: u32,
    /// In milliseconds.
    pub moment: u64,
    pub salt: u64,
    /// The device's number, counted from 0.
    pub device: usize,
    /// The receiver's number, counted from 0.
    pub receiver: usize,
    pub datagram: &'a [u8],
}

/// What a forwarder tells.
#[repr(C)]
#[derive(Clone, Copy)]
pub struct ForwardSaid {
    /// What becomes of a datagram, or what goes out: 0, or 20 to 60, as `ForwardEvent::number` has it.
    pub event: u32,
    /// The number of the refusal for which a notification or an Inform isn't sent, 1 to 18, or 0.
    pub why: u32,
    /// In milliseconds.
    pub due: u64,
    pub info: ForwardInfo,
}
