//! What is asked of a manager behind a pointer, and what it tells.

ghost use Rattle.std.specs.Prelude.{◌≡◌};
ghost use Rattle.snmp_c.specs.ManagerCalls.{manager_call_of};

use crate::accepted::Accepted;

/// A call on a manager. Each answers 0 where it is done; where it isn't, nothing is reported.
#[derive(Clone, Copy)]
pub(crate) enum ManagerCall {
    /// Takes the octets as a datagram at the moment, in seconds, and learns its pair where it is authentic. Where it
    /// answers 0 the message is accepted and kept; a refusal is answered by its number, 1 to 18.
    Take,
    /// Tells what was accepted. It answers -2 where no message is kept.
    Info,
    /// Tells the sender's msgMaxSize of the message that is kept. It answers -2 where no message is kept.
    MaxSize,
    /// Tells what the message that is kept is to the request that was written last. It answers -2 where no message is
    /// kept or no request was written.
    Answer,
    /// Tells the same; the Response to the request isn't waited for any more, and the same message again is answered -2
    /// (RFC 3412, section 7.2).
    TakeAnswer,
    /// Tells whether the message that is kept is a Report on the request that was written last, and what that tells. It
    /// answers -2 where no message is kept or no request is waited for.
    Report,
    /// Writes a request to the engine with this ID, for the user at the level, with the msgID, contexts, PDU and the
    /// variable bindings that the octets are, leaves it as the message to be sent and waits for its answer. It answers
    /// -1 where a number or a length is out of its range, -4 where the octets aren't bindings, and the refusals of
    /// sending: 7, 8, 16, 14. Then nothing changes.
    Request,
    /// Seals the octets, a ScopedPDU that is one whole SEQUENCE, for the user at the level, with the msgID, msgMaxSize,
    /// engine ID, boots and time, and with the reportableFlag where that isn't 0, and leaves it as the message to be
    /// sent. Its answer isn't waited for. It answers -1 where a number, a length or the ScopedPDU is out of its range,
    /// and the refusals of sending: 7, 8, 16, 14. Then nothing changes.
    Seal,
    /// Writes the request by which an engine is discovered, with the msgID, leaves it as the message to be sent and
    /// waits for its answer. It answers -1 where the msgID is above 2147483647, and 14 if memory runs out.
    Discover,
    /// Writes a request as `Request` does, waits for its answer too, beside all others that were asked, and tells its
    /// token. The first request of all has the msgID, and each other one the next that is free. It answers -8 where
    /// 65,536 wait, and else what `Request` does. Then nothing changes.
    Ask,
    /// Writes the request by which an engine is discovered, waits for its answer too and tells its token, as `Ask`
    /// does. It answers -1 where the msgID is above 2147483647, -8 where 65,536 wait, and 14 if memory runs out.
    /// Then nothing changes.
    AskDiscovery,
    /// Tells which of the requests that were asked the message answers that is kept, and what it is to it; its Response
    /// ends the request. It answers -2 where no message is kept.
    FindAnswer,
    /// The request with the token isn't waited for any more. It answers -2, and changes nothing, where it doesn't wait.
    GiveUp,
    /// Joins in the clocks of the octets, a saved text, where the marks of version 1 were seen at the moment. It
    /// answers -7 where the text saves none, and 14 if memory runs out; then nothing changes.
    Absorb,
    /// Leaves the saved text of the clocks as the message. It answers 14 if memory runs out, and then nothing changes.
    Save,
    /// Tells the boots and the time that are held of the engine. It answers -1 where the ID hasn't 5 to 32 octets, and
    /// -2 where nothing is held.
    Pair,
}

impl ManagerCall {
    /// The call of this number: their places in the list above, from 0 on.
    pub(crate) fn of(number: u32) -> Option<ManagerCall>
        ensures { result ≡ manager_call_of number }
    {
        match number {
            0 => Some(ManagerCall::Take),
            1 => Some(ManagerCall::Info),
            2 => Some(ManagerCall::MaxSize),
            3 => Some(ManagerCall::Answer),
            4 => Some(ManagerCall::TakeAnswer),
            5 => Some(ManagerCall::Report),
            6 => Some(ManagerCall::Request),
            7 => Some(ManagerCall::Seal),
            8 => Some(ManagerCall::Discover),
            9 => Some(ManagerCall::Ask),
            10 => Some(ManagerCall::AskDiscovery),
            11 => Some(ManagerCall::FindAnswer),
            12 => Some(ManagerCall::GiveUp),
            13 => Some(ManagerCall::Absorb),
            14 => Some(ManagerCall::Save),
            15 => Some(ManagerCall::Pair),
            _ => None,
        }
    }
}

/// What is asked of a manager. A call looks at what it names alone.
#[repr(C)]
#[derive(Clone, Copy)]
pub struct ManagerAsked<'a> {
    /// The call's number.
    pub call: u32,
    pub level: u32,
    /// msgID.
    pub message_id: u32,
    /// msgMaxSize.
    pub max_size: u32,
    /// Whether the reportableFlag is set: 0 it isn't.
    pub reportable: u32,
    pub boots: u32,
    pub time: u32,
    /// The PDU's tag.
    pub tag: u32,
    pub request_id: u32,
    /// error-status, or non-repeaters.
    pub second: u32,
    /// error-index, or max-repetitions.
    pub third: u32,
    /// In seconds.
    pub moment: u64,
    pub salt: u64,
    pub token: u64,
    pub engine: &'a [u8],
    pub user: &'a [u8],
    pub context_engine: &'a [u8],
    pub context_name: &'a [u8],
    /// A datagram, variable bindings, a ScopedPDU or saved clocks.
    pub octets: &'a [u8],
}

/// What a manager tells.
#[repr(C)]
#[derive(Clone, Copy)]
pub struct ManagerSaid {
    pub accepted: Accepted,
    /// 484 to 2147483647.
    pub max_size: u32,
    /// What a message is to a request: 0 its Response, 1 neither, 2 a Report on it.
    pub kind: u32,
    /// The counter that a Report names: usmStats 1 to 6, 7 snmpUnknownPDUHandlers, 8 snmpUnavailableContexts, 9
    /// snmpUnknownContexts, or 0 for none.
    pub counter: u32,
    /// The counter's value, where a Report has one, or 0.
    pub value: u32,
    pub boots: u32,
    pub time: u32,
    /// Whether the message is a Report on the request.
    pub is_report: bool,
    pub has_value: bool,
    /// A Report came with authentication: of a request that was asked, from the engine and for its user.
    pub authentic: bool,
    pub token: u64,
}
