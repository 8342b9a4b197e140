//! What is asked of an agent behind a pointer, and what it tells.

ghost use Rattle.std.specs.Prelude.{◌≡◌};
ghost use Rattle.snmp_c.specs.AgentCalls.{agent_call_of};

use crate::accepted::Accepted;

/// A call on an agent. Each answers 0 where it is done; where it isn't, nothing is reported.
#[derive(Clone, Copy)]
pub(crate) enum AgentCall {
    /// Users and tables become those of the configuration that the octets are, in TOML; the engine, its boots, all
    /// counters, the message that is kept and the message to be sent stay. It answers -6 where the configuration is
    /// refused, and 14 if memory runs out, and nothing changes then.
    Reconfigure,
    /// Takes the octets as a datagram at the moment, in seconds. Where it answers 0 the message is accepted, and kept
    /// for the calls below; a refusal is answered by its number, 1 to 18, and leaves its report as the message to be
    /// sent, where there is one.
    Take,
    /// Tells what was accepted. It answers -2 where no message is kept.
    Info,
    /// Tells the sender's msgMaxSize of the message that is kept: how long a Response to it may be (RFC 3412, section
    /// 6.3). It answers -2 where no message is kept.
    MaxSize,
    /// Tells whether the sender of the message that is kept may see the variable with these arcs, by the view 0 (read),
    /// 1 (write) or 2 (notify), in the message's context (isAccessAllowed, RFC 3415, section 3). It answers -1 where no
    /// view has the number or there aren't 1 to 128 arcs, and -2 where no message is kept.
    Allows,
    /// Tells without a message whether the user at the level 1 (noAuthNoPriv), 2 (authNoPriv) or 3 (authPriv) may see
    /// the variable in the context of this name.
    May,
    /// Tells why no application of the agent answers the message that is kept. It answers -2 where no message is kept.
    Unhandled,
    /// Writes the Response to the message that is kept, with the error-status, the error-index and the variable
    /// bindings that the octets are, and leaves it as the message to be sent. Each salt is to be another one, at
    /// authPriv. Where it doesn't answer 0, nothing changes: it answers -1 where status or index are above 2147483647,
    /// -2 where no message is kept, -3 where that is of no PDU that is answered, -4 where the octets aren't bindings,
    /// and the refusals of sending: 15, 7, 8, 16, 14.
    Respond,
    /// Writes what `Respond` does where that has at most `limit` octets, and answers else 16 (TooLarge): then a tooBig
    /// is sent by asking again with status 1 and no bindings (RFC 3416, section 4.2.1), for which 484 octets are enough
    /// if contextEngineID and contextName have at most 32 octets each.
    RespondWithin,
    /// Writes the Response with as many of the bindings, from the first on, as have room within `limit` octets, and
    /// tells how many they are: what a GetBulk is answered with (RFC 3416, section 4.2.3). One text is sealed, whatever
    /// is left out. 16 (TooLarge) means that there is no room even for a Response without bindings.
    RespondFront,
    /// Tells how many of the bindings, from the first on, have room in the Response within `limit` octets: as many as
    /// `RespondFront` would answer with. No key is used, and nothing is written. It answers what `RespondFront` does.
    Fits,
    /// Counts the message that is kept as one that isn't answered, for a reason that `Unhandled` tells or 8 (a context
    /// that can't be reached now), and leaves the report on it as the message to be sent, where its PDU asks for an
    /// answer; else there is none. Where it doesn't answer 0, nothing changes: it answers -1 where no reason has the
    /// number, -2 where no message is kept, and the refusals of sending: 15, 7, 8, 14.
    Refuse,
    /// Counts a request in snmpSilentDrops: even its answer without bindings is too long (RFC 3416, section 4.2.1).
    SilentDrop,
    /// Writes an SNMPv2-Trap (RFC 3416, section 4.2.6) for the user at the level, with the msgID, the request-id,
    /// the contexts and the variable bindings that the octets are, and leaves it as the message to be sent. Where
    /// it doesn't answer 0, nothing changes: it answers -1 where a number is out of its range or the name has more
    /// than 32 octets, -4 where the octets aren't bindings, and the refusals of sending.
    Notify,
    /// Tells the value of a counter, usmStats 1 to 6 of RFC 3414, section 5. It answers -1 where it has another number.
    Counter,
    /// Tells the value of a counter behind usmStats: 7 snmpUnknownPDUHandlers, 8 snmpUnavailableContexts, 9
    /// snmpUnknownContexts, 10 snmpInBadVersions, 11 snmpInASNParseErrs, 12 snmpUnknownSecurityModels, 13
    /// snmpInvalidMsgs, 14 snmpSilentDrops. It answers -1 where none has the number.
    Count,
}

impl AgentCall {
    /// The call of this number: their places in the list above, from 0 on.
    pub(crate) fn of(number: u32) -> Option<AgentCall>
        ensures { result ≡ agent_call_of number }
    {
        match number {
            0 => Some(AgentCall::Reconfigure),
            1 => Some(AgentCall::Take),
            2 => Some(AgentCall::Info),
            3 => Some(AgentCall::MaxSize),
            4 => Some(AgentCall::Allows),
            5 => Some(AgentCall::May),
            6 => Some(AgentCall::Unhandled),
            7 => Some(AgentCall::Respond),
            8 => Some(AgentCall::RespondWithin),
            9 => Some(AgentCall::RespondFront),
            10 => Some(AgentCall::Fits),
            11 => Some(AgentCall::Refuse),
            12 => Some(AgentCall::SilentDrop),
            13 => Some(AgentCall::Notify),
            14 => Some(AgentCall::Counter),
            15 => Some(AgentCall::Count),
            _ => None,
        }
    }
}

/// What is asked of an agent. A call looks at what it names alone.
#[repr(C)]
#[derive(Clone, Copy)]
pub struct AgentAsked<'a> {
    /// The call's number.
    pub call: u32,
    pub level: u32,
    pub view: u32,
    /// The counter's number.
    pub counter: u32,
    /// Why nothing answers: 1 no request waits for it, or the counter's number, 7 to 9.
    pub why: u32,
    /// error-status.
    pub status: u32,
    /// error-index.
    pub index: u32,
    /// How many octets a Response may have.
    pub limit: u32,
    /// msgID.
    pub message_id: u32,
    pub request_id: u32,
    /// In seconds.
    pub moment: u64,
    pub salt: u64,
    pub user: &'a [u8],
    pub context_engine: &'a [u8],
    pub context_name: &'a [u8],
    /// A datagram, variable bindings or a configuration.
    pub octets: &'a [u8],
    pub arcs: &'a [u32],
}

/// What an agent tells.
#[repr(C)]
#[derive(Clone, Copy)]
pub struct AgentSaid {
    pub accepted: Accepted,
    /// 0 accessAllowed, 1 notInView, 2 noSuchView, 3 noAccessEntry, 4 noGroupName, 5 noSuchContext.
    pub access: u32,
    /// 0 it is to be answered; 1 it is a Response or a Report, which no request waits for; 7 its contextEngineID isn't
    /// the agent's or its PDU isn't a GetRequest, GetNextRequest, SetRequest or GetBulkRequest (RFC 3412, section
    /// 4.2.2); 9 there is no context of its name (RFC 3413, section 3.2).
    pub unhandled: i32,
    /// 484 to 2147483647.
    pub max_size: u32,
    /// The counter's value.
    pub value: u32,
    /// How many bindings were answered with, or have room.
    pub count: usize,
}
