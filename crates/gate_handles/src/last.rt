//! What lines say of the last call on a gateway.

use snmp_gate::{ClientTaken, DeviceTaken, EndedBy, ResponseStatus, Sent};
use snmp_msg::Refusal;
use snmp_walk::AnswerFault;

/// What lines say of the last call on a gateway, besides the request and the device that it was about.
#[derive(Clone, Copy)]
pub(crate) enum Last {
    /// Nothing.
    Nothing,
    /// A client's datagram is refused.
    Refused(Refusal),
    /// As many wait as may.
    NoRoom,
    /// A Set that came before, whose outcome isn't known.
    SetOfBefore,
    /// A device's answer says this, and why it doesn't fit, if it doesn't.
    Answers(ResponseStatus, Option<AnswerFault>),
    NotWaitedFor,
    Unreadable,
    /// A device that was asked so often.
    GivenUp(u32),
    /// What goes to a client: what the Response says, and how the request ended.
    ToClient(Option<ResponseStatus>, EndedBy),
    /// Why a message isn't answered, and how its request ended.
    Unanswered(Option<Refusal>, EndedBy),
}

impl Last {
    /// Returns what lines say of a client's datagram.
    pub(crate) fn of_client(taken: &ClientTaken) -> Last {
        match taken {
            ClientTaken::Refused(refused) => Last::Refused(refused.why.refusal),
            ClientTaken::NoRoom => Last::NoRoom,
            ClientTaken::SetOfBefore => Last::SetOfBefore,
            ClientTaken::Begins(_) | ClientTaken::Joins(_) => Last::Nothing,
        }
    }

    /// Returns what lines say of a device's datagram.
    pub(crate) fn of_device(taken: DeviceTaken) -> Last {
        match taken {
            DeviceTaken::Answers {
                number: _,
                says,
                fault,
                hidden: _,
            } => Last::Answers(says, fault),
            DeviceTaken::NotWaitedFor => Last::NotWaitedFor,
            DeviceTaken::Unreadable => Last::Unreadable,
        }
    }

    /// Returns what lines say of what goes out.
    pub(crate) fn of_sent(sent: &Sent) -> Last {
        match sent {
            Sent::ToClient { says, ended, .. } => Last::ToClient(*says, *ended),
            Sent::Unanswered { why, ended, .. } => Last::Unanswered(*why, *ended),
            Sent::GivenUp { times, .. } => Last::GivenUp(*times),
            Sent::ToDevice { .. } | Sent::Nothing => Last::Nothing,
        }
    }

    /// Returns true if it is of a request.
    pub(crate) fn is_of_request(self) -> bool {
        match self {
            Last::Answers(_, _) | Last::GivenUp(_) | Last::ToClient(_, _) => true,
            Last::Unanswered(_, _) => true,
            Last::Nothing | Last::Refused(_) | Last::NoRoom | Last::SetOfBefore => false,
            Last::NotWaitedFor | Last::Unreadable => false,
        }
    }
}
