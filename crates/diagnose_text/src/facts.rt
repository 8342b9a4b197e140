//! What is known of an exchange: that which text and JSON print.

ghost use Rattle.std.specs.Prelude.{◌≡◌};
ghost use Rattle.diagnose_text.specs.Facts.{is_discovery, sender_user, tells_another};

use crate::heads::Stamp;
use crate::values::Value;
use crate::views::Viewed;
use capture_files::Route;
use engine_clock::EngineId;
use snmp_ber::Level;
use snmp_msg::{PduType, Refusal};
use usm_users::UserName;

/// A datagram by its number, and the place of the exchange that it begins.
#[derive(Clone, Copy, Drop)]
pub(crate) struct Sent {
    pub(crate) number: u64,
    pub(crate) place: u64,
}

/// Who sends a request, or whose keys its answer is made with.
#[derive(Drop)]
pub(crate) struct Sender {
    pub(crate) user: UserName,
    /// None for privacy without authentication.
    pub(crate) level: Option<Level>,
}

/// A PDU, by its type and the names of its variables.
#[derive(Drop)]
pub(crate) struct PduNames {
    /// None where no PDU has its tag.
    pub(crate) kind: Option<PduType>,
    /// The first 8 names.
    pub(crate) names: Vec<String>,
    /// How many more there are.
    pub(crate) more: usize,
}

/// What a datagram is.
#[derive(Drop)]
pub(crate) enum What {
    /// A request without engine and user (RFC 3414, section 4).
    Discovery,
    Pdu(PduNames),
    /// A message whose PDU isn't opened. Which side sent it is a guess, unless the user names the agent.
    Sealed { is_guess: bool },
    /// No message of SNMPv3.
    Unreadable,
}

/// What is said beside of a datagram.
#[derive(Clone, Copy, Drop)]
pub(crate) enum Remark {
    Nothing,
    /// Nothing was known of the clock of its engine.
    WindowNotJudged,
    /// An answer of which no request waits.
    NoRequest,
    /// A request waits for an answer with its msgID, and this isn't it: it has another user, level or request-id than
    /// the request, or is refused.
    OtherUser,
    OtherLevel,
    OtherRequestId,
    NotTaken,
    /// It is of an engine beyond the limit, so that nothing of it was opened.
    EnginesLimit,
}

impl Remark {
    /// It isn't the answer of the request with its msgID.
    pub(crate) fn tells_another(self) -> bool
        ensures { result ≡ tells_another self }
    {
        match self {
            Remark::OtherUser | Remark::OtherLevel | Remark::OtherRequestId | Remark::NotTaken => {
                true
            }
            Remark::Nothing | Remark::WindowNotJudged => false,
            Remark::NoRequest | Remark::EnginesLimit => false,
        }
    }
}

/// What is known of the first datagram of an exchange.
#[derive(Drop)]
pub(crate) struct First {
    pub(crate) at: Stamp,
    pub(crate) route: Option<Route>,
    pub(crate) sender: Option<Sender>,
    /// msgAuthoritativeEngineID, if it is one.
    pub(crate) engine: Option<EngineId>,
    /// contextName, if it was opened and isn't empty.
    pub(crate) context: Option<Vec<u8>>,
    /// The request-id, if it was opened.
    pub(crate) request_id: Option<i32>,
    pub(crate) what: What,
    /// The number of the first datagram with the same octets.
    pub(crate) copy_of: Option<u64>,
    /// The request that is sent again with this one.
    pub(crate) again: Option<Sent>,
    pub(crate) remark: Remark,
    /// Why it is refused by this configuration.
    pub(crate) refusal: Option<Refusal>,
}

impl First {
    /// It is a discovery.
    pub(crate) fn is_discovery(&self) -> bool
        ensures { result ≡ is_discovery self.now.what }
    {
        matches!(&self.what, What::Discovery)
    }

    /// It is a PDU with one variable.
    pub(crate) fn asks_for_one(&self) -> bool {
        match &self.what {
            What::Pdu(pdu) => pdu.names.len() == 1,
            What::Discovery | What::Sealed { .. } | What::Unreadable => false,
        }
    }

    /// It is at this level.
    pub(crate) fn is_at(&self, level: Level) -> bool {
        match &self.sender {
            Some(sender) => sender.level == Some(level),
            None => false,
        }
    }

    /// It has authentication.
    pub(crate) fn has_auth(&self) -> bool {
        self.sender.is_some() && !self.is_at(Level::NoAuthNoPriv)
    }

    /// The octets of the user's name.
    pub(crate) fn user(&self) -> &[u8]
        ensures { result.now ≡ sender_user self.now.sender }
    {
        match &self.sender {
            Some(sender) => sender.user.as_slice(),
            None => &[],
        }
    }
}

/// What an answer says.
#[derive(Drop)]
pub(crate) enum Says {
    /// The engine that a discovery asks for.
    Engine(EngineId),
    /// The first 8 variables with their values, and how many more there are.
    Values(Vec<(String, Value)>, usize),
    /// An error-status other than noError, and its error-index.
    Error(i32, i32),
    /// The counter that a Report has, by its name or identifier, with its value.
    Report(String, Option<u32>),
    /// It isn't opened, for this reason.
    Unread(Refusal),
}

/// What is known of an answer.
#[derive(Drop)]
pub(crate) struct Answer {
    pub(crate) at: Stamp,
    pub(crate) says: Says,
    /// What the views of the configuration say of the variables that it refuses, or hasn't.
    pub(crate) views: Vec<Viewed>,
    /// It is in the time window of what is known of its engine.
    pub(crate) in_window: bool,
}
