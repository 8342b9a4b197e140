//! Which request an accepted message answers.

ghost use Rattle.std.specs.Prelude.{◌≡◌, ◌↔◌, IsTrue};
ghost use Rattle.snmp_message.specs.Scoped.{Contexts, ScopedFront};
ghost use Rattle.snmp_msg.specs.Pdu.{PduParts, PduText};
ghost use Rattle.snmp_incoming.specs.Answers.{given_of};
ghost use Rattle.snmp_incoming.specs.Texts.{text_of};
ghost use Rattle.snmp_requests.specs.Answering.{IsHeardOf, IsOfEngine};

use crate::device_request::Heard;
use crate::outstanding::OutstandingRequest;
use snmp_ber::Level;
use snmp_incoming::Taken;
use snmp_manager::{Answer, answer_of, report_of};

/// What an accepted message answers.
#[derive(Clone, Copy, Debug, PartialEq, Eq)]
pub struct AnsweredRequest {
    /// The token of the request.
    pub token: u64,
    /// What the message is to it.
    pub heard: Heard,
}

/// Returns true if an accepted message came with authentication, from the engine that was asked and for the user that
/// asks.
fn is_of_engine(request: &OutstandingRequest, taken: &Taken<'_>) -> bool
    requires engine { request.now.engine.items ≡ request.now.pending.engine.items }
    requires user { request.now.user.items ≡ request.now.pending.user.items }
    ensures { IsTrue result ↔ IsOfEngine request.now.pending (given_of taken.now) }
{
    if taken.level == Level::NoAuthNoPriv {
        return false;
    }
    if taken.engine.as_slice() != request.engine.as_slice() {
        return false;
    }
    taken.user == request.user.as_slice()
}

/// Returns what an accepted message is to a request: its Response, where msgID, engine, user, level, contexts and
/// request-id are those of the request; a Report on it, where msgID is; or neither. It takes no memory.
pub(crate) fn heard_of(request: &OutstandingRequest, taken: &Taken<'_>) -> Option<Heard>
    requires engine { request.now.engine.items ≡ request.now.pending.engine.items }
    requires user { request.now.user.items ≡ request.now.pending.user.items }
    ensures { (c : Contexts) (p : PduParts) → ScopedFront (text_of taken.now.text) c
        → PduText c.pdu p
        → IsHeardOf request.now.pending (given_of taken.now) c p result }
{
    match answer_of(&request.pending, taken) {
        Answer::Response => Some(Heard::Response),
        Answer::Report(_) => {
            let Some(report) = report_of(&request.pending, taken) else {
                return None;
            };
            Some(Heard::Report {
                counter: report.counter,
                authentic: is_of_engine(request, taken),
            })
        }
        Answer::NotForIt => None,
    }
}
