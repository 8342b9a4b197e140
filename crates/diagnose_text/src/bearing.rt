//! What an answer is to the request that waits for one with its msgID.

ghost use Rattle.snmp_incoming.specs.Answers.{given_of};
ghost use Rattle.diagnose_text.specs.Datagrams.{IsClaim, MayBeForged};

use crate::facts::{First, Remark};
use crate::unread::Unread;
use snmp_ber::Level;
use snmp_incoming::Taken;
use snmp_msg::PduType;

/// What an answer with its msgID is to a request.
pub(crate) enum Bearing {
    Answers,
    /// It may be forged, and ends nothing.
    Claims,
    /// It isn't its answer.
    Differs(Remark),
}

/// What an answer that was opened is to the request with this first datagram. Its answer is a Response of its user, at
/// its level and with its request-id (RFC 3412, section 7.2, step 12), or a Report. A Report without authentication
/// may be forged if the request has some. A discovery, which has none, is answered by any.
pub(crate) fn bearing_of(first: &First, taken: &Taken<'_>) -> Bearing
    ensures claims { IsClaim result → MayBeForged (given_of taken.now) }
{
    if first.is_discovery() {
        return Bearing::Answers;
    }
    let is_report = taken.tag == PduType::Report.tag();
    if is_report && taken.level == Level::NoAuthNoPriv {
        return if first.has_auth() {
            Bearing::Claims
        } else {
            Bearing::Answers
        };
    }
    if first.user() != taken.user {
        return Bearing::Differs(Remark::OtherUser);
    }
    if is_report {
        return Bearing::Answers;
    }
    response_bearing(first, taken)
}

/// What a Response of the request's user is to the request with this first datagram.
fn response_bearing(first: &First, taken: &Taken<'_>) -> Bearing
    ensures claims { IsClaim result → ⊥ }
{
    if !first.is_at(taken.level) {
        return Bearing::Differs(Remark::OtherLevel);
    }
    match first.request_id {
        Some(id) if id != taken.pdu().id => Bearing::Differs(Remark::OtherRequestId),
        _ => Bearing::Answers,
    }
}

/// What an answer that wasn't opened is to the request with this first datagram. It ends only what isn't opened either,
/// or what has no authentication.
pub(crate) fn unread_bearing_of(first: &First, unread: &Unread) -> Bearing {
    let is_plain_report = unread.contents.report.is_some()
        && unread.sender.level == Some(Level::NoAuthNoPriv);
    if is_plain_report && first.has_auth() {
        return Bearing::Claims;
    }
    if is_plain_report || first.refusal.is_some() || first.is_discovery() {
        return Bearing::Answers;
    }
    Bearing::Differs(Remark::NotTaken)
}
