//! What an accepted message is to a request.

ghost use Rattle.std.specs.Prelude.{◌≡◌, List, MatchBool};
ghost use Rattle.snmp_message.specs.Scoped.{Contexts, ScopedFront, contexts_of};
ghost use Rattle.snmp_msg.specs.Pdu.{PduParts, PduText, pdu_of};
ghost use Rattle.snmp_msg.specs.Variables.{Variable, AreBindings, variable_of};
ghost use Rattle.snmp_incoming.specs.Texts.{text_of};
ghost use Rattle.snmp_incoming.specs.Answers.{given_of};
ghost use Rattle.snmp_manager.specs.Replies.{IsResponseTo, IsCounterOf, IsNameOf, IsAnswer, IsToldName, IsCount};
ghost use Rattle.snmp_manager.specs.Replies.{TellsCounter, IsReport, still_waiting};

use crate::pending::{Answer, Pending};
use snmp_ber::{Level, read_unsigned};
use snmp_incoming::Taken;
use snmp_msg::{Binding, COUNTER32, Pdu, PduType, Scoped, one_content, one_pdu};
use snmp_outgoing::{Counter, counter_name};

/// What a Report tells.
#[derive(Clone, Copy, Debug, PartialEq, Eq)]
pub struct Report {
    /// The counter that its only binding names: usmStats 1 to 6, 7 snmpUnknownPDUHandlers, 8 snmpUnavailableContexts, 9
    /// snmpUnknownContexts; or 0 where it names none of them, or there isn't one binding.
    pub counter: u8,
    /// The value of its only binding, where that is a Counter32.
    pub value: Option<u32>,
    /// It came with authentication; one without can be anybody's.
    pub authenticated: bool,
}

/// The number of the counter that has this name, or 0.
fn counter_of(name: &[u32]) -> u8
    ensures { IsNameOf name.now result }
{
    for n in 1..7u8 {
        if name == counter_name(n).as_slice() {
            return n;
        }
    }
    0
}

/// The number of the counter that the only binding names, or 0 for another list.
fn counter_in(pdu: &Pdu<'_>) -> u8
    ensures { (vs : List Variable) → AreBindings vs pdu.now.list.now → IsCounterOf vs result }
{
    let mut bindings = pdu.bindings();
    let Some(binding) = bindings.next() else {
        return 0;
    };
    let None = bindings.next() else {
        return 0;
    };
    counter_of(binding.name.as_slice())
}

/// Whether a message is the Response to a request.
fn is_response(pending: &Pending, taken: &Taken<'_>, scoped: &Scoped<'_>, pdu: &Pdu<'_>) -> bool
    ensures { MatchBool result
        (IsResponseTo pending.now (given_of taken.now) (contexts_of scoped.now) (pdu_of pdu.now))
        (IsResponseTo pending.now (given_of taken.now) (contexts_of scoped.now) (pdu_of pdu.now)
        → ⊥) }
{
    if taken.id != pending.id {
        return false;
    }
    if pdu.tag != PduType::Response.tag() {
        return false;
    }
    if taken.engine.as_slice() != pending.engine.as_slice() {
        return false;
    }
    if taken.user != pending.user.as_slice() {
        return false;
    }
    if taken.level != pending.level {
        return false;
    }
    if scoped.engine != pending.context_engine.as_slice() {
        return false;
    }
    if scoped.name != pending.context_name.as_slice() {
        return false;
    }
    if pdu.id != pending.request_id {
        return false;
    }
    true
}

/// What an accepted message is to a request (RFC 3412, section 7.2, steps 10 to 12): its Response, where
/// msgID, engine, user, level, contexts and request-id are those of the request; a Report on it, where msgID
/// is; or neither. It takes no memory.
///
/// A Report without authentication can be anyone's. It is for discovery, and for hints: nothing is learned of it.
pub fn answer_of(pending: &Pending, taken: &Taken<'_>) -> Answer
    ensures { (c : Contexts) (p : PduParts) → ScopedFront (text_of taken.now.text) c
        → PduText c.pdu p
        → IsAnswer pending.now (given_of taken.now) c p result }
{
    one_content();
    one_pdu();
    let scoped = taken.scoped();
    let pdu = taken.pdu();
    if is_response(pending, taken, &scoped, &pdu) {
        return Answer::Response;
    }
    if taken.id != pending.id {
        return Answer::NotForIt;
    }
    if pdu.tag != PduType::Report.tag() {
        return Answer::NotForIt;
    }
    Answer::Report(counter_in(&pdu))
}

/// The number of the counter that has this name, of the nine that a Report may name, or 0.
fn told_name(name: &[u32]) -> u8
    ensures { IsToldName name.now result }
{
    if name == Counter::UnknownPduHandlers.name() {
        return 7;
    }
    if name == Counter::UnavailableContexts.name() {
        return 8;
    }
    if name == Counter::UnknownContexts.name() {
        return 9;
    }
    counter_of(name)
}

/// The value of a binding, where it is a Counter32.
fn count_in(binding: &Binding<'_>) -> Option<u32>
    ensures { IsCount (variable_of binding.now) result }
{
    if binding.tag != COUNTER32 {
        return None;
    }
    read_unsigned(binding.content)
}

/// The number and the value of the counter that the only binding names.
fn told_in(pdu: &Pdu<'_>) -> (u8, Option<u32>)
    ensures { (vs : List Variable) → AreBindings vs pdu.now.list.now
        → TellsCounter vs result.0 result.1 }
{
    let mut bindings = pdu.bindings();
    let Some(binding) = bindings.next() else {
        return (0, None);
    };
    let None = bindings.next() else {
        return (0, None);
    };
    (told_name(binding.name.as_slice()), count_in(&binding))
}

/// What an accepted message tells, where it is a Report on a request, which is where it has its msgID (RFC
/// 3412, section 7.2, step 11). It takes no memory.
pub fn report_of(pending: &Pending, taken: &Taken<'_>) -> Option<Report>
    ensures { (c : Contexts) (p : PduParts) → ScopedFront (text_of taken.now.text) c
        → PduText c.pdu p
        → IsReport pending.now (given_of taken.now) p result }
{
    one_pdu();
    let pdu = taken.pdu();
    if taken.id != pending.id {
        return None;
    }
    if pdu.tag != PduType::Report.tag() {
        return None;
    }
    let (counter, value) = told_in(&pdu);
    Some(Report {
        counter,
        value,
        authenticated: taken.level != Level::NoAuthNoPriv,
    })
}

/// What an accepted message is to a request, as `answer_of` has it, and the request where it still waits:
/// only its Response ends that, since a Report can be anybody's.
pub fn take_answer(pending: Pending, taken: &Taken<'_>) -> (Answer, Option<Pending>)
    ensures answer { (c : Contexts) (p : PduParts)
        → ScopedFront (text_of taken.now.text) c → PduText c.pdu p
        → IsAnswer pending (given_of taken.now) c p result.0 }
    ensures waits { result.1 ≡ still_waiting result.0 pending }
{
    let answer = answer_of(&pending, taken);
    if answer == Answer::Response {
        return (answer, None);
    }
    (answer, Some(pending))
}
