//! What a message is answered.

ghost use Rattle.std.specs.Prelude.{◌≡◌, ◌↔◌, ℕ, List, Some, All, map, IfOk, IsTrue, OnErr};
ghost use Rattle.std.specs.Prelude.{Option as OptionIs};
ghost use Rattle.snmp_ber.specs.Element.{IsTag};
ghost use Rattle.snmp_msg.specs.Variables.{CanBeWritten, Variable, bound_variable, variable_of, variables_of};
ghost use Rattle.snmp_message.specs.declared.refusal.Refusal.TheVariants.{TooLarge};
ghost use Rattle.snmp_message.specs.Scoped.{Contexts, ScopedFront};
ghost use Rattle.snmp_msg.specs.Pdu.{PduParts, PduText};
ghost use Rattle.snmp_incoming.specs.Answers.{given_of};
ghost use Rattle.snmp_incoming.specs.Texts.{text_of};
ghost use Rattle.snmp_gate.specs.Counting.{CountsReply};
ghost use Rattle.snmp_gate.specs.Limits.{IsLimit, IsShortReply};
ghost use Rattle.snmp_gate.specs.Question.{Question};
ghost use Rattle.snmp_gate.specs.Messages.{question_given, question_in};
ghost use Rattle.snmp_gate.specs.Replies.{IsFrontSentOr, IsOwnList, IsReplyTo, IsSentOr};
ghost use Rattle.snmp_gate.specs.Replies.{IsTooBigOr, NoCause, SameAgent};
ghost use Rattle.snmp_gate.specs.Replies.{answering, response_with, told_with};
ghost use Rattle.snmp_gate.specs.Work.{BulkStandsFor, EndingStands, IsOwnStatus, IsWhyOf, ReadStands, again_of};
ghost use Rattle.snmp_gate.specs.Said.{Said};
ghost use Rattle.snmp_gate.specs.SetRoom.{HasRoomForSet};
ghost use Rattle.snmp_gate.specs.Unanswered.{IsLeftAnswer, IsLeftBy, IsLeftWithout};
ghost use Rattle.snmp_gate.specs.declared.set_answer.ResponseStatus.{ResponseStatus as Says};
ghost use Rattle.snmp_walk.specs.declared.operation.ReadOperation.{ReadOperation};

use crate::limits::GateLimits;
use crate::report::reply_unhandled;
use crate::set_answer::{GEN_ERR, INCONSISTENT_NAME, NO_ERROR, ResponseStatus, TOO_BIG};
use crate::set_ask::bindings_of;
use crate::viewing::pdu_of;
use crate::waiting_message::WaitingMessage;
use crate::whole_dialogue::WholeDialogue;
use crate::work::RequestEnd;
use snmp_agent::{Agent, Response};
use snmp_ber::{Level, MAX_INTEGER32};
use snmp_incoming::Taken;
use snmp_msg::{Binding, LARGEST, Refusal, RefusedAt, Spelled, VariableBinding};
use snmp_walk::BulkDialogue;
use std::alloc::{AllocError, Global};

/// The longest Response without authentication, in octets, to a request of half of it at most.
pub const SHORT_ANSWER: usize = 1_472;

/// noError.
const WITHOUT_ERROR: ResponseStatus = ResponseStatus {
    status: NO_ERROR,
    index: 0,
};

/// genErr, where a binding can't be written.
const UNWRITTEN: ResponseStatus = ResponseStatus {
    status: GEN_ERR,
    index: 0,
};

/// What becomes of a message at its end.
#[derive(Drop)]
pub enum Reply {
    /// This datagram goes to the client: the Response with this error-status and error-index.
    Responds {
        says: ResponseStatus,
        datagram: Vec<u8>,
    },
    /// This datagram goes to the client: a Report.
    Reports(Vec<u8>),
    /// Nothing is sent.
    Nothing,
    /// Even the Response without bindings is too long: the request is counted in snmpSilentDrops.
    SilentDrop,
    /// No datagram can be sealed for its user.
    Refused(Refusal),
}

/// What a Response is written of, besides its bindings.
#[derive(Clone, Copy)]
pub(crate) struct Sealing {
    /// The moment, in seconds.
    pub(crate) seconds: u64,
    pub(crate) salt: [u8; 8],
    /// The most octets of the datagram.
    pub(crate) limit: usize,
}

/// Returns how many octets the Response to a message has at most: as many as its sender takes (msgMaxSize), 65,507, and
/// at noAuthNoPriv 1,472 or twice the request, so that a gateway doesn't send much more than it was sent, to an address
/// that may be forged.
pub(crate) fn limit_of(level: Level, max_size: u32, size: usize, limits: &GateLimits) -> usize
    ensures { IsLimit limits.now level max_size size result }
{
    let most = LARGEST.min(usize::try_from(max_size).unwrap_or(LARGEST));
    if limits.long_answers || level != Level::NoAuthNoPriv {
        return most;
    }
    most.min(SHORT_ANSWER.max(size.saturating_mul(2)))
}

/// Returns what a Response with this error-status and error-index says besides its bindings.
fn response_of(says: ResponseStatus, sealing: &Sealing) -> Response
    ensures { result ≡ response_with says sealing.now }
{
    Response {
        status: says.status,
        index: says.index,
        salt: sealing.salt,
        limit: sealing.limit,
    }
}

/// Returns what becomes of a message whose Response was refused with its bindings.
fn reply_without(
    agent: &mut Agent,
    taken: &Taken<'_>,
    refused: RefusedAt,
    sealing: &Sealing,
) -> Result<Reply, AllocError>
    ensures sent { IfOk result (IsTooBigOr (answering agent.old sealing.now) (given_of taken.now)) }
    ensures left { IfOk result (IsLeftWithout (answering agent.old sealing.now) sealing.now.limit (given_of taken.now)
        refused.refusal) }
    ensures short { IfOk result (λ reply. (c : Contexts) (p : PduParts) → ScopedFront (text_of taken.now.text) c
        → PduText c.pdu p → IsShortReply sealing.now.limit reply) }
    ensures counted { IfOk result (CountsReply agent.old agent.new) }
    ensures same { SameAgent agent.old agent.new }
    ensures err { OnErr result (agent.new ≡ agent.old) }
{
    if refused.is_memory() {
        return Err(AllocError);
    }
    let Refusal::TooLarge = refused.refusal else {
        return Ok(Reply::Refused(refused.refusal));
    };
    let none: [Binding<'_>; 0] = [];
    let says = ResponseStatus {
        status: TOO_BIG,
        index: 0,
    };
    match agent.write_response(sealing.seconds, taken, &response_of(says, sealing), &none) {
        Ok(datagram) => Ok(Reply::Responds { says, datagram }),
        Err(refused) if refused.is_memory() => Err(AllocError),
        Err(refused) => match refused.refusal {
            Refusal::TooLarge => {
                agent.silent_drop();
                Ok(Reply::SilentDrop)
            }
            refusal => Ok(Reply::Refused(refusal)),
        },
    }
}

/// Returns what becomes of a message whose Response has this status and these bindings.
fn reply_with<B: Spelled>(
    agent: &mut Agent,
    taken: &Taken<'_>,
    says: ResponseStatus,
    bindings: &[B],
    sealing: &Sealing,
) -> Result<Reply, AllocError>
    requires { All (λ b. B.fits b) bindings.now }
    ensures sent { IfOk result (IsSentOr (answering agent.old sealing.now) (given_of taken.now)
        (told_with says (map B.says bindings.now))) }
    ensures left { IfOk result (IsLeftAnswer (answering agent.old sealing.now) sealing.now.limit (given_of taken.now)) }
    ensures short { IfOk result (λ reply. (c : Contexts) (p : PduParts) → ScopedFront (text_of taken.now.text) c
        → PduText c.pdu p → IsShortReply sealing.now.limit reply) }
    ensures counted { IfOk result (CountsReply agent.old agent.new) }
    ensures same { SameAgent agent.old agent.new }
    ensures err { OnErr result (agent.new ≡ agent.old) }
{
    match agent.write_response(
        sealing.seconds,
        taken,
        &response_of(says, sealing),
        bindings,
    ) {
        Ok(datagram) => Ok(Reply::Responds { says, datagram }),
        Err(refused) => reply_without(agent, taken, refused, sealing),
    }
}

/// Returns what becomes of a message whose Response has the longest front of these bindings that it has room for.
fn reply_front(
    agent: &mut Agent,
    taken: &Taken<'_>,
    bindings: &[Binding<'_>],
    sealing: &Sealing,
) -> Result<Reply, AllocError>
    requires { All (λ b. CanBeWritten (variable_of b)) bindings.now }
    ensures sent { IfOk result (IsFrontSentOr (answering agent.old sealing.now) (given_of taken.now)
        (map variable_of bindings.now)) }
    ensures left { IfOk result (IsLeftAnswer (answering agent.old sealing.now) sealing.now.limit (given_of taken.now)) }
    ensures short { IfOk result (λ reply. (c : Contexts) (p : PduParts) → ScopedFront (text_of taken.now.text) c
        → PduText c.pdu p → IsShortReply sealing.now.limit reply) }
    ensures counted { IfOk result (CountsReply agent.old agent.new) }
    ensures same { SameAgent agent.old agent.new }
    ensures err { OnErr result (agent.new ≡ agent.old) }
{
    let response = response_of(WITHOUT_ERROR, sealing);
    match agent.respond_front(sealing.seconds, taken, &response, bindings) {
        Ok(fronted) => Ok(Reply::Responds {
            says: WITHOUT_ERROR,
            datagram: fronted.text,
        }),
        Err(refused) => reply_without(agent, taken, refused, sealing),
    }
}

/// Returns the message's own bindings, or none for tooBig (RFC 3416, section 4.2.1).
fn own_bindings<'a>(
    alloc: Global,
    taken: &'a Taken<'_>,
    status: i32,
) -> Result<Vec<VariableBinding<'a>>, AllocError>
    ensures says { IfOk result (λ v. (client : List ℕ) (q : Question)
        → question_given client (given_of taken.now) ≡ Some q
        → IsOwnList q status (map bound_variable v.items)) }
    ensures fit { IfOk result (λ v. All (λ b. IsTag b.tag) v.items) }
{
    if status == TOO_BIG {
        return Ok(Vec::new(alloc));
    }
    let bindings = bindings_of(alloc, &pdu_of(taken))?;
    Ok(bindings)
}

/// Returns what becomes of a message whose Response has this status and the message's own bindings.
fn reply_own(
    alloc: Global,
    agent: &mut Agent,
    taken: &Taken<'_>,
    says: ResponseStatus,
    sealing: &Sealing,
) -> Result<Reply, AllocError>
    ensures sent { IfOk result (λ reply. (client : List ℕ) (q : Question) (said : Said) (again : OptionIs Says)
        → question_given client (given_of taken.now) ≡ Some q → IsOwnStatus agent.old.tables q said again says
        → IsReplyTo (answering agent.old sealing.now) agent.old.tables q said again NoCause (given_of taken.now)
        reply) }
    ensures left { IfOk result (IsLeftAnswer (answering agent.old sealing.now) sealing.now.limit (given_of taken.now)) }
    ensures short { IfOk result (λ reply. (c : Contexts) (p : PduParts) → ScopedFront (text_of taken.now.text) c
        → PduText c.pdu p → IsShortReply sealing.now.limit reply) }
    ensures counted { IfOk result (CountsReply agent.old agent.new) }
    ensures same { SameAgent agent.old agent.new }
    ensures err { OnErr result (agent.new ≡ agent.old) }
{
    let bindings = own_bindings(alloc, taken, says.status)?;
    reply_with(agent, taken, says, &bindings, sealing)
}

/// Returns true if the binding can be written.
fn is_writable(binding: &Binding<'_>) -> bool
    ensures { IsTrue result ↔ CanBeWritten (variable_of binding.now) }
{
    binding.name.is_object_id() && binding.tag % 32 != 31
}

/// Returns true if each of these bindings can be written.
fn can_be_written(bindings: &[Binding<'_>]) -> bool
    ensures { IsTrue result ↔ All (λ b. CanBeWritten (variable_of b)) bindings.now }
{
    for binding in bindings {
        if !is_writable(binding) {
            return false;
        }
    }
    true
}

/// Returns what becomes of a message of which each column has its binding.
fn reply_columns(
    alloc: Global,
    agent: &mut Agent,
    taken: &Taken<'_>,
    whole: &WholeDialogue,
    sealing: &Sealing,
) -> Result<Reply, AllocError>
    ensures sent { IfOk result (λ reply. (client : List ℕ) (q : Question) (said : Said)
        (again : OptionIs Says) (operation : ReadOperation)
        → question_given client (given_of taken.now) ≡ Some q
        → ReadStands agent.old.tables q said operation whole.now.dialogue
        → IsReplyTo (answering agent.old sealing.now) agent.old.tables q said again NoCause (given_of taken.now)
        reply) }
    ensures left { IfOk result (IsLeftAnswer (answering agent.old sealing.now) sealing.now.limit (given_of taken.now)) }
    ensures short { IfOk result (λ reply. (c : Contexts) (p : PduParts) → ScopedFront (text_of taken.now.text) c
        → PduText c.pdu p → IsShortReply sealing.now.limit reply) }
    ensures counted { IfOk result (CountsReply agent.old agent.new) }
    ensures same { SameAgent agent.old agent.new }
    ensures err { OnErr result (agent.new ≡ agent.old) }
{
    let bindings = whole.dialogue.bindings(alloc)?;
    if !can_be_written(&bindings) {
        return reply_own(alloc, agent, taken, UNWRITTEN, sealing);
    }
    reply_with(agent, taken, WITHOUT_ERROR, &bindings, sealing)
}

/// Returns what becomes of a message that gets the front of what a GetBulkRequest asks for.
fn reply_bulk(
    alloc: Global,
    agent: &mut Agent,
    taken: &Taken<'_>,
    dialogue: &BulkDialogue,
    sealing: &Sealing,
) -> Result<Reply, AllocError>
    ensures sent { IfOk result (λ reply. (client : List ℕ) (q : Question) (said : Said) (again : OptionIs Says)
        → question_given client (given_of taken.now) ≡ Some q
        → BulkStandsFor agent.old.tables q said dialogue.now
        → IsReplyTo (answering agent.old sealing.now) agent.old.tables q said again NoCause (given_of taken.now)
        reply) }
    ensures left { IfOk result (IsLeftAnswer (answering agent.old sealing.now) sealing.now.limit (given_of taken.now)) }
    ensures short { IfOk result (λ reply. (c : Contexts) (p : PduParts) → ScopedFront (text_of taken.now.text) c
        → PduText c.pdu p → IsShortReply sealing.now.limit reply) }
    ensures counted { IfOk result (CountsReply agent.old agent.new) }
    ensures same { SameAgent agent.old agent.new }
    ensures err { OnErr result (agent.new ≡ agent.old) }
{
    let bindings = dialogue.front(alloc)?;
    if !can_be_written(&bindings) {
        return reply_own(alloc, agent, taken, UNWRITTEN, sealing);
    }
    reply_front(agent, taken, &bindings, sealing)
}

/// Returns what becomes of a message of a request that ends so. The error is out of memory, and nothing changes.
pub(crate) fn reply_to(
    alloc: Global,
    agent: &mut Agent,
    message: &WaitingMessage,
    ending: &RequestEnd,
    sealing: &Sealing,
) -> Result<Reply, AllocError>
    ensures sent { IfOk result (λ reply. (q : Question) (said : Said)
        → question_in message.now ≡ Some q
        → EndingStands agent.old.tables q said ending.now
        → IsReplyTo (answering agent.old sealing.now) agent.old.tables q said (again_of ending.now)
        (IsWhyOf ending.now) message.now.kept reply) }
    ensures left { IfOk result (IsLeftBy (answering agent.old sealing.now) sealing.now.limit message.now.kept
        ending.now) }
    ensures short { IfOk result (λ reply. (c : Contexts) (p : PduParts) → ScopedFront message.now.kept.text c
        → PduText c.pdu p → IsShortReply sealing.now.limit reply) }
    ensures counted { IfOk result (CountsReply agent.old agent.new) }
    ensures same { SameAgent agent.old agent.new }
    ensures err { OnErr result (agent.new ≡ agent.old) }
{
    let taken = message.kept.taken();
    match ending {
        RequestEnd::Columns(whole) => reply_columns(alloc, agent, &taken, whole, sealing),
        RequestEnd::Front(dialogue) => reply_bulk(alloc, agent, &taken, dialogue, sealing),
        RequestEnd::Own(says) => reply_own(alloc, agent, &taken, *says, sealing),
        RequestEnd::Repeated(says) => reply_own(alloc, agent, &taken, *says, sealing),
        RequestEnd::RoundsUsedUp(says) => reply_own(alloc, agent, &taken, *says, sealing),
        RequestEnd::Unhandled(why) => reply_unhandled(agent, &taken, *why, sealing),
        RequestEnd::Silent => Ok(Reply::Nothing),
    }
}

/// Returns true if the Response to a Set fits its client, with its own bindings and the longest error-status and
/// error-index. Its length is counted, and nothing is sealed. The error is out of memory.
pub(crate) fn fits_client(
    alloc: Global,
    agent: &Agent,
    now: u64,
    message: &WaitingMessage,
    limits: &GateLimits,
) -> Result<bool, AllocError>
    ensures { IfOk result (HasRoomForSet agent.now now message.now limits.now) }
{
    let taken = message.kept.taken();
    let bindings = own_bindings(alloc, &taken, NO_ERROR)?;
    let response = Response {
        status: INCONSISTENT_NAME,
        index: bindings.len().min(MAX_INTEGER32 as usize) as i32,
        salt: [0; 8],
        limit: limit_of(taken.level, taken.max_size, message.size, limits),
    };
    let most = agent.fits(now, &taken, &response, &bindings);
    Ok(most == Some(bindings.len()))
}
