//! Responses.

ghost use Rattle.std.specs.Prelude.{◌≡◌, List, [], All, map, take, IfNone, IfOk, IfSome, Ok};
ghost use Rattle.engine_clock.specs.Engines.{IsEngine};
ghost use Rattle.engine_clock.specs.Pairs.{IsPair};
ghost use Rattle.snmp_message.specs.Scoped.{Contexts, ScopedFront, scoped_text};
ghost use Rattle.snmp_msg.specs.PduTypes.{pdu_tag};
ghost use Rattle.snmp_msg.specs.Pdu.{PduParts, PduText, pdu_with, pdu_text};
ghost use Rattle.snmp_msg.specs.Variables.{Variable};
ghost use Rattle.usm_core.specs.Sealed.{Seals, IsSealable};
ghost use Rattle.snmp_incoming.specs.Texts.{text_of};
ghost use Rattle.snmp_incoming.specs.Answers.{given_of};
ghost use Rattle.snmp_outgoing.specs.Bodies.{pdu_after, scoped_after};
ghost use Rattle.snmp_outgoing.specs.Sends.{sent_with};
ghost use Rattle.usm_core.specs.Answers.{seal_answer};
ghost use Rattle.snmp_outgoing.specs.Fronts.{IsBeyond, IsLongestFront, SealsFront, front_answer, room};
ghost use Rattle.snmp_outgoing.specs.Speaks.{SpeechFits};
ghost use Rattle.snmp_outgoing.specs.UpTo.{UpTo};
ghost use Rattle.snmp_agent.specs.Responses.{response as speech, responding};
ghost use Rattle.snmp_message.specs.declared.refusal.Refusal.TheVariants.{OutOfMemory};
ghost use Rattle.snmp_message.specs.Refusals.{IsRefused};

use engine_clock::{EngineId, Pair};
use snmp_incoming::Taken;
use snmp_msg::{LARGEST, PduType, RefusedAt, Spelled, one_content, one_pdu};
use snmp_outgoing::{Envelope, Front, Fronted, count_within, write_front, write_within};
use usm_core::Users;

/// What a Response says besides what it copies and its bindings, and how long it may be.
#[derive(Clone, Copy)]
pub struct Response {
    /// error-status.
    pub status: i32,
    /// error-index.
    pub index: i32,
    /// msgPrivacyParameters at authPriv; the other levels send none.
    pub salt: [u8; 8],
    /// How many octets its datagram has at most. No datagram has more than 65,507.
    pub limit: usize,
}

/// The envelope of the Response to what was taken.
fn envelope<'a>(
    engine: &'a EngineId,
    own: Pair,
    taken: &'a Taken<'_>,
    response: &Response,
) -> Envelope<'a>
    ensures id { result.id ≡ taken.now.id }
    ensures engine { result.engine.now ≡ engine.now }
    ensures bounds { IsEngine engine.now }
    ensures pair { result.pair ≡ own }
    ensures user { result.user.now ≡ taken.now.user.now }
    ensures message { (c : Contexts) (p : PduParts) (vs : List Variable)
        → sent_with result (scoped_text c.engine c.name
        (pdu_text (pdu_with (pdu_tag PduType.Response) p.id
        response.now.status response.now.index vs)))
        ≡ responding engine.now own
        (given_of taken.now) c p response.now.status response.now.index vs response.now.salt }
{
    Envelope {
        level: taken.level,
        id: taken.id,
        reportable: false,
        engine: engine.as_slice(),
        pair: own,
        user: taken.user,
        salt: response.salt,
    }
}

/// What it says besides its bindings: the contexts and the request-id of what was taken.
fn front<'a>(taken: &'a Taken<'_>, response: &Response) -> Front<'a>
    ensures tag { result.tag ≡ pdu_tag PduType.Response }
    ensures pdu { (c : Contexts) (p : PduParts) (vs : List Variable)
        → ScopedFront (text_of taken.now.text) c
        → PduText c.pdu p
        → pdu_after result vs ≡ pdu_with
        (pdu_tag PduType.Response) p.id response.now.status response.now.index vs }
    ensures scoped { (c : Contexts) (p : PduParts) (vs : List Variable)
        → ScopedFront (text_of taken.now.text) c
        → PduText c.pdu p
        → scoped_after result vs
        ≡ scoped_text c.engine c.name
        (pdu_text (pdu_with (pdu_tag PduType.Response) p.id
        response.now.status response.now.index vs)) }
{
    one_content();
    one_pdu();
    let scoped = taken.scoped();
    let pdu = taken.pdu();
    Front {
        context_engine: scoped.engine,
        context_name: scoped.name,
        tag: PduType::Response.tag(),
        id: pdu.id,
        second: response.status,
        third: response.index,
    }
}

/// The Response to what was taken, with these bindings, from this engine with its own boots and time, each at
/// most 2147483647. Its length is counted before any key is looked for.
///
/// The errors are those of `write_within`, in its order.
pub(crate) fn response_within<B: Spelled>(
    users: &mut Users,
    engine: &EngineId,
    own: Pair,
    taken: &Taken<'_>,
    response: &Response,
    bindings: &[B],
) -> Result<Vec<u8>, RefusedAt>
    requires bindings { All (λ b. B.fits b) bindings.now }
    requires pair { IsPair own }
    ensures rows { (c : Contexts) (p : PduParts)
        → ScopedFront (text_of taken.now.text) c → PduText c.pdu p
        → IfSome (seal_answer result)
        (UpTo response.now.limit (Seals users.old.users
        (responding engine.now own (given_of taken.now) c p response.now.status response.now.index
        (map B.says bindings.now) response.now.salt))) }
    ensures sealed { (c : Contexts) (p : PduParts)
        → ScopedFront (text_of taken.now.text) c → PduText c.pdu p
        → IfOk result (λ text. Seals users.old.users
        (responding engine.now own (given_of taken.now) c p response.now.status response.now.index
        (map B.says bindings.now) response.now.salt) (Ok text.items)) }
    ensures memory { (c : Contexts) (p : PduParts)
        → ScopedFront (text_of taken.now.text) c → PduText c.pdu p
        → IsRefused result OutOfMemory
        → IsSealable users.old.users
        (responding engine.now own (given_of taken.now) c p response.now.status response.now.index
        (map B.says bindings.now) response.now.salt) }
    ensures counted { (c : Contexts) (p : PduParts)
        → ScopedFront (text_of taken.now.text) c → PduText c.pdu p
        → IsRefused result OutOfMemory
        → IsBeyond users.old.users (room response.now.limit)
        (responding engine.now own (given_of taken.now) c p response.now.status response.now.index
        (map B.says bindings.now) response.now.salt) → ⊥ }
    ensures fits { (c : Contexts) (p : PduParts)
        → ScopedFront (text_of taken.now.text) c → PduText c.pdu p
        → IfOk result (λ _. SpeechFits
        (speech engine.now own (given_of taken.now) c p response.now.status response.now.index
        (map B.says bindings.now) response.now.salt)) }
    ensures users { users.new.users ≡ users.old.users }
{
    let envelope = envelope(engine, own, taken, response);
    let front = front(taken, response);
    write_within(users, &envelope, &front, bindings, response.limit)
}

/// The Response to what was taken, with the longest front of these bindings that has room within the limit,
/// and how many bindings that has.
///
/// The errors are those of `write_front`, in its order.
pub(crate) fn response_front<B: Spelled>(
    users: &mut Users,
    engine: &EngineId,
    own: Pair,
    taken: &Taken<'_>,
    response: &Response,
    bindings: &[B],
) -> Result<Fronted, RefusedAt>
    requires bindings { All (λ b. B.fits b) bindings.now }
    requires pair { IsPair own }
    ensures rows { (c : Contexts) (p : PduParts)
        → ScopedFront (text_of taken.now.text) c → PduText c.pdu p
        → IfSome (front_answer result)
        (SealsFront users.old.users response.now.limit
        (λ vs. responding engine.now own
        (given_of taken.now) c p response.now.status response.now.index vs response.now.salt)
        (map B.says bindings.now)) }
    ensures memory { (c : Contexts) (p : PduParts)
        → ScopedFront (text_of taken.now.text) c → PduText c.pdu p
        → IsRefused result OutOfMemory
        → IsSealable users.old.users
        (responding engine.now own
        (given_of taken.now) c p response.now.status response.now.index [] response.now.salt) }
    ensures fits { (c : Contexts) (p : PduParts)
        → ScopedFront (text_of taken.now.text) c → PduText c.pdu p
        → IfOk result (λ f. SpeechFits
        (speech engine.now own (given_of taken.now) c p response.now.status response.now.index
        (take f.count (map B.says bindings.now)) response.now.salt)) }
    ensures users { users.new.users ≡ users.old.users }
{
    let envelope = envelope(engine, own, taken, response);
    let front = front(taken, response);
    write_front(users, &envelope, &front, bindings, response.limit)
}

/// How many of these bindings, from the first on, the Response to what was taken has room for within its limit. None:
/// it is longer without any. Nothing is written and no key is used.
pub(crate) fn fitting<B: Spelled>(
    users: &Users,
    engine: &EngineId,
    own: Pair,
    taken: &Taken<'_>,
    response: &Response,
    bindings: &[B],
) -> Option<usize>
    requires bindings { All (λ b. B.fits b) bindings.now }
    ensures some { (c : Contexts) (p : PduParts)
        → ScopedFront (text_of taken.now.text) c → PduText c.pdu p
        → IfSome result (IsLongestFront users.now.users (room response.now.limit)
        (λ vs. responding engine.now own (given_of taken.now) c p response.now.status response.now.index vs
        response.now.salt) (map B.says bindings.now)) }
    ensures none { (c : Contexts) (p : PduParts)
        → ScopedFront (text_of taken.now.text) c → PduText c.pdu p
        → IfNone result (IsBeyond users.now.users (room response.now.limit)
        (responding engine.now own (given_of taken.now) c p response.now.status response.now.index []
        response.now.salt)) }
{
    let envelope = envelope(engine, own, taken, response);
    let front = front(taken, response);
    count_within(
        users,
        &envelope,
        &front,
        bindings,
        response.limit.min(LARGEST),
    )
}
