//! Messages that go out.

ghost use Rattle.std.specs.Prelude.{◌≡◌, ◌+◌, ◌<◌, ◌≤◌, All, [], length, map, take, IfOk, IfSome, MatchResult};
ghost use Rattle.std.specs.Prelude.{IsTrue, Ok, false};
ghost use Rattle.snmp_ber.specs.declared.level.Level.TheVariants.{NoAuthNoPriv};
ghost use Rattle.engine_clock.specs.Pairs.{IsPair};
ghost use Rattle.usm_core.specs.Answers.{seal_answer};
ghost use Rattle.usm_core.specs.Sealed.{Seals, IsSealable};
ghost use Rattle.snmp_outgoing.specs.Sends.{sent, sent_with, CanSend, RefusesSender};
ghost use Rattle.snmp_outgoing.specs.Fronts.{IsBeyond, IsWithin, SealsFront, front_answer, room};
ghost use Rattle.snmp_outgoing.specs.Scopeds.{IsMeasured};
ghost use Rattle.snmp_outgoing.specs.UpTo.{UpTo};
ghost use Rattle.snmp_msg.specs.Pdu.{IsSpelled};
ghost use Rattle.snmp_msg.specs.PduTypes.{IsPduTag};
ghost use Rattle.snmp_outgoing.specs.Bodies.{scoped_of, pdu_in, scoped_after, pdu_after, BodyFits};
ghost use Rattle.snmp_message.specs.declared.refusal.Refusal.TheVariants.{OutOfMemory, TooLarge};
ghost use Rattle.snmp_message.specs.Refusals.{IsRefused};

use crate::body::Body;
use crate::count::{count_within, is_within};
use crate::envelope::Envelope;
use crate::front::{Front, Fronted};
use crate::measured::Measured;
use snmp_ber::Level;
use snmp_message::ScopedPdu;
use snmp_msg::{LARGEST, Refusal, RefusedAt, Spelled};
use usm_core::{Users, one_sealed, sealed_size, some_sealed};

/// Whether messages of this user at this level can go out (RFC 3414, section 3.1): at levels with
/// authentication there is a user of this name that supports the level. At noAuthNoPriv no user is looked
/// for.
///
/// The errors are UnknownUser (7), and where there is such a user UnsupportedLevel (8). It takes no memory.
pub fn supports(users: &Users, user: &[u8], level: Level) -> Result<(), RefusedAt>
    ensures { MatchResult result (λ _. CanSend users.now.users user.now level)
        (λ e. RefusesSender users.now.users user.now level e.refusal) }
{
    if level == Level::NoAuthNoPriv {
        return Ok(());
    }
    users.supports(user, level)
}

/// The text of the message with this envelope and this body (RFC 3414, section 3.1).
///
/// The errors are, at levels with authentication, UnknownUser (7) and UnsupportedLevel (8), which are looked
/// for before the body is written; then TooLarge (16), only where the text would be longer than 65,507
/// octets, or OutOfMemory, whichever is met first.
pub fn write_body(
    users: &mut Users,
    envelope: &Envelope<'_>,
    body: &Body<'_>,
) -> Result<Vec<u8>, RefusedAt>
    requires body { BodyFits body.now }
    ensures rows { IfSome (seal_answer result)
        (Seals users.old.users (sent envelope.now body.now)) }

    // The refusals before the text come before OutOfMemory.
    ensures memory { IsRefused result OutOfMemory
        → IsSealable users.old.users (sent envelope.now body.now) }

    // What was written has bindings that are read again.
    ensures spelled { IfOk result (λ _. IsSpelled (pdu_in body.now)) }
    ensures short { IsRefused result TooLarge
        → LARGEST < 150 + length envelope.now.engine.now + length envelope.now.user.now
        + length (scoped_of body.now) }
    ensures users { users.new.users ≡ users.old.users }
{
    write_body_of(users, envelope, &body.front(), body.bindings)
}

/// Writes the text of the message with bindings in any form that can be written: `VariableBinding` is the quick one, of
/// which only the tags are asked.
///
/// The errors are those of `write_body`, in its order.
pub fn write_body_of<B: Spelled>(
    users: &mut Users,
    envelope: &Envelope<'_>,
    front: &Front<'_>,
    bindings: &[B],
) -> Result<Vec<u8>, RefusedAt>
    requires tag { IsPduTag front.now.tag }
    requires fit { All (λ b. B.fits b) bindings.now }
    ensures rows { IfSome (seal_answer result)
        (Seals users.old.users (sent_with envelope.now
        (scoped_after front.now (map B.says bindings.now)))) }
    ensures memory { IsRefused result OutOfMemory
        → IsSealable users.old.users (sent_with envelope.now
        (scoped_after front.now (map B.says bindings.now))) }
    ensures spelled { IfOk result (λ _. IsSpelled (pdu_after front.now (map B.says bindings.now))) }
    ensures short { IsRefused result TooLarge
        → LARGEST < 150 + length envelope.now.engine.now + length envelope.now.user.now
        + length (scoped_after front.now (map B.says bindings.now)) }
    ensures users { users.new.users ≡ users.old.users }
{
    sealed_size();
    let Some(scoped) = Measured::of(front, bindings) else {
        supports(users, envelope.user, envelope.level)?;
        return Err(RefusedAt::plain(Refusal::TooLarge));
    };
    users.seal_of(
        &envelope.header(),
        envelope.engine,
        envelope.pair,
        envelope.user,
        envelope.salt,
        &scoped,
    )
}

/// The most octets of a datagram within a limit.
fn room(limit: usize) -> usize
    ensures is { result ≡ room limit }
    ensures least { result ≤ limit }
    ensures most { result ≤ LARGEST }
{
    limit.min(LARGEST)
}

/// The most octets of a message besides its ScopedPDU, its engine ID and its user name.
const MOST_AROUND: usize = 150;

/// Whether a message of this envelope has at most `limit` octets, at most 65,507, with this ScopedPDU. Nothing is
/// written, and it takes no memory. The user is looked for only if the protocol decides.
fn has_room<B: Spelled>(
    users: &Users,
    envelope: &Envelope<'_>,
    measured: &Measured<'_, B>,
    limit: usize,
) -> bool
    requires engine { length envelope.now.engine.now ≤ 32 }
    requires pair { IsPair envelope.now.pair }
    requires fits { IsMeasured B.fits B.says measured.now }
    requires limit { limit ≤ LARGEST }
    ensures yes { IsTrue result → IsWithin users.now.users limit
        (sent_with envelope.now (scoped_after measured.now.front (map B.says measured.now.bindings.now))) }
    ensures no { result ≡ false → IsBeyond users.now.users limit
        (sent_with envelope.now (scoped_after measured.now.front (map B.says measured.now.bindings.now))) }
{
    sealed_size();
    let names_len = envelope.engine.len() + envelope.user.len();
    if MOST_AROUND + names_len + measured.octets_len() <= limit {
        return true;
    }
    is_within(users, envelope, &measured.front, measured.list_len, limit)
}

/// The text of the message with these bindings, where that has at most `limit` octets. Its length is counted
/// before any key is looked for, so that nothing is sealed that is too long.
///
/// The errors are those of `write_body` before the text; then TooLarge (16), exactly where the text has more
/// octets than `limit`, or than 65,507; and OutOfMemory.
pub fn write_within<B: Spelled>(
    users: &mut Users,
    envelope: &Envelope<'_>,
    front: &Front<'_>,
    bindings: &[B],
    limit: usize,
) -> Result<Vec<u8>, RefusedAt>
    requires engine { length envelope.now.engine.now ≤ 32 }
    requires pair { IsPair envelope.now.pair }
    requires tag { IsPduTag front.now.tag }
    requires fit { All (λ b. B.fits b) bindings.now }
    ensures rows { IfSome (seal_answer result) (UpTo limit
        (Seals users.old.users (sent_with envelope.now
        (scoped_after front.now (map B.says bindings.now))))) }
    ensures sealed { IfOk result (λ text.
        Seals users.old.users (sent_with envelope.now (scoped_after front.now (map B.says bindings.now)))
        (Ok text.items)) }
    ensures memory { IsRefused result OutOfMemory
        → IsSealable users.old.users (sent_with envelope.now
        (scoped_after front.now (map B.says bindings.now))) }

    // What is too long is refused before memory is asked for.
    ensures counted { IsRefused result OutOfMemory
        → IsBeyond users.old.users (room limit)
        (sent_with envelope.now (scoped_after front.now (map B.says bindings.now))) → ⊥ }
    ensures spelled { IfOk result (λ _. IsSpelled (pdu_after front.now (map B.says bindings.now))) }
    ensures users { users.new.users ≡ users.old.users }
{
    sealed_size();
    some_sealed();
    one_sealed();
    let Some(measured) = Measured::of(front, bindings) else {
        supports(users, envelope.user, envelope.level)?;
        return Err(RefusedAt::plain(Refusal::TooLarge));
    };
    if !has_room(users, envelope, &measured, room(limit)) {
        supports(users, envelope.user, envelope.level)?;
        return Err(RefusedAt::plain(Refusal::TooLarge));
    }
    users.seal_of(
        &envelope.header(),
        envelope.engine,
        envelope.pair,
        envelope.user,
        envelope.salt,
        &measured,
    )
}

/// The text of the message with the longest front of the bindings that has at most `limit` octets, and how
/// many bindings that has. One text is sealed.
///
/// The errors are those of `write_body` before the text; then TooLarge (16), exactly where even the text without
/// bindings has more octets than `limit`, or than 65,507; and OutOfMemory.
pub fn write_front<B: Spelled>(
    users: &mut Users,
    envelope: &Envelope<'_>,
    front: &Front<'_>,
    bindings: &[B],
    limit: usize,
) -> Result<Fronted, RefusedAt>
    requires engine { length envelope.now.engine.now ≤ 32 }
    requires pair { IsPair envelope.now.pair }
    requires tag { IsPduTag front.now.tag }
    requires fit { All (λ b. B.fits b) bindings.now }
    ensures rows { IfSome (front_answer result)
        (SealsFront users.old.users limit (λ vs. sent_with envelope.now (scoped_after front.now vs))
        (map B.says bindings.now)) }
    ensures memory { IsRefused result OutOfMemory
        → IsSealable users.old.users (sent_with envelope.now (scoped_after front.now [])) }
    ensures spelled { IfOk result (λ f. IsSpelled
        (pdu_after front.now (take f.count (map B.says bindings.now)))) }
    ensures users { users.new.users ≡ users.old.users }
{
    some_sealed();
    let Some(count) = count_within(users, envelope, front, bindings, room(limit)) else {
        supports(users, envelope.user, envelope.level)?;
        return Err(RefusedAt::plain(Refusal::TooLarge));
    };
    let text = write_body_of(users, envelope, front, &bindings[..count])?;
    Ok(Fronted { text, count })
}

/// The text of a message at noAuthNoPriv, for which no key is looked up: what `write_body` gives.
///
/// The errors are TooLarge (16), only where the text would be longer than 65,507 octets, and OutOfMemory.
pub fn write_plain(
    users: &Users,
    envelope: &Envelope<'_>,
    body: &Body<'_>,
) -> Result<Vec<u8>, RefusedAt>
    requires level { envelope.now.level ≡ NoAuthNoPriv }
    requires body { BodyFits body.now }
    ensures rows { IfSome (seal_answer result)
        (Seals users.now.users (sent envelope.now body.now)) }
    ensures short { IsRefused result TooLarge
        → LARGEST < 150 + length envelope.now.engine.now + length envelope.now.user.now
        + length (scoped_of body.now) }
{
    sealed_size();
    let Some(scoped) = Measured::of(&body.front(), body.bindings) else {
        return Err(RefusedAt::plain(Refusal::TooLarge));
    };
    users.write_plain(
        &envelope.header(),
        envelope.engine,
        envelope.pair,
        envelope.user,
        &scoped,
    )
}
