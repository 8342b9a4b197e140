//! Notifications.

ghost use Rattle.std.specs.Prelude.{◌≡◌, ◌≤◌, All, length, map, IfOk, IfSome};
ghost use Rattle.snmp_ber.specs.declared.number.TheConstants.{MAX_INTEGER32};
ghost use Rattle.engine_clock.specs.Pairs.{IsPair};
ghost use Rattle.snmp_msg.specs.PduTypes.{IsPduTag};
ghost use Rattle.usm_core.specs.Sealed.{Seals, IsSealable};
ghost use Rattle.usm_core.specs.Answers.{seal_answer};
ghost use Rattle.snmp_outgoing.specs.Speaks.{SpeechFits};
ghost use Rattle.snmp_agent.specs.Sent.{notification, notifying};
ghost use Rattle.snmp_message.specs.declared.refusal.Refusal.TheVariants.{OutOfMemory};
ghost use Rattle.snmp_message.specs.Refusals.{IsRefused};

use engine_clock::{EngineId, Pair};
use snmp_ber::Level;
use snmp_msg::{RefusedAt, Spelled};
use snmp_outgoing::{Envelope, Front, write_body_of};
use usm_core::Users;

/// To whom a notification goes.
#[derive(Clone, Copy)]
pub(crate) struct Recipient<'a> {
    /// msgID, at most 2147483647.
    pub(crate) id: u32,
    /// msgUserName, at most 32 octets.
    pub(crate) user: &'a [u8],
    pub(crate) level: Level,
    pub(crate) salt: [u8; 8],
    pub(crate) ghost id_fits: { id ≤ MAX_INTEGER32 },
    pub(crate) ghost user_fits: { length user.now ≤ 32 },
}

/// A message of this engine that isn't answered, with its own boots and time.
pub(crate) fn write_notification<B: Spelled>(
    users: &mut Users,
    engine: &EngineId,
    own: Pair,
    to: &Recipient<'_>,
    front: &Front<'_>,
    bindings: &[B],
) -> Result<Vec<u8>, RefusedAt>
    requires tag { IsPduTag front.now.tag }
    requires fit { All (λ b. B.fits b) bindings.now }
    requires pair { IsPair own }
    ensures rows { IfSome (seal_answer result)
        (Seals users.old.users
        (notifying engine.now own to.now.id to.now.user.now to.now.level front.now
        (map B.says bindings.now) to.now.salt)) }
    ensures memory { IsRefused result OutOfMemory
        → IsSealable users.old.users
        (notifying engine.now own to.now.id to.now.user.now to.now.level front.now
        (map B.says bindings.now) to.now.salt) }
    ensures fits { IfOk result
        (λ _. SpeechFits (notification engine.now own to.now.id
        to.now.user.now to.now.level front.now
        (map B.says bindings.now) to.now.salt)) }
    ensures users { users.new.users ≡ users.old.users }
{
    let envelope = Envelope {
        level: to.level,
        id: to.id,
        reportable: false,
        engine: engine.as_slice(),
        pair: own,
        user: to.user,
        salt: to.salt,
    };
    write_body_of(users, &envelope, front, bindings)
}
