//! The notifications of an agent (RFC 3416, section 4.2.6).

ghost use Rattle.std.specs.Prelude.{◌≡◌, ◌≤◌};
ghost use Rattle.snmp_ber.specs.declared.number.TheConstants.{MAX_INTEGER32};
ghost use Rattle.snmp_message.specs.declared.refusal.Refusal.TheVariants.{OutOfMemory};
ghost use Rattle.snmp_message.specs.Refusals.{IsRefused};

use crate::agent::Agent;
use crate::laws::notification_is_accepted;
use crate::notification::{Recipient, write_notification};
use snmp_ber::Level;
use snmp_msg::{Refusal, RefusedAt, Spelled};
use snmp_outgoing::{Body, Front};

impl Agent {
    ghost use Rattle.std.specs.Prelude.{All, map, length, IfOk, IfSome};
    ghost use Rattle.snmp_msg.specs.PduTypes.{pdu_tag};
    ghost use Rattle.snmp_msg.specs.declared.pdu_type.PduType.TheVariants.{SNMPv2Trap};
    ghost use Rattle.snmp_outgoing.specs.Bodies.{BodyFits, front_in, variables_in};
    ghost use Rattle.usm_core.specs.Answers.{seal_answer};
    ghost use Rattle.snmp_incoming.specs.Outcome.{own_pair};
    ghost use Rattle.snmp_agent.specs.Sent.{notification, notifying, Sends, CanBeSent};
    ghost use Rattle.snmp_agent.specs.Sent.{IsAcceptedByManagers};

    /// An SNMPv2-Trap for this user at this level (RFC 3416, section 4.2.6), under the agent's engine, boots
    /// and time, which asks for no report. Nothing of the agent changes. `id` is msgID, at most 2147483647,
    /// and the user's name has at most 32 octets; the salt is used at authPriv alone.
    ///
    /// The errors are those of `respond`, in its order.
    pub fn notify(
        &mut self,
        now: u64,
        id: u32,
        user: &[u8],
        level: Level,
        body: &Body<'_>,
        salt: [u8; 8],
    ) -> Result<Vec<u8>, RefusedAt>
        requires id { id ≤ MAX_INTEGER32 }
        requires user { length user.now ≤ 32 }
        requires tag { body.now.tag ≡ pdu_tag SNMPv2Trap }
        requires body { BodyFits body.now }
        ensures answer { IfSome (seal_answer result)
            (Sends self.old now (λ own. notifying self.old.engine own id user.now level
            (front_in body.now)
            (variables_in body.now) salt)) }

        // The refusals before the text come before OutOfMemory.
        ensures memory { IsRefused result OutOfMemory
            → CanBeSent self.old now
            (λ own. notifying self.old.engine own id user.now level (front_in body.now)
            (variables_in body.now) salt) }
        ensures accepted { IfOk result (λ text. IsAcceptedByManagers self.old.users
            (notification self.old.engine (own_pair self.old.boots self.old.started now)
            id user.now level
            (front_in body.now) (variables_in body.now) salt) text.items) }
        ensures same { self.new ≡ self.old }
    {
        self.notify_of(now, id, user, level, &body.front(), body.bindings, salt)
    }

    /// The same notification, with this front and bindings in any form that can be written, as
    /// `write_response` has them.
    ///
    /// The errors are those of `respond`, in its order.
    pub fn notify_of<B: Spelled>(
        &mut self,
        now: u64,
        id: u32,
        user: &[u8],
        level: Level,
        front: &Front<'_>,
        bindings: &[B],
        salt: [u8; 8],
    ) -> Result<Vec<u8>, RefusedAt>
        requires id { id ≤ MAX_INTEGER32 }
        requires user { length user.now ≤ 32 }
        requires tag { front.now.tag ≡ pdu_tag SNMPv2Trap }
        requires fit { All (λ b. B.fits b) bindings.now }
        ensures answer { IfSome (seal_answer result)
            (Sends self.old now (λ own. notifying self.old.engine own id user.now level front.now
            (map B.says bindings.now) salt)) }
        ensures memory { IsRefused result OutOfMemory
            → CanBeSent self.old now
            (λ own. notifying self.old.engine own id user.now level front.now
            (map B.says bindings.now) salt) }
        ensures accepted { IfOk result (λ text. IsAcceptedByManagers self.old.users
            (notification self.old.engine (own_pair self.old.boots self.old.started now)
            id user.now level front.now
            (map B.says bindings.now) salt) text.items) }
        ensures same { self.new ≡ self.old }
    {
        notification_is_accepted();
        let Some(own) = self.engine.pair(now) else {
            return Err(RefusedAt::plain(Refusal::ClockExhausted));
        };
        let to = Recipient {
            id,
            user,
            level,
            salt,
        };
        write_notification(&mut self.users, &self.engine.id, own, &to, front, bindings)
    }
}
