//! Reports on accepted messages that nothing handles.

ghost use Rattle.std.specs.Prelude.{◌≡◌, IfSome};
ghost use Rattle.snmp_msg.specs.Pdu.{pdu_of};
ghost use Rattle.usm_core.specs.Sealed.{Seals, IsSealable};
ghost use Rattle.snmp_incoming.specs.Answers.{given_of};
ghost use Rattle.usm_core.specs.Answers.{seal_answer};
ghost use Rattle.snmp_agent.specs.CounterReports.{refusing};
ghost use Rattle.snmp_message.specs.declared.refusal.Refusal.TheVariants.{OutOfMemory};
ghost use Rattle.snmp_message.specs.Refusals.{IsRefused};

use crate::counter_report::write_counter_report;
use engine_clock::{EngineId, Pair};
use snmp_ber::Oid;
use snmp_incoming::Taken;
use snmp_msg::{Pdu, RefusedAt};
use snmp_outgoing::{Counter, Envelope};
use usm_core::Users;

/// What a report says besides what it copies.
#[derive(Clone, Copy)]
pub struct Counted {
    /// The counter that counted the message.
    pub counter: Counter,
    /// Its value, after the message was counted.
    pub value: u32,
    /// msgPrivacyParameters at authPriv; the other levels send none.
    pub salt: [u8; 8],
}

/// The report on what was taken and has this PDU, at its level, from this engine with its own boots and time.
///
/// The errors are those of `send`, in its order.
pub fn write_refusal_report<'a>(
    users: &mut Users,
    engine: &'a EngineId,
    own: Pair,
    taken: &'a Taken<'a>,
    pdu: &Pdu<'_>,
    counted: Counted,
) -> Result<Vec<u8>, RefusedAt>
    ensures rows { IfSome (seal_answer result)
        (Seals users.old.users
        (refusing engine.now own (given_of taken.now)
        (pdu_of pdu.now) counted.counter counted.value counted.salt)) }
    ensures memory { IsRefused result OutOfMemory
        → IsSealable users.old.users
        (refusing engine.now own (given_of taken.now)
        (pdu_of pdu.now) counted.counter counted.value counted.salt) }
    ensures users { users.new.users ≡ users.old.users }
{
    let Some(name) = Oid::of(counted.counter.name()) else {
        unreachable!();
    };
    let salt = counted.salt;
    let envelope = Envelope {
        level: taken.level,
        id: taken.id,
        reportable: false,
        engine: engine.as_slice(),
        pair: own,
        user: taken.user,
        salt,
    };
    write_counter_report(users, &envelope, engine, pdu.id, name, counted.value)
}
