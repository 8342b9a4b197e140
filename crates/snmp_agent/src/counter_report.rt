//! The report of one counter (RFC 3412, section 7.1, step 3).

ghost use Rattle.std.specs.Prelude.{◌≡◌, ◌+◌, ◌<◌, length, IfSome};
ghost use Rattle.snmp_ber.specs.Oid.{IsObjectId};
ghost use Rattle.usm_core.specs.Sealed.{Seals, IsSealable};
ghost use Rattle.snmp_outgoing.specs.Sends.{sent_with};
ghost use Rattle.usm_core.specs.Answers.{seal_answer};
ghost use Rattle.snmp_agent.specs.CounterReports.{counter_scoped};
ghost use Rattle.snmp_message.specs.declared.refusal.Refusal.TheVariants.{OutOfMemory, TooLarge};
ghost use Rattle.snmp_message.specs.Refusals.{IsRefused};

use engine_clock::EngineId;
use snmp_ber::{Oid, int_content};
use snmp_msg::{Binding, COUNTER32, LARGEST, PduType, RefusedAt};
use snmp_outgoing::{Body, Envelope, write_body};
use usm_core::Users;

/// The report of the counter of this name with its value, in this envelope, in the default context of the engine.
///
/// The errors are those of `send`, in its order.
pub fn write_counter_report(
    users: &mut Users,
    envelope: &Envelope<'_>,
    engine: &EngineId,
    request_id: i32,
    name: Oid,
    value: u32,
) -> Result<Vec<u8>, RefusedAt>
    requires { IsObjectId name }
    ensures rows { IfSome (seal_answer result)
        (Seals users.old.users (sent_with envelope.now
        (counter_scoped engine.now request_id name value))) }
    ensures memory { IsRefused result OutOfMemory
        → IsSealable users.old.users (sent_with envelope.now
        (counter_scoped engine.now request_id name value)) }
    ensures short { IsRefused result TooLarge
        → LARGEST < 150 + length envelope.now.engine.now + length envelope.now.user.now
        + length (counter_scoped engine.now request_id name value) }
    ensures users { users.new.users ≡ users.old.users }
{
    let content = int_content(i64::from(value));
    let bindings = [Binding {
        name,
        tag: COUNTER32,
        content: content.as_slice(),
    }];
    let body = Body {
        context_engine: engine.as_slice(),
        context_name: &[],
        tag: PduType::Report.tag(),
        id: request_id,
        second: 0,
        third: 0,
        bindings: &bindings,
    };
    write_body(users, envelope, &body)
}
