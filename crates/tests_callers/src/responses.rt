//! An agent's Response, as it is taken by a manager.

ghost use Rattle.std.specs.Prelude.{All, IfSome, MatchBool, map};
ghost use Rattle.snmp_message.specs.Scoped.{Contexts, ScopedFront};
ghost use Rattle.snmp_msg.specs.Pdu.{PduParts, PduText};
ghost use Rattle.snmp_msg.specs.Variables.{CanBeWritten, variable_of};
ghost use Rattle.usm_core.specs.Verified.{manager as side};
ghost use Rattle.snmp_incoming.specs.Answers.{given_of};
ghost use Rattle.snmp_incoming.specs.Outcome.{as_manager, own_pair};
ghost use Rattle.snmp_incoming.specs.Texts.{text_of};
ghost use Rattle.snmp_outgoing.specs.Accepts.{IsInTime};
ghost use Rattle.snmp_outgoing.specs.Speaks.{HasSameUser, spoken};
ghost use Rattle.snmp_agent.specs.Responses.{response};

use snmp_agent::Agent;
use snmp_incoming::Taken;
use snmp_manager::Manager;
use snmp_msg::Binding;

/// What a Response says: error-status, error-index and the variable bindings (RFC 3416, section 3).
#[derive(Clone, Copy)]
pub struct Reply<'a> {
    pub status: i32,
    pub index: i32,
    pub bindings: &'a [Binding<'a>],
    pub salt: [u8; 8],
}

/// Writes an agent's Response to an accepted request at the moment `now`, and hands it to a manager at the moment
/// `at`. If the manager has the request's user, it accepts the Response if and only if the agent's pair is in the
/// time window of what the manager then holds; without authentication always. None if the Response isn't written, or
/// memory ran out.
pub fn answer(
    agent: &mut Agent,
    manager: &mut Manager,
    now: u64,
    at: u64,
    taken: &Taken<'_>,
    reply: &Reply<'_>,
) -> Option<bool>
    requires fit { All (λ b. CanBeWritten (variable_of b)) reply.now.bindings.now }
    requires shared { HasSameUser side agent.old.users manager.old.users
        taken.now.user.now taken.now.level }
    ensures { (c : Contexts) (p : PduParts) → ScopedFront (text_of taken.now.text) c
        → PduText c.pdu p
        → IfSome result (λ accepted. MatchBool accepted
        (IsInTime (as_manager manager.new.clocks) at (spoken (response agent.old.engine
        (own_pair agent.old.boots agent.old.started now)
        (given_of taken.now) c p reply.now.status reply.now.index
        (map variable_of reply.now.bindings.now) reply.now.salt)))
        (IsInTime (as_manager manager.new.clocks) at (spoken (response agent.old.engine
        (own_pair agent.old.boots agent.old.started now)
        (given_of taken.now) c p reply.now.status reply.now.index
        (map variable_of reply.now.bindings.now) reply.now.salt)) → ⊥)) }
{
    let Reply {
        status,
        index,
        bindings,
        salt,
    } = *reply;
    let Ok(octets) = agent.respond(now, taken, status, index, bindings, salt) else {
        return None;
    };
    let Err(fault) = manager.take(at, &octets) else {
        return Some(true);
    };
    if fault.is_memory() {
        return None;
    }
    Some(false)
}
