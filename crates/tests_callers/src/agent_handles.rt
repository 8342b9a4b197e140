//! Agents' handles: who may see what by the rows of a configuration, what a refused datagram changes, and how a
//! manager's handle takes the Response.

ghost use Rattle.std.specs.Prelude.{◌≡◌, IfSome, IsTrue, Some};
ghost use Rattle.usm_core.specs.Verified.{manager as side};
ghost use Rattle.snmp_incoming.specs.Outcome.{Given};
ghost use Rattle.snmp_outgoing.specs.Speaks.{HasSameUser};
ghost use Rattle.snmp_agent.specs.Agent.{taker_of};
ghost use Rattle.tests_callers.specs.AgentHandles.{ChangesCounters, IsAcceptedInTime};
ghost use Rattle.tests_callers.specs.AgentHandles.{IsAllowedByRows, IsAllowedTo};

use snmp_agent::agents_decide_alike;
use snmp_handles::{AgentHandle, CallFault, ManagerHandle};
use snmp_message::Refusal;
use std::alloc::Global;
use vacm_core::Access;

/// How an agent begins: its configuration, in TOML, its engine ID, its boots, and the moment of its start.
#[derive(Clone, Copy)]
pub struct Beginning<'a> {
    pub config: &'a [u8],
    pub engine: &'a [u8],
    pub boots: u32,
    pub started: u64,
}

/// Hands a datagram to an agent's handle at the moment `now`, in seconds, and asks whether its sender may see the
/// variable with these arcs, by the view of this number. None if the datagram or a number is refused, or memory ran
/// out.
pub fn take_and_allow(
    agent: &mut AgentHandle,
    now: u64,
    datagram: &[u8],
    view: u32,
    arcs: &[u32],
) -> Option<Access>
    ensures { IfSome result (IsAllowedTo (taker_of agent.old.agent) agent.old.agent.users
        agent.old.agent.tables now datagram.now view arcs.now) }
{
    let Ok(()) = agent.take(now, datagram) else {
        return None;
    };
    match agent.allows(view, arcs) {
        Ok(access) => Some(access),
        Err(_) => None,
    }
}

/// Does the same with a handle that is made for it. The answer is what isAccessAllowed defines on the rows of the
/// configuration (RFC 3415, section 3). None if a text is refused, too.
pub fn begin_and_allow(
    alloc: Global,
    begun: &Beginning<'_>,
    now: u64,
    datagram: &[u8],
    view: u32,
    arcs: &[u32],
) -> Option<Access>
    ensures { IfSome result (IsAllowedByRows begun.now now datagram.now view arcs.now) }
{
    agents_decide_alike();
    let (config, engine) = (begun.config, begun.engine);
    let Ok(mut agent) = AgentHandle::of(alloc, config, engine, begun.boots, begun.started) else {
        return None;
    };
    let answer = take_and_allow(&mut agent, now, datagram, view, arcs);
    drop(agent);
    answer
}

/// Hands a datagram to an agent's handle. True if it is refused. Then nothing is kept, and nothing of the agent is
/// changed but counters.
pub fn hand_refused(agent: &mut AgentHandle, now: u64, datagram: &[u8]) -> bool
    ensures { IsTrue result → ChangesCounters agent.old agent.new }
{
    agent.take(now, datagram).is_err()
}

/// What a Response says: error-status, error-index, and the octets of its variable bindings (RFC 3416, section 3).
#[derive(Clone, Copy)]
pub struct HandleReply<'a> {
    pub status: u32,
    pub index: u32,
    pub list: &'a [u8],
    pub salt: u64,
}

/// Writes an agent's Response to what its handle keeps at the moment `now`, copies it to the buffer, and hands it to a
/// manager's handle at the moment `at`. If the manager has the user of what is kept, it accepts the Response if and
/// only if the agent's pair is in the time window of what the manager then holds; without authentication always. None
/// if the Response isn't written, the buffer is too short, or memory ran out.
pub fn answer_by_handle(
    agent: &mut AgentHandle,
    manager: &mut ManagerHandle,
    now: u64,
    at: u64,
    reply: &HandleReply<'_>,
    out: &mut [u8],
) -> Option<bool>
    ensures { IfSome result (λ accepted. (g : Given) → agent.old.last ≡ Some g
        → HasSameUser side agent.old.agent.users manager.old.manager.users g.user g.level
        → IsAcceptedInTime agent.old.agent now g reply.now manager.new.manager.clocks at accepted) }
{
    let Ok(()) = agent.respond(now, reply.status, reply.index, reply.list, reply.salt) else {
        return None;
    };
    let mut written = 0;
    let Ok(()) = agent.message(out, &mut written) else {
        return None;
    };
    let Err(fault) = manager.take(at, &out[..written]) else {
        return Some(true);
    };
    if fault == CallFault::Refused(Refusal::OutOfMemory) {
        return None;
    }
    Some(false)
}
