//! A datagram that an agent accepts twice.

ghost use Rattle.std.specs.Prelude.{◌≤◌, ◌-◌, ◌+◌, IsTrue};

use snmp_agent::Agent;
use snmp_ber::Level;
use snmp_incoming::replay_bound;

/// Hands a datagram to an agent at two moments, in seconds. If it is accepted both times at authPriv, the agent's times
/// then are at most 300 seconds apart: twice the 150 seconds of the time window (RFC 3414, section 2.2.3).
pub fn accept_twice(agent: &mut Agent, at: u64, later: u64, datagram: &[u8]) -> bool
    ensures { IsTrue result → (later - agent.old.started ≤ (at - agent.old.started) + 300)
        × (at - agent.old.started ≤ (later - agent.old.started) + 300) }
{
    replay_bound();
    let Ok(first) = agent.take(at, datagram) else {
        return false;
    };
    let Level::AuthPriv = first.level else {
        return false;
    };
    let Ok(_second) = agent.take(later, datagram) else {
        return false;
    };
    true
}
