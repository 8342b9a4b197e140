//! A manager's request, as it is taken by an agent.

ghost use Rattle.std.specs.Prelude.{◌≡◌, ◌≤◌, ◌-◌, length, IfSome, MatchBool};
ghost use Rattle.snmp_ber.specs.declared.number.TheConstants.{MAX_INTEGER32};
ghost use Rattle.engine_clock.specs.Pairs.{pair_max};
ghost use Rattle.engine_clock.specs.Marks.{mark_at};
ghost use Rattle.usm_core.specs.Verified.{agent as side_of};
ghost use Rattle.snmp_outgoing.specs.Accepts.{IsInTime};
ghost use Rattle.snmp_outgoing.specs.Bodies.{BodyFits, front_in, variables_in};
ghost use Rattle.snmp_outgoing.specs.Requests.{requesting};
ghost use Rattle.snmp_outgoing.specs.Speaks.{HasSameUser};
ghost use Rattle.snmp_agent.specs.Agent.{taker_of};

use engine_clock::EngineId;
use snmp_agent::Agent;
use snmp_ber::Level;
use snmp_manager::Manager;
use snmp_outgoing::Body;

/// Whom a request is for, and what it says.
#[derive(Clone, Copy)]
pub struct Asking<'a> {
    /// msgID, at most 2147483647.
    pub id: u32,
    /// The agent's engine.
    pub engine: &'a EngineId,
    /// The user's name, at most 32 octets.
    pub user: &'a [u8],
    pub level: Level,
    pub body: &'a Body<'a>,
    pub salt: [u8; 8],
}

/// Writes a manager's request at the moment `now`, and hands it to an agent of that engine at the moment `at`. If both
/// have the user, the agent accepts it if and only if the pair that the manager wrote is in the agent's time window;
/// without authentication always. None if the request isn't written, or memory ran out.
pub fn ask(
    manager: &mut Manager,
    agent: &mut Agent,
    now: u64,
    at: u64,
    asking: &Asking<'_>,
) -> Option<bool>
    requires id { asking.now.id ≤ MAX_INTEGER32 }
    requires user { length asking.now.user.now ≤ 32 }
    requires body { BodyFits asking.now.body.now }
    requires engine { agent.old.engine ≡ asking.now.engine.now }
    requires shared { HasSameUser (side_of asking.now.engine.now) manager.old.users agent.old.users
        asking.now.user.now asking.now.level }
    requires runs { at - agent.old.started ≤ pair_max }
    ensures { IfSome result (λ accepted. MatchBool accepted
        (IsInTime (taker_of agent.old) at
        (requesting (mark_at manager.old.clocks asking.now.engine.now) now
        asking.now.id asking.now.engine.now asking.now.user.now asking.now.level (front_in asking.now.body.now)
        (variables_in asking.now.body.now) asking.now.salt))
        (IsInTime (taker_of agent.old) at
        (requesting (mark_at manager.old.clocks asking.now.engine.now) now
        asking.now.id asking.now.engine.now asking.now.user.now asking.now.level (front_in asking.now.body.now)
        (variables_in asking.now.body.now) asking.now.salt) → ⊥)) }
{
    let Asking {
        id,
        engine,
        user,
        level,
        body,
        salt,
    } = *asking;
    let Ok((octets, _pending)) = manager.request(now, id, engine, user, level, body, salt) else {
        return None;
    };
    let Err(refused) = agent.take(at, &octets) else {
        return Some(true);
    };
    if refused.why.is_memory() {
        return None;
    }
    Some(false)
}
