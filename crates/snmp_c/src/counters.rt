//! What the calls on an agent's counters do, without pointers.

ghost use Rattle.snmp_c.specs.AgentCalls.{Counter, CountOf, DropsSilently};

use crate::agent_asked::AgentSaid;
use snmp_handles::{AgentHandle, CallFault, counter_of};

/// Tells the value of a counter of usmStats.
pub(crate) fn counter(handle: &mut AgentHandle, n: u32, said: &mut AgentSaid) -> i32
    ensures { Counter n said.old said.new handle.old handle.new result }
{
    match handle.counter(n) {
        Ok(value) => {
            said.value = value;
            0
        }
        Err(fault) => fault.code(),
    }
}

/// Tells the value of a counter besides usmStats.
pub(crate) fn count(handle: &mut AgentHandle, n: u32, said: &mut AgentSaid) -> i32
    ensures { CountOf n said.old said.new handle.old handle.new result }
{
    match counter_of(n) {
        Some(counter) => {
            said.value = handle.count(counter);
            0
        }
        None => CallFault::BadArgument.code(),
    }
}

/// Counts what is kept in snmpSilentDrops.
pub(crate) fn silent_drop(handle: &mut AgentHandle) -> i32
    ensures { DropsSilently handle.old handle.new result }
{
    handle.silent_drop();
    0
}
