//! What the calls on an agent's answers do, without pointers.

ghost use Rattle.std.specs.Prelude.{◌≡◌};
ghost use Rattle.snmp_c.specs.AgentCalls.{TellsSize, RespondsTo, RespondsToWithin, RespondsToFront, UnhandledBy};
ghost use Rattle.snmp_c.specs.AgentCalls.{HasRoom, RefusesKept};

use crate::agent_asked::{AgentAsked, AgentSaid};
use snmp_handles::{AgentHandle, CallFault, code_of, unhandled_code_of, unhandled_of};

/// Tells the sender's msgMaxSize.
pub(crate) fn max_size(handle: &mut AgentHandle, said: &mut AgentSaid) -> i32
    ensures same { handle.new ≡ handle.old }
    ensures told { TellsSize handle.old.last said.old said.new result }
{
    match handle.max_size() {
        Ok(size) => {
            said.max_size = size;
            0
        }
        Err(fault) => fault.code(),
    }
}

/// Writes the Response to what is kept.
#[inline(never)]
pub(crate) fn respond(handle: &mut AgentHandle, asked: &AgentAsked<'_>) -> i32
    ensures { RespondsTo asked.now handle.old handle.new result }
{
    let AgentAsked {
        moment,
        status,
        index,
        octets,
        salt,
        ..
    } = *asked;
    code_of(handle.respond(moment, status, index, octets, salt))
}

/// Writes the Response to what is kept, of at most so many octets.
#[inline(never)]
pub(crate) fn respond_within(handle: &mut AgentHandle, asked: &AgentAsked<'_>) -> i32
    ensures { RespondsToWithin asked.now handle.old handle.new result }
{
    let AgentAsked {
        moment,
        status,
        index,
        octets,
        salt,
        limit,
        ..
    } = *asked;
    code_of(handle.respond_within(moment, status, index, octets, salt, limit))
}

/// Writes the Response to what is kept with as many of the bindings as have room, and tells how many they are.
#[inline(never)]
pub(crate) fn respond_front(
    handle: &mut AgentHandle,
    asked: &AgentAsked<'_>,
    said: &mut AgentSaid,
) -> i32
    ensures { RespondsToFront asked.now said.old said.new handle.old handle.new result }
{
    let AgentAsked {
        moment,
        status,
        index,
        octets,
        salt,
        limit,
        ..
    } = *asked;
    match handle.respond_front(moment, status, index, octets, salt, limit) {
        Ok(fronted) => {
            said.count = fronted;
            0
        }
        Err(fault) => fault.code(),
    }
}

/// Tells how many of the bindings have room in the Response to what is kept.
#[inline(never)]
pub(crate) fn fits(handle: &mut AgentHandle, asked: &AgentAsked<'_>, said: &mut AgentSaid) -> i32
    ensures { HasRoom asked.now said.old said.new handle.old handle.new result }
{
    let AgentAsked {
        moment,
        status,
        index,
        octets,
        salt,
        limit,
        ..
    } = *asked;
    match handle.fits(moment, status, index, octets, salt, limit) {
        Ok(count) => {
            said.count = count;
            0
        }
        Err(fault) => fault.code(),
    }
}

/// Tells why nothing answers what is kept.
pub(crate) fn unhandled(handle: &mut AgentHandle, said: &mut AgentSaid) -> i32
    ensures { UnhandledBy said.old said.new handle.old handle.new result }
{
    match handle.unhandled() {
        Ok(why) => {
            said.unhandled = unhandled_code_of(Ok(why));
            0
        }
        Err(fault) => fault.code(),
    }
}

/// Counts what is kept as one that isn't answered, and writes the report on it.
#[inline(never)]
pub(crate) fn refuse(handle: &mut AgentHandle, now: u64, why: u32, salt: u64) -> i32
    ensures { RefusesKept now why salt handle.old handle.new result }
{
    match unhandled_of(why) {
        Some(why) => code_of(handle.refuse(now, why, salt)),
        None => CallFault::BadArgument.code(),
    }
}
