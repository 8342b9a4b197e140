//! What the calls on a message that is kept do, without pointers.

ghost use Rattle.std.specs.Prelude.{◌≡◌};
ghost use Rattle.snmp_c.specs.AgentCalls.{TellsInfo, TellsSize};
ghost use Rattle.snmp_c.specs.KeptCalls.{Keeps, Restores, KeptAnswered, AnswersKept, AnswersKeptWithin};
ghost use Rattle.snmp_c.specs.KeptCalls.{AnswersKeptFront, KeptCalled, TellsKeptPart, ClearsKept};

use crate::accepted::Accepted;
use crate::agent_asked::{AgentAsked, AgentCall, AgentSaid};
use crate::responses;
use snmp_handles::{AgentHandle, CallFault, KeptHandle, Part, code_of};

/// Moves what the agent accepted last out of its handle.
pub(crate) fn keep(agent: &mut AgentHandle, kept: &mut KeptHandle) -> i32
    ensures { Keeps agent.old kept.old agent.new kept.new result }
{
    code_of(agent.keep(kept))
}

/// Moves what is kept back into the handle.
pub(crate) fn restore(agent: &mut AgentHandle, kept: &mut KeptHandle) -> i32
    ensures { Restores agent.old kept.old agent.new kept.new result }
{
    code_of(agent.restore(kept))
}

/// Writes the Response to what is kept.
fn respond(agent: &mut AgentHandle, kept: &mut KeptHandle, asked: &AgentAsked<'_>) -> i32
    ensures { AnswersKept asked.now agent.old kept.old agent.new kept.new result }
{
    agent.exchange(kept);
    let answer = responses::respond(agent, asked);
    agent.exchange(kept);
    answer
}

/// Writes the Response to what is kept, of at most so many octets.
fn respond_within(agent: &mut AgentHandle, kept: &mut KeptHandle, asked: &AgentAsked<'_>) -> i32
    ensures { AnswersKeptWithin asked.now agent.old kept.old agent.new kept.new result }
{
    agent.exchange(kept);
    let answer = responses::respond_within(agent, asked);
    agent.exchange(kept);
    answer
}

/// Writes the Response to what is kept, with the longest front of its bindings that has room.
fn respond_front(
    agent: &mut AgentHandle,
    kept: &mut KeptHandle,
    asked: &AgentAsked<'_>,
    said: &mut AgentSaid,
) -> i32
    ensures { AnswersKeptFront asked.now said.old said.new agent.old kept.old agent.new kept.new result }
{
    agent.exchange(kept);
    let answer = responses::respond_front(agent, asked, said);
    agent.exchange(kept);
    answer
}

/// Answers what is kept, by the call of its number.
pub(crate) fn answer(
    agent: &mut AgentHandle,
    kept: &mut KeptHandle,
    asked: &AgentAsked<'_>,
    said: &mut AgentSaid,
) -> i32
    ensures { KeptAnswered asked.now said.old said.new agent.old kept.old agent.new kept.new result }
{
    match AgentCall::of(asked.call) {
        Some(AgentCall::Respond) => respond(agent, kept, asked),
        Some(AgentCall::RespondWithin) => respond_within(agent, kept, asked),
        Some(AgentCall::RespondFront) => respond_front(agent, kept, asked, said),
        _ => CallFault::BadArgument.code(),
    }
}

/// Tells what was accepted.
fn info(handle: &KeptHandle, said: &mut AgentSaid) -> i32
    ensures { TellsInfo handle.now said.old said.new result }
{
    match handle.numbers() {
        Some(numbers) => {
            said.accepted = Accepted::of(&numbers);
            0
        }
        None => CallFault::NothingTaken.code(),
    }
}

/// Tells the sender's msgMaxSize.
fn max_size(handle: &KeptHandle, said: &mut AgentSaid) -> i32
    ensures { TellsSize handle.now said.old said.new result }
{
    match handle.max_size() {
        Ok(size) => {
            said.max_size = size;
            0
        }
        Err(fault) => fault.code(),
    }
}

/// Tells what the call of this number tells.
pub(crate) fn call(handle: &mut KeptHandle, number: u32, said: &mut AgentSaid) -> i32
    ensures { KeptCalled number said.old said.new handle.old handle.new result }
{
    match AgentCall::of(number) {
        Some(AgentCall::Info) => info(handle, said),
        Some(AgentCall::MaxSize) => max_size(handle, said),
        _ => CallFault::BadArgument.code(),
    }
}

/// Copies the part of this number of what is kept.
pub(crate) fn copy(handle: &mut KeptHandle, number: u32, out: &mut [u8], written: &mut usize) -> i32
    ensures { TellsKeptPart number out.old out.new written.old written.new handle.old handle.new result }
{
    match Part::of(number) {
        Some(part) => code_of(handle.part(part, out, written)),
        None => CallFault::BadArgument.code(),
    }
}

/// Gives back the memory of what is kept.
pub(crate) fn clear(handle: &mut KeptHandle) -> i32
    ensures { ClearsKept handle.old handle.new result }
{
    handle.clear();
    0
}
