//! What the calls on an agent do, without pointers.
//!
//! A call with much on the stack keeps a frame of its own (`inline(never)`): in one frame with all others it would be
//! deeper than what lib/src wipes after it.

ghost use Rattle.std.specs.Prelude.{◌≡◌};
ghost use Rattle.snmp_c.specs.AgentCalls.{AgentCalled, AgentDoes, AgentCopies, ClearsAgent, WritesNextName};
ghost use Rattle.snmp_c.specs.AgentCalls.{Reconfigured, Takes, TellsInfo, Allows, May, Notifies};

use crate::accepted::Accepted;
use crate::agent_asked::{AgentAsked, AgentCall, AgentSaid};
use crate::copied::Copied;
use crate::counters::{count, counter, silent_drop};
use crate::responses::{fits, max_size, refuse, respond, respond_front, respond_within, unhandled};
use snmp_handles::{AgentHandle, CallFault, NoticeTo, code_of};

/// Does what is asked by the call of its number.
pub(crate) fn call(handle: &mut AgentHandle, asked: &AgentAsked<'_>, said: &mut AgentSaid) -> i32
    ensures { AgentCalled asked.now said.old said.new handle.old handle.new result }
{
    match AgentCall::of(asked.call) {
        Some(call) => done(handle, call, asked, said),
        None => CallFault::BadArgument.code(),
    }
}

/// Does what is asked by this call.
fn done(
    handle: &mut AgentHandle,
    call: AgentCall,
    asked: &AgentAsked<'_>,
    said: &mut AgentSaid,
) -> i32
    ensures { AgentDoes call asked.now said.old said.new handle.old handle.new result }
{
    match call {
        AgentCall::Reconfigure => reconfigure(handle, asked.octets),
        AgentCall::Take => take(handle, asked.moment, asked.octets),
        AgentCall::Info => info(handle, said),
        AgentCall::MaxSize => max_size(handle, said),
        AgentCall::Allows => allows(handle, asked.view, asked.arcs, said),
        AgentCall::May => may(handle, asked, said),
        AgentCall::Unhandled => unhandled(handle, said),
        AgentCall::Respond => respond(handle, asked),
        AgentCall::RespondWithin => respond_within(handle, asked),
        AgentCall::RespondFront => respond_front(handle, asked, said),
        AgentCall::Fits => fits(handle, asked, said),
        AgentCall::Refuse => refuse(handle, asked.moment, asked.why, asked.salt),
        AgentCall::SilentDrop => silent_drop(handle),
        AgentCall::Notify => notify(handle, asked),
        AgentCall::Counter => counter(handle, asked.counter, said),
        AgentCall::Count => count(handle, asked.counter, said),
    }
}

/// Has the users and the tables of another configuration.
#[inline(never)]
fn reconfigure(handle: &mut AgentHandle, config: &[u8]) -> i32
    ensures { Reconfigured config.now handle.old handle.new result }
{
    code_of(handle.reconfigure(config))
}

/// Takes a datagram.
#[inline(never)]
fn take(handle: &mut AgentHandle, now: u64, datagram: &[u8]) -> i32
    ensures { Takes now datagram.now handle.old handle.new result }
{
    code_of(handle.take(now, datagram))
}

/// Tells what was accepted.
fn info(handle: &mut AgentHandle, said: &mut AgentSaid) -> i32
    ensures same { handle.new ≡ handle.old }
    ensures told { TellsInfo handle.old.last said.old said.new result }
{
    match handle.numbers() {
        Some(numbers) => {
            said.accepted = Accepted::of(&numbers);
            0
        }
        None => CallFault::NothingTaken.code(),
    }
}

/// Tells whether the sender of what is kept may see the variable.
#[inline(never)]
fn allows(handle: &mut AgentHandle, view: u32, arcs: &[u32], said: &mut AgentSaid) -> i32
    ensures { Allows view arcs.now said.old said.new handle.old handle.new result }
{
    match handle.allows(view, arcs) {
        Ok(access) => {
            said.access = u32::from(access.number());
            0
        }
        Err(fault) => fault.code(),
    }
}

/// Tells whether a user may see the variable.
#[inline(never)]
fn may(handle: &mut AgentHandle, asked: &AgentAsked<'_>, said: &mut AgentSaid) -> i32
    ensures { May asked.now said.old said.new handle.old handle.new result }
{
    let AgentAsked {
        user,
        level,
        context_name,
        view,
        arcs,
        ..
    } = *asked;
    match handle.may(user, level, context_name, view, arcs) {
        Ok(access) => {
            said.access = u32::from(access.number());
            0
        }
        Err(fault) => fault.code(),
    }
}

/// Writes a notification.
#[inline(never)]
fn notify(handle: &mut AgentHandle, asked: &AgentAsked<'_>) -> i32
    ensures { Notifies asked.now handle.old handle.new result }
{
    let to = NoticeTo {
        id: asked.message_id,
        user: asked.user,
        level: asked.level,
        request_id: asked.request_id,
        context_engine: asked.context_engine,
        context_name: asked.context_name,
    };
    code_of(handle.notify(asked.moment, &to, asked.octets, asked.salt))
}

/// Writes the next name that the sender of what is kept may see.
pub(crate) fn next(
    handle: &mut AgentHandle,
    view: u32,
    from: &[u32],
    out: &mut [u32],
    written: &mut usize,
) -> i32
    ensures { WritesNextName view from.now out.old out.new written.old written.new
        handle.old handle.new result }
{
    code_of(handle.next(view, from, out, written))
}

/// Copies what has these numbers.
pub(crate) fn copy(
    handle: &mut AgentHandle,
    what: u32,
    part: u32,
    out: &mut [u8],
    written: &mut usize,
) -> i32
    ensures { AgentCopies what part out.old out.new written.old
        written.new handle.old handle.new result }
{
    let Some(copied) = Copied::of(what, part) else {
        return CallFault::BadArgument.code();
    };
    match copied {
        Copied::OfKept(part) => code_of(handle.part(part, out, written)),
        Copied::Message => code_of(handle.message(out, written)),
    }
}

/// Gives back all memory but the block of the handle.
pub(crate) fn clear(handle: &mut AgentHandle) -> i32
    ensures { ClearsAgent handle.old handle.new result }
{
    code_of(handle.clear())
}
