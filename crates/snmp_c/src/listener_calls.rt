//! What the calls on a receiver of notifications do, without pointers.
//!
//! A call with much on the stack keeps a frame of its own (`inline(never)`), as in `agent_calls`.

ghost use Rattle.snmp_c.specs.ListenerCalls.{ClearsListener, CountsDropped, ListenerCalled, ListenerCopies};
ghost use Rattle.snmp_c.specs.ListenerCalls.{ListenerDoes, SavesClocks, TakesNotification, TellsListenerInfo};
ghost use Rattle.snmp_c.specs.ListenerCalls.{ToldSenderPair};

use crate::accepted::Accepted;
use crate::copied::Copied;
use crate::gate_calls::why_number;
use crate::listener_asked::{ListenerAsked, ListenerCall, ListenerSaid};
use listener_handles::ListenerHandle;
use snmp_handles::{CallFault, code_of};

/// Does what is asked by the call of its number.
pub(crate) fn call(
    handle: &mut ListenerHandle,
    asked: &ListenerAsked<'_>,
    said: &mut ListenerSaid,
) -> i32
    ensures { ListenerCalled asked.now said.old said.new handle.old handle.new result }
{
    match ListenerCall::of(asked.call) {
        Some(call) => done(handle, call, asked, said),
        None => CallFault::BadArgument.code(),
    }
}

/// Does what is asked by this call.
fn done(
    handle: &mut ListenerHandle,
    call: ListenerCall,
    asked: &ListenerAsked<'_>,
    said: &mut ListenerSaid,
) -> i32
    ensures { ListenerDoes call asked.now said.old said.new handle.old handle.new result }
{
    match call {
        ListenerCall::Take => take(handle, asked, said),
        ListenerCall::Info => info(handle, said),
        ListenerCall::Count => count(handle, asked.place, said),
        ListenerCall::Save => save(handle),
        ListenerCall::Pair => pair(handle, asked.engine, said),
    }
}

/// Takes a datagram.
#[inline(never)]
fn take(handle: &mut ListenerHandle, asked: &ListenerAsked<'_>, said: &mut ListenerSaid) -> i32
    ensures { TakesNotification asked.now said.old said.new handle.old handle.new result }
{
    match handle.take(asked.moment, asked.from, asked.octets, asked.salt) {
        Ok(event) => {
            said.event = event.number();
            said.why = why_number(event.why());
            0
        }
        Err(fault) => fault.code(),
    }
}

/// Tells what was reported last.
fn info(handle: &mut ListenerHandle, said: &mut ListenerSaid) -> i32
    ensures { TellsListenerInfo said.old said.new handle.old handle.new result }
{
    match handle.numbers() {
        Some(numbers) => {
            said.accepted = Accepted::of(&numbers);
            0
        }
        None => CallFault::NothingTaken.code(),
    }
}

/// Tells a counter.
fn count(handle: &mut ListenerHandle, place: usize, said: &mut ListenerSaid) -> i32
    ensures { CountsDropped place said.old said.new handle.old handle.new result }
{
    match handle.count(place) {
        Ok(count) => {
            said.count = count;
            0
        }
        Err(fault) => fault.code(),
    }
}

/// Leaves the saved text of the clocks.
#[inline(never)]
fn save(handle: &mut ListenerHandle) -> i32
    ensures { SavesClocks handle.old handle.new result }
{
    code_of(handle.save())
}

/// Tells the pair that is held of a sender's engine.
fn pair(handle: &mut ListenerHandle, engine: &[u8], said: &mut ListenerSaid) -> i32
    ensures { ToldSenderPair engine.now said.old said.new handle.old handle.new result }
{
    match handle.pair(engine) {
        Ok(pair) => {
            said.boots = pair.boots;
            said.time = pair.time;
            0
        }
        Err(fault) => fault.code(),
    }
}

/// Copies what has these numbers.
pub(crate) fn copy(
    handle: &mut ListenerHandle,
    what: u32,
    part: u32,
    out: &mut [u8],
    written: &mut usize,
) -> i32
    ensures { ListenerCopies what part out.old out.new written.old written.new handle.old handle.new result }
{
    let Some(copied) = Copied::of(what, part) else {
        return CallFault::BadArgument.code();
    };
    match copied {
        Copied::OfKept(part) => code_of(handle.part(part, out, written)),
        Copied::Message => code_of(handle.message(out, written)),
    }
}

/// Gives back all memory but the block of the handle.
pub(crate) fn clear(handle: &mut ListenerHandle) -> i32
    ensures { ClearsListener handle.old handle.new result }
{
    code_of(handle.clear())
}
