//! What the calls on a forwarder of notifications do, without pointers.
//!
//! A call with much on the stack keeps a frame of its own (`inline(never)`), as in `agent_calls`.

ghost use Rattle.std.specs.Prelude.{◌≡◌, MatchResult};
ghost use Rattle.snmp_handles.specs.Faults.{code};
ghost use Rattle.snmp_c.specs.ForwardCalls.{ClearsForwarder, ForwardCalled, ForwardCopies, ForwardDoes};
ghost use Rattle.snmp_c.specs.ForwardCalls.{SendsNotification, TakesReceiverOf, TakesTrapOf};
ghost use Rattle.snmp_c.specs.ForwardCalls.{TellsForwardDue, TellsForwardInfo, tells_forwarded};

use crate::forward_asked::{ForwardAsked, ForwardCall, ForwardSaid};
use crate::gate_calls::why_number;
use gate_handles::{ForwardEvent, ForwardHandle};
use snmp_handles::{CallFault, code_of};

/// Does what is asked by the call of its number.
pub(crate) fn call(
    handle: &mut ForwardHandle,
    asked: &ForwardAsked<'_>,
    said: &mut ForwardSaid,
) -> i32
    ensures { ForwardCalled asked.now said.old said.new handle.old handle.new result }
{
    match ForwardCall::of(asked.call) {
        Some(call) => done(handle, call, asked, said),
        None => CallFault::BadArgument.code(),
    }
}

/// Does what is asked by this call.
fn done(
    handle: &mut ForwardHandle,
    call: ForwardCall,
    asked: &ForwardAsked<'_>,
    said: &mut ForwardSaid,
) -> i32
    ensures { ForwardDoes call asked.now said.old said.new handle.old handle.new result }
{
    match call {
        ForwardCall::TakeTrap => take_trap(handle, asked, said),
        ForwardCall::TakeReceiver => take_receiver(handle, asked, said),
        ForwardCall::Next => next(handle, asked, said),
        ForwardCall::Due => due(handle, said),
        ForwardCall::Info => info(handle, said),
    }
}

/// Tells an event, and answers 0; or answers the fault's number, and tells nothing.
fn tell(event: Result<ForwardEvent, CallFault>, said: &mut ForwardSaid) -> i32
    ensures answer { result ≡ code event }
    ensures told { MatchResult event (λ event. said.new ≡ tells_forwarded said.old event)
        (λ fault. said.new ≡ said.old) }
{
    match event {
        Ok(event) => {
            said.event = event.number();
            said.why = why_number(event.why());
            0
        }
        Err(fault) => fault.code(),
    }
}

/// Takes a datagram from a device.
#[inline(never)]
fn take_trap(handle: &mut ForwardHandle, asked: &ForwardAsked<'_>, said: &mut ForwardSaid) -> i32
    ensures { TakesTrapOf asked.now said.old said.new handle.old handle.new result }
{
    tell(handle.take_trap(asked.device, asked.datagram), said)
}

/// Takes a datagram from a receiver.
#[inline(never)]
fn take_receiver(
    handle: &mut ForwardHandle,
    asked: &ForwardAsked<'_>,
    said: &mut ForwardSaid,
) -> i32
    ensures { TakesReceiverOf asked.now said.old said.new handle.old handle.new result }
{
    tell(
        handle.take_receiver(asked.moment, asked.receiver, asked.datagram),
        said,
    )
}

/// Does the first thing that is to be done.
#[inline(never)]
fn next(handle: &mut ForwardHandle, asked: &ForwardAsked<'_>, said: &mut ForwardSaid) -> i32
    ensures { SendsNotification asked.now said.old said.new handle.old handle.new result }
{
    tell(handle.next(asked.moment, asked.salt, asked.ask_id), said)
}

/// Tells the moment from which on something is due.
fn due(handle: &mut ForwardHandle, said: &mut ForwardSaid) -> i32
    ensures { TellsForwardDue said.old said.new handle.old handle.new result }
{
    match handle.due() {
        Some(due) => {
            said.due = due;
            0
        }
        None => CallFault::NothingTaken.code(),
    }
}

/// Tells what the last call was about.
fn info(handle: &mut ForwardHandle, said: &mut ForwardSaid) -> i32
    ensures { TellsForwardInfo said.old said.new handle.old handle.new result }
{
    said.info = handle.info();
    0
}

/// Copies what is to be sent.
pub(crate) fn copy(handle: &mut ForwardHandle, out: &mut [u8], written: &mut usize) -> i32
    ensures { ForwardCopies out.old out.new written.old written.new handle.old handle.new result }
{
    code_of(handle.message(out, written))
}

/// Gives back all memory but the block of the handle.
pub(crate) fn clear(handle: &mut ForwardHandle) -> i32
    ensures { ClearsForwarder handle.old handle.new result }
{
    code_of(handle.clear())
}
