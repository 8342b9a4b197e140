//! What the calls on a gateway do, without pointers.
//!
//! A call with much on the stack keeps a frame of its own (`inline(never)`), as in `agent_calls`.

ghost use Rattle.std.specs.Prelude.{◌≡◌, MatchResult};
ghost use Rattle.snmp_handles.specs.Faults.{code};
ghost use Rattle.snmp_c.specs.GateCalls.{ClearsGate, GateCalled, GateCopies, GateDoes, TakesFromClient};
ghost use Rattle.snmp_c.specs.GateCalls.{TakesFromDevice, SendsDue, TellsDue, TellsGateInfo, TellsMayNotify};
ghost use Rattle.snmp_c.specs.GateCalls.{GateCounter, GateCount, GateLine, TellsLines, tells_event, why_number};

use crate::gate_asked::{GateAsked, GateCall, GateSaid, LineAsked};
use crate::gate_copied::GateCopied;
use gate_handles::{GateEvent, GateHandle};
use snmp_handles::{CallFault, code_of, counter_of};
use snmp_msg::Refusal;

/// Does what is asked by the call of its number.
pub(crate) fn call(handle: &mut GateHandle, asked: &GateAsked<'_>, said: &mut GateSaid) -> i32
    ensures { GateCalled asked.now said.old said.new handle.old handle.new result }
{
    match GateCall::of(asked.call) {
        Some(call) => done(handle, call, asked, said),
        None => CallFault::BadArgument.code(),
    }
}

/// Does what is asked by this call.
fn done(handle: &mut GateHandle, call: GateCall, asked: &GateAsked<'_>, said: &mut GateSaid) -> i32
    ensures { GateDoes call asked.now said.old said.new handle.old handle.new result }
{
    match call {
        GateCall::TakeClient => take_client(handle, asked, said),
        GateCall::TakeDevice => take_device(handle, asked, said),
        GateCall::Next => next(handle, asked, said),
        GateCall::Due => due(handle, said),
        GateCall::Info => info(handle, said),
        GateCall::MayNotify => may_notify(handle, asked, said),
        GateCall::Counter => counter(handle, asked.counter, said),
        GateCall::Count => count(handle, asked.counter, said),
        GateCall::Lines => lines(handle, said),
    }
}

/// The number of a refusal, or 0 where there is none.
pub(crate) fn why_number(why: Option<Refusal>) -> u32
    ensures { result ≡ why_number why }
{
    match why {
        Some(refusal) => u32::from(refusal.number()),
        None => 0,
    }
}

/// Tells an event, and answers 0; or answers the fault's number, and tells nothing.
fn tell(event: Result<GateEvent, CallFault>, said: &mut GateSaid) -> i32
    ensures answer { result ≡ code event }
    ensures told { MatchResult event (λ event. said.new ≡ tells_event said.old event) (λ fault. said.new ≡ said.old) }
{
    match event {
        Ok(event) => {
            said.event = event.number();
            said.why = why_number(event.why());
            0
        }
        Err(fault) => fault.code(),
    }
}

/// Takes a datagram from a client.
#[inline(never)]
fn take_client(handle: &mut GateHandle, asked: &GateAsked<'_>, said: &mut GateSaid) -> i32
    ensures { TakesFromClient asked.now said.old said.new handle.old handle.new result }
{
    tell(
        handle.take_client(asked.moment, asked.client, asked.datagram),
        said,
    )
}

/// Takes a datagram from a device.
#[inline(never)]
fn take_device(handle: &mut GateHandle, asked: &GateAsked<'_>, said: &mut GateSaid) -> i32
    ensures { TakesFromDevice asked.now said.old said.new handle.old handle.new result }
{
    tell(
        handle.take_device(asked.moment, asked.device, asked.datagram),
        said,
    )
}

/// Does the first thing that is due.
#[inline(never)]
fn next(handle: &mut GateHandle, asked: &GateAsked<'_>, said: &mut GateSaid) -> i32
    ensures { SendsDue asked.now said.old said.new handle.old handle.new result }
{
    tell(handle.next(asked.moment, asked.salt, asked.ask_id), said)
}

/// Tells the moment from which on something is due.
fn due(handle: &mut GateHandle, said: &mut GateSaid) -> i32
    ensures { TellsDue said.old said.new handle.old handle.new result }
{
    match handle.due() {
        Some(due) => {
            said.due = due;
            0
        }
        None => CallFault::NothingTaken.code(),
    }
}

/// Tells what the last call was about.
fn info(handle: &mut GateHandle, said: &mut GateSaid) -> i32
    ensures { TellsGateInfo said.old said.new handle.old handle.new result }
{
    said.info = handle.info();
    0
}

/// Tells whether a receiver may be notified of a variable of a device.
#[inline(never)]
fn may_notify(handle: &mut GateHandle, asked: &GateAsked<'_>, said: &mut GateSaid) -> i32
    ensures { TellsMayNotify asked.now said.old said.new handle.old handle.new result }
{
    match handle.may_notify(asked.receiver, asked.device, asked.arcs) {
        Ok(access) => {
            said.access = u32::from(access.number());
            0
        }
        Err(fault) => fault.code(),
    }
}

/// Tells the value of a counter of usmStats.
fn counter(handle: &mut GateHandle, n: u32, said: &mut GateSaid) -> i32
    ensures { GateCounter n said.old said.new handle.old handle.new result }
{
    match handle.counter(n) {
        Ok(value) => {
            said.value = value;
            0
        }
        Err(fault) => fault.code(),
    }
}

/// Tells the value of a counter besides usmStats.
fn count(handle: &mut GateHandle, n: u32, said: &mut GateSaid) -> i32
    ensures { GateCount n said.old said.new handle.old handle.new result }
{
    match counter_of(n) {
        Some(counter) => {
            said.value = handle.count(counter);
            0
        }
        None => CallFault::BadArgument.code(),
    }
}

/// Tells the kinds of the lines of the last call.
fn lines(handle: &mut GateHandle, said: &mut GateSaid) -> i32
    ensures { TellsLines said.old said.new handle.old handle.new result }
{
    said.value = handle.lines();
    0
}

/// Copies the line of this kind of the last call.
pub(crate) fn line(
    handle: &mut GateHandle,
    asked: &LineAsked<'_>,
    out: &mut [u8],
    written: &mut usize,
) -> i32
    ensures { GateLine out.old out.new written.old written.new handle.old handle.new result }
{
    code_of(handle.line(asked.kind, asked.client, asked.datagram, out, written))
}

/// Copies what has these numbers: of the request of the number, or at the position.
pub(crate) fn copy(
    handle: &mut GateHandle,
    what: u32,
    setting: u32,
    number: u64,
    out: &mut [u8],
    written: &mut usize,
) -> i32
    ensures { GateCopies what setting number out.old out.new written.old written.new
        handle.old handle.new result }
{
    let Some(copied) = GateCopied::of(what, setting) else {
        return CallFault::BadArgument.code();
    };
    match copied {
        GateCopied::Message => code_of(handle.message(out, written)),
        GateCopied::Client => code_of(handle.client(out, written)),
        GateCopied::Asker => code_of(handle.asker(number, out, written)),
        GateCopied::Setting(it) => code_of(handle.setting(it, number as usize, out, written)),
    }
}

/// Gives back all memory but the block of the handle.
pub(crate) fn clear(handle: &mut GateHandle) -> i32
    ensures { ClearsGate handle.old handle.new result }
{
    code_of(handle.clear())
}
