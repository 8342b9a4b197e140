//! What the calls on a manager do, without pointers.
//!
//! A call with much on the stack keeps a frame of its own (`inline(never)`): in one frame with all others it would be
//! deeper than what lib/src wipes after it.

ghost use Rattle.snmp_c.specs.ManagerCalls.{ManagerCalled, ManagerDoes, ManagerCopies, Clears, ManagerTook};
ghost use Rattle.snmp_c.specs.ManagerCalls.{TellsManagerInfo, TellsManagerSize, Absorbed, Saved, ToldPair};

use crate::accepted::Accepted;
use crate::answers::{answer, find_answer, report, take_answer};
use crate::copied::Copied;
use crate::manager_asked::{ManagerAsked, ManagerCall, ManagerSaid};
use crate::requests::{ask, ask_discovery, discover, give_up, request, seal};
use snmp_handles::{CallFault, ManagerHandle, code_of};

/// Does what is asked by the call of its number.
pub(crate) fn call(
    handle: &mut ManagerHandle,
    asked: &ManagerAsked<'_>,
    said: &mut ManagerSaid,
) -> i32
    ensures { ManagerCalled asked.now said.old said.new handle.old handle.new result }
{
    match ManagerCall::of(asked.call) {
        Some(call) => done(handle, call, asked, said),
        None => CallFault::BadArgument.code(),
    }
}

/// Does what is asked by this call.
fn done(
    handle: &mut ManagerHandle,
    call: ManagerCall,
    asked: &ManagerAsked<'_>,
    said: &mut ManagerSaid,
) -> i32
    ensures { ManagerDoes call asked.now said.old said.new handle.old handle.new result }
{
    match call {
        ManagerCall::Take => take(handle, asked.moment, asked.octets),
        ManagerCall::Info => info(handle, said),
        ManagerCall::MaxSize => max_size(handle, said),
        ManagerCall::Answer => answer(handle, said),
        ManagerCall::TakeAnswer => take_answer(handle, said),
        ManagerCall::Report => report(handle, said),
        ManagerCall::Request => request(handle, asked),
        ManagerCall::Seal => seal(handle, asked),
        ManagerCall::Discover => discover(handle, asked.message_id),
        ManagerCall::Ask => ask(handle, asked, said),
        ManagerCall::AskDiscovery => ask_discovery(handle, asked.message_id, said),
        ManagerCall::FindAnswer => find_answer(handle, said),
        ManagerCall::GiveUp => give_up(handle, asked.token),
        ManagerCall::Absorb => absorb(handle, asked.octets, asked.moment),
        ManagerCall::Save => save(handle),
        ManagerCall::Pair => pair(handle, asked.engine, said),
    }
}

/// Takes a datagram.
#[inline(never)]
fn take(handle: &mut ManagerHandle, now: u64, datagram: &[u8]) -> i32
    ensures { ManagerTook now datagram.now handle.old handle.new result }
{
    code_of(handle.take(now, datagram))
}

/// Tells what was accepted.
fn info(handle: &mut ManagerHandle, said: &mut ManagerSaid) -> i32
    ensures { TellsManagerInfo said.old said.new handle.old handle.new result }
{
    match handle.numbers() {
        Some(numbers) => {
            said.accepted = Accepted::of(&numbers);
            0
        }
        None => CallFault::NothingTaken.code(),
    }
}

/// Tells the sender's msgMaxSize.
fn max_size(handle: &mut ManagerHandle, said: &mut ManagerSaid) -> i32
    ensures { TellsManagerSize said.old said.new handle.old handle.new result }
{
    match handle.max_size() {
        Ok(size) => {
            said.max_size = size;
            0
        }
        Err(fault) => fault.code(),
    }
}

/// Joins saved clocks in.
#[inline(never)]
fn absorb(handle: &mut ManagerHandle, text: &[u8], now: u64) -> i32
    ensures { Absorbed text.now now handle.old handle.new result }
{
    code_of(handle.absorb(text, now))
}

/// Leaves the saved text of the clocks.
#[inline(never)]
fn save(handle: &mut ManagerHandle) -> i32
    ensures { Saved handle.old handle.new result }
{
    code_of(handle.save())
}

/// Tells the pair that is held of an engine.
fn pair(handle: &mut ManagerHandle, engine: &[u8], said: &mut ManagerSaid) -> i32
    ensures { ToldPair engine.now said.old said.new handle.old handle.new result }
{
    match handle.pair(engine) {
        Ok(pair) => {
            said.boots = pair.boots;
            said.time = pair.time;
            0
        }
        Err(fault) => fault.code(),
    }
}

/// Copies what has these numbers.
pub(crate) fn copy(
    handle: &mut ManagerHandle,
    what: u32,
    part: u32,
    out: &mut [u8],
    written: &mut usize,
) -> i32
    ensures { ManagerCopies what part out.old out.new written.old
        written.new handle.old handle.new result }
{
    let Some(copied) = Copied::of(what, part) else {
        return CallFault::BadArgument.code();
    };
    match copied {
        Copied::OfKept(part) => code_of(handle.part(part, out, written)),
        Copied::Message => code_of(handle.message(out, written)),
    }
}

/// Gives back all memory but the block of the handle.
pub(crate) fn clear(handle: &mut ManagerHandle) -> i32
    ensures { Clears handle.old handle.new result }
{
    code_of(handle.clear())
}
