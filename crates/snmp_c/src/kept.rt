//! A message that an agent accepted, behind a pointer of its own.

ghost use Rattle.std.specs.Borrow.{full_share, sem};
ghost use Rattle.std.specs.Prelude.{◌≡◌, ◌≢◌, Option, pos};
ghost use Rattle.std.specs.Ptr.{lies_at};
ghost use Rattle.snmp_incoming.specs.Outcome.{Given};
ghost use Rattle.snmp_handles.specs.contracts.agent.AgentHandle as agents;
ghost use Rattle.snmp_handles.specs.contracts.kept.KeptHandle as kepts;
ghost use Rattle.snmp_handles.specs.Agents.{AgentHeld};
ghost use Rattle.snmp_c.specs.KeptCalls.{MakesKept, Keeps, Restores, KeptAnswered, KeptCalled, TellsKeptPart};
ghost use Rattle.snmp_c.specs.KeptCalls.{ClearsKept};

use crate::agent_asked::{AgentAsked, AgentSaid};
use crate::kept_calls::{answer, call, clear, copy, keep, restore};
use snmp_handles::{AgentHandle, CallFault, KeptHandle};
use snmp_msg::Refusal;
use std::alloc::Global;
use std::mem::align_of;

// The heap in lib/src aligns its blocks to 16 octets.
const _: () = prove!(align_of::<KeptHandle>() <= 16);

/// Makes an object that keeps no message yet, and writes the pointer to it. Where it answers another number than 0,
/// nothing is written. That the pointer is written where it answers 0 is trusted, and tested from C.
///
/// It answers 14 if memory runs out.
#[unsafe(no_mangle)]
pub extern "C" fn proved_kept_new(alloc: Global, out: &mut *mut u8) -> i32
    ensures made { MakesKept result }
    ensures unwritten { result ≢ pos 0 → out.new ≡ out.old }
{
    match Box::new(alloc, KeptHandle::new()) {
        Ok(handle) => {
            *out = Box::into_raw(handle) as *mut u8;
            0
        }
        Err(_) => CallFault::Refused(Refusal::OutOfMemory).code(),
    }
}

/// Gives back the memory of the message that is kept, but not the block at the pointer, for which the caller then calls
/// the heap's `rattle_dealloc`. It answers 0.
#[unsafe(no_mangle)]
pub unsafe extern "C" fn proved_kept_clear(at: *mut u8) -> i32
    ghost held: { Option Given }
    requires* { sem 𝓛 (lies_at kepts.the_row full_share at held) }
    ensures* { ∃ₛ (λ (new : Option Given). sem 𝓛
        (lies_at kepts.the_row full_share at new) ∗ ⌜ ClearsKept held new result ⌝) }
{
    clear(&mut *(at as *mut KeptHandle))
}

/// Moves the message that the agent accepted last out of its handle, into the object `kept`; what that kept is given
/// up. The message to be sent stays. It answers 0; or -2 where no message was accepted, and then nothing changes. It
/// takes no memory.
#[unsafe(no_mangle)]
pub unsafe extern "C" fn proved_agent_keep(agent: *mut u8, kept: *mut u8) -> i32
    ghost held: { AgentHeld × Option Given }
    requires* { sem 𝓛 (lies_at agents.the_row full_share agent held.0)
        ∗ sem 𝓛 (lies_at kepts.the_row full_share kept held.1) }
    ensures* { ∃ₛ (λ (new : AgentHeld × Option Given).
        sem 𝓛 (lies_at agents.the_row full_share agent new.0)
        ∗ sem 𝓛 (lies_at kepts.the_row full_share kept new.1)
        ∗ ⌜ Keeps held.0 held.1 new.0 new.1 result ⌝) }
{
    keep(
        &mut *(agent as *mut AgentHandle),
        &mut *(kept as *mut KeptHandle),
    )
}

/// Moves the message that is kept back into the handle: it is the one that the agent accepted last, for all calls on
/// the agent. It answers 0; or -2 where no message is kept, and then nothing changes. It takes no memory.
#[unsafe(no_mangle)]
pub unsafe extern "C" fn proved_agent_restore(agent: *mut u8, kept: *mut u8) -> i32
    ghost held: { AgentHeld × Option Given }
    requires* { sem 𝓛 (lies_at agents.the_row full_share agent held.0)
        ∗ sem 𝓛 (lies_at kepts.the_row full_share kept held.1) }
    ensures* { ∃ₛ (λ (new : AgentHeld × Option Given).
        sem 𝓛 (lies_at agents.the_row full_share agent new.0)
        ∗ sem 𝓛 (lies_at kepts.the_row full_share kept new.1)
        ∗ ⌜ Restores held.0 held.1 new.0 new.1 result ⌝) }
{
    restore(
        &mut *(agent as *mut AgentHandle),
        &mut *(kept as *mut KeptHandle),
    )
}

/// Answers the message that is kept, by a call of `AgentCall` that writes a Response, as `proved_agent_call`
/// answers the one that was accepted last, and leaves the answer as the agent's message to be sent. What the agent
/// accepted last stays, and so does what is kept. Where it doesn't answer 0, nothing changes; it answers what
/// `proved_agent_call` does, -2 where no message is kept, and -1 where no such call has the number.
#[unsafe(no_mangle)]
pub unsafe extern "C" fn proved_kept_respond(
    agent: *mut u8,
    kept: *mut u8,
    asked: &AgentAsked<'_>,
    said: &mut AgentSaid,
) -> i32
    ghost held: { AgentHeld × Option Given }
    requires* { sem 𝓛 (lies_at agents.the_row full_share agent held.0)
        ∗ sem 𝓛 (lies_at kepts.the_row full_share kept held.1) }
    ensures* { ∃ₛ (λ (new : AgentHeld × Option Given).
        sem 𝓛 (lies_at agents.the_row full_share agent new.0)
        ∗ sem 𝓛 (lies_at kepts.the_row full_share kept new.1)
        ∗ ⌜ KeptAnswered asked.now said.old said.new held.0 held.1 new.0 new.1 result ⌝) }
{
    answer(
        &mut *(agent as *mut AgentHandle),
        &mut *(kept as *mut KeptHandle),
        asked,
        said,
    )
}

/// Tells of the message that is kept what `AgentCall` tells by the call of this number: `Info` or `MaxSize`. It answers
/// -1 where another call has it or none, and -2 where no message is kept; then nothing is reported.
#[unsafe(no_mangle)]
pub unsafe extern "C" fn proved_kept_call(at: *mut u8, number: u32, said: &mut AgentSaid) -> i32
    ghost held: { Option Given }
    requires* { sem 𝓛 (lies_at kepts.the_row full_share at held) }
    ensures* { ∃ₛ (λ (new : Option Given). sem 𝓛
        (lies_at kepts.the_row full_share at new) ∗ ⌜ KeptCalled number said.old said.new held new result ⌝) }
{
    call(&mut *(at as *mut KeptHandle), number, said)
}

/// Copies a part of the message that is kept, by the parts' numbers of `proved_agent_copy` and in the same way. It
/// answers -1 where no part has the number, -2 where no message is kept, and -5 where the buffer is too short.
#[unsafe(no_mangle)]
pub unsafe extern "C" fn proved_kept_copy(
    at: *mut u8,
    number: u32,
    out: &mut [u8],
    written: &mut usize,
) -> i32
    ghost held: { Option Given }
    requires* { sem 𝓛 (lies_at kepts.the_row full_share at held) }
    ensures* { ∃ₛ (λ (new : Option Given). sem 𝓛
        (lies_at kepts.the_row full_share at new) ∗ ⌜ TellsKeptPart number out.old out.new
        written.old written.new held new result ⌝) }
{
    copy(&mut *(at as *mut KeptHandle), number, out, written)
}
