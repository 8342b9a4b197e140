//! An agent behind a pointer.

ghost use Rattle.std.specs.Prelude.{◌≡◌, ◌≢◌, pos};
ghost use Rattle.std.specs.Borrow.{full_share, sem};
ghost use Rattle.std.specs.Ptr.{lies_at};
ghost use Rattle.snmp_handles.specs.contracts.agent.AgentHandle as agents;
ghost use Rattle.snmp_handles.specs.Agents.{AgentHeld};
ghost use Rattle.snmp_c.specs.AgentCalls.{Makes, ClearsAgent, AgentCalled, AgentCopies, WritesNextName};

use crate::agent_asked::{AgentAsked, AgentSaid};
use crate::agent_calls::{call, clear, copy, next};
use snmp_handles::{AgentHandle, CallFault};
use snmp_msg::Refusal;
use std::alloc::Global;
use std::mem::align_of;

// The heap in lib/src aligns its blocks to 16 octets.
const _: () = prove!(align_of::<AgentHandle>() <= 16);

/// Makes an agent of this configuration, in TOML, with this engine ID and these boots, which started at the
/// moment `started`, in seconds, and writes the pointer to it. Where it answers another number than 0,
/// nothing is written. That the pointer is written where it answers 0 is trusted, and tested from C.
///
/// It answers -1 where the engine ID hasn't 5 to 32 octets, or has only 0 or only 255 (SnmpEngineID, RFC
/// 3411, section 5), or boots are above 2147483647, -6 where the configuration is refused, and 14 if memory
/// runs out.
#[unsafe(no_mangle)]
pub extern "C" fn proved_agent_new(
    alloc: Global,
    config: &[u8],
    engine: &[u8],
    boots: u32,
    started: u64,
    out: &mut *mut u8,
) -> i32
    ensures made { Makes config.now engine.now boots started result }
    ensures unwritten { result ≢ pos 0 → out.new ≡ out.old }
{
    let handle = match AgentHandle::of(alloc, config, engine, boots, started) {
        Ok(handle) => handle,
        Err(fault) => return fault.code(),
    };
    match Box::new(alloc, handle) {
        Ok(handle) => {
            *out = Box::into_raw(handle) as *mut u8;
            0
        }
        Err(_) => CallFault::Refused(Refusal::OutOfMemory).code(),
    }
}

/// Gives back all memory but the block at the pointer, for which the caller then calls the heap's
/// `rattle_dealloc`: it answers 14, and nothing is given back, if memory runs out.
#[unsafe(no_mangle)]
pub unsafe extern "C" fn proved_agent_clear(at: *mut u8) -> i32
    ghost held: { AgentHeld }
    requires* { sem 𝓛 (lies_at agents.the_row full_share at held) }
    ensures* { ∃ₛ (λ (new : AgentHeld). sem 𝓛
        (lies_at agents.the_row full_share at new) ∗ ⌜ ClearsAgent held new result ⌝) }
{
    clear(&mut *(at as *mut AgentHandle))
}

/// Does what is asked of the agent by the call of its number, which `AgentCall` has, and tells in `said` what that
/// call tells; what it doesn't tell stays as it was. It answers 0 where it is done, 1 to 18 for a refusal by its
/// number, and a negative number for a fault of the call; -1 where no call has the number.
#[unsafe(no_mangle)]
pub unsafe extern "C" fn proved_agent_call(
    at: *mut u8,
    asked: &AgentAsked<'_>,
    said: &mut AgentSaid,
) -> i32
    ghost held: { AgentHeld }
    requires* { sem 𝓛 (lies_at agents.the_row full_share at held) }
    ensures* { ∃ₛ (λ (new : AgentHeld). sem 𝓛
        (lies_at agents.the_row full_share at new) ∗ ⌜ AgentCalled asked.now said.old said.new held new result ⌝) }
{
    call(&mut *(at as *mut AgentHandle), asked, said)
}

/// Writes the least name, at or after these arcs, that the sender of the message that is kept may see by the view
/// 0 (read), 1 (write) or 2 (notify), in the message's context (RFC 3415, section 3; RFC 3416, section 4.2.2): its
/// arcs to the beginning of the buffer, and how many they are, or 0 if there is no such name. It answers 0; -1 where
/// no view has the number or there aren't 1 to 128 arcs, and -2 where no message is kept, and then nothing is
/// written; -5 where the buffer is too short, and then only how many arcs there are.
#[unsafe(no_mangle)]
pub unsafe extern "C" fn proved_agent_next(
    at: *mut u8,
    view: u32,
    from: &[u32],
    out: &mut [u32],
    written: &mut usize,
) -> i32
    ghost held: { AgentHeld }
    requires* { sem 𝓛 (lies_at agents.the_row full_share at held) }
    ensures* { ∃ₛ (λ (new : AgentHeld). sem 𝓛
        (lies_at agents.the_row full_share at new) ∗ ⌜ WritesNextName
        view from.now out.old out.new written.old written.new held
        new result ⌝) }
{
    next(&mut *(at as *mut AgentHandle), view, from, out, written)
}

/// Copies octets to the front of the buffer, and writes how many they are: 0 a part of the message that is kept,
/// which is the content of the PDU's variable-bindings (0), msgUserName (1), contextEngineID (2), contextName (3)
/// or msgAuthoritativeEngineID (4); or 1 the message that is to be sent, which is the report on what was taken
/// last, or the response or notification that was written since. It answers -1 where nothing has the numbers, -2
/// where there is none, and -5 where the buffer is too short; the octets are counted then too, and the buffer stays
/// as it was.
#[unsafe(no_mangle)]
pub unsafe extern "C" fn proved_agent_copy(
    at: *mut u8,
    what: u32,
    part: u32,
    out: &mut [u8],
    written: &mut usize,
) -> i32
    ghost held: { AgentHeld }
    requires* { sem 𝓛 (lies_at agents.the_row full_share at held) }
    ensures* { ∃ₛ (λ (new : AgentHeld). sem 𝓛
        (lies_at agents.the_row full_share at new) ∗ ⌜ AgentCopies what part
        out.old out.new written.old written.new held
        new result ⌝) }
{
    copy(&mut *(at as *mut AgentHandle), what, part, out, written)
}
