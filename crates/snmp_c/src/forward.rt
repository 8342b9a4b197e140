//! A forwarder of notifications behind a pointer.

ghost use Rattle.std.specs.Borrow.{full_share, sem};
ghost use Rattle.std.specs.Prelude.{◌≡◌, ◌≢◌, pos};
ghost use Rattle.std.specs.Ptr.{lies_at};
ghost use Rattle.gate_handles.specs.contracts.forward.ForwardHandle as forwarders;
ghost use Rattle.gate_handles.specs.Forwards.{ForwardHeld};
ghost use Rattle.snmp_c.specs.ForwardCalls.{ClearsForwarder, ForwardCalled, ForwardCopies, MakesTheForwarder};

use crate::forward_asked::{ForwardAsked, ForwardSaid};
use crate::forward_calls::{call, clear, copy};
use gate_handles::ForwardHandle;
use snmp_handles::CallFault;
use snmp_msg::Refusal;
use std::alloc::Global;
use std::mem::align_of;

// The heap in lib/src aligns its blocks to 16 octets.
const _: () = prove!(align_of::<ForwardHandle>() <= 16);

/// Makes a forwarder of this configuration of a gateway, in TOML, with these boots, whose agent started at the moment
/// `started`, in seconds, and writes the pointer to it. Where it answers another number than 0, nothing is written.
/// That the pointer is written where it answers 0 is trusted, and tested from C.
///
/// It answers -1 where boots are above 2147483647, -6 where the configuration is refused, and 14 if memory runs out.
#[unsafe(no_mangle)]
pub extern "C" fn proved_forward_new(
    alloc: Global,
    config: &[u8],
    boots: u32,
    started: u64,
    out: &mut *mut u8,
) -> i32
    ensures made { MakesTheForwarder config.now boots started result }
    ensures unwritten { result ≢ pos 0 → out.new ≡ out.old }
{
    let handle = match ForwardHandle::of(alloc, config, boots, started) {
        Ok(handle) => handle,
        Err(fault) => return fault.code(),
    };
    match Box::new(alloc, handle) {
        Ok(handle) => {
            *out = Box::into_raw(handle) as *mut u8;
            0
        }
        Err(_) => CallFault::Refused(Refusal::OutOfMemory).code(),
    }
}

/// Gives back all memory but the block at the pointer, for which the caller then calls the heap's `rattle_dealloc`:
/// it answers 14, and nothing is given back, if memory runs out.
#[unsafe(no_mangle)]
pub unsafe extern "C" fn proved_forward_clear(at: *mut u8) -> i32
    ghost held: { ForwardHeld }
    requires* { sem 𝓛 (lies_at forwarders.the_row full_share at held) }
    ensures* { ∃ₛ (λ (new : ForwardHeld). sem 𝓛
        (lies_at forwarders.the_row full_share at new) ∗ ⌜ ClearsForwarder held new result ⌝) }
{
    clear(&mut *(at as *mut ForwardHandle))
}

/// Does what is asked of the forwarder by the call of its number, which `ForwardCall` has, and tells in `said` what
/// that call tells; what it doesn't tell stays as it was. It answers 0 where it is done, 1 to 18 for a refusal by its
/// number, and a negative number for a fault of the call; -1 where no call has the number.
#[unsafe(no_mangle)]
pub unsafe extern "C" fn proved_forward_call(
    at: *mut u8,
    asked: &ForwardAsked<'_>,
    said: &mut ForwardSaid,
) -> i32
    ghost held: { ForwardHeld }
    requires* { sem 𝓛 (lies_at forwarders.the_row full_share at held) }
    ensures* { ∃ₛ (λ (new : ForwardHeld). sem 𝓛
        (lies_at forwarders.the_row full_share at new) ∗ ⌜ ForwardCalled asked.now said.old said.new
        held new result ⌝) }
{
    call(&mut *(at as *mut ForwardHandle), asked, said)
}

/// Copies the datagram that is to be sent to the front of the buffer, and writes how many octets it has. It answers
/// -2 where there is none, and -5 where the buffer is too short; the octets are counted then too, and the buffer
/// stays as it was.
#[unsafe(no_mangle)]
pub unsafe extern "C" fn proved_forward_copy(
    at: *mut u8,
    out: &mut [u8],
    written: &mut usize,
) -> i32
    ghost held: { ForwardHeld }
    requires* { sem 𝓛 (lies_at forwarders.the_row full_share at held) }
    ensures* { ∃ₛ (λ (new : ForwardHeld). sem 𝓛
        (lies_at forwarders.the_row full_share at new) ∗ ⌜ ForwardCopies out.old out.new written.old written.new
        held new result ⌝) }
{
    copy(&mut *(at as *mut ForwardHandle), out, written)
}
