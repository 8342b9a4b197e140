//! A receiver of notifications behind a pointer.

ghost use Rattle.std.specs.Borrow.{full_share, sem};
ghost use Rattle.std.specs.Prelude.{◌≡◌, ◌≢◌, pos};
ghost use Rattle.std.specs.Ptr.{lies_at};
ghost use Rattle.listener_handles.specs.contracts.handle.ListenerHandle as listeners;
ghost use Rattle.listener_handles.specs.Listeners.{ListenerHeld};
ghost use Rattle.snmp_c.specs.ListenerCalls.{ClearsListener, ListenerCalled, ListenerCopies, MakesAListener};

use crate::listener_asked::{ListenerAsked, ListenerSaid};
use crate::listener_calls::{call, clear, copy};
use listener_handles::{ListenerHandle, ListenerSettings};
use snmp_handles::CallFault;
use snmp_msg::Refusal;
use std::alloc::Global;
use std::mem::align_of;

// The heap in lib/src aligns its blocks to 16 octets.
const _: () = prove!(align_of::<ListenerHandle>() <= 16);

/// Makes a receiver of notifications of these settings, and writes the pointer to it. Where it answers another number
/// than 0, nothing is written. That the pointer is written where it answers 0 is trusted, and tested from C.
///
/// It answers -1 where the least level, the engine ID or the boots are out of their range, -7 where the text saves no
/// clocks, -6 where the configuration is refused, and 14 if memory runs out.
#[unsafe(no_mangle)]
pub extern "C" fn proved_listener_new(
    alloc: Global,
    settings: &ListenerSettings<'_>,
    out: &mut *mut u8,
) -> i32
    ensures made { MakesAListener settings.now result }
    ensures unwritten { result ≢ pos 0 → out.new ≡ out.old }
{
    let handle = match ListenerHandle::of(alloc, settings) {
        Ok(handle) => handle,
        Err(fault) => return fault.code(),
    };
    match Box::new(alloc, handle) {
        Ok(handle) => {
            *out = Box::into_raw(handle) as *mut u8;
            0
        }
        Err(_) => CallFault::Refused(Refusal::OutOfMemory).code(),
    }
}

/// Gives back all memory but the block at the pointer, for which the caller then calls the heap's `rattle_dealloc`:
/// it answers 14, and nothing is given back, if memory runs out.
#[unsafe(no_mangle)]
pub unsafe extern "C" fn proved_listener_clear(at: *mut u8) -> i32
    ghost held: { ListenerHeld }
    requires* { sem 𝓛 (lies_at listeners.the_row full_share at held) }
    ensures* { ∃ₛ (λ (new : ListenerHeld). sem 𝓛
        (lies_at listeners.the_row full_share at new) ∗ ⌜ ClearsListener held new result ⌝) }
{
    clear(&mut *(at as *mut ListenerHandle))
}

/// Does what is asked of the receiver by the call of its number, which `ListenerCall` has, and tells in `said` what
/// that call tells; what it doesn't tell stays as it was. It answers 0 where it is done, 14 if memory runs out, and a
/// negative number for a fault of the call; -1 where no call has the number.
#[unsafe(no_mangle)]
pub unsafe extern "C" fn proved_listener_call(
    at: *mut u8,
    asked: &ListenerAsked<'_>,
    said: &mut ListenerSaid,
) -> i32
    ghost held: { ListenerHeld }
    requires* { sem 𝓛 (lies_at listeners.the_row full_share at held) }
    ensures* { ∃ₛ (λ (new : ListenerHeld). sem 𝓛
        (lies_at listeners.the_row full_share at new) ∗ ⌜ ListenerCalled asked.now said.old said.new
        held new result ⌝) }
{
    call(&mut *(at as *mut ListenerHandle), asked, said)
}

/// Copies octets as `proved_agent_copy` does: a part of the notification that was reported last, or the message, which
/// is what is to be sent to the sender of the datagram that was taken last, or the saved text.
#[unsafe(no_mangle)]
pub unsafe extern "C" fn proved_listener_copy(
    at: *mut u8,
    what: u32,
    part: u32,
    out: &mut [u8],
    written: &mut usize,
) -> i32
    ghost held: { ListenerHeld }
    requires* { sem 𝓛 (lies_at listeners.the_row full_share at held) }
    ensures* { ∃ₛ (λ (new : ListenerHeld). sem 𝓛
        (lies_at listeners.the_row full_share at new) ∗ ⌜ ListenerCopies what part
        out.old out.new written.old written.new held
        new result ⌝) }
{
    copy(&mut *(at as *mut ListenerHandle), what, part, out, written)
}
