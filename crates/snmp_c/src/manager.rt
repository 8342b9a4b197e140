//! A manager behind a pointer.

ghost use Rattle.std.specs.Prelude.{◌≡◌, ◌≢◌, pos};
ghost use Rattle.std.specs.Borrow.{full_share, sem};
ghost use Rattle.std.specs.Ptr.{lies_at};
ghost use Rattle.snmp_handles.specs.contracts.manager.ManagerHandle as managers;
ghost use Rattle.snmp_handles.specs.Managers.{ManagerHeld};
ghost use Rattle.snmp_c.specs.ManagerCalls.{MakesAManager, Clears, ManagerCalled, ManagerCopies};

use crate::manager_asked::{ManagerAsked, ManagerSaid};
use crate::manager_calls::{call, clear, copy};
use snmp_handles::{CallFault, ManagerHandle};
use snmp_msg::Refusal;
use std::alloc::Global;
use std::mem::align_of;

// The heap in lib/src aligns its blocks to 16 octets.
const _: () = prove!(align_of::<ManagerHandle>() <= 16);

/// Makes a manager with the users of this configuration, in TOML, that begins with the clocks of this saved
/// text, where the marks of version 1 were seen at the moment `now`, in seconds, and writes the pointer to
/// it. Where it answers another number than 0, nothing is written. That the pointer is written where it
/// answers 0 is trusted, and tested from C.
///
/// It answers -7 where the text saves no clocks, -6 where the configuration is refused, and 14 if memory runs
/// out.
#[unsafe(no_mangle)]
pub extern "C" fn proved_manager_new(
    alloc: Global,
    config: &[u8],
    clocks: &[u8],
    now: u64,
    out: &mut *mut u8,
) -> i32
    ensures made { MakesAManager config.now clocks.now now result }
    ensures unwritten { result ≢ pos 0 → out.new ≡ out.old }
{
    let handle = match ManagerHandle::of(alloc, config, clocks, now) {
        Ok(handle) => handle,
        Err(fault) => return fault.code(),
    };
    match Box::new(alloc, handle) {
        Ok(handle) => {
            *out = Box::into_raw(handle) as *mut u8;
            0
        }
        Err(_) => CallFault::Refused(Refusal::OutOfMemory).code(),
    }
}

/// Gives back all memory but the block at the pointer, for which the caller then calls the heap's
/// `rattle_dealloc`: it answers 14, and nothing is given back, if memory runs out.
#[unsafe(no_mangle)]
pub unsafe extern "C" fn proved_manager_clear(at: *mut u8) -> i32
    ghost held: { ManagerHeld }
    requires* { sem 𝓛 (lies_at managers.the_row full_share at held) }
    ensures* { ∃ₛ (λ (new : ManagerHeld). sem 𝓛
        (lies_at managers.the_row full_share at new) ∗ ⌜ Clears held new result ⌝) }
{
    clear(&mut *(at as *mut ManagerHandle))
}

/// Does what is asked of the manager by the call of its number, which `ManagerCall` has, and tells in `said` what
/// that call tells; what it doesn't tell stays as it was. It answers 0 where it is done, 1 to 18 for a refusal by
/// its number, and a negative number for a fault of the call; -1 where no call has the number.
#[unsafe(no_mangle)]
pub unsafe extern "C" fn proved_manager_call(
    at: *mut u8,
    asked: &ManagerAsked<'_>,
    said: &mut ManagerSaid,
) -> i32
    ghost held: { ManagerHeld }
    requires* { sem 𝓛 (lies_at managers.the_row full_share at held) }
    ensures* { ∃ₛ (λ (new : ManagerHeld). sem 𝓛
        (lies_at managers.the_row full_share at new) ∗ ⌜ ManagerCalled asked.now said.old said.new held new result ⌝) }
{
    call(&mut *(at as *mut ManagerHandle), asked, said)
}

/// Copies octets as `proved_agent_copy` does: a part of the message that is kept, or the message, which is the request
/// that was written last, or the saved text.
#[unsafe(no_mangle)]
pub unsafe extern "C" fn proved_manager_copy(
    at: *mut u8,
    what: u32,
    part: u32,
    out: &mut [u8],
    written: &mut usize,
) -> i32
    ghost held: { ManagerHeld }
    requires* { sem 𝓛 (lies_at managers.the_row full_share at held) }
    ensures* { ∃ₛ (λ (new : ManagerHeld). sem 𝓛
        (lies_at managers.the_row full_share at new) ∗ ⌜ ManagerCopies what part
        out.old out.new written.old written.new held
        new result ⌝) }
{
    copy(&mut *(at as *mut ManagerHandle), what, part, out, written)
}
