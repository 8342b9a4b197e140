//! A gateway behind a pointer.

ghost use Rattle.std.specs.Borrow.{full_share, sem};
ghost use Rattle.std.specs.Prelude.{◌≡◌, ◌≢◌, ◌⊎◌, pos};
ghost use Rattle.std.specs.Ptr.{lies_at};
ghost use Rattle.gate_handles.specs.contracts.handle.GateHandle as gates;
ghost use Rattle.gate_handles.specs.Gates.{GateHeld};
ghost use Rattle.snmp_handles.specs.Faults.{fault_code};
ghost use Rattle.snmp_handles.specs.declared.fault.CallFault.TheVariants.{Refused};
ghost use Rattle.snmp_message.specs.declared.refusal.Refusal.TheVariants.{OutOfMemory};
ghost use Rattle.snmp_c.specs.GateCalls.{MakesGateway, ReadsConfiguration, ClearsGate, GateCalled, GateCopies};
ghost use Rattle.snmp_c.specs.GateCalls.{GateLine, TellsGateConfiguration, TellsUser};

use crate::gate_asked::{GateAsked, GateSaid, LineAsked};
use crate::gate_calls::{call, clear, copy, line};
use gate_handles::{GateHandle, copied_user, tell_gate_config};
use snmp_handles::{CallFault, code_of};
use snmp_msg::Refusal;
use std::alloc::Global;
use std::mem::align_of;

// The heap in lib/src aligns its blocks to 16 octets.
const _: () = prove!(align_of::<GateHandle>() <= 16);

/// Writes the pointer to a handle. It answers 14, and nothing is written, if memory runs out.
fn write_handle(alloc: Global, handle: GateHandle, out: &mut *mut u8) -> i32
    ensures answer { (result ≡ pos 0) ⊎ (result ≡ fault_code (Refused OutOfMemory)) }
    ensures unwritten { result ≢ pos 0 → out.new ≡ out.old }
{
    match Box::new(alloc, handle) {
        Ok(handle) => {
            *out = Box::into_raw(handle) as *mut u8;
            0
        }
        Err(_) => CallFault::Refused(Refusal::OutOfMemory).code(),
    }
}

/// Makes a gateway of this configuration, in TOML, with these boots, whose agent started at the moment `started`, in
/// seconds, and writes the pointer to it. Where it answers another number than 0, nothing is written. That the
/// pointer is written where it answers 0 is trusted, and tested from C.
///
/// It answers -1 where boots are above 2147483647, -6 where the configuration is refused, and 14 if memory runs out.
#[unsafe(no_mangle)]
pub extern "C" fn proved_gate_new(
    alloc: Global,
    config: &[u8],
    boots: u32,
    started: u64,
    out: &mut *mut u8,
) -> i32
    ensures made { MakesGateway config.now boots started result }
    ensures unwritten { result ≢ pos 0 → out.new ≡ out.old }
{
    match GateHandle::of(alloc, config, boots, started) {
        Ok(handle) => write_handle(alloc, handle, out),
        Err(fault) => fault.code(),
    }
}

/// Makes a handle with what this configuration says, in TOML, for `proved_gate_copy` and `GateCall::MayNotify`, and
/// writes the pointer to it. Its gateway has no users and no devices, and answers nobody; no password is hashed.
/// Where it answers another number than 0, nothing is written. That the pointer is written where it answers 0 is
/// trusted, and tested from C.
///
/// It answers -6 where the configuration is refused, and 14 if memory runs out.
#[unsafe(no_mangle)]
pub extern "C" fn proved_gate_read(alloc: Global, config: &[u8], out: &mut *mut u8) -> i32
    ensures read { ReadsConfiguration config.now result }
    ensures unwritten { result ≢ pos 0 → out.new ≡ out.old }
{
    match GateHandle::read(alloc, config) {
        Ok(handle) => write_handle(alloc, handle, out),
        Err(fault) => fault.code(),
    }
}

/// Tells why this text is refused as a gateway's configuration. It answers 0 where it isn't, and -6 where it is: then
/// the front of the buffer has two lines, the refusal, and what is wrong and what is expected. It answers 14 if
/// memory runs out, and nothing is written then; and -5 where the lines are longer than the buffer: then it writes
/// how many octets they have.
#[unsafe(no_mangle)]
pub extern "C" fn proved_gate_fault(
    alloc: Global,
    config: &[u8],
    out: &mut [u8],
    written: &mut usize,
) -> i32
    ensures { TellsGateConfiguration config.now out.old out.new written.old written.new result }
{
    code_of(tell_gate_config(alloc, config, out, written))
}

/// Copies the msgUserName of a datagram to the front of the buffer, and writes how many octets it has. Whether the
/// message is authentic isn't looked at. It answers 1, 2 or 3 where the datagram has none, and -5 where the buffer is
/// too short; the octets are counted then too.
#[unsafe(no_mangle)]
pub extern "C" fn proved_datagram_user(datagram: &[u8], out: &mut [u8], written: &mut usize) -> i32
    ensures { TellsUser datagram.now out.old out.new written.old written.new result }
{
    code_of(copied_user(datagram, out, written))
}

/// Gives back all memory but the block at the pointer, for which the caller then calls the heap's `rattle_dealloc`:
/// it answers 14, and nothing is given back, if memory runs out.
#[unsafe(no_mangle)]
pub unsafe extern "C" fn proved_gate_clear(at: *mut u8) -> i32
    ghost held: { GateHeld }
    requires* { sem 𝓛 (lies_at gates.the_row full_share at held) }
    ensures* { ∃ₛ (λ (new : GateHeld). sem 𝓛
        (lies_at gates.the_row full_share at new) ∗ ⌜ ClearsGate held new result ⌝) }
{
    clear(&mut *(at as *mut GateHandle))
}

/// Does what is asked of the gateway by the call of its number, which `GateCall` has, and tells in `said` what that
/// call tells; what it doesn't tell stays as it was. It answers 0 where it is done, 1 to 18 for a refusal by its
/// number, and a negative number for a fault of the call; -1 where no call has the number.
#[unsafe(no_mangle)]
pub unsafe extern "C" fn proved_gate_call(
    at: *mut u8,
    asked: &GateAsked<'_>,
    said: &mut GateSaid,
) -> i32
    ghost held: { GateHeld }
    requires* { sem 𝓛 (lies_at gates.the_row full_share at held) }
    ensures* { ∃ₛ (λ (new : GateHeld). sem 𝓛
        (lies_at gates.the_row full_share at new) ∗ ⌜ GateCalled asked.now said.old said.new held new result ⌝) }
{
    call(&mut *(at as *mut GateHandle), asked, said)
}

/// Copies octets to the front of the buffer, and writes how many they are: 0 the datagram that is to be sent; 1 the
/// address of the client whose message is answered, or isn't, as it came with the client's datagram; 2 that of the
/// client that asks the request with this number; 3 what the configuration says at the position of this number, counted
/// from 0. That has settings: 0 the path of the boots file; 1 the address at which it listens; 2 the contextName of the
/// device, 3 its address, and 4 what about it is probably a mistake; 5 the address at which it takes Traps; 6 the
/// address of the receiver, 7 the name of its user, 8 the word for its level, and 9 `trap` or `inform`; 10 the read
/// view, of those that access rows name and no family row has.
///
/// It answers -1 where nothing has the numbers, -2 where there is none, and 14 if memory runs out; then nothing is
/// written. It answers -5 where the buffer is too short: the octets are counted then too, and the buffer stays as it
/// was.
#[unsafe(no_mangle)]
pub unsafe extern "C" fn proved_gate_copy(
    at: *mut u8,
    what: u32,
    setting: u32,
    number: u64,
    out: &mut [u8],
    written: &mut usize,
) -> i32
    ghost held: { GateHeld }
    requires* { sem 𝓛 (lies_at gates.the_row full_share at held) }
    ensures* { ∃ₛ (λ (new : GateHeld). sem 𝓛
        (lies_at gates.the_row full_share at new) ∗ ⌜ GateCopies what setting number out.old out.new
        written.old written.new held new result ⌝) }
{
    copy(
        &mut *(at as *mut GateHandle),
        what,
        setting,
        number,
        out,
        written,
    )
}

/// Copies the line of this kind that the last call has for a log to the front of the buffer, and writes how many octets
/// it has. It is for people: no definition has its words. It answers -2 where there is no such line, and 14 if memory
/// runs out; then nothing is written. It answers -5 where the buffer is too short: the octets are counted then too.
#[unsafe(no_mangle)]
pub unsafe extern "C" fn proved_gate_line(
    at: *mut u8,
    asked: &LineAsked<'_>,
    out: &mut [u8],
    written: &mut usize,
) -> i32
    ghost held: { GateHeld }
    requires* { sem 𝓛 (lies_at gates.the_row full_share at held) }
    ensures* { ∃ₛ (λ (new : GateHeld). sem 𝓛
        (lies_at gates.the_row full_share at new) ∗ ⌜ GateLine out.old out.new
        written.old written.new held new result ⌝) }
{
    line(&mut *(at as *mut GateHandle), asked, out, written)
}
