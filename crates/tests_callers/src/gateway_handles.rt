//! The handle of a gateway, that is given all that comes, from its configuration on.

ghost use Rattle.std.specs.Prelude.{◌≡◌, ◌≤◌, ℕ, IfSome, List, length};
ghost use Rattle.snmp_gate.specs.History.{Happening};
ghost use Rattle.snmp_gate.specs.Waiting.{GateStands};
ghost use Rattle.gate_handles.specs.Calls.{Call, HaveRun, held_after};
ghost use Rattle.tests_callers.specs.GateServed.{HasMediated, IsHandleServed};
ghost use Rattle.tests_callers.specs.Hidden.{HandleKeepsHidden};

use gate_handles::{GateEvent, GateHandle, a_handle_mediates};
use snmp_gate::a_gateway_keeps_to_its_limits;
use std::alloc::Global;

/// What a gateway's handle is given, or that it may send.
pub enum GateCome<'a> {
    /// From the client at this address, this datagram.
    Client(&'a [u8], &'a [u8]),
    /// From the device of this number, this datagram.
    Device(usize, &'a [u8]),
    /// Something may go out, with this salt and this request-id.
    Next(u64, u32),
}

/// Lets the handle take what comes at this moment, in milliseconds, or send. What finds no memory is passed over.
pub fn serve_handle_once(gate: &mut GateHandle, now: u64, come: &GateCome<'_>)
    ensures { IsHandleServed gate.old now come.now gate.new }
{
    match come {
        GateCome::Client(from, datagram) => match gate.take_client(now, from, datagram) {
            Ok(_) => {}
            Err(_) => {}
        },
        GateCome::Device(device, datagram) => match gate.take_device(now, *device, datagram) {
            Ok(_) => {}
            Err(_) => {}
        },
        GateCome::Next(salt, ask_id) => match gate.next(now, *salt, *ask_id) {
            Ok(_) => {}
            Err(_) => {}
        },
    }
}

/// Serves all that comes, each with its moment. A moment that goes back is taken as the one before it. The calls, one
/// for each, are a run of the handle.
pub fn serve_handle(gate: &mut GateHandle, comes: &[(u64, GateCome<'_>)])
    ensures { (calls : List Call) × (length calls ≡ length comes.now) × HaveRun gate.old calls
        × (held_after gate.old calls ≡ gate.new) }
{
    let mut moment = 0;
    for (now, come) in comes {
        if *now > moment {
            moment = *now;
        }
        serve_handle_once(gate, moment, come);
    }
}

/// Makes the handle of a gateway of a configuration, with these boots, whose agent starts at the moment `started`, in
/// seconds, and serves all that comes. So whatever comes, what the gateway gets and sends has a lawful history, which
/// keeps to the limits that the configuration says. None if the configuration is refused, or memory ran out.
pub fn serve_configured(
    alloc: Global,
    config: &[u8],
    boots: u32,
    started: u64,
    comes: &[(u64, GateCome<'_>)],
) -> Option<GateHandle>
    ensures { IfSome result (HasMediated config.now boots started (length comes.now)) }
{
    a_handle_mediates();
    a_gateway_keeps_to_its_limits();
    let Ok(mut gate) = GateHandle::of(alloc, config, boots, started) else {
        return None;
    };
    serve_handle(&mut gate, comes);
    Some(gate)
}

/// How much of its buffers a program hands to a socket.
pub enum HandleOut {
    /// To the client whose address has so many octets, a datagram of so many octets.
    Client(usize, usize),
    /// To the device of this number, a datagram of so many octets.
    Device(usize, usize),
    Nothing,
}

/// Lets the handle of a gateway send the next datagram, after any history, and copies it and the client's address. What
/// is in the buffers then shows nothing hidden, as what a gateway itself lets out. None if a buffer is too short, or
/// memory ran out.
pub fn send_by_handle(
    gate: &mut GateHandle,
    now: u64,
    salt: u64,
    ask_id: u32,
    to: &mut [u8],
    out: &mut [u8],
) -> Option<HandleOut>
    ensures { IfSome result (λ sent. (since : ℕ) (before : List Happening) → since ≤ now
        → GateStands since before gate.old.gate
        → HandleKeepsHidden gate.old.gate before sent to.new out.new) }
{
    let Ok(event) = gate.next(now, salt, ask_id) else {
        return None;
    };
    let (mut address, mut octets) = (0, 0);
    match event {
        GateEvent::ToClient => {
            let Ok(()) = gate.client(to, &mut address) else {
                return None;
            };
            let Ok(()) = gate.message(out, &mut octets) else {
                return None;
            };
            Some(HandleOut::Client(address, octets))
        }
        GateEvent::ToDevice => {
            let Ok(()) = gate.message(out, &mut octets) else {
                return None;
            };
            Some(HandleOut::Device(gate.info().device, octets))
        }
        _ => Some(HandleOut::Nothing),
    }
}
