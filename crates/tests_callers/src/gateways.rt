//! What goes out of a gateway, of variables that are hidden.

ghost use Rattle.std.specs.Prelude.{◌≡◌, ◌≤◌, ℕ, List, [], IfOk, length};
ghost use Rattle.snmp_gate.specs.History.{Happening};
ghost use Rattle.snmp_gate.specs.Runs.{Event, IsHistoryOf, IsRun};
ghost use Rattle.snmp_gate.specs.Waiting.{GateStands};
ghost use Rattle.tests_callers.specs.Hidden.{KeepsHidden};
ghost use Rattle.tests_callers.specs.Served.{IsServed};

use snmp_gate::{Gate, Sent, a_gateway_mediates};
use std::alloc::AllocError;

/// What a program hands to a socket.
#[derive(Drop)]
pub enum Out {
    /// To the client with this address, this datagram.
    Client(Vec<u8>, Vec<u8>),
    /// To the device of this number, this datagram.
    Device(usize, Vec<u8>),
    Nothing,
}

/// Lets a gateway send the next datagram, after any history. A datagram to a client is a report, or a Response in which
/// each value has no octets, or is one of the client's own message, or one that the device gave for the same variable,
/// which the client's message may see. A device is asked for values only of variables that an accepted message for its
/// context may see.
pub fn send(gate: &mut Gate, now: u64, salt: [u8; 8], ask_id: u32) -> Result<Out, AllocError>
    ensures { IfOk result (λ out. (since : ℕ) (before : List Happening) → since ≤ now
        → GateStands since before gate.old → KeepsHidden gate.old before out) }
{
    let sent = gate.next(now, salt, ask_id)?;
    match sent {
        Sent::ToClient {
            number: _,
            message,
            says: _,
            datagram,
            ended: _,
        } => Ok(Out::Client(message.client, datagram)),
        Sent::ToDevice {
            number: _,
            device,
            datagram,
            again: _,
        } => Ok(Out::Device(device, datagram)),
        Sent::Unanswered { .. } | Sent::GivenUp { .. } | Sent::Nothing => Ok(Out::Nothing),
    }
}

/// What a gateway is given, or that it may send.
pub enum Come<'a> {
    /// From the client at this address, this datagram.
    Client(&'a [u8], &'a [u8]),
    /// From the device of this number, this datagram.
    Device(usize, &'a [u8]),
    /// Something may go out, with this salt and this request-id.
    Next([u8; 8], u32),
}

/// Lets a gateway take what comes at this moment, or send. What finds no memory is passed over.
pub fn serve_one(gate: &mut Gate, now: u64, come: &Come<'_>)
    ensures { IsServed gate.old now come.now gate.new }
{
    match come {
        Come::Client(from, datagram) => match gate.take_client(now, from, datagram) {
            Ok(_) => {}
            Err(_) => {}
        },
        Come::Device(device, datagram) => match gate.take_device(now, *device, datagram) {
            Ok(_) => {}
            Err(_) => {}
        },
        Come::Next(salt, ask_id) => match gate.next(now, *salt, *ask_id) {
            Ok(_) => {}
            Err(_) => {}
        },
    }
}

/// Serves all that comes, each with its moment. A moment that goes back is taken as the one before it. So whatever
/// comes, its events, one for each, are a run of the gateway (`run`), and if that was a new one, they have a lawful
/// history (`history`).
pub fn serve(gate: &mut Gate, comes: &[(u64, Come<'_>)])
    ensures run { (events : List Event) × (length events ≡ length comes.now) × IsRun gate.old events gate.new }
    ensures history { GateStands 0 [] gate.old → (events : List Event) × (history : List Happening)
        × IsRun gate.old events gate.new × IsHistoryOf gate.old events history }
{
    a_gateway_mediates();
    let mut moment = 0;
    for (now, come) in comes {
        if *now > moment {
            moment = *now;
        }
        serve_one(gate, moment, come);
    }
}
