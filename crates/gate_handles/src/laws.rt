//! Laws of a gateway's handle, over any run of calls. Each function does nothing: its contract is the law.

ghost use Rattle.std.specs.Prelude.{List, []};
ghost use Rattle.snmp_gate.specs.History.{Happening};
ghost use Rattle.snmp_gate.specs.Runs.{Event, IsHistoryOf, IsRun};
ghost use Rattle.snmp_gate.specs.Waiting.{GateStands};
ghost use Rattle.gate_handles.specs.Calls.{AreEventsOf, Call, HaveRun, held_after};
ghost use Rattle.gate_handles.specs.Gates.{GateHeld};

use snmp_gate::a_gateway_mediates;

/// Whatever is given to a handle, call after call, and as long as moments don't go back: the gateway in it gets just
/// that, and each call answers what becomes of it, and leaves to be sent what goes out (`runs`). So each law of a
/// gateway's run holds of a handle's calls. What goes out of the handle of a new gateway has a lawful history
/// (`history`).
///
/// The calls are those of `take_client`, `take_device` and `next`, the latest first; the others change nothing. `clear`
/// begins anew.
pub fn a_handle_mediates()
    ensures runs { (first : GateHeld) (calls : List Call) → HaveRun first calls
        → (events : List Event) × AreEventsOf calls events × IsRun first.gate events (held_after first calls).gate }
    ensures history { (first : GateHeld) (calls : List Call) → GateStands 0 [] first.gate → HaveRun first calls
        → (events : List Event) × (history : List Happening) × AreEventsOf calls events
        × IsHistoryOf first.gate events history }
{
    a_gateway_mediates();
}
