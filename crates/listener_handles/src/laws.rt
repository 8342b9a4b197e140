//! The law of a receiver's handle, over any run of calls. The function does nothing: its contract is the law.

ghost use Rattle.std.specs.Prelude.{◌≡◌, List, []};
ghost use Rattle.snmp_listener.specs.Listening.{state_of};
ghost use Rattle.snmp_listener.specs.Runs.{Event, IsRun};
ghost use Rattle.listener_handles.specs.Calls.{AreEventsOf, Call, HaveRun, held_after};
ghost use Rattle.listener_handles.specs.Listeners.{IsListenerOf, ListenerHeld};
ghost use Rattle.listener_handles.specs.declared.settings.ListenerSettings.{ListenerSettings};

/// Whatever datagrams are given to a handle that was made of settings, call after call, and as long as moments don't go
/// back: they are a run of the listener in it, which told nothing before, and each call answers and keeps what becomes
/// of its datagram. So each law of a listener's run holds of a handle's calls.
///
/// The calls are those of `take` and `save`, the latest first; the others change nothing, and `clear` ends the run.
pub fn a_handle_listens()
    ensures { (settings : ListenerSettings) (first : ListenerHeld) (calls : List Call) → IsListenerOf settings first
        → HaveRun settings.started first calls
        → (events : List Event) × AreEventsOf calls events
        × IsRun settings.started (state_of first.listener) events (state_of (held_after first calls).listener)
        × (first.listener.told.list.items ≡ []) × (first.listener.agent.started ≡ settings.started) }
{}
