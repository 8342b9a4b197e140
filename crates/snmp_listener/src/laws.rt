//! Laws of a listener, over any run of its calls. Each function does nothing: its contract is the law.

ghost use Rattle.std.specs.Prelude.{◌≡◌, ◌≢◌, ◌≤◌, ◌⊎◌, ◌%◌, ◌^◌, ℕ, List, [], Some, Ok, replicate, slice_index};
ghost use Rattle.std.specs.Global.{Vec as Octets};
ghost use Rattle.sha2.specs.Sha256.{sha256};
ghost use Rattle.snmp_ber.specs.declared.level.Level.TheVariants.{NoAuthNoPriv};
ghost use Rattle.snmp_incoming.specs.Outcome.{Given};
ghost use Rattle.snmp_listener.specs.Acknowledging.{Acknowledges};
ghost use Rattle.snmp_listener.specs.Counting.{place_of, places};
ghost use Rattle.snmp_listener.specs.Listening.{IsFit, Kind, ListenerState, ListenerTakes, inform, uncounted};
ghost use Rattle.snmp_listener.specs.Runs.{Event, IsRun, IsToBeTold, IsTold, IsUnanswerable};
ghost use Rattle.snmp_listener.specs.Runs.{WasTold, acknowledgement_of, latest, times_dropped, told_again};
ghost use Rattle.snmp_listener.specs.Told.{HasDigest};
ghost use Rattle.snmp_listener.specs.declared.dropped.Dropped.{Dropped};
ghost use Rattle.snmp_listener.specs.declared.listener.ListenerTaken.{ListenerTaken};

use snmp_msg::{one_cut, one_message};

/// After any run of a listener that told nothing, a datagram is reported if and only if it is to be told.
///
/// What is reported is a notification that the manager or the agent accepts; it isn't below the least level; if it has
/// no authentication, it comes from one of the addresses; it is in its user's notify view, if its user needs that; no
/// notification with its digest was reported in the run that can be accepted yet; and there was room to remember it
/// (`only`). Such a notification is reported, unless it is an Inform whose acknowledgement is refused (`each`).
pub fn a_notification_is_told_if_it_is_to_be_told()
    ensures only { (since : ℕ) (first old last : ListenerState) (events : List Event) (now : ℕ) (from w salt : List ℕ)
        (what : ListenerTaken) (kind : Kind) (g : Given) → first.told ≡ [] → IsRun since first events old
        → latest since events ≤ now → ListenerTakes old now from w salt what last → IsTold what kind g
        → IsToBeTold events old now from w kind g last }
    ensures each { (since : ℕ) (first old last : ListenerState) (events : List Event) (now : ℕ) (from w salt : List ℕ)
        (what : ListenerTaken) (kind : Kind) (g : Given) → first.told ≡ [] → IsRun since first events old
        → latest since events ≤ now → ListenerTakes old now from w salt what last
        → IsToBeTold events old now from w kind g last
        → IsTold what kind g ⊎ IsUnanswerable old now salt kind g what }
{
    snmp_incoming::one_answer();
}

/// A datagram that has authentication is reported once in a run, however long, of a listener that told nothing. The
/// moments of the run aren't before the agent's start, and don't go back.
pub fn a_notification_is_told_once()
    ensures { (since : ℕ) (first old last : ListenerState) (events : List Event) (now : ℕ) (from w salt : List ℕ)
        (what : ListenerTaken) (kind : Kind) (g : Given) → first.told ≡ [] → first.agent.started ≤ since
        → IsRun since first events old → latest since events ≤ now → ListenerTakes old now from w salt what last
        → IsTold what kind g → g.level ≢ NoAuthNoPriv → ¬ WasTold events w }
{
    one_message();
    one_cut();
    usm_core::one_answer();
    snmp_incoming::replay_bound();
}

/// An acknowledgement goes out only for an Inform that is reported, or that has the digest of one that was reported and
/// can be accepted yet; and it is the Response that RFC 3416, section 4.2.7, asks for.
pub fn an_inform_is_acknowledged_if_it_is_told()
    ensures { (since : ℕ) (first old last : ListenerState) (events : List Event) (now : ℕ) (from w salt : List ℕ)
        (what : ListenerTaken) (text : Octets ℕ) → first.told ≡ [] → IsRun since first events old
        → latest since events ≤ now → ListenerTakes old now from w salt what last
        → acknowledgement_of what ≡ Some text
        → (g : Given) × IsFit inform old now from w g (uncounted old last)
        × Acknowledges old.agent now g salt (Ok text.items)
        × (IsTold what inform g ⊎ HasDigest (sha256 w) (told_again events now last)) }
{}

/// The counter of each reason is the number of datagrams that weren't reported in the run for that reason, modulo 2^64,
/// and nothing else is counted.
pub fn what_is_dropped_is_counted()
    ensures { (since : ℕ) (first last : ListenerState) (events : List Event) (why : Dropped)
        → first.counts ≡ replicate places 0 → IsRun since first events last
        → slice_index last.counts (place_of why) ≡ times_dropped why events % 2 ^ 64 }
{}
