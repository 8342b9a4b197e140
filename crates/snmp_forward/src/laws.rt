//! Laws of notifications, over any run of calls. Each function does nothing: its contract is the law.

ghost use Rattle.std.specs.Prelude.{◌≡◌, ◌≢◌, ◌<◌, ◌≤◌, ◌++◌, ℕ, List, [], All, AllPairs, length};
ghost use Rattle.snmp_agent.specs.Agent.{AgentState};
ghost use Rattle.snmp_gate.specs.declared.devices.Device.{Device};
ghost use Rattle.snmp_forward.specs.History.{AreLawful, Happening, chosen_for, dealt_with, left_in};
ghost use Rattle.snmp_msg.specs.Pdu.{PduParts};
ghost use Rattle.snmp_forward.specs.Notifications.{IsNoNotification, IsNotification};
ghost use Rattle.snmp_forward.specs.declared.notification.NotNotification.{NotNotification};
ghost use Rattle.snmp_forward.specs.Queue.{waitings_of};
ghost use Rattle.snmp_forward.specs.Runs.{Event, IsHistoryOf, IsRun};
ghost use Rattle.snmp_forward.specs.Standing.{ForwarderStands};
ghost use Rattle.snmp_forward.specs.declared.forwarder.Forwarder.{Forwarder};
ghost use Rattle.snmp_forward.specs.declared.receivers.Receiver.{Receiver};

use snmp_community::one_community_message;
use snmp_msg::one_pdu;

/// A datagram is one notification at most: it has one community, one PDU and one snmpTrapOID (`one`). There is no
/// reason then why it isn't one (`none`).
pub fn one_notification()
    ensures one { (w a b : List ℕ) (p q : PduParts) (x y : List ℕ) → IsNotification w a p x → IsNotification w b q y
        → (a ≡ b) × (p ≡ q) × (x ≡ y) }
    ensures none { (w a : List ℕ) (p : PduParts) (x : List ℕ) (why : NotNotification) → IsNotification w a p x
        → ¬ IsNoNotification w why }
{
    one_community_message();
    one_pdu();
}

/// Whatever devices send to a new forwarder: what goes out of it has a history that is lawful. So a receiver is sent a
/// notification only if a device sent it, with its own community, and each of its variables is one of which the
/// receiver may be notified in that device's context; and it is sent these very variables, sealed for its user at its
/// level (`history`). A notification that came and waits no more was dealt with for each receiver that was chosen for
/// it: it was sent to it, or became an Inform, or it is reported why it couldn't be sealed (`each`). At most as many
/// notifications wait as may (`few`). A call that found no memory isn't part of the history.
///
/// The events are calls of `take_trap` and `next` with their answers, the latest first.
pub fn notifications_are_mediated()
    ensures history { (first last : Forwarder) (events : List Event) → ForwarderStands [] first
        → IsRun first events last → (history : List Happening) × IsHistoryOf first events history }
    ensures each { (first last : Forwarder) (events : List Event) → ForwarderStands [] first → IsRun first events last
        → (history : List Happening) × IsHistoryOf first events history
        × ((n : ℕ) → All (λ w. w.number ≢ n) (waitings_of last.waiting.list.items)
        → dealt_with n history ≡ chosen_for n history) }
    ensures few { (first last : Forwarder) (events : List Event) → ForwarderStands [] first → IsRun first events last
        → length last.waiting.list.items ≤ first.waiting.most }
{}

/// A notification that has receivers left waits: no queue is empty before it was dealt with for each of them.
pub fn no_notification_vanishes()
    ensures { (before : List Happening) (f : Forwarder) (n : ℕ) → ForwarderStands before f → left_in n before ≢ []
        → f.waiting.list.items ≢ [] }
{}

/// In a lawful history the receivers of each notification have their turns one after another: those to which it was
/// sent, or wasn't and won't be, and then those to which it is still to be sent, are those that were chosen (`turns`).
/// Their numbers rise, so that none is sent a notification twice (`once`).
pub fn each_receiver_has_its_turn()
    ensures turns { (agent : AgentState) (devices : List Device) (receivers : List Receiver) (n : ℕ)
        (history : List Happening) → AreLawful agent devices receivers history
        → dealt_with n history ++ left_in n history ≡ chosen_for n history }
    ensures once { (agent : AgentState) (devices : List Device) (receivers : List Receiver) (n : ℕ)
        (history : List Happening) → AreLawful agent devices receivers history
        → AllPairs (λ a b. a < b) (dealt_with n history) }
{}
