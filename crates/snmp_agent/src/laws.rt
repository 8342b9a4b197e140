//! Laws of what agents send and decide. Each function does nothing: its contract is the law.

ghost use Rattle.std.specs.Prelude.{◌≡◌, ℕ, List, Ok};
ghost use Rattle.snmp_ber.specs.declared.level.Level.{Level};
ghost use Rattle.snmp_msg.specs.Variables.{Variable};
ghost use Rattle.engine_clock.specs.Pairs.{BootsAndTime};
ghost use Rattle.engine_clock.specs.Marks.{Marks};
ghost use Rattle.vacm_core.specs.Tables.{Tables, HaveSameRows};
ghost use Rattle.vacm_core.specs.Faults.{AreSound};
ghost use Rattle.vacm_core.specs.Allowed.{Requester, Allowed};
ghost use Rattle.vacm_core.specs.declared.access.ViewType.{ViewType as Asked};
ghost use Rattle.vacm_core.specs.declared.access.Access.{Access as Answer};
ghost use Rattle.usm_users.specs.User.{User};
ghost use Rattle.usm_core.specs.Verified.{manager};
ghost use Rattle.usm_core.specs.Sealed.{Seals};
ghost use Rattle.snmp_incoming.specs.Outcome.{as_manager};
ghost use Rattle.snmp_outgoing.specs.declared.front.Front.{Front as Said};
ghost use Rattle.snmp_outgoing.specs.Bodies.{pdu_after};
ghost use Rattle.snmp_outgoing.specs.Accepts.{IsTakenInTime};
ghost use Rattle.snmp_outgoing.specs.Speaks.{spoken_contexts, SpeechFits, HasSameUser};
ghost use Rattle.snmp_agent.specs.Agent.{AgentState};
ghost use Rattle.snmp_agent.specs.Sent.{notification, notifying};
ghost use Rattle.snmp_agent.specs.Decides.{HoldsRows};

use snmp_outgoing::spoken_is_accepted;
use vacm_core::laws::order_is_free;

/// What an agent's notification is sent as, with any front and any bindings, is accepted by a manager with
/// that user, with the same ScopedPDU given on, exactly where its pair is in the window of what the manager
/// holds once it has learned the pair; at noAuthNoPriv always.
pub fn notification_is_accepted()
    ensures { (senders users : List User) (held : Marks) (now : ℕ)
        (engine : List ℕ) (own : BootsAndTime) (id : ℕ)
        (user : List ℕ) (level : Level) (front : Said) (vs : List Variable) (salt text : List ℕ)
        → SpeechFits (notification engine own id user level front vs salt)
        → HasSameUser manager senders users user level
        → Seals senders (notifying engine own id user level front vs salt) (Ok text)
        → IsTakenInTime (as_manager held) users now text
        (notifying engine own id user level front vs salt)
        (spoken_contexts (notification engine own id user level front vs salt)) (pdu_after front vs) }
{
    spoken_is_accepted();
}

/// Agents whose tables were made of the same rows, each table's with distinct indexes, in whatever order they
/// were loaded, decide each access alike, and as isAccessAllowed defines on the rows (RFC 3415, section 3).
pub fn agents_decide_alike()
    ensures defined { (rows : Tables) (agent : AgentState) → HoldsRows rows agent
        → (requester : Requester) (view : Asked) (variable : List ℕ) (answer : Answer)
        → Allowed agent.tables requester view variable answer
        → Allowed rows requester view variable answer }
    ensures alike { (rows others : Tables) (a b : AgentState)
        → AreSound rows → HaveSameRows rows others
        → HoldsRows rows a → HoldsRows others b
        → (requester : Requester) (view : Asked) (variable : List ℕ) (answer other : Answer)
        → Allowed a.tables requester view variable answer
        → Allowed b.tables requester view variable other
        → answer ≡ other }
{
    order_is_free();
}
