//! Laws of what is sent. Each function does nothing: its contract is the law.

ghost use Rattle.std.specs.Prelude.{◌≤◌, ◌-◌, ℕ, List, Option, Ok};
ghost use Rattle.snmp_ber.specs.declared.level.Level.{Level};
ghost use Rattle.snmp_message.specs.Scoped.{Contexts};
ghost use Rattle.snmp_msg.specs.Pdu.{PduParts};
ghost use Rattle.snmp_msg.specs.Variables.{Variable};
ghost use Rattle.usm_users.specs.User.{User};
ghost use Rattle.usm_core.specs.Sealed.{Sending, Seals};
ghost use Rattle.engine_clock.specs.Pairs.{pair_max};
ghost use Rattle.engine_clock.specs.Marks.{SeenPair};
ghost use Rattle.usm_core.specs.Verified.{AllowsEngine, agent};
ghost use Rattle.snmp_incoming.specs.Outcome.{Taker, as_agent, side_at, ClockRuns};
ghost use Rattle.snmp_outgoing.specs.declared.front.Front.{Front as Asked};
ghost use Rattle.snmp_outgoing.specs.Bodies.{pdu_after};
ghost use Rattle.snmp_outgoing.specs.Accepts.{IsFor, IsTakenInTime};
ghost use Rattle.snmp_outgoing.specs.Speaks.{Speech, spoken, spoken_contexts, SpeechFits, HasSameUser};
ghost use Rattle.snmp_outgoing.specs.Requests.{requesting, request, RequestFits};

use snmp_ber::one_element;
use snmp_incoming::one_answer;
use snmp_msg::{one_cut, one_message, pdu_written_again, plain_from_data, written_again};
use usm_core::{sealed_is_authentic, sealed_is_opened, sealed_is_read, sealed_size};

/// What was sealed for an agent or a manager is accepted by it, with what was sent given on, exactly where
/// its pair is in the time window; without auth always. It has no other answer but NotInWindow.
pub fn sealed_is_accepted()
    ensures { (taker : Taker) (senders users : List User) (now : ℕ)
        (m : Sending) (c : Contexts) (p : PduParts)
        (text : List ℕ)
        → IsFor taker senders users m c p → ClockRuns taker now → Seals senders m (Ok text)
        → IsTakenInTime taker users now text m c p }
{
    one_element();
    one_message();
    one_cut();
    plain_from_data();
    sealed_is_read();
    sealed_is_authentic();
    sealed_is_opened();
    one_answer();
}

/// The same of each message that is spoken: each receiver that allows its engine and has its user accepts it.
pub fn spoken_is_accepted()
    ensures { (taker : Taker) (senders users : List User) (now : ℕ) (s : Speech) (text : List ℕ)
        → SpeechFits s → AllowsEngine (side_at taker) s.engine
        → HasSameUser (side_at taker) senders users s.user s.level → ClockRuns taker now
        → Seals senders (spoken s) (Ok text)
        → IsTakenInTime taker users now text (spoken s) (spoken_contexts s) s.pdu }
{
    written_again();
    pdu_written_again();
    sealed_size();
    sealed_is_accepted();
}

/// What a manager's request is sent as, with any front and any bindings, is accepted by an agent of its
/// engine that has its user, with the same ScopedPDU given on, exactly where the pair written is in the
/// agent's window; at noAuthNoPriv always.
pub fn request_is_accepted()
    ensures { (senders users : List User) (engine : List ℕ)
        (boots started now : ℕ) (held : Option SeenPair)
        (moment id : ℕ) (user : List ℕ) (level : Level) (front : Asked) (vs : List Variable) (salt text : List ℕ)
        → RequestFits held id engine user salt front vs
        → HasSameUser (agent engine) senders users user level
        → now - started ≤ pair_max
        → Seals senders (requesting held moment id engine user level front vs salt) (Ok text)
        → IsTakenInTime (as_agent engine boots started) users now text
        (requesting held moment id engine user level front vs salt)
        (spoken_contexts (request held moment id engine user level front vs salt)) (pdu_after front vs) }
{
    spoken_is_accepted();
}
