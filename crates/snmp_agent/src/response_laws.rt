//! Laws of Responses and reports. Each function does nothing: its contract is the law.

ghost use Rattle.std.specs.Prelude.{◌≡◌, ◌≤◌, ℕ, ℤ, List, [], length, Ok, Result};
ghost use Rattle.snmp_ber.specs.declared.number.TheConstants.{MAX_INTEGER32};
ghost use Rattle.snmp_message.specs.Scoped.{Contexts};
ghost use Rattle.snmp_msg.specs.Variables.{Variable};
ghost use Rattle.snmp_msg.specs.PduTypes.{pdu_tag};
ghost use Rattle.snmp_msg.specs.declared.pdu_type.PduType.TheVariants.{Response};
ghost use Rattle.snmp_msg.specs.Pdu.{PduParts, pdu_with};
ghost use Rattle.engine_clock.specs.Pairs.{BootsAndTime, IsPair};
ghost use Rattle.engine_clock.specs.Marks.{Marks};
ghost use Rattle.usm_users.specs.User.{User};
ghost use Rattle.usm_core.specs.Verified.{manager};
ghost use Rattle.usm_core.specs.Sealed.{Seals, SealedText, Sending};
ghost use Rattle.snmp_incoming.specs.Outcome.{Given, as_manager};
ghost use Rattle.snmp_message.specs.declared.refusal.Refusal.{Refusal};
ghost use Rattle.snmp_message.specs.declared.message.TheConstants.{LARGEST};
ghost use Rattle.snmp_outgoing.specs.Accepts.{IsTakenInTime};
ghost use Rattle.snmp_outgoing.specs.UpTo.{UpTo};
ghost use Rattle.snmp_agent.specs.Agent.{AgentState};
ghost use Rattle.snmp_agent.specs.Sent.{Sends};
ghost use Rattle.snmp_outgoing.specs.Speaks.{spoken_contexts, SpeechFits, HasSameUser};
ghost use Rattle.snmp_outgoing.specs.declared.counter.Counter.{Counter as Which};
ghost use Rattle.snmp_agent.specs.Responses.{response, responding};
ghost use Rattle.snmp_agent.specs.CounterReports.{count_report, counter_report, refusing, report_level, reporting};

use snmp_ber::one_element;
use snmp_outgoing::spoken_is_accepted;
use usm_core::sealed_size;

/// What an agent's Response is sent as is accepted by a manager with that user, with the same ScopedPDU given
/// on, exactly where its pair is in the window of what the manager holds once it has learned the pair; at
/// noAuthNoPriv always.
pub fn response_is_accepted()
    ensures { (senders users : List User) (held : Marks) (now : ℕ)
        (engine : List ℕ) (own : BootsAndTime) (g : Given)
        (c : Contexts) (p : PduParts) (status index : ℤ) (vs : List Variable) (salt text : List ℕ)
        → SpeechFits (response engine own g c p status index vs salt)
        → HasSameUser manager senders users g.user g.level
        → Seals senders (responding engine own g c p status index vs salt) (Ok text)
        → IsTakenInTime (as_manager held) users now text
        (responding engine own g c p status index vs salt)
        (spoken_contexts (response engine own g c p status index vs salt))
        (pdu_with (pdu_tag Response) p.id status index vs) }
{
    spoken_is_accepted();
}

/// An agent's report is accepted by a manager with that user, with the same ScopedPDU given on, exactly where its
/// pair is in the window of what the manager holds once it has learned the pair; at noAuthNoPriv always. So is the
/// report on a message that is refused, whose counter is of usmStats (`refused`; RFC 3414, section 3.2), and that on
/// an accepted message that nothing handles (`unhandled`; RFC 3412, section 7.1).
pub fn report_is_accepted()
    ensures refused { (senders takers : List User) (held : Marks) (now : ℕ)
        (engine : List ℕ) (own : BootsAndTime) (id : ℕ) (user : List ℕ) (request_id : ℤ)
        (n value : ℕ) (text : List ℕ)
        → SpeechFits (counter_report engine own id user request_id n value)
        → HasSameUser manager senders takers user (report_level n)
        → Seals senders (reporting engine own id user request_id n value) (Ok text)
        → IsTakenInTime (as_manager held) takers now text
        (reporting engine own id user request_id n value)
        (spoken_contexts (counter_report engine own id user request_id n value))
        (counter_report engine own id user request_id n value).pdu }
    ensures unhandled { (senders takers : List User) (held : Marks) (now : ℕ)
        (engine : List ℕ) (own : BootsAndTime) (g : Given) (p : PduParts) (counter : Which)
        (value : ℕ) (salt text : List ℕ)
        → SpeechFits (count_report engine own g p counter value salt)
        → HasSameUser manager senders takers g.user g.level
        → Seals senders (refusing engine own g p counter value salt) (Ok text)
        → IsTakenInTime (as_manager held) takers now text
        (refusing engine own g p counter value salt)
        (spoken_contexts (count_report engine own g p counter value salt))
        (count_report engine own g p counter value salt).pdu }
{
    spoken_is_accepted();
}

/// A report has at most 484 octets, the least that a sender may say it can take (RFC 3412, section 6.3).
pub fn report_is_short()
    ensures { (users : List User) (engine : List ℕ) (own : BootsAndTime)
        (id : ℕ) (user : List ℕ) (request_id : ℤ)
        (n value : ℕ) (text : List ℕ)
        → length engine ≤ 32 → IsPair own → id ≤ MAX_INTEGER32 → length user ≤ 32
        → SealedText users
        (reporting engine own id user request_id n value) text → length text ≤ 484 }
{
    one_element();
    sealed_size();
}

/// So has the report on an accepted message that isn't handled.
pub fn refusal_is_short()
    ensures { (users : List User) (engine : List ℕ) (own : BootsAndTime)
        (g : Given) (p : PduParts) (counter : Which)
        (value : ℕ) (salt text : List ℕ)
        → length engine ≤ 32 → IsPair own → g.id ≤ MAX_INTEGER32
        → length g.user ≤ 32 → length salt ≡ 8
        → SealedText users (refusing engine own g p counter value salt) text → length text ≤ 484 }
{
    one_element();
    sealed_size();
}

/// And so has a Response without bindings, as a tooBig is (RFC 3416, section 4.2.1), where neither
/// contextEngineID nor contextName is longer than 32 octets: such a tooBig can always be sent.
pub fn too_big_is_short()
    ensures { (users : List User) (engine : List ℕ) (own : BootsAndTime)
        (g : Given) (c : Contexts) (p : PduParts)
        (status index : ℤ) (salt text : List ℕ)
        → length engine ≤ 32 → IsPair own → g.id ≤ MAX_INTEGER32
        → length g.user ≤ 32 → length salt ≡ 8
        → length c.engine ≤ 32 → length c.name ≤ 32
        → SealedText users
        (responding engine own g c p status index [] salt) text → length text ≤ 484 }
{
    one_element();
    sealed_size();
}

/// No text that is sent has more than 65,507 octets, so that a limit of as many cuts nothing.
pub fn no_text_is_longer()
    ensures { (agent : AgentState) (now : ℕ) (message : BootsAndTime → Sending)
        (answer : Result (List ℕ) Refusal) → UpTo LARGEST (Sends agent now message) answer
        → Sends agent now message answer }
{}
