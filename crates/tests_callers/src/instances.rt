//! Histories that the laws must refuse, so that a definition which gets too wide is seen here. Each function does
//! nothing: its contract is that no such history is lawful.

ghost use Rattle.std.specs.Prelude.{◌≡◌, ◌≢◌, ◌+◌, ◌*◌, ◌<◌, ◌≤◌, ℕ, ℤ, List, [], ◌∷◌, None, Some, length, max, true};
ghost use Rattle.std.specs.Prelude.{Option as OptionIs};
ghost use Rattle.snmp_message.specs.declared.refusal.Refusal.{Refusal as RefusalIs};
ghost use Rattle.std.specs.List.{HoldsAt};
ghost use Rattle.snmp_message.specs.Scoped.{Contexts};
ghost use Rattle.snmp_incoming.specs.Outcome.{Given};
ghost use Rattle.snmp_manager.specs.Views.{Held};
ghost use Rattle.snmp_manager.specs.declared.pending.Pending.{Pending};
ghost use Rattle.snmp_requests.specs.DeviceRequestRuns.{HearStep};
ghost use Rattle.snmp_requests.specs.Outstanding.{Outstanding, none_outstanding};
ghost use Rattle.snmp_requests.specs.RequestRuns.{IsRequestRun, accepts};
ghost use Rattle.snmp_requests.specs.declared.answered.AnsweredRequest.{AnsweredRequest};
ghost use Rattle.snmp_requests.specs.declared.device_request.SentMessage.{SentMessage};
ghost use Rattle.vacm_core.specs.Allowed.{HasContext};
ghost use Rattle.snmp_agent.specs.Agent.{AgentState};
ghost use Rattle.snmp_agent.specs.Dispatch.{IsCommand};
ghost use Rattle.snmp_agent.specs.declared.unhandled.Unhandled.{Unhandled};
ghost use Rattle.snmp_msg.specs.Pdu.{PduParts};
ghost use Rattle.snmp_msg.specs.PduTypes.{pdu_tag};
ghost use Rattle.snmp_msg.specs.Variables.{Variable, variables_of};
ghost use Rattle.snmp_msg.specs.declared.pdu_type.PduType.TheVariants.{SetRequest};
ghost use Rattle.gateway_laws.specs.Requests.{RequestPdu};
ghost use Rattle.snmp_gate.specs.Devices.{IsKnownContext};
ghost use Rattle.snmp_gate.specs.History.{Happening, accepted, answered, asked, given_up, sent, unanswered};
ghost use Rattle.snmp_gate.specs.Lawful.{AreLawful};
ghost use Rattle.snmp_gate.specs.Limits.{AlwaysKeepsTo, MustBeShort, WaitInTime};
ghost use Rattle.snmp_gate.specs.Messages.{question_in};
ghost use Rattle.snmp_gate.specs.Question.{Question};
ghost use Rattle.snmp_gate.specs.Replies.{Answering, ClientAnswer};
ghost use Rattle.snmp_gate.specs.Unanswered.{HasNoReport, HasNoRoom};
ghost use Rattle.snmp_gate.specs.declared.devices.Device.{Device};
ghost use Rattle.snmp_gate.specs.declared.limits.GateLimits.{GateLimits};
ghost use Rattle.snmp_gate.specs.declared.reply.TheConstants.{SHORT_ANSWER};
ghost use Rattle.snmp_gate.specs.declared.set_answer.TheConstants.{NO_ERROR};
ghost use Rattle.snmp_gate.specs.declared.waiting_message.WaitingMessage.{WaitingMessage};
ghost use Rattle.snmp_forward.specs.History as notifications;
ghost use Rattle.snmp_forward.specs.InformHistory as informs;
ghost use Rattle.snmp_forward.specs.declared.inform.Inform.{Inform};
ghost use Rattle.snmp_forward.specs.declared.receivers.Receiver.{Receiver};
ghost use Rattle.snmp_forward.specs.declared.sealing.Sealing.{Sealing};

use snmp_gate::{a_message_without_an_answer_has_its_cause, a_report_has_its_cause};

/// A gateway does nothing by itself: no message is answered (`sent`), or left without an answer (`unanswered`), before
/// one was accepted; no device is asked before (`asked`); and no answer is taken before a device was asked
/// (`answered`).
pub fn no_gateway_begins_by_itself()
    ensures sent { (agent : AgentState) (devices : List Device) (number : ℕ) (message : WaitingMessage)
        (by : Answering) (answer : ClientAnswer) → ¬ AreLawful agent devices (sent number message by answer ∷ []) }
    ensures unanswered { (agent : AgentState) (devices : List Device) (number : ℕ) (message : WaitingMessage)
        (by : Answering) (why : OptionIs RefusalIs)
        → ¬ AreLawful agent devices (unanswered number message by why ∷ []) }
    ensures asked { (agent : AgentState) (devices : List Device) (number device id : ℕ) (request : RequestPdu)
        (datagram : List ℕ) → ¬ AreLawful agent devices (asked number device id request datagram ∷ []) }
    ensures answered { (agent : AgentState) (devices : List Device) (number device : ℕ) (answer : PduParts)
        (datagram : List ℕ) → ¬ AreLawful agent devices (answered number device answer datagram ∷ []) }
{}

/// A forwarder makes up no notification: none is sent as a Trap (`sent`), or becomes an Inform (`as_inform`),
/// before it came from a device.
pub fn no_notification_is_made_up()
    ensures sent { (agent : AgentState) (devices : List Device) (receivers : List Receiver) (number receiver : ℕ)
        (by : Sealing) (datagram : List ℕ)
        → ¬ notifications.AreLawful agent devices receivers (notifications.sent number receiver by datagram ∷ []) }
    ensures as_inform { (agent : AgentState) (devices : List Device) (receivers : List Receiver) (number : ℕ)
        (inform : Inform)
        → ¬ notifications.AreLawful agent devices receivers (notifications.as_inform number inform ∷ []) }
{}

/// A gateway does nothing twice: one message isn't answered twice (`sent`), and no device is asked for one Set twice
/// (`asked`), or for a request more often than it may be (`tried`).
pub fn nothing_is_done_twice()
    ensures sent { (agent : AgentState) (devices : List Device) (number now : ℕ) (datagram : List ℕ)
        (message : WaitingMessage) (by again : Answering) (answer other : ClientAnswer)
        → ¬ AreLawful agent devices (sent number message again other ∷ sent number message by answer
        ∷ accepted number now datagram message ∷ []) }
    ensures asked { (agent : AgentState) (devices : List Device) (number now device id other : ℕ) (set : Question)
        (message : WaitingMessage) (request again : RequestPdu) (datagram first second : List ℕ)
        → question_in message ≡ Some set → set.tag ≡ pdu_tag SetRequest
        → ¬ AreLawful agent devices (asked number device other again second ∷ asked number device id request first
        ∷ accepted number now datagram message ∷ []) }
    ensures tried { (limits : GateLimits) (devices : List Device) (number device id other : ℕ)
        (request again : RequestPdu) (first second : List ℕ) → limits.retries.tries ≤ 1
        → ¬ AlwaysKeepsTo limits devices (asked number device other again second
        ∷ asked number device id request first ∷ []) }
    ensures datagram { (agent : AgentState) (devices : List Device) (number other now device id again : ℕ)
        (set : Question) (message copy : WaitingMessage) (request same : RequestPdu) (datagram first second : List ℕ)
        → question_in message ≡ Some set → question_in copy ≡ Some set → set.tag ≡ pdu_tag SetRequest
        → number ≢ other
        → ¬ AreLawful agent devices (asked other device again same second ∷ asked number device id request first
        ∷ accepted other now datagram copy ∷ accepted number now datagram message ∷ []) }
{}

/// No Response says that a Set with bindings was done that no device was asked, and that didn't come before.
pub fn no_set_is_done_by_itself()
    ensures { (agent : AgentState) (devices : List Device) (number now : ℕ) (index : ℤ) (datagram : List ℕ)
        (message : WaitingMessage) (by : Answering) (answer : ClientAnswer) (set : Question) (first : Variable)
        (others : List Variable)
        → set.tag ≡ pdu_tag SetRequest → question_in message ≡ Some set → variables_of set.list ≡ first ∷ others
        → answer.says ≡ Some (record { status = NO_ERROR; index = index })
        → ¬ AreLawful agent devices (sent number message by answer ∷ accepted number now datagram message ∷ []) }
{}

/// No Report is sent on a command in a context that is known, before it is given up (`answered`), and none on a Set
/// (`set`).
pub fn no_report_is_made_up()
    ensures answered { (agent : AgentState) (devices : List Device) (number now : ℕ) (datagram : List ℕ)
        (message : WaitingMessage) (by : Answering) (answer : ClientAnswer) (q : Question)
        → question_in message ≡ Some q → q.engine ≡ agent.engine → IsCommand q.tag
        → HasContext agent.tables.contexts q.context → IsKnownContext devices q.context → answer.says ≡ None
        → ¬ AreLawful agent devices (sent number message by answer ∷ accepted number now datagram message ∷ []) }
    ensures set { (agent : AgentState) (devices : List Device) (number device now : ℕ) (datagram : List ℕ)
        (message : WaitingMessage) (by : Answering) (answer : ClientAnswer) (q : Question)
        → question_in message ≡ Some q → q.engine ≡ agent.engine → q.tag ≡ pdu_tag SetRequest
        → HasContext agent.tables.contexts q.context → IsKnownContext devices q.context → answer.says ≡ None
        → ¬ AreLawful agent devices (sent number message by answer ∷ given_up number device
        ∷ accepted number now datagram message ∷ []) }
{
    a_report_has_its_cause();
}

/// No command in a context that is known is left without an answer that has room for one: before it is given up
/// (`answered`), and where `report_unreachable` is on, but for a Set, after that (`given_up`).
pub fn no_message_is_dropped()
    ensures answered { (limits : GateLimits) (devices : List Device) (number now : ℕ) (datagram : List ℕ)
        (message : WaitingMessage) (by : Answering) (q : Question)
        → question_in message ≡ Some q → q.engine ≡ by.agent.engine → IsCommand q.tag
        → HasContext by.agent.tables.contexts q.context → IsKnownContext devices q.context
        → ((limit : ℕ) → ¬ HasNoRoom by limit message.kept)
        → ¬ AlwaysKeepsTo limits devices (unanswered number message by None ∷ accepted number now datagram message
        ∷ []) }
    ensures given_up { (limits : GateLimits) (devices : List Device) (number device now : ℕ) (datagram : List ℕ)
        (message : WaitingMessage) (by : Answering) (q : Question)
        → question_in message ≡ Some q → q.tag ≢ pdu_tag SetRequest → limits.report_unreachable ≡ true
        → ((limit : ℕ) → ¬ HasNoRoom by limit message.kept)
        → ((limit : ℕ) (cause : Unhandled) → ¬ HasNoReport by limit message.kept cause)
        → ¬ AlwaysKeepsTo limits devices (unanswered number message by None ∷ given_up number device
        ∷ accepted number now datagram message ∷ []) }
{
    a_message_without_an_answer_has_its_cause();
}

/// No message waits for longer than all tries and `last` take (`waits`), none without authentication is answered at
/// length (`answers`), and no device is asked for more repetitions than it is configured for (`repetitions`).
pub fn no_limit_is_passed()
    ensures waits { (limits : GateLimits) (number at now : ℕ) (datagram : List ℕ) (message : WaitingMessage)
        → at + limits.retries.last + max 1 limits.retries.tries * limits.retries.again ≤ now
        → ¬ WaitInTime limits now (accepted number at datagram message ∷ []) }
    ensures answers { (limits : GateLimits) (devices : List Device) (number now : ℕ) (datagram : List ℕ)
        (message : WaitingMessage) (by : Answering) (answer : ClientAnswer)
        → MustBeShort limits message.kept.level → 2 * length datagram < length answer.datagram
        → SHORT_ANSWER < length answer.datagram
        → ¬ AlwaysKeepsTo limits devices (sent number message by answer ∷ accepted number now datagram message ∷ []) }
    ensures repetitions { (agent : AgentState) (devices : List Device) (number device id : ℕ) (request : RequestPdu)
        (datagram : List ℕ) (before : List Happening)
        → HoldsAt (λ d. d.repetitions < request.max_repetitions) devices device
        → ¬ AreLawful agent devices (asked number device id request datagram ∷ before) }
{}

/// A forwarder sends no notification to one receiver twice.
pub fn no_receiver_is_notified_twice()
    ensures { (agent : AgentState) (devices : List Device) (receivers : List Receiver) (number device receiver : ℕ)
        (by again : Sealing) (datagram first second : List ℕ)
        → ¬ notifications.AreLawful agent devices receivers (notifications.sent number receiver again second
        ∷ notifications.sent number receiver by first
        ∷ notifications.taken number device datagram (receiver ∷ []) ∷ []) }
{}

/// No message is sent for an Inform that never began (`asks`), and no answer to one is heard (`answers`). An Inform
/// ends once (`ends`).
pub fn no_inform_is_made_up()
    ensures asks { (s : informs.InformSetting) (number receiver now : ℕ) (message : SentMessage) (held : Held)
        (by : Sealing) (pending : Pending) (datagram : List ℕ)
        → ¬ informs.AreInformsLawful s (informs.asks number receiver now message held by pending datagram ∷ []) }
    ensures answers { (s : informs.InformSetting) (number : ℕ) (what : informs.Accepted) (heard : HearStep)
        → ¬ informs.AreInformsLawful s (informs.answers number what heard ∷ []) }
    ensures ends { (s : informs.InformSetting) (number receiver now later : ℕ) (why again : informs.InformEnd)
        (inform : Inform) → ¬ informs.AreInformsLawful s (informs.ends number receiver later again
        ∷ informs.ends number receiver now why ∷ informs.begins number inform ∷ []) }
{}

/// No message is an answer to a request of a manager that has asked nothing.
pub fn no_answer_is_made_up()
    ensures { (g : Given) (c : Contexts) (p : PduParts) (told : AnsweredRequest) (last : Outstanding)
        → ¬ IsRequestRun none_outstanding (accepts g c p (Some told) ∷ []) last }
{}
