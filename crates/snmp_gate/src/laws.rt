//! Laws of the gateway's pieces, over any run of steps. Each function does nothing: its contract is the law.

ghost use Rattle.std.specs.Prelude.{◌≡◌, ◌⊎◌, ℕ, ◌+◌, ◌*◌, ◌^◌, ◌<◌, ◌≤◌, max, List, [], length, All, Bool, count_by};
ghost use Rattle.std.specs.Prelude.{◌++◌, ◌∷◌, ◌≢◌, Contains, IfSome, None, Some, true};
ghost use Rattle.std.specs.Prelude.{Option as OptionIs};
ghost use Rattle.snmp_message.specs.declared.refusal.Refusal.{Refusal as RefusalIs};
ghost use Rattle.snmp_msg.specs.Pdu.{PduParts};
ghost use Rattle.snmp_gate.specs.declared.gate.ClientTaken.TheVariants as ClientTaken;
ghost use Rattle.snmp_agent.specs.Agent.{AgentState};
ghost use Rattle.snmp_agent.specs.declared.refused.Refused.{Refused};
ghost use Rattle.snmp_agent.specs.declared.unhandled.Unhandled.{Unhandled};
ghost use Rattle.snmp_responder.specs.Instrumentation.{Known};
ghost use Rattle.gateway_laws.specs.Device.{IsDevice};
ghost use Rattle.snmp_gate.specs.AskRuns.{AskStep, HaveOwnIds, IsAskRun, times_asked, times_ended, times_waiting};
ghost use Rattle.snmp_gate.specs.declared.asks.DeviceAsk.{DeviceAsk};
ghost use Rattle.snmp_gate.specs.Groups.{Group};
ghost use Rattle.snmp_gate.specs.GroupRuns.{AskOwn, AsksOneThing, GroupStep, HaveOwnNumbers, IsFew, IsGroupRun};
ghost use Rattle.snmp_gate.specs.GroupRuns.{answered_by, taken_by, times_held};
ghost use Rattle.snmp_gate.specs.History.{Happening, IsCauseFor, IsToldAgain, accepted, answered, sent, told_in};
ghost use Rattle.snmp_gate.specs.History.{unanswered, waiting_in};
ghost use Rattle.snmp_gate.specs.Lawful.{AreLawful, WasAsked};
ghost use Rattle.snmp_gate.specs.Messages.{question_in, seen_in};
ghost use Rattle.snmp_gate.specs.Question.{Question};
ghost use Rattle.snmp_gate.specs.Replies.{Answering, ClientAnswer, IsReport};
ghost use Rattle.snmp_gate.specs.Said.{AreTrue};
ghost use Rattle.snmp_gate.specs.Through.{IsDoneBy, TellsDevice, TellsSet};
ghost use Rattle.snmp_msg.specs.PduTypes.{pdu_tag};
ghost use Rattle.snmp_msg.specs.declared.pdu_type.PduType.TheVariants.{SetRequest};
ghost use Rattle.snmp_gate.specs.Runs.{Event, IsHistoryOf, IsRun, accepted_for, client_comes, ended_for};
ghost use Rattle.snmp_gate.specs.Runs.{goes_out};
ghost use Rattle.snmp_gate.specs.Time.{AreAsks, IsDue, IsTimed, TimerStep};
ghost use Rattle.snmp_gate.specs.SetRuns.{AreAsTold, ComesWithin, IsSetRun, SetStep, times_new};
ghost use Rattle.snmp_gate.specs.Waiting.{Fresh, GateStands, IsRefusedBy};
ghost use Rattle.snmp_gate.specs.Bounds.{IsBounded, IsTimely};
ghost use Rattle.snmp_gate.specs.Due.{IsIdle, retries_in};
ghost use Rattle.snmp_gate.specs.Limits.{AlwaysKeepsTo, IsLimit, MayBeLeft, MustBeShort, WaitInTime};
ghost use Rattle.snmp_gate.specs.Unanswered.{HasNoReport, HasNoRoom};
ghost use Rattle.snmp_gate.specs.declared.devices.Device.{Device};
ghost use Rattle.snmp_gate.specs.declared.gate.Gate.{Gate};
ghost use Rattle.snmp_gate.specs.declared.gate.Sent.TheVariants as Sent;
ghost use Rattle.snmp_gate.specs.declared.limits.GateLimits.{GateLimits};
ghost use Rattle.snmp_gate.specs.declared.reply.TheConstants.{SHORT_ANSWER};
ghost use Rattle.snmp_gate.specs.declared.retries.Retries.{Retries};
ghost use Rattle.snmp_gate.specs.declared.set_answer.ResponseStatus.{ResponseStatus as Says};
ghost use Rattle.snmp_gate.specs.declared.set_answer.TheConstants.{NO_ERROR};
ghost use Rattle.snmp_gate.specs.declared.sets.RememberedSet.{RememberedSet};
ghost use Rattle.snmp_gate.specs.declared.sets.TheConstants.{SETS_LIMIT};
ghost use Rattle.snmp_gate.specs.declared.timer.Due.TheVariants.{GiveUp};
ghost use Rattle.snmp_gate.specs.declared.timer.Timer.{Timer};
ghost use Rattle.snmp_gate.specs.declared.timer.Turn.TheVariants.{ToAsk};
ghost use Rattle.snmp_gate.specs.declared.waiting_message.WaitingMessage.{WaitingMessage};
ghost use Rattle.snmp_gate.specs.declared.work.OpenRequest.{OpenRequest};
ghost use Rattle.snmp_gate.specs.declared.work.Work.TheVariants.{Open};

/// However often its device is asked, and whatever it answers: a request that came at a moment is to be given up at the
/// latest `last` and once `again` after it (`in_time`), and never earlier than `last` after it, or than `again` for
/// each of its tries after it (`not_before`). As long as its device doesn't answer, it is asked `tries` times at most,
/// or once (`tries`): a Set, which has `Retries::for_set`, is asked once.
pub fn a_request_ends_in_time()
    ensures in_time { (r : Retries) (steps : List TimerStep) (first last : Timer) (now : ℕ)
        → first.turn ≡ ToAsk → IsTimed r first steps last
        → first.began + r.last + r.again ≤ now → IsDue r last now GiveUp }
    ensures not_before { (r : Retries) (steps : List TimerStep) (first last : Timer) (now : ℕ)
        → first.turn ≡ ToAsk → IsTimed r first steps last
        → IsDue r last now GiveUp
        → (first.began + r.last ≤ now) ⊎ (first.began + r.tries * r.again ≤ now) }
    ensures tries { (r : Retries) (steps : List TimerStep) (first last : Timer)
        → r.tries < 2 ^ 32 → first.turn ≡ ToAsk → AreAsks steps → IsTimed r first steps last
        → length steps ≤ max 1 r.tries }
{}

/// Whatever Sets come, and whatever their devices answer: the Set of a datagram that comes only within 301 seconds may
/// be asked of its device once at most (`once`). If it comes again, its outcome is one that was told of it
/// (`outcomes`). At most 4,096 Sets are remembered (`few`).
pub fn a_set_goes_out_once()
    ensures once { (digest : List ℕ) (from : ℕ) (steps : List SetStep) (last : List RememberedSet)
        → IsSetRun 0 [] steps last → ComesWithin digest from steps → times_new digest steps ≤ 1 }
    ensures outcomes { (steps : List SetStep) (last : List RememberedSet)
        → IsSetRun 0 [] steps last → AreAsTold [] steps }
    ensures few { (steps : List SetStep) (last : List RememberedSet)
        → IsSetRun 0 [] steps last → length last ≤ SETS_LIMIT }
{}

/// However often a device is asked, and whatever it answers: no two asks have one request-id at once (`own`), the
/// device isn't asked more than it may be at once (`few`), and what it is asked with a request-id for a request is
/// answered or given up once at most each time (`once`).
pub fn an_answer_is_of_one_ask()
    ensures own { (at_once : ℕ) (steps : List AskStep) (last : List DeviceAsk)
        → IsAskRun at_once [] steps last → HaveOwnIds last }
    ensures few { (at_once : ℕ) (steps : List AskStep) (last : List DeviceAsk)
        → IsAskRun at_once [] steps last → length last ≤ at_once }
    ensures once { (at_once id request : ℕ) (steps : List AskStep) (last : List DeviceAsk)
        → IsAskRun at_once [] steps last
        → times_ended id request steps + times_waiting id request last ≡ times_asked id request steps }
{}

/// Whatever messages come, and whatever becomes of the requests that they ask: each message that is taken is answered
/// once at most, and is held until then (`once`). No two requests have one number (`numbers`). At most as many requests
/// wait as may, and for each at most as many messages as may, or one (`few_requests`, `few_messages`).
pub fn each_message_is_answered_once<M: Drop, W: Drop, Q: Drop>()
    ensures once { (question : M → Q) (most most_messages : ℕ) (test : M → Bool) (steps : List (GroupStep M W))
        (last : List (Group M W)) → IsGroupRun question most most_messages 0 [] steps last
        → count_by test (answered_by steps) + times_held test last ≡ count_by test (taken_by steps) }
    ensures numbers { (question : M → Q) (most most_messages : ℕ) (steps : List (GroupStep M W))
        (last : List (Group M W)) → IsGroupRun question most most_messages 0 [] steps last → HaveOwnNumbers last }
    ensures few_requests { (question : M → Q) (most most_messages : ℕ) (steps : List (GroupStep M W))
        (last : List (Group M W)) → IsGroupRun question most most_messages 0 [] steps last → length last ≤ most }
    ensures few_messages { (question : M → Q) (most most_messages : ℕ) (steps : List (GroupStep M W))
        (last : List (Group M W)) → IsGroupRun question most most_messages 0 [] steps last
        → All (IsFew most_messages) last }
{}

/// If a message joins the request that asks the same, and begins one only if none does: then all messages of a request
/// ask the same (`one`), and no two requests do (`own`).
pub fn a_request_is_one_question<M: Drop, W: Drop, Q: Drop>()
    ensures one { (question : M → Q) (most most_messages : ℕ) (steps : List (GroupStep M W))
        (last : List (Group M W)) → IsGroupRun question most most_messages 0 [] steps last
        → All (AsksOneThing question) last }
    ensures own { (question : M → Q) (most most_messages : ℕ) (steps : List (GroupStep M W))
        (last : List (Group M W)) → IsGroupRun question most most_messages 0 [] steps last
        → AskOwn question last }
{}

/// Whatever clients and devices send to a new gateway, and as long as its moments don't go back: what it sends has a
/// history that is lawful. So nothing reaches a device but what an accepted message asks, and its sender may see, or
/// set; nothing comes back that he may not see; and a Set goes out once. The accepted messages of the history are the
/// datagrams of clients that were taken, each at its moment, and its answers are those of devices that were taken. What
/// went out to a client was sealed by this agent, at the moment of that call and with its salt. A call that found no
/// memory isn't part of the history.
///
/// The events are calls of `take_client`, `take_device` and `next` with their answers, the latest first.
pub fn a_gateway_mediates()
    ensures { (first last : Gate) (events : List Event) → GateStands 0 [] first → IsRun first events last
        → (history : List Happening) × IsHistoryOf first events history }
{}

/// What never came is in no history: no accepted message, and no answer of a device. What was taken from a client is in
/// each.
pub fn what_never_came_is_in_no_history()
    ensures accepted { (gate : Gate) (number now : ℕ) (datagram : List ℕ) (message : WaitingMessage)
        (before : List Happening) → ¬ IsHistoryOf gate [] (accepted number now datagram message ∷ before) }
    ensures answered { (gate : Gate) (number device : ℕ) (answer : PduParts) (datagram : List ℕ)
        (before : List Happening) → ¬ IsHistoryOf gate [] (answered number device answer datagram ∷ before) }
    ensures taken { (gate : Gate) (now number : ℕ) (client datagram : List ℕ)
        → ¬ IsHistoryOf gate (client_comes now client datagram (ClientTaken.Begins number) ∷ []) [] }
{}

/// What a client is sent in a lawful history for a request of a device that answers each time as RFC 3416 says, from
/// variables that don't change: a report, or a Response with an error, or what that device restricted to the view has
/// (RFC 3416, sections 4.2.1 to 4.2.3). To a GetBulkRequest it is a front of that. What is asked of others beside, and
/// what they answer, changes nothing.
pub fn a_client_sees_the_device()
    ensures { (agent : AgentState) (devices : List Device) (before : List Happening) (number : ℕ)
        (message : WaitingMessage) (by : Answering) (answer : ClientAnswer) (device : Known) (q : Question)
        → AreLawful agent devices (sent number message by answer ∷ before)
        → question_in message ≡ Some q → IsDevice device → AreTrue device (told_in number before)
        → TellsDevice device (seen_in agent.tables q) by q message.kept answer }
{}

/// In a lawful history of a gateway: what a client is sent of which no error-status is said is the Report for a cause
/// that holds, with the counter of that cause. It is snmpUnknownPDUHandlers only if no command responder is registered
/// for the PDU at its contextEngineID, snmpUnknownContexts only if no context or no device has its contextName, and
/// snmpUnavailableContexts only if the request was given up (RFC 3412, section 7.2; RFC 3413, section 3.2; RFC 3415,
/// section 3.2).
pub fn a_report_has_its_cause()
    ensures { (agent : AgentState) (devices : List Device) (before : List Happening) (number : ℕ)
        (message : WaitingMessage) (by : Answering) (answer : ClientAnswer) (q : Question)
        → AreLawful agent devices (sent number message by answer ∷ before)
        → question_in message ≡ Some q → answer.says ≡ None
        → (why : Unhandled) × IsReport by message.kept why answer
        × IsCauseFor agent.engine agent.tables devices before number q why }
{}

/// In a lawful history of a gateway whose device was asked a Set: the Response to it has the error-status that the
/// device gave (RFC 3416, section 4.2.5), or tooBig (`asked`). A Response says that a Set was done only if its device
/// said so, or it has no bindings, or its datagram came for another request within 301 seconds before, and that was
/// told of it (`done`).
pub fn a_set_is_told_as_its_device_answered()
    ensures asked { (agent : AgentState) (devices : List Device) (before : List Happening) (number : ℕ)
        (message : WaitingMessage) (by : Answering) (answer : ClientAnswer) (q : Question)
        → AreLawful agent devices (sent number message by answer ∷ before)
        → question_in message ≡ Some q → q.tag ≡ pdu_tag SetRequest → WasAsked before number
        → TellsSet (told_in number before) by message.kept answer }
    ensures done { (agent : AgentState) (devices : List Device) (before : List Happening) (number : ℕ)
        (message : WaitingMessage) (by : Answering) (answer : ClientAnswer) (q : Question) (says : Says)
        → AreLawful agent devices (sent number message by answer ∷ before)
        → question_in message ≡ Some q → q.tag ≡ pdu_tag SetRequest
        → answer.says ≡ Some says → says.status ≡ NO_ERROR
        → IsDoneBy q (told_in number before) (IsToldAgain before number message) says }
{}

/// In a lawful history of a gateway the messages of each request end in the order in which they came: those that were
/// answered, or weren't and won't be, and then those that wait, are those that were accepted. So each message is
/// answered once at most.
pub fn messages_end_in_turn()
    ensures { (agent : AgentState) (devices : List Device) (n : ℕ) (history : List Happening)
        → AreLawful agent devices history → ended_for n history ++ waiting_in n history ≡ accepted_for n history }
{}

/// Whatever clients and devices send to a gateway that begins with nothing: it keeps to its limits. For each request
/// its device is asked the same as often as it may be, and never `last` after it came or later (`bounded`). At any time
/// of its history at most as many requests wait as may, and for each as many messages as may, or one; no device is
/// asked for more requests at once than it may be; and none is asked for a request more often than it may be, or once,
/// if it doesn't answer (`history`). A request for which nothing is due by time came less than `last` and once `again`
/// before (`in_time`); a Set has `Retries::for_set`. So when `next` returns `Nothing`, each message that waits came
/// less than `last`, and `again` for each of the tries, before (`ends`).
pub fn a_gateway_keeps_to_its_limits()
    ensures bounded { (first last : Gate) (events : List Event) → IsBounded first → IsRun first events last
        → (last.limits ≡ first.limits) × (last.devices ≡ first.devices) × IsBounded last }
    ensures history { (first last : Gate) (events : List Event) → GateStands 0 [] first → IsBounded first
        → IsRun first events last → (history : List Happening) × IsHistoryOf first events history
        × AlwaysKeepsTo first.limits first.devices.list.items history }
    ensures in_time { (limits : GateLimits) (now : ℕ) (o : OpenRequest) → IsTimely limits (Open o)
        → IsIdle limits now (Open o)
        → now < o.timer.began + (retries_in limits o.task.task).last + (retries_in limits o.task.task).again }
    ensures ends { (first last : Gate) (now : ℕ) (f : Fresh) (events : List Event) → GateStands 0 [] first
        → IsBounded first → IsRun first (goes_out now f Sent.Nothing ∷ events) last
        → (history : List Happening) × IsHistoryOf first (goes_out now f Sent.Nothing ∷ events) history
        × WaitInTime first.limits now history }
{}

/// In a lawful history that keeps to a gateway's limits: nobody is sent an answer to a message without authentication
/// that has more than 1,472 octets and more than twice the octets of the message's datagram, unless long answers are
/// on (`answered`). And no datagram that is refused is ever reported by more (`refused`). So a gateway sends an address
/// that may be forged little more than it was sent from there.
pub fn an_answer_without_authentication_is_short()
    ensures answered { (agent : AgentState) (devices : List Device) (limits : GateLimits) (before : List Happening)
        (number : ℕ) (message : WaitingMessage) (by : Answering) (answer : ClientAnswer)
        → AreLawful agent devices (sent number message by answer ∷ before)
        → AlwaysKeepsTo limits devices (sent number message by answer ∷ before)
        → MustBeShort limits message.kept.level
        → (now : ℕ) × (datagram : List ℕ) × Contains before (accepted number now datagram message)
        × (length answer.datagram ≤ max SHORT_ANSWER (2 * length datagram)) }
    ensures refused { (old new : Gate) (seconds : ℕ) (datagram : List ℕ) (r : Refused)
        → IsRefusedBy old seconds datagram new (ClientTaken.Refused r)
        → IfSome r.report (λ report. length report.items ≤ max SHORT_ANSWER (2 * length datagram)) }
{}

/// In a history that keeps to a gateway's limits: a message has no answer only for a cause (`cause`). Its request was
/// given up, and is a Set, which its device may have done, or `report_unreachable` is off. Or even tooBig without
/// bindings is longer than its answer may be (RFC 3416, section 4.2.1); or no Report answers a PDU of its class (RFC
/// 3412, section 7.1), or the Report is longer. Or nothing can be sealed for its user, by the reason that is said (RFC
/// 3414, section 3.1). Where `report_unreachable` is on, no message of another request than a Set is left without an
/// answer that has room for one (`reported`).
pub fn a_message_without_an_answer_has_its_cause()
    ensures cause { (limits : GateLimits) (devices : List Device) (before : List Happening) (number : ℕ)
        (message : WaitingMessage) (by : Answering) (why : OptionIs RefusalIs) (q : Question)
        → AlwaysKeepsTo limits devices (unanswered number message by why ∷ before)
        → question_in message ≡ Some q → MayBeLeft limits devices before number q message by why }
    ensures reported { (limits : GateLimits) (devices : List Device) (before : List Happening) (number : ℕ)
        (message : WaitingMessage) (by : Answering) (q : Question)
        → AlwaysKeepsTo limits devices (unanswered number message by None ∷ before)
        → question_in message ≡ Some q → q.tag ≢ pdu_tag SetRequest → limits.report_unreachable ≡ true
        → (limit : ℕ) × IsLimit limits message.kept.level message.kept.max_size message.size limit
        × (HasNoRoom by limit message.kept ⊎ ((cause : Unhandled)
        × IsCauseFor by.agent.engine by.agent.tables devices before number q cause
        × HasNoReport by limit message.kept cause)) }
{}
