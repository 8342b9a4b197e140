//! Laws of Informs, over any run of calls. Each function does nothing: its contract is the law.

ghost use Rattle.std.specs.Prelude.{◌≡◌, ◌≤◌, ℕ, All, List, [], length};
ghost use Rattle.snmp_gate.specs.declared.devices.Device.{Device};
ghost use Rattle.snmp_manager.specs.Views.{Held};
ghost use Rattle.snmp_manager.specs.declared.pending.Pending.{Pending};
ghost use Rattle.snmp_requests.specs.DeviceRequestRuns.{HearStep};
ghost use Rattle.snmp_requests.specs.declared.device_request.NextStep.TheVariants.{Answered};
ghost use Rattle.snmp_requests.specs.declared.device_request.SentMessage.{SentMessage};
ghost use Rattle.snmp_requests.specs.declared.device_request.SentMessage.TheVariants.{Request};
ghost use Rattle.vacm_core.specs.Tables.{Tables};
ghost use Rattle.snmp_forward.specs.ExchangeRuns.{times_tried};
ghost use Rattle.snmp_forward.specs.InformHistory.{Accepted, AreInformsLawful, InformHappening, InformSetting};
ghost use Rattle.snmp_forward.specs.InformHistory.{IsAnswer, IsAsk, known_of};
ghost use Rattle.snmp_forward.specs.InformRuns.{InformEvent, IsInformHistoryOf, IsInformRun, IsOwnResponse};
ghost use Rattle.snmp_forward.specs.InformRuns.{IsMediatedAsk, begun_in, times_ended};
ghost use Rattle.snmp_forward.specs.InformStanding.{InformsStand};
ghost use Rattle.snmp_forward.specs.Informs.{IsMediated};
ghost use Rattle.snmp_forward.specs.declared.informs.Informs.{Informs};
ghost use Rattle.snmp_forward.specs.declared.receivers.Receiver.{Receiver};
ghost use Rattle.snmp_forward.specs.declared.sealing.Sealing.{Sealing};

/// Whatever receivers send, and whatever is done for Informs: what goes out of them and is acknowledged has a history
/// that is lawful (`history`). So a receiver is sent an Inform as what it is, sealed for its user at its level, and for
/// its own engine with the boots and the time that are held of that engine; and what it is sent is heard of by an
/// accepted message that answers the very message that was sent last. At most as many Informs wait as may (`few`). A
/// call that found no memory isn't part of the history.
///
/// The events are calls of `add`, `take` and `next` with their answers, the latest first.
pub fn informs_are_sent_to_their_receivers()
    ensures history { (first last : Informs) (events : List InformEvent) → InformsStand [] first
        → IsInformRun first events last → (history : List InformHappening) × IsInformHistoryOf first events history }
    ensures few { (first last : Informs) (events : List InformEvent) → InformsStand [] first
        → IsInformRun first events last → length last.list.items ≤ first.most }
{}

/// In a history of Informs each of which was made by `Receivers::inform`, an Inform goes to a receiver only if a device
/// sent what it says, with its own community, and each of its variables is one of which the receiver may be notified in
/// that device's context. It has these very variables, and is sealed for the receiver's user at its level.
pub fn informs_are_mediated()
    ensures { (tables : Tables) (devices : List Device) (receivers : List Receiver) (s : InformSetting)
        (before : List InformHappening) (number receiver now : ℕ) (held : Held) (by : Sealing) (pending : Pending)
        (datagram : List ℕ) → All (IsMediated tables devices receivers) (begun_in before)
        → IsAsk s before number receiver now Request held by pending datagram
        → IsMediatedAsk tables devices receivers s before number receiver held by pending datagram }
{}

/// In a lawful history an Inform is acknowledged by its own Response alone (`response`): the Inform itself was sent
/// last, and the message came from its receiver, with its msgID, engine, user, level, contexts and request-id. It ends
/// once at most (`once`), and its receiver is sent each message at most as often as it may be tried (`tries`).
pub fn an_inform_is_acknowledged_by_its_own_response()
    ensures response { (s : InformSetting) (before : List InformHappening) (n : ℕ) (what : Accepted) (heard : HearStep)
        → IsAnswer s before n what heard → heard.turn ≡ Answered → IsOwnResponse before n what }
    ensures once { (s : InformSetting) (n : ℕ) (history : List InformHappening) → AreInformsLawful s history
        → times_ended n history ≤ 1 }
    ensures tries { (s : InformSetting) (n : ℕ) (m : SentMessage) (history : List InformHappening)
        → AreInformsLawful s history → times_tried m (known_of n history).steps ≤ s.limits.tries }
{}
