//! Laws of a notification originator, over any run of calls. Each function does nothing: its contract is the law.

ghost use Rattle.std.specs.Prelude.{◌≡◌, ◌≤◌, List, [], length};
ghost use Rattle.snmp_forward.specs.History.{Happening};
ghost use Rattle.snmp_forward.specs.InformHistory.{InformHappening};
ghost use Rattle.snmp_forward.specs.InformStanding.{InformsStand};
ghost use Rattle.snmp_forward.specs.Originating.{IsOriginatorHistoryOf, IsOriginatorRun, OriginatorEvent};
ghost use Rattle.snmp_forward.specs.Standing.{ForwarderStands};
ghost use Rattle.snmp_forward.specs.declared.originator.Originator.{Originator};

/// Whatever devices and receivers send to a new originator: there is a history of its notifications, and one of its
/// Informs, that are lawful (`history`). So a receiver gets, as a Trap or as an Inform, only what a device sent with
/// its own community, and only if it may be notified of all of it in that device's context. None gets a notification
/// twice. It is sealed for the receiver's user at its level. An Inform ends by the Response that came from its receiver
/// to the very Inform that was sent last, by a refusal of the receiver's engine, because nothing can be sealed for the
/// user, or because it was sent as often as it may be. Each Inform that began is one that a notification became, so
/// that `informs_are_mediated` applies to all that goes out for it.
///
/// At most as many notifications and as many Informs wait as may (`few`). A call that found no memory isn't part of the
/// histories.
///
/// The events are calls of `take_trap`, `take_receiver` and `next` with their answers, the latest first.
pub fn notifications_are_originated()
    ensures history { (first last : Originator) (events : List OriginatorEvent)
        → ForwarderStands [] first.forwarder → InformsStand [] first.informs → IsOriginatorRun first events last
        → (notifications : List Happening) × (informs : List InformHappening)
        × IsOriginatorHistoryOf first events notifications informs }
    ensures few { (first last : Originator) (events : List OriginatorEvent)
        → ForwarderStands [] first.forwarder → InformsStand [] first.informs → IsOriginatorRun first events last
        → (length last.forwarder.waiting.list.items ≤ first.forwarder.waiting.most)
        × (length last.informs.list.items ≤ first.informs.most) }
{}
