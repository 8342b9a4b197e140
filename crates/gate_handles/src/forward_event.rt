//! What becomes of what a forwarder gets, and what goes out, by numbers.

ghost use Rattle.std.specs.Prelude.{◌≡◌};
ghost use Rattle.gate_handles.specs.Events.{forward_number, forward_why};

use snmp_forward::NotNotification;
use snmp_msg::Refusal;

/// What becomes of what a forwarder gets, and what goes out.
#[derive(Clone, Copy, Debug, PartialEq, Eq)]
pub enum ForwardEvent {
    /// There is nothing to do now.
    Nothing,
    /// A device's datagram isn't a notification.
    NotNotification(NotNotification),
    /// There is no device of the number, or it has another community.
    OtherCommunity,
    /// None of the receivers may be notified of it.
    ForNobody,
    /// A notification isn't sent: as many wait as may.
    NoRoom,
    /// A notification waits to be sent.
    Waits,
    /// A datagram goes to a receiver.
    ToReceiver,
    /// A notification isn't sent to a receiver, for this reason.
    Unsent(Refusal),
    /// A receiver's datagram isn't an answer to what is waited for.
    NoAnswer,
    /// A receiver's datagram is an answer to what was sent last for an Inform, which goes on.
    Heard,
    /// An Inform is acknowledged.
    Acknowledged,
    /// The receiver's engine refused what was sent for an Inform, which has ended.
    Denied,
    /// A notification begins to wait for its acknowledgement, as an Inform.
    InformBegins,
    /// A datagram goes to a receiver for an Inform.
    InformToReceiver,
    /// A notification isn't sent to a receiver: as many Informs wait as may.
    InformNoRoom,
    /// An Inform has ended without an answer.
    InformGivenUp,
    /// An Inform has ended: nothing can be sealed for the receiver's user, for this reason.
    InformUnsent(Refusal),
}

impl ForwardEvent {
    /// Returns the event's number: 0 nothing; 20 no message of SNMPv2c, 21 no SNMPv2-Trap, 22 no snmpTrapOID.0; 23
    /// another community, 24 for nobody, 25 no room, 26 waits, 27 to a receiver, 30 unsent. Of Informs: 50 no answer,
    /// 51 heard, 52 acknowledged, 53 denied, 54 begins, 55 to a receiver, 56 no room, 57 given up, 60 unsent.
    pub fn number(self) -> u32
        ensures { result ≡ forward_number self }
    {
        match self {
            ForwardEvent::Nothing => 0,
            ForwardEvent::NotNotification(NotNotification::Unreadable) => 20,
            ForwardEvent::NotNotification(NotNotification::NotTrap) => 21,
            ForwardEvent::NotNotification(NotNotification::NoTrapOid) => 22,
            ForwardEvent::OtherCommunity => 23,
            ForwardEvent::ForNobody => 24,
            ForwardEvent::NoRoom => 25,
            ForwardEvent::Waits => 26,
            ForwardEvent::ToReceiver => 27,
            ForwardEvent::Unsent(_) => 30,
            ForwardEvent::NoAnswer => 50,
            ForwardEvent::Heard => 51,
            ForwardEvent::Acknowledged => 52,
            ForwardEvent::Denied => 53,
            ForwardEvent::InformBegins => 54,
            ForwardEvent::InformToReceiver => 55,
            ForwardEvent::InformNoRoom => 56,
            ForwardEvent::InformGivenUp => 57,
            ForwardEvent::InformUnsent(_) => 60,
        }
    }

    /// Returns the reason for which a notification or an Inform isn't sent. None: it is another event.
    pub fn why(self) -> Option<Refusal>
        ensures { result ≡ forward_why self }
    {
        match self {
            ForwardEvent::Unsent(why) => Some(why),
            ForwardEvent::InformUnsent(why) => Some(why),
            _ => None,
        }
    }
}
