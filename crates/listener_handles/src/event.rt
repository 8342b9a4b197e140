//! What becomes of a datagram, by numbers.

ghost use Rattle.std.specs.Prelude.{◌≡◌};
ghost use Rattle.listener_handles.specs.Events.{event_number, event_why};

use snmp_listener::Dropped;
use snmp_msg::Refusal;

/// What becomes of a datagram.
#[derive(Clone, Copy, Debug, PartialEq, Eq)]
pub enum ListenerEvent {
    /// It is an SNMPv2-Trap, and reported.
    Trap,
    /// It is an InformRequest, and reported. Its acknowledgement is to be sent.
    Inform,
    /// It isn't reported. If it is a copy of an InformRequest, its acknowledgement is to be sent again; and if it is
    /// refused, there may be a Report, or the Response tooBig.
    Dropped(Dropped),
}

impl ListenerEvent {
    /// Returns the event's number: 1 a Trap, 2 an Inform, 3 refused, 19 no notification, 20 below the least level, 21
    /// another address, 22 outside of the notify view, 23 a copy, 24 no room.
    pub fn number(self) -> u32
        ensures { result ≡ event_number self }
    {
        match self {
            ListenerEvent::Trap => 1,
            ListenerEvent::Inform => 2,
            ListenerEvent::Dropped(Dropped::Refused(_)) => 3,
            ListenerEvent::Dropped(Dropped::OtherPdu) => 19,
            ListenerEvent::Dropped(Dropped::LowLevel) => 20,
            ListenerEvent::Dropped(Dropped::OtherAddress) => 21,
            ListenerEvent::Dropped(Dropped::OutsideView) => 22,
            ListenerEvent::Dropped(Dropped::Copy) => 23,
            ListenerEvent::Dropped(Dropped::NoRoom) => 24,
        }
    }

    /// Returns the refusal. None: the datagram isn't refused.
    pub fn why(self) -> Option<Refusal>
        ensures { result ≡ event_why self }
    {
        match self {
            ListenerEvent::Dropped(Dropped::Refused(why)) => Some(why),
            _ => None,
        }
    }
}
