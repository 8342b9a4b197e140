//! What becomes of what a gateway gets, and what goes out, by numbers.

ghost use Rattle.std.specs.Prelude.{◌≡◌};
ghost use Rattle.gate_handles.specs.Events.{event_number, event_why};

use snmp_msg::Refusal;

/// What becomes of what a gateway gets, and what goes out.
#[derive(Clone, Copy, Debug, PartialEq, Eq)]
pub enum GateEvent {
    /// There is nothing to do now.
    Nothing,
    /// A client's message begins a request.
    Begins,
    /// A client's message asks again what waits.
    Joins,
    /// A client's message isn't answered: as many requests wait as may.
    NoRoom,
    /// A client's message is a Set that came before, and what its device answered isn't known: it isn't answered.
    SetOfBefore,
    /// A device's datagram is the answer to what the device was asked.
    Answers,
    /// A device's datagram is the answer to nothing that the device is asked.
    NotWaitedFor,
    /// A device's datagram isn't a Response of SNMPv2c.
    Unreadable,
    /// A datagram goes to a client.
    ToClient,
    /// A datagram goes to a device.
    ToDevice,
    /// A device didn't answer in time.
    GivenUp,
    /// A client's message isn't answered. The reason is one of the user's or of the clock, if there is one.
    Unanswered(Option<Refusal>),
}

impl GateEvent {
    /// Returns the event's number: 0 nothing, 20 begins, 21 joins, 22 no room, 23 a Set of before, 24 answers, 25 not
    /// waited for, 26 unreadable, 27 to a client, 28 to a device, 29 given up, 30 unanswered.
    pub fn number(self) -> u32
        ensures { result ≡ event_number self }
    {
        match self {
            GateEvent::Nothing => 0,
            GateEvent::Begins => 20,
            GateEvent::Joins => 21,
            GateEvent::NoRoom => 22,
            GateEvent::SetOfBefore => 23,
            GateEvent::Answers => 24,
            GateEvent::NotWaitedFor => 25,
            GateEvent::Unreadable => 26,
            GateEvent::ToClient => 27,
            GateEvent::ToDevice => 28,
            GateEvent::GivenUp => 29,
            GateEvent::Unanswered(_) => 30,
        }
    }

    /// Returns the reason for which a client's message isn't answered. None: there is none, or it is another event.
    pub fn why(self) -> Option<Refusal>
        ensures { result ≡ event_why self }
    {
        match self {
            GateEvent::Unanswered(why) => why,
            _ => None,
        }
    }
}
