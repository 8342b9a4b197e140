//! What a call of the forwarding machine tells, and what it was about.

ghost use Rattle.std.specs.Prelude.{◌≡◌, Ok};
ghost use Rattle.gate_handles.specs.Forwards.{TellsOriginated};
ghost use Rattle.gate_handles.specs.Forwards.{about_inform, about_notification};
ghost use Rattle.gate_handles.specs.Forwards.{message_number};

use crate::forward::ForwardHandle;
use crate::forward_event::ForwardEvent;
use snmp_forward::Originated;
use snmp_requests::SentMessage;

/// What the last call on a forwarder was about. What a call isn't about stays, but the message and the counter are 0
/// then.
#[repr(C)]
#[derive(Clone, Copy)]
pub struct ForwardInfo {
    /// The number of the notification.
    pub notification: u64,
    /// The number of the Inform.
    pub inform: u64,
    /// The number of the receiver, counted from 0.
    pub receiver: usize,
    /// How many notifications wait to be sent.
    pub waiting: usize,
    /// How many Informs wait.
    pub informs: usize,
    /// Which message was sent for the Inform: 1 the discovery, 2 the request for the time of the receiver's engine, 3
    /// the Inform itself.
    pub message: u32,
    /// Which counter that engine reported: usmStats 1 to 6, 7 snmpUnknownPDUHandlers, 8 snmpUnavailableContexts, 9
    /// snmpUnknownContexts.
    pub counter: u32,
}

/// Returns the number of what was sent for an Inform: 1 the discovery, 2 the request for the time of the receiver's
/// engine, 3 the Inform itself; 0 nothing.
pub(crate) fn message_number(sent: Option<SentMessage>) -> u32
    ensures { result ≡ message_number sent }
{
    match sent {
        None => 0,
        Some(SentMessage::Discovery) => 1,
        Some(SentMessage::TimeRequest) => 2,
        Some(SentMessage::Request) => 3,
    }
}

impl ForwardHandle {
    /// Returns what is reported of what goes out.
    pub(crate) fn note_sent(&mut self, what: Originated) -> ForwardEvent
        ensures tells { TellsOriginated what (Ok result) self.old.noted self.new.noted }
        ensures originator { self.new.originator ≡ self.old.originator }
    {
        match what {
            Originated::Trap {
                number,
                receiver,
                datagram,
            } => self.note_trap(number, receiver, datagram),
            Originated::Unsent {
                number,
                receiver,
                why,
            } => self.note(number, receiver, ForwardEvent::Unsent(why)),
            Originated::InformBegins {
                number,
                receiver,
                inform,
            } => self.note_begun(number, receiver, inform),
            Originated::NoRoom { number, receiver } => {
                self.note(number, receiver, ForwardEvent::InformNoRoom)
            }
            Originated::InformSent {
                inform,
                receiver,
                message,
                datagram,
            } => self.note_inform_sent(inform, receiver, message, datagram),
            Originated::InformUnsent {
                inform,
                receiver,
                why,
            } => self.note_inform(inform, receiver, ForwardEvent::InformUnsent(why)),
            Originated::InformGivenUp {
                inform,
                receiver,
                hint,
            } => self.note_given_up(inform, receiver, hint),
            Originated::Nothing => ForwardEvent::Nothing,
        }
    }

    /// A Trap goes to a receiver. Returns what is reported.
    fn note_trap(&mut self, number: u64, receiver: usize, datagram: Vec<u8>) -> ForwardEvent
        ensures tells { TellsOriginated (Originated.Trap number receiver datagram) (Ok result) self.old.noted
            self.new.noted }
        ensures originator { self.new.originator ≡ self.old.originator }
    {
        self.message = Some(datagram);
        self.note(number, receiver, ForwardEvent::ToReceiver)
    }

    /// A notification begins to wait for a receiver's acknowledgement. Returns what is reported.
    fn note_begun(&mut self, number: u64, receiver: usize, inform: u64) -> ForwardEvent
        ensures tells { TellsOriginated (Originated.InformBegins number receiver inform) (Ok result) self.old.noted
            self.new.noted }
        ensures originator { self.new.originator ≡ self.old.originator }
    {
        self.inform = inform;
        self.note(number, receiver, ForwardEvent::InformBegins)
    }

    /// A datagram goes to the receiver of an Inform. Returns what is reported.
    fn note_inform_sent(
        &mut self,
        inform: u64,
        receiver: usize,
        message: SentMessage,
        datagram: Vec<u8>,
    ) -> ForwardEvent
        ensures tells { TellsOriginated (Originated.InformSent inform receiver message datagram) (Ok result)
            self.old.noted self.new.noted }
        ensures originator { self.new.originator ≡ self.old.originator }
    {
        self.sent = Some(message);
        self.message = Some(datagram);
        self.note_inform(inform, receiver, ForwardEvent::InformToReceiver)
    }

    /// An Inform has ended without an answer. Returns what is reported.
    fn note_given_up(&mut self, inform: u64, receiver: usize, hint: Option<u8>) -> ForwardEvent
        ensures tells { TellsOriginated (Originated.InformGivenUp inform receiver hint) (Ok result) self.old.noted
            self.new.noted }
        ensures originator { self.new.originator ≡ self.old.originator }
    {
        self.counter = hint.unwrap_or(0);
        self.note_inform(inform, receiver, ForwardEvent::InformGivenUp)
    }

    /// The call was about this notification and this receiver. Returns what is reported.
    fn note(&mut self, number: u64, receiver: usize, event: ForwardEvent) -> ForwardEvent
        ensures event { result ≡ event }
        ensures noted { self.new.noted ≡ about_notification number receiver self.old.noted }
        ensures originator { self.new.originator ≡ self.old.originator }
    {
        self.number = number;
        self.receiver = receiver;
        event
    }

    /// The call was about this Inform and this receiver. Returns what is reported.
    fn note_inform(&mut self, inform: u64, receiver: usize, event: ForwardEvent) -> ForwardEvent
        ensures event { result ≡ event }
        ensures noted { self.new.noted ≡ about_inform inform receiver self.old.noted }
        ensures originator { self.new.originator ≡ self.old.originator }
    {
        self.inform = inform;
        self.receiver = receiver;
        event
    }
}
