//! One request of a device whose engine ID, or whose boots and time, may be unknown (RFC 3414, section 4).

ghost use Rattle.std.specs.Prelude.{◌≡◌, Bool, Some};
ghost use Rattle.snmp_requests.specs.DeviceRequests.{Begins, Hears, ended, first_message, level_of, sending};
ghost use Rattle.snmp_requests.specs.DeviceRequests.{to_engine};

use snmp_ber::Level;

/// What is sent to a device.
#[derive(Clone, Copy, Debug, PartialEq, Eq)]
pub enum SentMessage {
    /// The discovery: a request of nothing, for no engine and no user, as `Manager::discover` writes it.
    Discovery,
    /// A request of nothing at authNoPriv, by whose Report the engine's boots and time are learned. Nothing is sealed
    /// with a time that may be wrong.
    TimeRequest,
    /// The request itself.
    Request,
}

/// What is known of a device before it is asked.
#[derive(Clone, Copy, Debug, PartialEq, Eq)]
pub enum Known {
    Nothing,
    /// Its engine ID.
    Engine,
    /// Its engine ID, and the manager holds boots and time of that engine.
    Clock,
}

/// What came in answer to the message that was sent last.
#[derive(Clone, Copy, Debug, PartialEq, Eq)]
pub enum Heard {
    /// The Response to it.
    Response,
    /// A Report on it, of the counter with this number, 1 to 9, or 0 where its bindings aren't one that names a
    /// counter.
    Report {
        counter: u8,
        /// It came with authentication, from the engine that was asked and for the user that asks. Any other can be
        /// anybody's.
        authentic: bool,
    },
}

/// What is to be done then.
#[derive(Clone, Copy, Debug, PartialEq, Eq)]
pub enum NextStep {
    /// Wait on, until the time of the message that was sent last is over.
    Wait,
    /// Send this, and wait for its answer.
    Send(SentMessage),
    /// The request is answered.
    Answered,
    /// The engine refused the request, and reported the counter with this number, with authentication.
    Refused(u8),
}

/// One request of a device.
#[derive(Clone, Copy, Debug, PartialEq, Eq)]
pub struct DeviceRequest {
    /// The level at which the request is to be sent.
    pub level: Level,
    /// What is to be sent, or was sent last: the same again, where its time is over and it may be sent once more. None:
    /// the request is answered, or refused.
    pub sent: Option<SentMessage>,
    /// The request was sent again, because it came outside of the engine's time window.
    pub again: bool,
    /// Why the request is likely to have no answer: the counter of the last Report that came without authentication.
    /// Anybody can have sent it.
    pub hint: Option<u8>,
}

/// The number of usmStatsNotInTimeWindows among the counters that a Report names (RFC 3414, section 5).
const NOT_IN_WINDOWS: u8 = 2;

/// The number of usmStatsUnknownEngineIDs.
const UNKNOWN_ENGINES: u8 = 4;

/// Returns what is sent to an engine whose ID is known, for a request of this level.
fn to_engine(level: Level, holds_clock: bool) -> SentMessage
    ensures { result ≡ to_engine level holds_clock }
{
    if level == Level::NoAuthNoPriv || holds_clock {
        return SentMessage::Request;
    }
    SentMessage::TimeRequest
}

impl DeviceRequest {
    /// Begins to ask a device of which this is known, at this level.
    pub fn new(level: Level, known: Known) -> DeviceRequest
        ensures { Begins level (first_message level known) result }
    {
        let sent = match known {
            Known::Nothing => SentMessage::Discovery,
            Known::Engine => to_engine(level, false),
            Known::Clock => to_engine(level, true),
        };
        DeviceRequest {
            level,
            sent: Some(sent),
            again: false,
            hint: None,
        }
    }

    /// Returns the level at which this message is sent. The request has the level that `new` was given, whatever comes.
    pub fn level(&self, message: SentMessage) -> Level
        ensures { result ≡ level_of self.now.level message }
    {
        match message {
            SentMessage::Discovery => Level::NoAuthNoPriv,
            SentMessage::TimeRequest => Level::AuthNoPriv,
            SentMessage::Request => self.level,
        }
    }

    /// An answer came to the message that was sent last. `holds_clock` says if the manager holds boots and time of the
    /// engine from which it came. Returns what is to be done.
    ///
    /// A Report without authentication is remembered, and ends nothing, but for the Report to a discovery. A request
    /// that came outside of the time window is sent again once, since the manager has learned the time then. The second
    /// such Report, and any other Report with authentication, refuses the request.
    pub fn hear(&mut self, heard: Heard, holds_clock: bool) -> NextStep
        ensures { Hears self.old heard holds_clock result self.new }
    {
        match self.sent {
            Some(SentMessage::Discovery) => self.hear_discovery(heard, holds_clock),
            Some(SentMessage::TimeRequest) => self.hear_time(heard),
            Some(SentMessage::Request) => self.hear_request(heard),
            None => NextStep::Wait,
        }
    }

    /// An answer came to the discovery.
    fn hear_discovery(&mut self, heard: Heard, holds_clock: bool) -> NextStep
        requires { self.old.sent ≡ Some SentMessage.Discovery }
        ensures { Hears self.old heard holds_clock result self.new }
    {
        match heard {
            Heard::Report {
                counter: UNKNOWN_ENGINES,
                ..
            } => self.send(to_engine(self.level, holds_clock)),
            Heard::Report { counter, .. } => self.remember(counter),
            Heard::Response => NextStep::Wait,
        }
    }

    /// An answer came to the request for the time.
    fn hear_time(&mut self, heard: Heard) -> NextStep
        requires { self.old.sent ≡ Some SentMessage.TimeRequest }
        ensures { (holds_clock : Bool) → Hears self.old heard holds_clock result self.new }
    {
        match heard {
            Heard::Response
            | Heard::Report {
                counter: NOT_IN_WINDOWS,
                authentic: true,
            } => self.send(SentMessage::Request),
            Heard::Report {
                counter,
                authentic: true,
            } => self.refuse(counter),
            Heard::Report { counter, .. } => self.remember(counter),
        }
    }

    /// An answer came to the request.
    fn hear_request(&mut self, heard: Heard) -> NextStep
        requires { self.old.sent ≡ Some SentMessage.Request }
        ensures { (holds_clock : Bool) → Hears self.old heard holds_clock result self.new }
    {
        match heard {
            Heard::Response => {
                self.sent = None;
                NextStep::Answered
            }
            Heard::Report {
                counter: NOT_IN_WINDOWS,
                authentic: true,
            } if !self.again => {
                self.again = true;
                self.send(SentMessage::Request)
            }
            Heard::Report {
                counter,
                authentic: true,
            } => self.refuse(counter),
            Heard::Report { counter, .. } => self.remember(counter),
        }
    }

    /// This is sent next.
    fn send(&mut self, message: SentMessage) -> NextStep
        ensures turn { result ≡ NextStep.Send message }
        ensures sent { self.new ≡ sending self.old message self.old.again }
    {
        self.sent = Some(message);
        NextStep::Send(message)
    }

    /// The engine refused what was sent.
    fn refuse(&mut self, counter: u8) -> NextStep
        ensures turn { result ≡ NextStep.Refused counter }
        ensures ended { self.new ≡ ended self.old }
    {
        self.sent = None;
        NextStep::Refused(counter)
    }

    /// A Report came that can be anybody's.
    fn remember(&mut self, counter: u8) -> NextStep
        ensures turn { result ≡ NextStep.Wait }
        ensures hint { self.new ≡ record self.old { hint = Some counter } }
    {
        self.hint = Some(counter);
        NextStep::Wait
    }
}
