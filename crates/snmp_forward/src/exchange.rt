//! One Inform: what its receiver is sent, when, and how often (RFC 3413, section 3.3; RFC 3414, section 4).

ghost use Rattle.std.specs.Prelude.{◌≡◌, ◌+◌, ◌-◌, ◌^◌, ◌<◌, Some, min};
ghost use Rattle.snmp_requests.specs.DeviceRequests.{Begins, first_message};
ghost use Rattle.snmp_forward.specs.Exchange.{HearsAnswer, IsTurn};

use snmp_ber::Level;
use snmp_requests::{DeviceRequest, Heard, Known, NextStep, SentMessage};

/// How Informs wait. Times are in milliseconds. RFC 3413, section 4.1.2, has such numbers for targets:
/// snmpTargetAddrTimeout and snmpTargetAddrRetryCount.
#[derive(Clone, Copy, Debug, PartialEq, Eq)]
pub struct InformLimits {
    /// How long a receiver has for its answer before it is sent the same message again.
    pub again: u64,
    /// How often a receiver is sent the same message at most.
    pub tries: u32,
}

impl Default for InformLimits {
    /// Returns the limits of Informs for which none are chosen: 3 tries, 5 seconds apart.
    fn default() -> InformLimits
        ensures { result ≡ record { again = 5000; tries = 3 } }
    {
        InformLimits {
            again: 5_000,
            tries: 3,
        }
    }
}

/// What is to be done for an Inform now.
#[derive(Clone, Copy, Debug, PartialEq, Eq)]
pub enum InformTurn {
    /// Nothing yet.
    Wait,
    /// This is to be sent to the receiver.
    Send(SentMessage),
    /// The Inform is to be given up: the receiver was sent the same message as often as it may be, or the Inform has
    /// ended.
    GiveUp,
}

/// How far one Inform has come: what its receiver was sent, and how often. Moments are milliseconds from one beginning.
#[derive(Clone, Copy, Debug, PartialEq, Eq)]
pub struct InformExchange {
    /// What is asked of the receiver's engine.
    pub request: DeviceRequest,
    /// How often the message that is to be sent, or was sent last, was sent.
    pub times: u32,
    /// The moment from which on something is to be done.
    pub due: u64,
}

impl InformExchange {
    /// Returns the exchange of an Inform at this level, for a receiver of whose engine this is known. It is due at
    /// once.
    pub fn new(level: Level, known: Known) -> InformExchange
        ensures request { Begins level (first_message level known) result.request }
        ensures times { result.times ≡ 0 }
        ensures due { result.due ≡ 0 }
    {
        InformExchange {
            request: DeviceRequest::new(level, known),
            times: 0,
            due: 0,
        }
    }

    /// Returns what is to be done now.
    pub fn turn(&self, limits: &InformLimits, now: u64) -> InformTurn
        ensures { IsTurn limits.now self.now now result }
    {
        if now < self.due {
            return InformTurn::Wait;
        }
        let Some(message) = self.request.sent else {
            return InformTurn::GiveUp;
        };
        if self.times < limits.tries {
            return InformTurn::Send(message);
        }
        InformTurn::GiveUp
    }

    /// The receiver is sent the message that is due, at this moment.
    pub fn send(&mut self, limits: &InformLimits, now: u64)
        requires { self.old.times < limits.now.tries }
        ensures request { self.new.request ≡ self.old.request }
        ensures times { self.new.times ≡ self.old.times + 1 }
        ensures due { self.new.due ≡ min (now + limits.now.again) (2 ^ 64 - 1) }
    {
        self.times += 1;
        self.due = now.saturating_add(limits.again);
    }

    /// An answer came to the message that was sent last, as `DeviceRequest::hear` takes it. If another message is to
    /// be sent, or the Inform again since it came outside of the time window, it is due at once. An Inform that is sent
    /// again was sent as often as before.
    pub fn hear(&mut self, heard: Heard, holds_clock: bool) -> NextStep
        ensures { HearsAnswer self.old heard holds_clock result self.new }
    {
        let before = self.request.sent;
        let step = self.request.hear(heard, holds_clock);
        if let NextStep::Send(message) = step {
            if before != Some(message) {
                self.times = 0;
            }
            self.due = 0;
        }
        step
    }
}
