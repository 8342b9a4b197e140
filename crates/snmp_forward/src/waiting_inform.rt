//! An Inform that waits to be acknowledged.

ghost use Rattle.std.specs.Prelude.{◌≡◌, ◌↔◌, ◌≤◌, ◌<◌, [], All, IfOk, IsTrue, MatchOption, min};
ghost use Rattle.snmp_ber.specs.declared.number.TheConstants.{MAX_INTEGER32};
ghost use Rattle.snmp_forward.specs.WaitingInforms.{HearsInform, IsAddressed, IsAsked, IsAskedAs, IsDue, IsFirstDue};
ghost use Rattle.snmp_forward.specs.WaitingInforms.{IsFirstOf, IsMessageWritten, IsNewInform, IsSentInform};

use crate::asking::{AskedWith, write_discovery, write_inform, write_time_request};
use crate::exchange::{InformExchange, InformLimits};
use crate::inform::Inform;
use crate::sealing::Sealing;
use engine_clock::EngineId;
use snmp_manager::Manager;
use snmp_requests::{Heard, Known, NextStep, SentMessage, message_id};
use std::alloc::{AllocError, Global};

/// An Inform that waits to be acknowledged.
#[derive(Drop)]
pub struct WaitingInform {
    /// How many Informs waited before it.
    pub number: u64,
    pub inform: Inform,
    /// How far it has come.
    pub exchange: InformExchange,
    /// The receiver's engine, as soon as it is known.
    pub engine: Option<EngineId>,
    /// The token of the message that was sent last, as long as an answer to it is waited for.
    pub token: Option<u64>,
}

/// Returns the place of the Inform to which an answer of this receiver, to the message with this token, is waited for.
pub(crate) fn place_of(list: &[WaitingInform], receiver: usize, token: u64) -> Option<usize>
    ensures { MatchOption result (All (λ w. ¬ IsAsked receiver token w) list.now)
        (IsFirstOf (IsAsked receiver token) list.now) }
{
    for (place, waiting) in list.iter().enumerate() {
        if waiting.is_asked(receiver, token) {
            return Some(place);
        }
    }
    None
}

/// Returns true if no answer of this receiver to a message with this msgID is waited for.
pub(crate) fn is_unasked(list: &[WaitingInform], receiver: usize, id: u32) -> bool
    ensures { IsTrue result ↔ All (λ w. ¬ IsAskedAs receiver id w) list.now }
{
    for waiting in list {
        if waiting.is_asked_as(receiver, id) {
            return false;
        }
    }
    true
}

/// Returns the place of the first Inform for which something is to be done.
pub(crate) fn first_due(list: &[WaitingInform], now: u64) -> Option<usize>
    ensures { MatchOption result (All (λ w. ¬ IsDue now w) list.now) (IsFirstOf (IsDue now) list.now) }
{
    for (place, waiting) in list.iter().enumerate() {
        if waiting.exchange.due <= now {
            return Some(place);
        }
    }
    None
}

/// Returns the moment from which on something is to be done for one of them.
pub(crate) fn next_due(list: &[WaitingInform]) -> Option<u64>
    ensures { MatchOption result (list.now ≡ []) (IsFirstDue list.now) }
{
    let mut due = None;
    for waiting in list {
        due = Some(earlier(due, waiting.exchange.due));
    }
    due
}

/// Returns the earlier one of two moments, if there is one.
fn earlier(due: Option<u64>, at: u64) -> u64
    ensures { MatchOption due (result ≡ at) (λ other. result ≡ min other at) }
{
    match due {
        Some(other) => other.min(at),
        None => at,
    }
}

impl WaitingInform {
    /// Returns an Inform that waits, of whose receiver's engine nothing is known.
    pub(crate) fn new(number: u64, inform: Inform) -> WaitingInform
        ensures { IsNewInform number inform result }
    {
        let exchange = InformExchange::new(inform.level, Known::Nothing);
        WaitingInform {
            number,
            inform,
            exchange,
            engine: None,
            token: None,
        }
    }

    /// Returns true if an answer of this receiver to the message with this token is waited for.
    fn is_asked(&self, receiver: usize, token: u64) -> bool
        ensures { IsTrue result ↔ IsAsked receiver token self.now }
    {
        self.inform.receiver == receiver && self.token == Some(token)
    }

    /// Returns true if an answer of this receiver to a message with this msgID is waited for.
    fn is_asked_as(&self, receiver: usize, id: u32) -> bool
        ensures { IsTrue result ↔ IsAskedAs receiver id self.now }
    {
        let Some(token) = self.token else {
            return false;
        };
        self.inform.receiver == receiver && message_id(token) == id
    }

    /// Returns the engine and the user to which this message is addressed: none for a discovery.
    pub(crate) fn addressee(&self, message: SentMessage) -> (&[u8], &[u8])
        ensures { IsAddressed self.now.engine self.now.inform message result.0.now result.1.now }
    {
        let Some(engine) = &self.engine else {
            return (&[], &[]);
        };
        if message == SentMessage::Discovery {
            return (&[], &[]);
        }
        (engine.as_slice(), &self.inform.user)
    }

    /// Writes a message for the receiver. The error is out of memory. The manager stays as it is.
    pub(crate) fn write(
        &self,
        alloc: Global,
        manager: &mut Manager,
        own: &EngineId,
        message: SentMessage,
        by: &Sealing,
    ) -> Result<AskedWith, AllocError>
        requires id { by.now.id ≤ MAX_INTEGER32 }
        ensures written { IfOk result (IsMessageWritten manager.old own.now self.now.engine self.now.inform message
            by.now) }
        ensures same { manager.new ≡ manager.old }
    {
        let Some(engine) = &self.engine else {
            return write_discovery(manager, by);
        };
        match message {
            SentMessage::Discovery => write_discovery(manager, by),
            SentMessage::TimeRequest => write_time_request(manager, engine, &self.inform, by),
            SentMessage::Request => write_inform(alloc, manager, own, engine, &self.inform, by),
        }
    }

    /// The message that is due was sent at this moment, and an answer to it is waited for under this token.
    pub(crate) fn mark_sent(&mut self, limits: &InformLimits, now: u64, token: u64)
        requires { self.old.exchange.times < limits.now.tries }
        ensures { IsSentInform limits.now now token self.old self.new }
    {
        self.exchange.send(limits, now);
        self.token = Some(token);
    }

    /// An answer came to the message that was sent last, from this engine. If another message is to be sent, no other
    /// answer to this one is waited for.
    pub(crate) fn hear(&mut self, heard: Heard, holds_clock: bool, engine: &EngineId) -> NextStep
        ensures { HearsInform self.old heard holds_clock engine.now result self.new }
    {
        let before = self.exchange.request.sent;
        let step = self.exchange.hear(heard, holds_clock);
        if let NextStep::Send(_) = step {
            self.token = None;
            if before == Some(SentMessage::Discovery) {
                self.engine = Some(engine.copy());
            }
        }
        step
    }
}
