//! Informs: what is sent to receivers that acknowledge it, and what comes from them (RFC 3413, section 3.3).

ghost use Rattle.std.specs.Prelude.{◌≡◌, ◌≢◌, ◌↔◌, ◌≤◌, ◌<◌, [], ℕ, All, IfOk, IsTrue, List, MatchOption};
ghost use Rattle.std.specs.Prelude.{OnErr, length};
ghost use Rattle.snmp_ber.specs.declared.number.TheConstants.{MAX_INTEGER32};
ghost use Rattle.snmp_incoming.specs.Answers.{given_of};
ghost use Rattle.snmp_incoming.specs.Outcome.{Given};
ghost use Rattle.snmp_forward.specs.InformHistory.{InformEnd, InformHappening, IsReason, begins};
ghost use Rattle.snmp_forward.specs.InformRuns.{AddsIfRoom};
ghost use Rattle.snmp_forward.specs.InformStanding.{AnswerHappens, AreAsBefore, HeardHappens};
ghost use Rattle.snmp_forward.specs.InformStanding.{InformHappens, InformSendHappens, InformsStand, InformsStay};
ghost use Rattle.snmp_forward.specs.InformStanding.{IsAnswered};
ghost use Rattle.snmp_forward.specs.InformStanding.{IsAt, IsFull, IsGivenUp};
ghost use Rattle.snmp_forward.specs.InformStanding.{IsRemoved, IsSameElse, KeepsOthers, KeepsRequests, ReceiverHappens};
ghost use Rattle.snmp_forward.specs.InformStanding.{setting_of};
ghost use Rattle.snmp_forward.specs.WaitingInforms.{IsDue, IsFirstDue};

use crate::exchange::{InformLimits, InformTurn};
use crate::inform::Inform;
use crate::waiting_inform::{WaitingInform, first_due, is_unasked, next_due, place_of};
use engine_clock::EngineId;
use snmp_incoming::Taken;
use snmp_manager::Manager;
use snmp_msg::Refusal;
use snmp_requests::{AnsweredRequest, NextStep, OutstandingRequests, SentMessage};
use std::alloc::{AllocError, Global};

/// What becomes of a datagram of a receiver.
#[derive(Clone, Copy, Debug, PartialEq, Eq)]
pub enum ReceiverTaken {
    /// It is refused, for the reason that `Manager::take` tells.
    Refused(Refusal),
    /// It isn't an answer to what is waited for.
    NoAnswer,
    /// It is an answer to what was sent last for the Inform with this number, which goes on.
    Heard(u64),
    /// The Inform with this number is acknowledged.
    Acknowledged(u64),
    /// The receiver's engine refused what was sent for an Inform, which has ended.
    Denied {
        /// The number of the Inform.
        number: u64,
        /// The counter that was reported, 1 to 9, or 0.
        counter: u8,
    },
}

/// What goes out for an Inform.
#[derive(Drop)]
pub enum InformSent {
    /// A datagram to its receiver.
    ToReceiver {
        /// The number of the Inform.
        number: u64,
        /// The number of the receiver, counted from 0.
        receiver: usize,
        /// What it is: the Inform, or what is asked of the receiver's engine before.
        message: SentMessage,
        datagram: Vec<u8>,
    },
    /// The Inform has ended: nothing can be sealed for the receiver's user, for this reason.
    Unsent {
        /// The number of the Inform.
        number: u64,
        /// The number of the receiver, counted from 0.
        receiver: usize,
        why: Refusal,
    },
    /// The Inform has ended: it was sent as often as it may be, or 65,536 messages wait for answers.
    GivenUp {
        /// The number of the Inform.
        number: u64,
        /// The number of the receiver, counted from 0.
        receiver: usize,
        /// The counter of the last Report that came without authentication, which anybody can have sent.
        hint: Option<u8>,
    },
    /// There is nothing to do now.
    Nothing,
}

/// The Informs that wait to be acknowledged, each by one receiver.
#[derive(Drop)]
pub struct Informs {
    pub(crate) alloc: Global,
    /// The engine from which they are sent.
    pub(crate) engine: EngineId,
    pub(crate) manager: Manager,
    pub(crate) requests: OutstandingRequests,
    pub(crate) list: Vec<WaitingInform>,
    pub(crate) next: u64,
    pub(crate) most: usize,
    pub(crate) limits: InformLimits,
}

/// The message with this token isn't waited for any more.
pub(crate) fn forget(requests: &mut OutstandingRequests, token: Option<u64>)
    ensures keeps { KeepsRequests requests.old requests.new }
    ensures others { KeepsOthers requests.old token requests.new }
{
    if let Some(token) = token {
        requests.give_up(token);
    }
}

/// The message with this token isn't waited for any more, unless another answer to it may come.
fn settle(requests: &mut OutstandingRequests, step: NextStep, token: u64)
    ensures keeps { KeepsRequests requests.old requests.new }
    ensures waits { step ≡ NextStep.Wait → requests.new ≡ requests.old }
{
    if step != NextStep::Wait {
        requests.give_up(token);
    }
}

impl Informs {
    /// Returns that no Inform waits. At most `most` wait at once. They are sent from this engine, with the users and
    /// the clocks of this manager. It takes no memory.
    pub fn new(
        alloc: Global,
        engine: EngineId,
        manager: Manager,
        most: usize,
        limits: InformLimits,
    ) -> Informs
        ensures stands { InformsStand [] result }
        ensures engine { result.engine ≡ engine }
        ensures manager { result.manager ≡ manager }
        ensures limits { result.limits ≡ limits }
        ensures most { result.most ≡ most }
    {
        Informs {
            alloc,
            engine,
            manager,
            requests: OutstandingRequests::new(alloc),
            list: Vec::new(alloc),
            next: 0,
            most,
            limits,
        }
    }

    /// Returns how many Informs wait.
    pub fn len(&self) -> usize
        ensures { result ≡ length self.now.list.items }
    {
        self.list.len()
    }

    /// Returns true if as many wait as may, or 18446744073709551615 have waited, so that there is no number left.
    pub fn is_full(&self) -> bool
        ensures { IsTrue result ↔ IsFull self.now }
    {
        self.len() >= self.most || self.next == u64::MAX
    }

    /// Returns the moment, in milliseconds, from which on `next` has something to do by time alone.
    pub fn due(&self) -> Option<u64>
        ensures { MatchOption result (self.now.list.items ≡ []) (IsFirstDue self.now.list.items) }
    {
        next_due(&self.list)
    }

    /// An Inform waits to be sent, and to be acknowledged. Its number is returned. There is room for it.
    ///
    /// The error is out of memory, and then all is as before.
    pub fn add(&mut self, inform: Inform) -> Result<u64, AllocError>
        requires room { ¬ IsFull self.old }
        ensures happens { IfOk result (λ number. (before : List InformHappening) → InformsStand before self.old
            → InformHappens self.old before (begins number inform) self.new) }
        ensures stays { InformsStay self.old self.new }
        ensures err { OnErr result (AreAsBefore self.old self.new) }
    {
        let number = self.next;
        self.list.push(WaitingInform::new(number, inform))?;
        self.next = number + 1;
        Ok(number)
    }

    /// An Inform waits, as `add` says, if there is room for it. Its number is returned. None: there is no room.
    ///
    /// The error is out of memory, and then all is as before.
    pub(crate) fn add_if_room(&mut self, inform: Inform) -> Result<Option<u64>, AllocError>
        ensures adds { IfOk result (λ added. AddsIfRoom self.old inform added self.new) }
        ensures err { OnErr result (AreAsBefore self.old self.new) }
    {
        if self.is_full() {
            return Ok(None);
        }
        let number = self.add(inform)?;
        Ok(Some(number))
    }

    /// Takes what the receiver with this number sent, at this moment, in milliseconds. It is an answer to what was sent
    /// to that receiver alone. With a msgID of nothing that was sent to it last it changes nothing of what waits.
    ///
    /// The error is out of memory. Then it isn't taken, and may be taken again.
    pub fn take(
        &mut self,
        now: u64,
        receiver: usize,
        datagram: &[u8],
    ) -> Result<ReceiverTaken, AllocError>
        ensures happens { IfOk result (λ taken. (before : List InformHappening) → InformsStand before self.old
            → ReceiverHappens self.old before now receiver datagram.now taken self.new) }
        ensures stays { InformsStay self.old self.new }
        ensures err { OnErr result (AreAsBefore self.old self.new) }
    {
        match self.manager.take(now / 1000, datagram) {
            Ok(taken) => Ok(self.accept(receiver, &taken)),
            Err(refused) => {
                if refused.is_memory() {
                    return Err(AllocError);
                }
                Ok(ReceiverTaken::Refused(refused.refusal))
            }
        }
    }

    /// Finds the Inform of this receiver to which an accepted message is an answer, and hears it.
    fn accept(&mut self, receiver: usize, taken: &Taken<'_>) -> ReceiverTaken
        ensures happens { (before : List InformHappening) → InformsStand before self.old
            → AnswerHappens self.old before receiver (given_of taken.now) result self.new }
        ensures same { IsSameElse self.old self.new }
    {
        if is_unasked(&self.list, receiver, taken.id) {
            return ReceiverTaken::NoAnswer;
        }
        let _scoped = taken.scoped();
        let _pdu = taken.pdu();
        let Some(answered) = self.requests.take_answer(taken) else {
            return ReceiverTaken::NoAnswer;
        };
        let Some(place) = place_of(&self.list, receiver, answered.token) else {
            return ReceiverTaken::NoAnswer;
        };
        let holds_clock = self.manager.pair(&taken.engine).is_some();
        self.hear(place, answered, holds_clock, &taken.engine)
    }

    /// An answer to the message that was sent last for the Inform at this place came from this engine.
    fn hear(
        &mut self,
        place: usize,
        answered: AnsweredRequest,
        holds_clock: bool,
        engine: &EngineId,
    ) -> ReceiverTaken
        requires place { place < length self.old.list.items }
        ensures happens { (before : List InformHappening) (given : Given) (w : WaitingInform)
            → InformsStand before self.old → given.engine ≡ engine.now → IsAt self.old place w
            → IsAnswered before w given answered.heard
            → HeardHappens self.old before w.inform.receiver given holds_clock answered.heard result self.new }
        ensures same { IsSameElse self.old self.new }
    {
        let number = self.list[place].number;
        let step = self.list[place].hear(answered.heard, holds_clock, engine);
        settle(&mut self.requests, step, answered.token);
        match step {
            NextStep::Wait => ReceiverTaken::Heard(number),
            NextStep::Send(_) => ReceiverTaken::Heard(number),
            NextStep::Answered => {
                self.list.remove(place);
                ReceiverTaken::Acknowledged(number)
            }
            NextStep::Refused(counter) => {
                self.list.remove(place);
                ReceiverTaken::Denied { number, counter }
            }
        }
    }

    /// Does what is due for the first Inform for which something is to be done at this moment, in milliseconds, and
    /// returns what goes out. It is called until it returns `Nothing`.
    ///
    /// No salt may come twice (RFC 3826, section 3.1.2.1). The very first message has the msgID `first_id`, at most
    /// 2147483647, which is to be random.
    ///
    /// The error is out of memory. Then all is as before, and the call may be made again.
    pub fn next(&mut self, now: u64, salt: [u8; 8], first_id: u32) -> Result<InformSent, AllocError>
        requires first { first_id ≤ MAX_INTEGER32 }
        ensures happens { IfOk result (λ sent. (before : List InformHappening) → InformsStand before self.old
            → InformSendHappens self.old before now salt first_id sent self.new) }
        ensures nothing { IfOk result (λ sent. sent ≡ InformSent.Nothing
            → All (λ w. ¬ IsDue now w) self.old.list.items) }
        ensures stays { InformsStay self.old self.new }
        ensures err { OnErr result (AreAsBefore self.old self.new) }
    {
        let Some(place) = first_due(&self.list, now) else {
            return Ok(InformSent::Nothing);
        };
        match self.list[place].exchange.turn(&self.limits, now) {
            InformTurn::Wait => Ok(InformSent::Nothing),
            InformTurn::GiveUp => Ok(self.give_up(place)),
            InformTurn::Send(message) => self.send(place, message, now, salt, first_id),
        }
    }

    /// The Inform at this place isn't waited for any more.
    pub(crate) fn remove(&mut self, place: usize) -> WaitingInform
        requires place { place < length self.old.list.items }
        ensures { IsRemoved self.old place result self.new }
    {
        let waiting = self.list.remove(place);
        forget(&mut self.requests, waiting.token);
        waiting
    }

    /// The Inform at this place is given up.
    pub(crate) fn give_up(&mut self, place: usize) -> InformSent
        requires place { place < length self.old.list.items }
        ensures happens { (before : List InformHappening) (now first_id : ℕ) (salt : List ℕ) (w : WaitingInform)
            (why : InformEnd) → InformsStand before self.old → IsAt self.old place w → w.exchange.due ≤ now
            → IsGivenUp self.old.requests first_id why
            → IsReason (setting_of self.old) w.engine w.inform w.exchange why
            → InformSendHappens self.old before now salt first_id result self.new }
        ensures something { result ≢ InformSent.Nothing }
        ensures same { IsSameElse self.old self.new }
    {
        let waiting = self.remove(place);
        InformSent::GivenUp {
            number: waiting.number,
            receiver: waiting.inform.receiver,
            hint: waiting.exchange.request.hint,
        }
    }
}
