//! What goes out.

ghost use Rattle.std.specs.Prelude.{◌≡◌, ◌≢◌, ◌↔◌, ◌<◌, ◌≤◌, [], ℕ, min, MatchOption, List, Some, length, IfOk};
ghost use Rattle.std.specs.Prelude.{IsTrue, OnErr};
ghost use Rattle.snmp_gate.specs.Question.{Question};
ghost use Rattle.snmp_gate.specs.Messages.{question_in};
ghost use Rattle.snmp_gate.specs.Counting.{CountsReply, CountsSent};
ghost use Rattle.snmp_gate.specs.History.{Happening};
ghost use Rattle.snmp_gate.specs.Limits.{IsShortReplyFor};
ghost use Rattle.snmp_gate.specs.Replies.{SameAgent, says_of};
ghost use Rattle.snmp_gate.specs.Sending.{IsGivenUp, IsSentBy, LeavesBy, RepliesTo};
ghost use Rattle.std.specs.List.{HoldsAt};
ghost use Rattle.snmp_gate.specs.Bounds.{AsksBounded};
ghost use Rattle.snmp_gate.specs.Due.{AreIdle, HasEnded, HasRoom, IsFirstDue, IsTodo, IsTodoAt, IsTodoOpen, due_in};
ghost use Rattle.snmp_gate.specs.Due.{retries_in};
ghost use Rattle.snmp_gate.specs.Noting.{AsksSet, IsToldOf};
ghost use Rattle.snmp_gate.specs.Waiting.{EndsAsk, Fresh, GateStands, IsAsBefore, SameButAsks, SameButSets};
ghost use Rattle.snmp_gate.specs.Waiting.{SendHappens, fresh};
ghost use Rattle.snmp_gate.specs.Waiting.{Stays, asks_in};
ghost use Rattle.snmp_gate.specs.Said.{Said};
ghost use Rattle.snmp_gate.specs.Told.{IsEndOf, IsSentTold, Tells, TellsEnd};

use crate::asks::DeviceAsks;
use crate::gate::{Gate, Sent};
use crate::limits::GateLimits;
use crate::reply::{Reply, Sealing, limit_of, reply_to};
use crate::requests::WaitingRequest;
use crate::retries::Retries;
use crate::set_answer::ResponseStatus;
use crate::task::Task;
use crate::timer::Due;
use crate::waiting_message::WaitingMessage;
use crate::work::{EndedBy, OpenRequest, RequestEnd, Todo, Work, ended_by};
use snmp_agent::{Agent, Unhandled};
use std::alloc::{AllocError, Global};

/// Returns how long a request waits for its device: a Set is asked once.
fn retries_of(task: &Task, limits: &GateLimits) -> Retries
    ensures { result ≡ retries_in limits.now task.now }
{
    match task {
        Task::Set => limits.retries.for_set(),
        Task::Read(_, _) | Task::Bulk(_, _) => limits.retries,
    }
}

/// Returns what is to be done now for a request whose device is to be asked, or to answer. `has_room`: the device may
/// be asked more at once.
fn todo_open(waiting: &OpenRequest, has_room: bool, limits: &GateLimits, now: u64) -> Option<Todo>
    ensures { IsTodoOpen limits.now has_room now waiting.now result }
{
    let retries = retries_of(&waiting.task.task, limits);
    match waiting.timer.due(&retries, now) {
        Due::GiveUp => Some(Todo::GiveUp),
        Due::AskAgain => Some(Todo::AskAgain),
        Due::Nothing if has_room && waiting.asked.is_none() => Some(Todo::Ask),
        Due::Nothing => None,
    }
}

/// Returns true if more can be asked of this device at once.
fn has_room(asks: &[DeviceAsks], device: usize) -> bool
    ensures { IsTrue result → HasRoom asks.now device }
{
    device < asks.len() && !asks[device].is_full()
}

/// Returns what is to be done now for a request. None: nothing is due.
fn todo_of(work: &Work, asks: &[DeviceAsks], limits: &GateLimits, now: u64) -> Option<Todo>
    ensures { IsTodo limits.now asks.now now work.now result }
{
    match work {
        Work::Ends(_) => Some(Todo::Answer),
        Work::Open(open) => todo_open(open, has_room(asks, open.device), limits, now),
    }
}

/// Returns the place of the first request for which something is to be done now, and what.
fn first_todo(
    requests: &[WaitingRequest<WaitingMessage, Work>],
    asks: &[DeviceAsks],
    limits: &GateLimits,
    now: u64,
) -> Option<(usize, Todo)>
    ensures { MatchOption result (AreIdle limits.now now requests.now)
        (λ due. IsTodoAt limits.now asks.now now requests.now due.0 due.1) }
{
    for (place, request) in requests.iter().enumerate() {
        if let Some(todo) = todo_of(&request.work, asks, limits, now) {
            return Some((place, todo));
        }
    }
    None
}

/// Returns the moment from which on something is due for a request by time alone.
fn due_of(work: &Work, limits: &GateLimits) -> u64
    ensures { result ≡ due_in limits.now work.now }
{
    let Work::Open(open) = work else {
        return 0;
    };
    let retries = retries_of(&open.task.task, limits);
    open.timer.due_at(&retries)
}

/// Returns the earlier one of two moments, if there is one.
fn earlier(due: Option<u64>, at: u64) -> u64
    ensures { MatchOption due (result ≡ at) (λ other. result ≡ min other at) }
{
    match due {
        Some(other) => other.min(at),
        None => at,
    }
}

/// Returns what becomes of the first message of a request that ends.
fn reply_now(
    alloc: Global,
    agent: &mut Agent,
    request: &WaitingRequest<WaitingMessage, Work>,
    limits: &GateLimits,
    seconds: u64,
    salt: [u8; 8],
) -> Result<Reply, AllocError>
    requires { HasEnded request.now.work }
    ensures sent { IfOk result (λ reply. (q : Question) (said : Said)
        → question_in request.now.first ≡ Some q
        → RepliesTo agent.old seconds salt q said request.now.first.kept request.now.work reply) }
    ensures left { IfOk result (LeavesBy limits.now agent.old seconds salt request.now.first request.now.work) }
    ensures short { IfOk result (IsShortReplyFor limits.now request.now.first) }
    ensures counted { IfOk result (CountsReply agent.old agent.new) }
    ensures same { SameAgent agent.old agent.new }
    ensures err { OnErr result (agent.new ≡ agent.old) }
{
    let Work::Ends(ending) = &request.work else {
        unreachable!();
    };
    let message = &request.first;
    let taken = message.kept.taken();
    // every accepted message has these, so that its answer has a limit
    let _scoped = taken.scoped();
    let _pdu = taken.pdu();
    let sealing = Sealing {
        seconds,
        salt,
        limit: limit_of(taken.level, taken.max_size, message.size, limits),
    };
    let reply = reply_to(alloc, agent, message, ending, &sealing)?;
    Ok(reply)
}

/// Returns what a Response says of its request as a whole.
fn said_by(reply: &Reply) -> Option<ResponseStatus>
    ensures { result ≡ says_of reply.now }
{
    match reply {
        Reply::Responds { says, datagram: _ } => Some(*says),
        Reply::Reports(_) | Reply::Nothing | Reply::SilentDrop | Reply::Refused(_) => None,
    }
}

/// Returns true if a Set's device is asked.
pub(crate) fn is_set_at(work: &Work) -> bool
    ensures { IsTrue result ↔ AsksSet work.now }
{
    match work {
        Work::Open(waiting) => matches!(waiting.task.task, Task::Set),
        Work::Ends(_) => false,
    }
}

/// Returns how this request ended. One that is open ends by an answer.
fn end_of(work: &Work) -> EndedBy
    ensures { IsEndOf work.now result }
{
    match work {
        Work::Ends(ending) => ended_by(ending),
        Work::Open(_) => EndedBy::Answer,
    }
}

/// Returns what goes out, of what becomes of a message.
fn sent_by(number: u64, message: WaitingMessage, ended: EndedBy, reply: Reply) -> Sent
    ensures is { IsSentBy number message ended reply result }
    ensures something { result ≢ Sent.Nothing }
{
    match reply {
        Reply::Responds { says, datagram } => Sent::ToClient {
            number,
            message,
            says: Some(says),
            datagram,
            ended,
        },
        Reply::Reports(datagram) => Sent::ToClient {
            number,
            message,
            says: None,
            datagram,
            ended,
        },
        Reply::Nothing | Reply::SilentDrop => Sent::Unanswered {
            number,
            message,
            why: None,
            ended,
        },
        Reply::Refused(why) => Sent::Unanswered {
            number,
            message,
            why: Some(why),
            ended,
        },
    }
}

/// Returns the first moment from which on something is due for one of these requests by time alone.
fn first_due_of(
    requests: &[WaitingRequest<WaitingMessage, Work>],
    limits: &GateLimits,
) -> Option<u64>
    ensures { MatchOption result (requests.now ≡ []) (IsFirstDue limits.now requests.now) }
{
    let mut due = None;
    for request in requests {
        due = Some(earlier(due, due_of(&request.work, limits)));
    }
    due
}

impl Gate {
    /// Does the first thing that is due at this moment, in milliseconds, and returns what goes out. It is called until
    /// it returns `Nothing`. What has come is taken before: first what came from devices, and then what came from
    /// clients.
    ///
    /// No salt may come twice (RFC 3826, section 3.1.2.1). `ask_id` is a number that didn't come before: the device is
    /// asked with this request-id, or with the next one with which it isn't asked.
    ///
    /// What goes out tells whose request it is for, how that ended, whether its device is asked the same again, and how
    /// often it was asked before it was given up (`told`).
    ///
    /// It returns `Nothing` only if no request has ended, and by time alone nothing is due for any (`idle`). Of each
    /// request it does what is due, however often it is called.
    ///
    /// The error is out of memory. Then all is as before, and the call may be made again.
    pub fn next(&mut self, now: u64, salt: [u8; 8], ask_id: u32) -> Result<Sent, AllocError>
        ensures happens { IfOk result (λ sent. (since : ℕ) (before : List Happening) → since ≤ now
            → GateStands since before self.old
            → SendHappens self.old now before (fresh salt ask_id) sent self.new) }
        ensures idle { IfOk result (λ sent. sent ≡ Sent.Nothing
            → AreIdle self.new.limits now self.new.requests.list.items) }
        ensures told { IfOk result (IsSentTold self.old) }
        ensures counted { IfOk result (CountsSent self.old.agent self.new.agent) }
        ensures stays { Stays self.old self.new }
        ensures err { OnErr result (IsAsBefore now self.old self.new) }
    {
        let requests = self.requests.requests();
        let Some((place, todo)) = first_todo(requests, &self.asks, &self.limits, now) else {
            return Ok(Sent::Nothing);
        };
        match todo {
            Todo::Answer => self.answer_at(place, now, salt),
            Todo::Ask => self.ask_at(place, now, salt, ask_id),
            Todo::AskAgain => self.ask_again_at(place, now),
            Todo::GiveUp => Ok(self.give_up_at(place)),
        }
    }

    /// Returns the moment, in milliseconds, from which on `next` has something to do by time alone, if nothing comes
    /// before.
    pub fn due(&self) -> Option<u64>
        ensures { MatchOption result (self.now.requests.list.items ≡ [])
            (IsFirstDue self.now.limits self.now.requests.list.items) }
    {
        first_due_of(self.requests.requests(), &self.limits)
    }

    /// Answers the first message of the request at this place.
    pub(crate) fn answer_at(
        &mut self,
        place: usize,
        now: u64,
        salt: [u8; 8],
    ) -> Result<Sent, AllocError>
        requires place { place < length self.old.requests.list.items }
        requires ended { HoldsAt (λ r. HasEnded r.work) self.old.requests.list.items place }
        ensures happens { IfOk result (λ sent. (since ask_id : ℕ) (before : List Happening) → since ≤ now
            → GateStands since before self.old
            → SendHappens self.old now before (fresh salt ask_id) sent self.new) }
        ensures something { IfOk result (λ sent. sent ≢ Sent.Nothing) }
        ensures told { IfOk result (λ sent. HoldsAt (TellsEnd sent) self.old.requests.list.items place) }
        ensures counted { IfOk result (CountsSent self.old.agent self.new.agent) }
        ensures stays { Stays self.old self.new }
        ensures err { OnErr result (IsAsBefore now self.old self.new) }
        ensures same { OnErr result (self.new ≡ self.old) }
    {
        let request = &self.requests.list[place];
        let number = request.number;
        let ended = end_of(&request.work);
        let seconds = now / 1000;
        let reply = reply_now(
            self.alloc,
            &mut self.agent,
            request,
            &self.limits,
            seconds,
            salt,
        )?;
        let message = self.requests.answer(place);
        self.tell_set(&message, said_by(&reply));
        Ok(sent_by(number, message, ended, reply))
    }

    /// Remembers what the Response to a Set says.
    fn tell_set(&mut self, message: &WaitingMessage, said: Option<ResponseStatus>)
        ensures same { SameButSets self.old self.new }
        ensures told { IsToldOf message.now said self.old.sets.sets.items self.new.sets.sets.items }
    {
        if let Some(digest) = &message.digest {
            if let Some(says) = said {
                self.sets.tell(digest, says);
            }
        }
    }

    /// Returns how the request at this place ends that is given up. A Set isn't answered, since its device may have
    /// done it.
    fn given_up_at(&self, place: usize) -> RequestEnd
        requires { place < length self.now.requests.list.items }
        ensures { HoldsAt (λ r. IsGivenUp self.now.limits r.work result) self.now.requests.list.items place }
    {
        if !self.limits.report_unreachable || is_set_at(&self.requests.list[place].work) {
            return RequestEnd::Silent;
        }
        RequestEnd::Unhandled(Unhandled::UnavailableContexts)
    }

    /// Gives up the request at this place.
    pub(crate) fn give_up_at(&mut self, place: usize) -> Sent
        requires place { place < length self.old.requests.list.items }
        requires goes_on { HoldsAt (λ r. ¬ HasEnded r.work) self.old.requests.list.items place }
        ensures happens { (since now : ℕ) (before : List Happening) (f : Fresh) → since ≤ now
            → GateStands since before self.old → SendHappens self.old now before f result self.new }
        ensures something { result ≢ Sent.Nothing }
        ensures told { HoldsAt (Tells result) self.old.requests.list.items place }
        ensures counted { CountsSent self.old.agent self.new.agent result }
        ensures stays { Stays self.old self.new }
    {
        let (device, number) = self.device_at(place);
        let asked = self.asked_at(place);
        let times = self.times_at(place);
        let ending = self.given_up_at(place);
        self.requests.work(place, Work::Ends(ending));
        self.end_ask(device, asked);
        Sent::GivenUp {
            number,
            device,
            times,
        }
    }

    /// What a device is asked is given up.
    fn end_ask(&mut self, device: usize, asked: Option<u32>)
        ensures same { SameButAsks self.old self.new }
        ensures ends { EndsAsk device asked (asks_in self.old.asks.items) (asks_in self.new.asks.items) }
        ensures bounded { AsksBounded self.old.devices.list.items self.old.asks.items
            → AsksBounded self.old.devices.list.items self.new.asks.items }
    {
        if let Some(id) = asked {
            if device < self.asks.len() {
                self.asks[device].end(id);
            }
        }
    }
}
