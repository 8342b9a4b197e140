//! What comes from clients.

ghost use Rattle.std.specs.Prelude.{◌≡◌, ◌↔◌, ◌<◌, ◌≤◌, ◌/◌, ℕ, List, Some, length, IfOk, IfSome, IsTrue};
ghost use Rattle.std.specs.Prelude.{MatchOption, OnErr, Option as OptionIs, cond};
ghost use Rattle.std.specs.List.{HoldsAt};
ghost use Rattle.sha2.specs.Sha256.{sha256};
ghost use Rattle.snmp_incoming.specs.Answers.{given_of};
ghost use Rattle.snmp_gate.specs.Question.{Question};
ghost use Rattle.snmp_gate.specs.Messages.{question_given, question_in};
ghost use Rattle.snmp_gate.specs.Beginning.{AreUnhandledBy, BeginsWell, IsKnownOnward, IsKnownWork, IsNoRefusal};
ghost use Rattle.snmp_gate.specs.Beginning.{IsOfDatagram};
ghost use Rattle.snmp_gate.specs.Causes.{EndsFor, IfOnwardEnds, IfWorkEnds, IsUnhandledBy};
ghost use Rattle.snmp_gate.specs.Beginning.{IsUntaken, MayBeJoined, TakenIn};
ghost use Rattle.snmp_gate.specs.Bounds.{IsNew, IsShareFull, for_device, waiting_for};
ghost use Rattle.snmp_gate.specs.Devices.{IsDeviceOf};
ghost use Rattle.snmp_gate.specs.Groups.{groups_of};
ghost use Rattle.snmp_gate.specs.History.{Happening};
ghost use Rattle.snmp_gate.specs.Noting.{AsksSet, IsNotedAgain, IsNotedFor, IsUnnoted};
ghost use Rattle.snmp_gate.specs.Sets.{KeepsSets};
ghost use Rattle.snmp_gate.specs.Untaken.{AsksIn, HasCause, IsCauseOf};
ghost use Rattle.snmp_gate.specs.Waiting.{ClientHappens, GateStands, IsAsBefore, IsRefusedBy, SameButSets, Stays};
ghost use Rattle.snmp_gate.specs.Work.{OnwardStands, RepeatsAtMost};
ghost use Rattle.snmp_gate.specs.Said.{IsUnasked, Said};
ghost use Rattle.snmp_gate.specs.declared.devices.Device.{Device as DeviceIs};
ghost use Rattle.snmp_gate.specs.declared.sets.RememberedSet.{RememberedSet};
ghost use Rattle.vacm_core.specs.Tables.{Tables};

use crate::begin::begin;
use crate::gate::{ClientTaken, Gate};
use crate::onward::Onward;
use crate::requests::{Joined, WaitingRequest};
use crate::sets::{SetNote, set_digest};
use crate::task::Task;
use crate::timer::Timer;
use crate::viewing::pdu_of;
use crate::waiting_message::WaitingMessage;
use crate::work::{OpenRequest, RequestEnd, Work};
use snmp_agent::{Agent, Unhandled};
use snmp_incoming::{Kept, Taken};
use snmp_msg::PduType;
use std::alloc::AllocError;

/// Returns true if a message that asks the same may wait for this request's answer: not if that was told before, of
/// another datagram.
fn may_be_joined(work: &Work) -> bool
    ensures { IsTrue result ↔ MayBeJoined work.now }
{
    match work {
        Work::Ends(RequestEnd::Repeated(_)) => false,
        Work::Ends(_) | Work::Open(_) => true,
    }
}

/// Returns the place of the request that a message asks again, and whose answer it may wait for.
fn place_of(
    requests: &[WaitingRequest<WaitingMessage, Work>],
    message: &WaitingMessage,
) -> Option<usize>
    ensures { IfSome result (λ place. (place < length requests.now)
        × HoldsAt (λ r. (question_in r.first ≡ question_in message.now) × MayBeJoined r.work) requests.now place) }
{
    for (place, request) in requests.iter().enumerate() {
        if may_be_joined(&request.work) && request.first.asks_again(message) {
            return Some(place);
        }
    }
    None
}

/// Returns what becomes of a request that goes on so, and which came now.
pub(crate) fn work_of(device: usize, now: u64, onward: Onward) -> Work
    ensures begins { (tables : Tables) (devices : List DeviceIs) (q : Question)
        → ((told : Said) → IsUnasked told → OnwardStands tables q told onward) → IsDeviceOf devices q.context device
        → HoldsAt (λ d. RepeatsAtMost d.repetitions onward) devices device → BeginsWell tables devices q result }
    ensures cause { (engine : List ℕ) (tables : Tables) (devices : List DeviceIs) (q : Question)
        → IfOnwardEnds (EndsFor engine tables devices q) onward → IfWorkEnds (EndsFor engine tables devices q) result }
    ensures fresh { IsNew now result }
    ensures known { (digest : OptionIs (List ℕ)) (sets : List RememberedSet) → IsKnownOnward now digest sets onward
        → IsKnownWork now digest sets result }
{
    match onward {
        Onward::Asks(task) => Work::Open(OpenRequest {
            device,
            timer: Timer::new(now),
            asked: None,
            task,
        }),
        Onward::Ends(ending) => Work::Ends(ending),
    }
}

/// Returns true if a request waits for this device.
fn is_for(work: &Work, device: usize) -> bool
    ensures { for_device device work.now ≡ cond result 1 0 }
{
    match work {
        Work::Open(open) => open.device == device,
        Work::Ends(_) => false,
    }
}

/// Returns how many of the requests wait for this device.
fn waiting_for(requests: &[WaitingRequest<WaitingMessage, Work>], device: usize) -> usize
    ensures { result ≡ waiting_for device (groups_of requests.now) }
{
    let mut count = 0;
    for request in requests {
        if is_for(&request.work, device) {
            count += 1;
        }
    }
    count
}

/// Returns true if a Set's device is to be asked.
fn asks_set(work: &Work) -> bool
    ensures { IsTrue result ↔ AsksSet work.now }
{
    match work {
        Work::Open(open) => matches!(open.task.task, Task::Set),
        Work::Ends(_) => false,
    }
}

/// Returns why no application of this agent answers what an accepted message asks. None: one answers it.
fn unhandled_by(agent: &Agent, taken: &Taken<'_>) -> Option<Unhandled>
    ensures { (devices : List DeviceIs) (client : List ℕ) (q : Question)
        → question_given client (given_of taken.now) ≡ Some q
        → IfSome result (IsUnhandledBy agent.now.engine agent.now.tables devices q) }
{
    // every accepted message has these, so that what is refused is what it asks
    let _scoped = taken.scoped();
    let _pdu = taken.pdu();
    agent.unhandled(taken)
}

/// What is remembered of a Set before its device is asked.
#[derive(Clone, Copy, PartialEq, Eq)]
enum Noted {
    /// It isn't a Set, or its device isn't asked.
    NoSet,
    /// It is remembered now, and its device may be asked.
    Now,
    /// It was remembered before: its device may not be asked.
    Before,
    /// It can't be remembered: its device may not be asked.
    NoRoom,
}

/// Returns what was remembered of a message that asks again what waits, and is of this digest if it is a Set.
fn noted_again(digest: Option<[u8; 32]>) -> Noted
    ensures { MatchOption digest (result ≡ Noted.NoSet) (λ _. result ≡ Noted.Now) }
{
    match digest {
        Some(_) => Noted::Now,
        None => Noted::NoSet,
    }
}

impl Gate {
    /// Takes a datagram from a client at this moment, in milliseconds. The address of the client is of any octets. If
    /// there is no room for it (`NoRoom`), or it is a Set that came before (`SetOfBefore`), all is as before, and a
    /// datagram for which there was no room is taken as if it were new when it comes again.
    ///
    /// The error is out of memory. Then the datagram isn't taken, and may be taken again.
    pub fn take_client(
        &mut self,
        now: u64,
        client: &[u8],
        datagram: &[u8],
    ) -> Result<ClientTaken, AllocError>
        ensures happens { IfOk result (λ taken. (since : ℕ) (before : List Happening) → since ≤ now
            → GateStands since before self.old
            → ClientHappens self.old now before client.now datagram.now taken self.new) }
        ensures refused { IfOk result (IsRefusedBy self.old (now / 1000) datagram.now self.new) }
        ensures untaken { IfOk result (λ taken. IsUntaken taken → IsAsBefore now self.old self.new) }
        ensures cause { IfOk result (HasCause self.old now datagram.now) }
        ensures counted { IfOk result (λ taken. IsNoRefusal taken → self.new.agent ≡ self.old.agent) }
        ensures stays { Stays self.old self.new }
        ensures err { OnErr result (IsAsBefore now self.old self.new) }
    {
        let taken = match self.agent.take(now / 1000, datagram) {
            Ok(taken) => taken,
            Err(refused) if refused.why.is_memory() => return Err(AllocError),
            Err(refused) => return Ok(ClientTaken::Refused(refused)),
        };
        let unhandled = unhandled_by(&self.agent, &taken);
        let message = self.message_of(client, datagram, taken)?;
        match place_of(self.requests.requests(), &message) {
            Some(place) => self.join(now, place, message),
            None => self.begin(now, message, unhandled),
        }
    }

    /// Returns the message of a datagram, so that it can be answered when the datagram is gone.
    fn message_of(
        &self,
        client: &[u8],
        datagram: &[u8],
        taken: Taken<'_>,
    ) -> Result<WaitingMessage, AllocError>
        ensures is { IfOk result (λ m. (m.client.items ≡ client.now) × (m.kept ≡ given_of taken.entry)) }
        ensures asks { IfOk result (λ m. (q : Question) × (question_in m ≡ Some q)) }
        ensures digest { IfOk result (λ m. IsOfDatagram m datagram.now) }
    {
        let pdu = pdu_of(&taken);
        let digest = if pdu.tag == PduType::SetRequest.tag() {
            Some(set_digest(datagram))
        } else {
            None
        };
        Ok(WaitingMessage {
            client: client.to_vec(self.alloc)?,
            size: datagram.len(),
            digest,
            kept: Kept::of(self.alloc, taken)?,
        })
    }

    /// A message asks the request at this place again.
    fn join(
        &mut self,
        now: u64,
        place: usize,
        message: WaitingMessage,
    ) -> Result<ClientTaken, AllocError>
        requires place { place < length self.old.requests.list.items }
        requires same { HoldsAt (λ r. (question_in r.first ≡ question_in message) × MayBeJoined r.work)
            self.old.requests.list.items place }
        ensures takes { IfOk result (λ taken. (since : ℕ) (before : List Happening) (datagram : List ℕ) → since ≤ now
            → IsOfDatagram message datagram → GateStands since before self.old
            → TakenIn before now datagram message taken self.new) }
        ensures accepts { IfOk result IsNoRefusal }
        ensures untaken { IfOk result (λ taken. IsUntaken taken → IsAsBefore now self.old self.new) }
        ensures cause { IfOk result (IsCauseOf self.old now (AsksIn message) message.digest) }
        ensures agent { self.new.agent ≡ self.old.agent }
        ensures stays { Stays self.old self.new }
        ensures err { OnErr result (IsAsBefore now self.old self.new) }
    {
        let digest = message.digest;
        match self.note_again(now, digest)? {
            SetNote::New => {}
            SetNote::Repeated(_) => return Ok(ClientTaken::SetOfBefore),
            SetNote::NoRoom => return Ok(ClientTaken::NoRoom),
        }
        let number = self.requests.list[place].number;
        match self.requests.join(place, message) {
            Ok(Joined::Joined) => Ok(ClientTaken::Joins(number)),
            Ok(Joined::NoRoom) => {
                self.unnote(noted_again(digest));
                Ok(ClientTaken::NoRoom)
            }
            Err(none) => {
                self.unnote(noted_again(digest));
                Err(none)
            }
        }
    }

    /// Notes a datagram that asks again what waits, if it is of a Set, and returns what it is then.
    fn note_again(&mut self, now: u64, digest: Option<[u8; 32]>) -> Result<SetNote, AllocError>
        ensures same { SameButSets self.old self.new }
        ensures noted { IfOk result (IsNotedAgain now digest self.old.sets.sets.items self.new.sets.sets.items) }
        ensures err { OnErr result (KeepsSets now self.old.sets.sets.items self.new.sets.sets.items) }
    {
        match digest {
            Some(digest) => self.sets.note(now, &digest),
            None => Ok(SetNote::New),
        }
    }

    /// Forgets a Set that was just noted, and isn't asked.
    fn unnote(&mut self, noted: Noted)
        ensures same { SameButSets self.old self.new }
        ensures sets { IsUnnoted noted self.old.sets.sets.items self.new.sets.sets.items }
    {
        match noted {
            Noted::Now => self.sets.forget_last(),
            Noted::NoSet | Noted::Before | Noted::NoRoom => {}
        }
    }

    /// A message begins a request.
    fn begin(
        &mut self,
        now: u64,
        message: WaitingMessage,
        unhandled: Option<Unhandled>,
    ) -> Result<ClientTaken, AllocError>
        requires asks { (q : Question) × (question_in message ≡ Some q) }
        requires digest { (datagram : List ℕ) × IsOfDatagram message datagram }
        ensures takes { IfOk result (λ taken. (since : ℕ) (before : List Happening) (datagram : List ℕ) → since ≤ now
            → IsOfDatagram message datagram → AreUnhandledBy self.old message unhandled
            → GateStands since before self.old → TakenIn before now datagram message taken self.new) }
        ensures accepts { IfOk result IsNoRefusal }
        ensures untaken { IfOk result (λ taken. IsUntaken taken → IsAsBefore now self.old self.new) }
        ensures cause { IfOk result (IsCauseOf self.old now (AsksIn message) message.digest) }
        ensures agent { self.new.agent ≡ self.old.agent }
        ensures stays { Stays self.old self.new }
        ensures err { OnErr result (IsAsBefore now self.old self.new) }
    {
        if self.requests.is_full() || self.requests.next_number() == u64::MAX {
            return Ok(ClientTaken::NoRoom);
        }
        let Some(work) = self.first_work(now, &message, unhandled)? else {
            return Ok(ClientTaken::SetOfBefore);
        };
        if self.is_share_full(&work) {
            return Ok(ClientTaken::NoRoom);
        }
        let noted = self.note_asked(now, &work, message.digest)?;
        if let Noted::Before = noted {
            return Ok(ClientTaken::SetOfBefore);
        }
        if let Noted::NoRoom = noted {
            return Ok(ClientTaken::NoRoom);
        }
        match self.requests.begin(self.alloc, message, work) {
            Ok(number) => Ok(ClientTaken::Begins(number)),
            Err(none) => {
                self.unnote(noted);
                Err(none)
            }
        }
    }

    /// Returns true if this is for a device, and as many requests wait for it as may.
    fn is_share_full(&self, work: &Work) -> bool
        ensures { IsTrue result ↔ IsShareFull self.now.limits.waiting_per_device
            (groups_of self.now.requests.list.items) work.now }
    {
        match work {
            Work::Open(open) => {
                waiting_for(self.requests.requests(), open.device) >= self.limits.waiting_per_device
            }
            Work::Ends(_) => false,
        }
    }

    /// Notes a Set whose device is to be asked.
    fn note_asked(
        &mut self,
        now: u64,
        work: &Work,
        digest: Option<[u8; 32]>,
    ) -> Result<Noted, AllocError>
        requires { AsksSet work.now → (d : List ℕ) × (digest ≡ Some d) }
        ensures same { SameButSets self.old self.new }
        ensures noted { IfOk result
            (IsNotedFor now digest work.now self.old.sets.sets.items self.new.sets.sets.items) }
        ensures err { OnErr result (KeepsSets now self.old.sets.sets.items self.new.sets.sets.items) }
    {
        if !asks_set(work) {
            return Ok(Noted::NoSet);
        }
        let Some(digest) = digest else {
            return Ok(Noted::NoSet);
        };
        match self.sets.note(now, &digest)? {
            SetNote::New => Ok(Noted::Now),
            SetNote::Repeated(_) => Ok(Noted::Before),
            SetNote::NoRoom => Ok(Noted::NoRoom),
        }
    }
}
