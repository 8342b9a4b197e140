//! How a device is asked for a request.

ghost use Rattle.std.specs.Prelude.{◌≡◌, ◌≢◌, ◌<◌, ◌≤◌, ℕ, List, Some, length, IfOk};
ghost use Rattle.std.specs.Prelude.{IfSome, OnErr};
ghost use Rattle.snmp_gate.specs.Counting.{CountsSent};
ghost use Rattle.snmp_gate.specs.History.{Happening};
ghost use Rattle.snmp_gate.specs.Sending.{IsAskedAt, IsOpenAt, MayAskAt};
ghost use Rattle.snmp_gate.specs.Sending.{SetsAsked};
ghost use Rattle.snmp_gate.specs.Told.{Tells, times_in};
ghost use Rattle.std.specs.List.{HoldsAt};
ghost use Rattle.snmp_gate.specs.Bounds.{AreTimely, MayBeAsked};
ghost use Rattle.snmp_gate.specs.Due.{HasEnded, IsTodo};
ghost use Rattle.snmp_gate.specs.declared.limits.GateLimits.{GateLimits as LimitsAre};
ghost use Rattle.snmp_gate.specs.Groups.{groups_of};
ghost use Rattle.snmp_gate.specs.Waiting.{Fresh, GateStands, IsAsBefore};
ghost use Rattle.snmp_gate.specs.Waiting.{SendHappens, fresh};
ghost use Rattle.snmp_gate.specs.Waiting.{Stays};

use crate::ask::ask_of;
use crate::asks::REQUEST_IDS;
use crate::gate::{Gate, Sent};
use crate::next::is_set_at;
use crate::requests::WaitingRequests;
use crate::set_answer::{ResponseStatus, TOO_BIG};
use crate::waiting_message::WaitingMessage;
use crate::work::{RequestEnd, Todo, Work};
use std::alloc::AllocError;

/// tooBig: a device can't be asked by a datagram that it takes.
const TOO_LONG: RequestEnd = RequestEnd::Own(ResponseStatus {
    status: TOO_BIG,
    index: 0,
});

/// The device is asked now with this request-id for the request at this place.
fn set_asked(requests: &mut WaitingRequests<WaitingMessage, Work>, place: usize, now: u64, id: u32)
    requires { place < length requests.old.list.items }
    ensures asked { SetsAsked requests.old.list.items place id requests.new.list.items }
    ensures timely { (limits : LimitsAre) → HoldsAt (λ r. MayBeAsked limits now r.work) requests.old.list.items place
        → AreTimely limits (groups_of requests.old.list.items)
        → AreTimely limits (groups_of requests.new.list.items) }
    ensures next { requests.new.next ≡ requests.old.next }
    ensures most { requests.new.most ≡ requests.old.most }
    ensures most_messages { requests.new.most_messages ≡ requests.old.most_messages }
{
    let request = &mut requests.list[place];
    match &mut request.work {
        Work::Open(waiting) => {
            waiting.timer.ask(now);
            waiting.asked = Some(id);
        }
        Work::Ends(_) => {}
    }
}

impl Gate {
    /// Returns the device of the request at this place, which hasn't ended, and the request's number.
    pub(crate) fn device_at(&self, place: usize) -> (usize, u64)
        requires place { place < length self.now.requests.list.items }
        requires goes_on { HoldsAt (λ r. ¬ HasEnded r.work) self.now.requests.list.items place }
        ensures { IsOpenAt self.now.requests.list.items place result.0 result.1 }
    {
        let request = &self.requests.list[place];
        let Work::Open(waiting) = &request.work else {
            unreachable!();
        };
        (waiting.device, request.number)
    }

    /// Returns the request-id with which the device is asked for the request at this place.
    pub(crate) fn asked_at(&self, place: usize) -> Option<u32>
        requires { place < length self.now.requests.list.items }
        ensures { IfSome result (λ id. (id < REQUEST_IDS)
            × IsAskedAt self.now.requests.list.items place id) }
    {
        let Work::Open(waiting) = &self.requests.list[place].work else {
            return None;
        };
        let Some(id) = waiting.asked else {
            return None;
        };
        if id >= REQUEST_IDS {
            return None;
        }
        Some(id)
    }

    /// Returns how often the device was asked the same for the request at this place.
    pub(crate) fn times_at(&self, place: usize) -> u32
        requires { place < length self.now.requests.list.items }
        ensures { HoldsAt (λ r. result ≡ times_in r.work) self.now.requests.list.items place }
    {
        match &self.requests.list[place].work {
            Work::Open(waiting) => waiting.timer.times(),
            Work::Ends(_) => 0,
        }
    }

    /// Returns the datagram that asks this device for the request at this place, if it can be asked.
    fn datagram_at(
        &self,
        place: usize,
        device: usize,
        id: u32,
    ) -> Result<Option<Vec<u8>>, AllocError>
        requires place { place < length self.now.requests.list.items }
        requires device { device < length self.now.devices.list.items }
        requires id { id < REQUEST_IDS }
        ensures { IfOk result (λ asked. IfSome asked
            (MayAskAt self.now.agent.tables self.now.devices.list.items self.now.requests.list.items place device id)) }
    {
        let request = &self.requests.list[place];
        let Work::Open(waiting) = &request.work else {
            return Ok(None);
        };
        let device = &self.devices.list[device];
        let datagram = ask_of(self.alloc, device, &waiting.task, &request.first, id)?;
        Ok(datagram)
    }

    /// Ends the request at this place, whose device can't be asked by a datagram that it takes, and answers its first
    /// message with tooBig. The error is out of memory. Then the request is as before.
    fn answer_too_long(&mut self, place: usize, now: u64, salt: [u8; 8]) -> Result<Sent, AllocError>
        requires place { place < length self.old.requests.list.items }
        requires goes_on { HoldsAt (λ r. ¬ HasEnded r.work) self.old.requests.list.items place }
        ensures happens { IfOk result (λ sent. (since ask_id : ℕ) (before : List Happening) → since ≤ now
            → GateStands since before self.old
            → SendHappens self.old now before (fresh salt ask_id) sent self.new) }
        ensures something { IfOk result (λ sent. sent ≢ Sent.Nothing) }
        ensures told { IfOk result (λ sent. HoldsAt (Tells sent) self.old.requests.list.items place) }
        ensures counted { IfOk result (CountsSent self.old.agent self.new.agent) }
        ensures stays { Stays self.old self.new }
        ensures err { OnErr result (IsAsBefore now self.old self.new) }
        ensures same { OnErr result (groups_of self.new.requests.list.items
            ≡ groups_of self.old.requests.list.items) }
    {
        let before = self.requests.work(place, Work::Ends(TOO_LONG));
        match self.answer_at(place, now, salt) {
            Ok(sent) => Ok(sent),
            Err(error) => {
                self.requests.work(place, before);
                Err(error)
            }
        }
    }

    /// Asks the device for the request at this place, with this request-id or the next free one. If that takes a longer
    /// datagram than the device does, the request ends, and its first message is answered.
    pub(crate) fn ask_at(
        &mut self,
        place: usize,
        now: u64,
        salt: [u8; 8],
        ask_id: u32,
    ) -> Result<Sent, AllocError>
        requires place { place < length self.old.requests.list.items }
        requires due { HoldsAt (λ r. IsTodo self.old.limits self.old.asks.items now r.work (Some Todo.Ask))
            self.old.requests.list.items place }
        ensures happens { IfOk result (λ sent. (since : ℕ) (before : List Happening) → since ≤ now
            → GateStands since before self.old
            → SendHappens self.old now before (fresh salt ask_id) sent self.new) }
        ensures something { IfOk result (λ sent. sent ≢ Sent.Nothing) }
        ensures told { IfOk result (λ sent. HoldsAt (Tells sent) self.old.requests.list.items place) }
        ensures counted { IfOk result (CountsSent self.old.agent self.new.agent) }
        ensures stays { Stays self.old self.new }
        ensures err { OnErr result (IsAsBefore now self.old self.new) }
    {
        let (device, number) = self.device_at(place);
        if device >= self.devices.list.len() {
            return Ok(self.give_up_at(place));
        }
        let id = self.asks[device].free_id(ask_id % REQUEST_IDS);
        let Some(datagram) = self.datagram_at(place, device, id)? else {
            return self.answer_too_long(place, now, salt);
        };
        self.asks[device].ask(id, number)?;
        set_asked(&mut self.requests, place, now, id);
        Ok(Sent::ToDevice {
            number,
            device,
            datagram,
            again: false,
        })
    }

    /// Returns how often a device is asked the same at most, which is a number of 32 bits.
    fn tries(&self) -> u32
        ensures { result ≡ self.now.limits.retries.tries }
    {
        self.limits.retries.tries
    }

    /// Asks the device the same again for the request at this place. A Set is never asked again: it is given up, and so
    /// is what can't be asked.
    pub(crate) fn ask_again_at(&mut self, place: usize, now: u64) -> Result<Sent, AllocError>
        requires place { place < length self.old.requests.list.items }
        requires due { HoldsAt (λ r. IsTodo self.old.limits self.old.asks.items now r.work (Some Todo.AskAgain))
            self.old.requests.list.items place }
        ensures happens { IfOk result (λ sent. (since : ℕ) (before : List Happening) (f : Fresh) → since ≤ now
            → GateStands since before self.old → SendHappens self.old now before f sent self.new) }
        ensures something { IfOk result (λ sent. sent ≢ Sent.Nothing) }
        ensures told { IfOk result (λ sent. HoldsAt (Tells sent) self.old.requests.list.items place) }
        ensures counted { IfOk result (CountsSent self.old.agent self.new.agent) }
        ensures stays { Stays self.old self.new }
        ensures err { OnErr result (IsAsBefore now self.old self.new) }
    {
        // so that the prover knows how large it is
        let _tries = self.tries();
        if is_set_at(&self.requests.list[place].work) {
            return Ok(self.give_up_at(place));
        }
        let (device, number) = self.device_at(place);
        let Some(id) = self.asked_at(place) else {
            return Ok(self.give_up_at(place));
        };
        if device >= self.asks.len() || device >= self.devices.list.len() {
            return Ok(self.give_up_at(place));
        }
        let Some(datagram) = self.datagram_at(place, device, id)? else {
            return Ok(self.give_up_at(place));
        };
        set_asked(&mut self.requests, place, now, id);
        Ok(Sent::ToDevice {
            number,
            device,
            datagram,
            again: true,
        })
    }
}
