//! What comes from devices.

ghost use Rattle.std.specs.Prelude.{◌≡◌, ◌↔◌, ◌<◌, ◌≤◌, ℕ, List, Some, length, IfOk, IfSome, IsTrue, OnErr};
ghost use Rattle.std.specs.Global.{Vec as VecOf};
ghost use Rattle.std.specs.List.{HoldsAt};
ghost use Rattle.vacm_core.specs.Tables.{Tables};
ghost use Rattle.snmp_msg.specs.Variables.{Variable};
ghost use Rattle.snmp_msg.specs.Pdu.{PduParts, pdu_of};
ghost use Rattle.snmp_responder.specs.Code.{seen_by};
ghost use Rattle.snmp_gate.specs.DeviceMessages.{IsDeviceAnswer};
ghost use Rattle.snmp_gate.specs.Question.{Question};
ghost use Rattle.snmp_gate.specs.Fits.{IsFitTold, TaskFits, WorkFits, fault_of};
ghost use Rattle.snmp_gate.specs.Hidden.{IsHiddenTold};
ghost use Rattle.snmp_gate.specs.Messages.{IsViewerOf, question_in, seen_in};
ghost use Rattle.snmp_gate.specs.Causes.{HasResponse, IfWorkEnds};
ghost use Rattle.snmp_gate.specs.Ends.{EndsIfSet, EndsSet, IsEndFor};
ghost use Rattle.snmp_gate.specs.declared.set_answer.ResponseStatus.{ResponseStatus as Says};
ghost use Rattle.snmp_gate.specs.declared.task.Task.TheVariants as TaskIs;
ghost use Rattle.snmp_gate.specs.Beginning.{MayBeJoined};
ghost use Rattle.snmp_gate.specs.Bounds.{IsForNoOther, IsFresh};
ghost use Rattle.snmp_gate.specs.History.{Happening};
ghost use Rattle.snmp_gate.specs.Noting.{AsksSet};
ghost use Rattle.snmp_gate.specs.Taking.{AnswerPlace, IsCommunityOfWork, OpenSaysSame, TaskSaysSame, WaitsFor};
ghost use Rattle.snmp_gate.specs.Taking.{EndsAsSaid, WorkAfter, WorkSaysSame};
ghost use Rattle.snmp_gate.specs.Waiting.{DeviceHappens, GateStands, IsAsBefore, Stays};
ghost use Rattle.snmp_gate.specs.Work.{SaysAll, TaskHas, TaskStands, most_repetitions, request_of_task};
ghost use Rattle.snmp_gate.specs.Said.{Said};
ghost use Rattle.snmp_gate.specs.declared.work.OpenRequest.{OpenRequest as OpenIs};
ghost use Rattle.snmp_gate.specs.declared.work.Work.TheVariants.{Open};

use crate::device_answer::{DeviceAnswer, read_device_answer};
use crate::devices::Device;
use crate::gate::{DeviceTaken, Gate};
use crate::hidden::hidden_in;
use crate::named_task::NamedTask;
use crate::onward::{AnswerTaken, Onward, after, fault_in, take_bulk, take_read};
use crate::requests::WaitingRequest;
use crate::set_answer::{ResponseStatus, set_outcome};
use crate::task::Task;
use crate::viewing::{pdu_of, viewer_of};
use crate::waiting_message::WaitingMessage;
use crate::work::{OpenRequest, RequestEnd, Work};
use snmp_msg::Pdu;
use snmp_responder::Viewer;
use snmp_walk::{AnswerFault, binding_count};
use std::alloc::{AllocError, Global};
use std::mem;
use vacm_core::Vacm;

/// Takes the device's answer to a Set of so many bindings.
fn take_set(answer: &Pdu<'_>, bindings: usize) -> AnswerTaken
    ensures { EndsSet answer.now result }
{
    AnswerTaken::Ends(set_outcome(answer.second, answer.third, bindings))
}

/// Takes the device's answer to what it was asked. The error is out of memory, and nothing changes.
fn take_task(
    alloc: Global,
    named: &mut NamedTask,
    viewer: &Viewer<'_>,
    bindings: usize,
    answer: &Pdu<'_>,
) -> Result<AnswerTaken, AllocError>
    ensures stands { IfOk result (λ taken. (tables : Tables) (q : Question) (told : Said)
        → IsViewerOf tables q viewer.now
        → SaysAll (request_of_task q named.old.task) answer.now told
        → TaskStands tables q told named.old.task
        → TaskHas tables q told named.new.task × IsEndFor tables q told taken) }
    ensures set { IfOk result (λ taken. named.old.task ≡ TaskIs.Set → EndsSet answer.now taken) }
    ensures ends { IfOk result (EndsIfSet named.new.task) }
    ensures repeats { IfOk result (λ _. (tables : Tables) (q : Question) (told : Said)
        → TaskStands tables q told named.old.task
        → most_repetitions named.new.task ≤ most_repetitions named.old.task) }
    ensures fits { IfOk result (λ taken.
        TaskFits (seen_by viewer.now) named.old.task (pdu_of answer.now) (fault_of taken)) }
    ensures err { OnErr result (TaskSaysSame named.old.task named.new.task) }
{
    match &mut named.task {
        Task::Read(_, dialogue) => take_read(alloc, dialogue, viewer, answer),
        Task::Bulk(_, dialogue) => take_bulk(alloc, dialogue, viewer, answer),
        Task::Set => Ok(take_set(answer, bindings)),
    }
}

/// Returns what becomes of a request whose device answered so.
fn work_after(asked: OpenRequest, taken: AnswerTaken, viewer: &Viewer<'_>, late: bool) -> Work
    ensures after { (tables : Tables) (q : Question) (told : Said) → IsViewerOf tables q viewer.now
        → IsEndFor tables q told taken → TaskHas tables q told asked.task.task → WorkAfter tables q told asked result }
    ensures no_set { ¬ AsksSet result }
    ensures device { IsForNoOther (Open asked) result }
    ensures first { MayBeJoined result }
    ensures responds { EndsIfSet asked.task.task taken → IfWorkEnds HasResponse result }
    ensures fresh { IsFresh result }
    ensures ends { (says : Says) → taken ≡ AnswerTaken.Ends says → result ≡ Work.Ends (RequestEnd.Own says) }
{
    let OpenRequest {
        device,
        timer,
        asked: _,
        task,
    } = asked;
    match after(task, taken, viewer, late) {
        Onward::Asks(task) => Work::Open(OpenRequest {
            device,
            timer: timer.with_answer(),
            asked: None,
            task,
        }),
        Onward::Ends(ending) => Work::Ends(ending),
    }
}

/// Returns true if the request's device is asked with this request-id, and with this community.
fn waits_for(work: &Work, device: usize, id: u32) -> bool
    ensures { IsTrue result ↔ WaitsFor device id work.now }
{
    match work {
        Work::Open(open) => open.device == device && open.asked == Some(id),
        Work::Ends(_) => false,
    }
}

/// When a request is late, in milliseconds.
#[derive(Clone, Copy)]
struct Lateness {
    now: u64,
    /// How long after it came a GetBulkRequest is late.
    gather: u64,
}

/// Takes the device's answer to what it is asked for a message. The error is out of memory, and nothing changes.
fn take_open(
    alloc: Global,
    waiting: &mut OpenRequest,
    message: &WaitingMessage,
    tables: &Vacm,
    answer: &Pdu<'_>,
) -> Result<AnswerTaken, AllocError>
    ensures stands { IfOk result (λ taken. (q : Question) (told : Said)
        → question_in message.now ≡ Some q
        → SaysAll (request_of_task q waiting.old.task.task) answer.now told
        → TaskStands tables.now q told waiting.old.task.task
        → TaskHas tables.now q told waiting.new.task.task × IsEndFor tables.now q told taken) }
    ensures device { waiting.new.device ≡ waiting.old.device }
    ensures timer { waiting.new.timer ≡ waiting.old.timer }
    ensures set { IfOk result (λ taken. waiting.old.task.task ≡ TaskIs.Set → EndsSet answer.now taken) }
    ensures ends { IfOk result (EndsIfSet waiting.new.task.task) }
    ensures repeats { IfOk result (λ _. (tables : Tables) (q : Question) (told : Said)
        → TaskStands tables q told waiting.old.task.task
        → most_repetitions waiting.new.task.task ≤ most_repetitions waiting.old.task.task) }
    ensures fits { IfOk result (λ taken. (q : Question) → question_in message.now ≡ Some q
        → TaskFits (seen_in tables.now q) waiting.old.task.task (pdu_of answer.now) (fault_of taken)) }
    ensures err { OnErr result (OpenSaysSame waiting.old waiting.new) }
{
    let taken = message.kept.taken();
    let viewer = viewer_of(tables, &taken);
    let bindings = binding_count(&pdu_of(&taken));
    let became = take_task(alloc, &mut waiting.task, &viewer, bindings, answer)?;
    Ok(became)
}

/// Returns what becomes of a request that was open, for a message, and whose device answered so.
fn after_answer(
    old: Work,
    became: AnswerTaken,
    message: &WaitingMessage,
    tables: &Vacm,
    lateness: Lateness,
) -> Work
    ensures after { (o : OpenIs) (q : Question) (told : Said)
        → question_in message.now ≡ Some q → old ≡ Open o → IsEndFor tables.now q told became
        → TaskHas tables.now q told o.task.task → WorkAfter tables.now q told o result }
    ensures no_set { ¬ AsksSet result }
    ensures device { IsForNoOther old result }
    ensures first { (o : OpenIs) → old ≡ Open o → MayBeJoined result }
    ensures responds { (o : OpenIs) → old ≡ Open o → EndsIfSet o.task.task became
        → IfWorkEnds HasResponse result }
    ensures fresh { IsFresh result }
    ensures ends { (o : OpenIs) (says : Says) → old ≡ Open o → became ≡ AnswerTaken.Ends says
        → result ≡ Work.Ends (RequestEnd.Own says) }
{
    let taken = message.kept.taken();
    let viewer = viewer_of(tables, &taken);
    match old {
        Work::Open(waiting) => {
            let late = lateness.now.saturating_sub(waiting.timer.began) >= lateness.gather;
            work_after(waiting, became, &viewer, late)
        }
        Work::Ends(ending) => Work::Ends(ending),
    }
}

/// Takes the device's answer for a request of this message, and returns why its bindings don't answer what was asked,
/// if they don't. The error is out of memory, and nothing changes.
fn take_answer(
    alloc: Global,
    work: &mut Work,
    message: &WaitingMessage,
    tables: &Vacm,
    answer: &Pdu<'_>,
    lateness: Lateness,
) -> Result<Option<AnswerFault>, AllocError>
    ensures after { IfOk result (λ _. (o : OpenIs) (q : Question) (told : Said)
        → question_in message.now ≡ Some q → work.old ≡ Open o
        → SaysAll (request_of_task q o.task.task) answer.now told
        → TaskStands tables.now q told o.task.task → WorkAfter tables.now q told o work.new) }
    ensures no_set { IfOk result (λ _. ¬ AsksSet work.new) }
    ensures device { IfOk result (λ _. IsForNoOther work.old work.new) }
    ensures first { IfOk result (λ _. (o : OpenIs) → work.old ≡ Open o → MayBeJoined work.new) }
    ensures responds { IfOk result (λ _. (o : OpenIs) → work.old ≡ Open o → IfWorkEnds HasResponse work.new) }
    ensures fresh { IfOk result (λ _. IsFresh work.new) }
    ensures set { IfOk result (λ _. AsksSet work.old → EndsAsSaid answer.now work.new) }
    ensures fits { IfOk result (λ fault. (q : Question) → question_in message.now ≡ Some q
        → WorkFits (seen_in tables.now q) work.old (pdu_of answer.now) fault) }
    ensures err { OnErr result (WorkSaysSame work.old work.new) }
{
    let Work::Open(waiting) = work else {
        return Ok(None);
    };
    let became = take_open(alloc, waiting, message, tables, answer)?;
    let old = mem::replace(work, Work::Ends(RequestEnd::Silent));
    *work = after_answer(old, became, message, tables, lateness);
    Ok(fault_in(became))
}

/// Returns the place of the request for which this device is asked with this request-id.
fn place_for(
    requests: &[WaitingRequest<WaitingMessage, Work>],
    device: usize,
    id: u32,
) -> Option<usize>
    ensures { IfSome result (λ place. (place < length requests.now)
        × HoldsAt (λ r. WaitsFor device id r.work) requests.now place) }
{
    for (place, request) in requests.iter().enumerate() {
        if waits_for(&request.work, device, id) {
            return Some(place);
        }
    }
    None
}

/// Returns true if the device is asked for Sets with this community.
fn is_write_community(device: &Device, community: &[u8]) -> bool
    ensures { IsTrue result → (write : VecOf ℕ) × (device.now.write_community ≡ Some write)
        × (community.now ≡ write.items) }
{
    let Some(own) = &device.write_community else {
        return false;
    };
    own.as_slice() == community
}

/// Returns true if the device is asked for this request with this community.
fn is_of(work: &Work, device: &Device, community: &[u8]) -> bool
    ensures { IsTrue result → IsCommunityOfWork device.now community.now work.now }
{
    let Work::Open(open) = work else {
        return false;
    };
    match &open.task.task {
        Task::Read(_, _) | Task::Bulk(_, _) => device.community.as_slice() == community,
        Task::Set => is_write_community(device, community),
    }
}

/// Returns what an answer says of its request as a whole.
fn said_in(answer: &Pdu<'_>) -> ResponseStatus
    ensures { (result.status ≡ answer.now.second) × (result.index ≡ answer.now.third) }
{
    ResponseStatus {
        status: answer.second,
        index: answer.third,
    }
}

impl Gate {
    /// Takes a datagram from the device of this number, counted from 0, at this moment, in milliseconds. Nothing is
    /// sent. Of each answer it says its error-status and its error-index, and of one without an error whose bindings
    /// don't answer what was asked it says why (`fits`); and of each how many of its bindings the request's message may
    /// not see (`hidden`).
    ///
    /// The error is out of memory. Then the datagram isn't taken, and may be taken again.
    pub fn take_device(
        &mut self,
        now: u64,
        device: usize,
        datagram: &[u8],
    ) -> Result<DeviceTaken, AllocError>
        ensures happens { IfOk result (λ taken. (since : ℕ) (before : List Happening) → since ≤ now
            → GateStands since before self.old
            → DeviceHappens self.old now before device datagram.now taken self.new) }
        ensures fits { IfOk result (IsFitTold self.old device datagram.now) }
        ensures hidden { IfOk result (IsHiddenTold self.old device datagram.now) }
        ensures unreadable { IfOk result (λ taken. taken ≡ DeviceTaken.Unreadable
            → (community : List ℕ) (p : PduParts) → ¬ IsDeviceAnswer datagram.now community p) }
        ensures counted { self.new.agent ≡ self.old.agent }
        ensures stays { Stays self.old self.new }
        ensures err { OnErr result (IsAsBefore now self.old self.new) }
    {
        let Some(answer) = read_device_answer(datagram) else {
            return Ok(DeviceTaken::Unreadable);
        };
        let Some((id, place)) = self.place_of(device, &answer) else {
            return Ok(DeviceTaken::NotWaitedFor);
        };
        let lateness = Lateness {
            now,
            gather: self.limits.gather,
        };
        let request = &mut self.requests.list[place];
        let number = request.number;
        let tables = self.agent.tables();
        let hidden = hidden_in(&request.work, &request.first, tables, &answer.pdu);
        let fault = take_answer(
            self.alloc,
            &mut request.work,
            &request.first,
            tables,
            &answer.pdu,
            lateness,
        )?;
        self.asks[device].end(id);
        let says = said_in(&answer.pdu);
        Ok(DeviceTaken::Answers {
            number,
            says,
            fault,
            hidden,
        })
    }

    /// Returns the request-id of an answer, and the place of the request for which the device was asked with it.
    fn place_of(&self, device: usize, answer: &DeviceAnswer<'_>) -> Option<(u32, usize)>
        ensures place { IfSome result (λ p. AnswerPlace self.now.devices.list.items self.now.requests.list.items device
            answer.now.community.now answer.now.pdu p.0 p.1) }
        ensures asks { IfSome result (λ _. device < length self.now.asks.items) }
    {
        if device >= self.asks.len() || device >= self.devices.list.len() {
            return None;
        }
        let Ok(id) = u32::try_from(answer.pdu.id) else {
            return None;
        };
        let place = place_for(self.requests.requests(), device, id)?;
        let work = &self.requests.list[place].work;
        if !is_of(work, &self.devices.list[device], answer.community) {
            return None;
        }
        Some((id, place))
    }
}
