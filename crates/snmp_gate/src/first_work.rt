//! What is done first for a request.

ghost use Rattle.std.specs.Prelude.{◌≡◌, ◌≢◌, ◌<◌, ℕ, List, [], Some, None, length, IfOk, IfSome};
ghost use Rattle.snmp_incoming.specs.Answers.{given_of};
ghost use Rattle.snmp_msg.specs.Variables.{variables_of};
ghost use Rattle.snmp_gate.specs.Question.{Question};
ghost use Rattle.snmp_gate.specs.Messages.{question_given, question_in};
ghost use Rattle.snmp_msg.specs.PduTypes.{pdu_tag};
ghost use Rattle.snmp_msg.specs.declared.pdu_type.PduType.TheVariants.{SetRequest};
ghost use Rattle.snmp_gate.specs.Beginning.{AreUnhandledBy, BeginsWell, EndsAt, IsFirstOnward, IsKnownBegin};
ghost use Rattle.snmp_gate.specs.Beginning.{IsKnownWork, IsSet, MaySetAll};
ghost use Rattle.snmp_gate.specs.Causes.{EndsFor, HasResponse, IfOnwardEnds, IfSetEnds, IfWorkEnds};
ghost use Rattle.snmp_gate.specs.declared.devices.Device.{Device};
ghost use Rattle.snmp_gate.specs.Bounds.{IsNew};
ghost use Rattle.snmp_gate.specs.SetBegins.{SetStandsSo};
ghost use Rattle.snmp_gate.specs.Sets.{KeepsSets};
ghost use Rattle.snmp_gate.specs.Untaken.{CameBefore};
ghost use Rattle.snmp_gate.specs.Waiting.{SameButSets};
ghost use Rattle.snmp_gate.specs.Work.{AsksNoSet, EndingStands, IsToldFirst, OnwardStands, RepeatsAtMost};
ghost use Rattle.std.specs.List.{HoldsAt};
ghost use Rattle.snmp_gate.specs.Said.{IsUnasked, Said};
ghost use Rattle.vacm_core.specs.Tables.{Tables};

use crate::begin::{begin, ending_of};
use crate::gate::Gate;
use crate::named_task::NamedTask;
use crate::onward::Onward;
use crate::refused_access::access_refusal;
use crate::reply::fits_client;
use crate::set_answer::{NO_ACCESS, NO_ERROR, RESOURCE_UNAVAILABLE, ResponseStatus, TOO_BIG};
use crate::sets::SetNote;
use crate::take_client::work_of;
use crate::task::Task;
use crate::viewing::{answers_of, pdu_of, viewer_of};
use crate::waiting_message::WaitingMessage;
use crate::work::{RequestEnd, Work};
use snmp_agent::Unhandled;
use snmp_incoming::Taken;
use snmp_msg::PduType;
use snmp_walk::BulkLimits;
use std::alloc::{AllocError, Global};
use vacm_core::{Vacm, ViewType};

/// What the tables say of a Set.
#[derive(Drop)]
struct SetAccess {
    /// Its end, if one of its variables may not be set.
    refused: Option<RequestEnd>,
    /// How many variables it sets.
    bindings: usize,
}

/// How a Set goes on.
#[derive(Drop)]
enum SetBegins {
    Onward(Onward),
    /// It came before, and what its device answered isn't known.
    Unknown,
}

/// Returns the end of a request by a Response with this status, and the request's own bindings. A Set with bindings
/// that isn't asked has an error.
fn own(status: i32, index: i32) -> RequestEnd
    ensures stands { (tables : Tables) (q : Question) (told : Said) → IsSet q → IsUnasked told
        → (status ≡ NO_ERROR → variables_of q.list ≡ []) → EndingStands tables q told result }
    ensures first { IsToldFirst result }
    ensures responds { HasResponse result }
{
    RequestEnd::Own(ResponseStatus { status, index })
}

/// Returns what the tables say of a Set by this message. The error is out of memory.
fn set_access(
    alloc: Global,
    tables: &Vacm,
    message: &WaitingMessage,
) -> Result<SetAccess, AllocError>
    ensures ends { IfOk result (λ access. IfSome access.refused (λ ending. (q : Question) (told : Said)
        → IsSet q → IsUnasked told → EndingStands tables.now q told ending)) }
    ensures first { IfOk result (λ access. IfSome access.refused IsToldFirst) }
    ensures cause { IfOk result (λ access. IfSome access.refused (λ ending. (engine : List ℕ) (devices : List Device)
        (q : Question) → question_in message.now ≡ Some q → IsSet q
        → EndsFor engine tables.now devices q ending)) }
    ensures may { IfOk result (λ access. (access.refused ≡ None) → (q : Question)
        → question_in message.now ≡ Some q → IsSet q → MaySetAll tables.now q) }
    ensures bindings { IfOk result (λ access. (q : Question) → question_in message.now ≡ Some q
        → access.bindings ≡ length (variables_of q.list)) }
{
    let taken = message.kept.taken();
    let viewer = viewer_of(tables, &taken);
    let pdu = pdu_of(&taken);
    let answers = answers_of(alloc, &viewer, ViewType::Write, &pdu)?;
    let bindings = answers.len();
    match access_refusal(&answers, pdu.tag) {
        Some(refusal) => Ok(SetAccess {
            refused: Some(ending_of(refusal)),
            bindings,
        }),
        None => Ok(SetAccess {
            refused: None,
            bindings,
        }),
    }
}

impl Gate {
    /// Returns what becomes of a request at first, which no application answers for this reason.
    pub(crate) fn first_work(
        &mut self,
        now: u64,
        message: &WaitingMessage,
        unhandled: Option<Unhandled>,
    ) -> Result<Option<Work>, AllocError>
        ensures begins { IfOk result (λ begins. IfSome begins (λ work. (q : Question)
            → question_in message.now ≡ Some q
            → BeginsWell self.old.agent.tables self.old.devices.list.items q work)) }
        ensures ends { IfOk result (λ begins. IfSome begins (λ work. (q : Question)
            → AreUnhandledBy self.old message.now unhandled → question_in message.now ≡ Some q
            → IfWorkEnds (EndsAt self.old q) work)) }
        ensures fresh { IfOk result (λ begins. IfSome begins (IsNew now)) }
        ensures unknown { IfOk result (λ begins. begins ≡ None → CameBefore now message.now.digest self.old) }
        ensures known { IfOk result (λ begins. IfSome begins
            (IsKnownWork now message.now.digest self.old.sets.sets.items)) }
        ensures same { SameButSets self.old self.new }
        ensures sets { KeepsSets now self.old.sets.sets.items self.new.sets.sets.items }
    {
        match unhandled {
            Some(why) => Ok(Some(Work::Ends(RequestEnd::Unhandled(why)))),
            None => self.handled_work(now, message),
        }
    }

    /// Returns what becomes of a request at first. None: it is a Set that came before, and what its device answered
    /// isn't known.
    fn handled_work(
        &mut self,
        now: u64,
        message: &WaitingMessage,
    ) -> Result<Option<Work>, AllocError>
        ensures begins { IfOk result (λ begins. IfSome begins (λ work. (q : Question)
            → question_in message.now ≡ Some q
            → BeginsWell self.old.agent.tables self.old.devices.list.items q work)) }
        ensures ends { IfOk result (λ begins. IfSome begins (λ work. (q : Question)
            → question_in message.now ≡ Some q → IfWorkEnds (EndsAt self.old q) work)) }
        ensures fresh { IfOk result (λ begins. IfSome begins (IsNew now)) }
        ensures unknown { IfOk result (λ begins. begins ≡ None → CameBefore now message.now.digest self.old) }
        ensures known { IfOk result (λ begins. IfSome begins
            (IsKnownWork now message.now.digest self.old.sets.sets.items)) }
        ensures same { SameButSets self.old self.new }
        ensures sets { KeepsSets now self.old.sets.sets.items self.new.sets.sets.items }
    {
        let taken = message.kept.taken();
        let Some(device) = self.devices.find(taken.scoped().name) else {
            return Ok(Some(Work::Ends(RequestEnd::Unhandled(Unhandled::UnknownContexts))));
        };
        if pdu_of(&taken).tag != PduType::SetRequest.tag() {
            let onward = self.begin_read(device, &taken)?;
            let work = work_of(device, now, onward);
            return Ok(Some(work));
        }
        match self.begin_set(now, device, message)? {
            SetBegins::Onward(onward) => Ok(Some(work_of(device, now, onward))),
            SetBegins::Unknown => Ok(None),
        }
    }

    /// Returns how a request for values begins.
    fn begin_read(&self, device: usize, taken: &Taken<'_>) -> Result<Onward, AllocError>
        requires { device < length self.now.devices.list.items }
        ensures stands { IfOk result (λ onward. (client : List ℕ) (q : Question) (told : Said)
            → IsUnasked told → question_given client (given_of taken.now) ≡ Some q
            → OnwardStands self.now.agent.tables q told onward) }
        ensures first { IfOk result AsksNoSet }
        ensures ends { IfOk result (λ onward. (client : List ℕ) (q : Question)
            → question_given client (given_of taken.now) ≡ Some q → q.tag ≢ pdu_tag SetRequest
            → IfOnwardEnds (EndsAt self.now q) onward) }
        ensures repeats { IfOk result (λ onward.
            HoldsAt (λ d. RepeatsAtMost d.repetitions onward) self.now.devices.list.items device) }
    {
        let device = &self.devices.list[device];
        let bulk = BulkLimits {
            rounds: self.limits.rounds,
            repetitions: device.repetitions,
            at_once: device.names,
            gathered: self.limits.gathered,
        };
        let viewer = viewer_of(self.agent.tables(), taken);
        begin(self.alloc, &viewer, &pdu_of(taken), &self.limits, &bulk)
    }

    /// Returns how a Set begins.
    fn begin_set(
        &mut self,
        now: u64,
        device: usize,
        message: &WaitingMessage,
    ) -> Result<SetBegins, AllocError>
        requires { device < length self.old.devices.list.items }
        ensures begins { IfOk result (λ begins. (q : Question) → question_in message.now ≡ Some q → IsSet q
            → SetStandsSo self.old.agent.tables q begins) }
        ensures ends { IfOk result (λ begins. (q : Question) → question_in message.now ≡ Some q → IsSet q
            → IfSetEnds (EndsAt self.old q) begins) }
        ensures unknown { IfOk result (λ begins. begins ≡ SetBegins.Unknown
            → CameBefore now message.now.digest self.old) }
        ensures known { IfOk result (IsKnownBegin now message.now.digest self.old.sets.sets.items) }
        ensures same { SameButSets self.old self.new }
        ensures sets { KeepsSets now self.old.sets.sets.items self.new.sets.sets.items }
    {
        let Some(digest) = message.digest else {
            // (each Set has one)
            let onward = self.begin_new_set(now, device, message, true)?;
            return Ok(SetBegins::Onward(onward));
        };
        let note = self.sets.look(now, &digest);
        let onward = match note {
            SetNote::Repeated(Some(says)) => Onward::Ends(RequestEnd::Repeated(says)),
            SetNote::Repeated(None) => return Ok(SetBegins::Unknown),
            SetNote::New => self.begin_new_set(now, device, message, false)?,
            SetNote::NoRoom => self.begin_new_set(now, device, message, true)?,
        };
        Ok(SetBegins::Onward(onward))
    }

    /// Returns how a Set begins that didn't come before.
    fn begin_new_set(
        &mut self,
        now: u64,
        device: usize,
        message: &WaitingMessage,
        is_full: bool,
    ) -> Result<Onward, AllocError>
        requires { device < length self.old.devices.list.items }
        ensures begins { IfOk result (λ onward. (q : Question) → question_in message.now ≡ Some q → IsSet q
            → (told : Said) → IsUnasked told → OnwardStands self.old.agent.tables q told onward) }
        ensures ends { IfOk result (λ onward. (q : Question) → question_in message.now ≡ Some q → IsSet q
            → IfOnwardEnds (EndsAt self.old q) onward) }
        ensures first { IfOk result IsFirstOnward }
        ensures same { SameButSets self.old self.new }
        ensures sets { self.new.sets ≡ self.old.sets }
    {
        if let Some(ending) = self.refused_set(now, device, message)? {
            return Ok(Onward::Ends(ending));
        }
        if is_full {
            return Ok(Onward::Ends(own(RESOURCE_UNAVAILABLE, 0)));
        }
        Ok(Onward::Asks(NamedTask { task: Task::Set }))
    }

    /// Returns the end of a Set that isn't asked of its device, whatever is remembered.
    fn refused_set(
        &mut self,
        now: u64,
        device: usize,
        message: &WaitingMessage,
    ) -> Result<Option<RequestEnd>, AllocError>
        requires { device < length self.old.devices.list.items }
        ensures ends { IfOk result (λ refused. IfSome refused (λ ending. (q : Question) (told : Said)
            → question_in message.now ≡ Some q → IsSet q → IsUnasked told
            → EndingStands self.old.agent.tables q told ending)) }
        ensures cause { IfOk result (λ refused. IfSome refused (λ ending. (q : Question)
            → question_in message.now ≡ Some q → IsSet q → EndsAt self.old q ending)) }
        ensures first { IfOk result (λ refused. IfSome refused IsToldFirst) }
        ensures may { IfOk result (λ refused. (refused ≡ None) → (q : Question)
            → question_in message.now ≡ Some q → IsSet q → MaySetAll self.old.agent.tables q) }
        ensures same { SameButSets self.old self.new }
        ensures sets { self.new.sets ≡ self.old.sets }
    {
        let SetAccess { refused, bindings } = set_access(self.alloc, self.agent.tables(), message)?;
        if let Some(ending) = refused {
            return Ok(Some(ending));
        }
        if !fits_client(self.alloc, &self.agent, now / 1000, message, &self.limits)? {
            return Ok(Some(own(TOO_BIG, 0)));
        }
        if bindings == 0 {
            return Ok(Some(own(NO_ERROR, 0)));
        }
        if self.devices.list[device].write_community.is_none() {
            return Ok(Some(own(NO_ACCESS, 1)));
        }
        Ok(None)
    }
}
