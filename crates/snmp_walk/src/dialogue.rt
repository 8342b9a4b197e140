//! One dialogue with a device.

ghost use Rattle.std.specs.Prelude.{◌≡◌, ◌↔◌, ◌+◌, List, All, Contains, map, IfOk, IsTrue, OnErr, MatchOption};
ghost use Rattle.std.specs.List.{AllZip};
ghost use Rattle.snmp_msg.specs.Variables.{Variable, variable_of, variables_of};
ghost use Rattle.snmp_responder.specs.Code.{seen_by};
ghost use Rattle.snmp_walk.specs.Dialogue.{AllBegin, AllGoOn, AllStand, IsFirstOpen, IsNext};
ghost use Rattle.snmp_walk.specs.Dialogue.{IsShown, IsWhole, Shows, requests, requests_of};
ghost use Rattle.snmp_walk.specs.Answer.{IsAnswered, IsNoError, Tells};
ghost use Rattle.snmp_walk.specs.ObjectIds.{AllNamed};

use crate::answer::{AnswerFault, fault_of, given_by, take_each};
use crate::column::Column;
use crate::counting::binding_count;
use crate::failure::{Failure, ended_walk, failure_of};
use crate::operation::ReadOperation;
use snmp_msg::{Binding, Pdu};
use snmp_responder::Viewer;
use std::alloc::{AllocError, Global};

/// What becomes of a dialogue next.
#[derive(Clone, Copy, Debug, PartialEq, Eq)]
pub enum Next {
    /// The device is to be asked for the name that each column asks.
    Asks,
    /// All is there: the Response can be written.
    Ends,
    /// The device was asked as often as it may be, and the column of this number, counted from 0, wants more. The
    /// Response has genErr, and the index of that binding.
    RoundsUsedUp(usize),
}

/// What an answer of the device was.
#[derive(Clone, Copy, Debug, PartialEq, Eq)]
pub enum Answered {
    /// Its bindings answer what was asked, and each column has its own.
    Taken,
    /// Its bindings don't answer what was asked. The Response has genErr.
    Unfit(AnswerFault),
    /// It says of the walk of the column of this number, counted from 0, that there is no next variable: noSuchName, as
    /// of a device of version-1. That column is at its end. For the others the device is to be asked again.
    Ended(usize),
    /// It has another error.
    Failed(Failure),
}

/// One dialogue with a device: the columns of a request, one for each of its bindings, and how often the device may
/// still be asked.
#[derive(Drop)]
pub struct Dialogue {
    columns: Vec<Column>,
    rounds: u32,
}

/// Goes on with each column that is to be asked.
fn go_on_each(columns: &mut Vec<Column>, viewer: &Viewer<'_>)
    ensures { AllGoOn (seen_by viewer.now) columns.old.items columns.new.items }
{
    for column in columns.iter_mut() {
        column.go_on(viewer);
    }
}

/// Returns true if the answer has no error.
pub(crate) fn is_no_error(answer: &Pdu<'_>) -> bool
    ensures { IsTrue result ↔ IsNoError answer.now }
{
    answer.second == 0
}

impl Dialogue {
    /// Returns the dialogue for a request with these bindings, in which the device is asked `rounds` times at most. The
    /// error is out of memory.
    pub fn new(
        alloc: Global,
        viewer: &Viewer<'_>,
        operation: ReadOperation,
        request: &Pdu<'_>,
        rounds: u32,
    ) -> Result<Dialogue, AllocError>
        ensures requests { IfOk result (λ d. requests d
            ≡ requests_of operation (variables_of request.now.list.now)) }
        ensures begin { IfOk result (AllBegin (seen_by viewer.now)) }
        ensures stand { IfOk result (λ d. (told : List Variable) → AllStand (seen_by viewer.now) told d) }
        ensures rounds { IfOk result (λ d. d.rounds ≡ rounds) }
        ensures named { IfOk result AllNamed }
    {
        let mut columns = Vec::with_capacity(alloc, binding_count(request))?;
        for binding in request.variable_bindings() {
            let column = Column::new(alloc, viewer, operation, &binding.name.oid())?;
            columns.push(column)?;
        }
        Ok(Dialogue { columns, rounds })
    }

    /// Returns the columns, in the order of the bindings. Each has the name that the device is asked for it, and what
    /// the Response holds for it.
    pub fn columns(&self) -> &[Column]
        ensures { result.now ≡ self.now.columns.items }
    {
        self.columns.as_slice()
    }

    /// Returns the number of the first column for which the device is still to be asked, or to answer, counted from 0.
    pub fn first_open(&self) -> Option<usize>
        ensures { MatchOption result (IsWhole self.now) (IsFirstOpen self.now) }
    {
        for (number, column) in self.columns.iter().enumerate() {
            if column.is_open() {
                return Some(number);
            }
        }
        None
    }

    /// Goes on with each column for which the device is to be asked. Then the dialogue ends if all is there; or else
    /// the device is asked for what is missing, if it may be asked once more. A walk after which the message may see
    /// nothing is at its end, and the device isn't asked for it. It takes no memory.
    pub fn go_on(&mut self, viewer: &Viewer<'_>) -> Next
        ensures go_on { AllGoOn (seen_by viewer.now) self.old.columns.items self.new.columns.items }
        ensures next { IsNext self.old self.new result }
        ensures requests { requests self.new ≡ requests self.old }
        ensures stand { (told : List Variable) → AllStand (seen_by viewer.now) told self.old
            → AllStand (seen_by viewer.now) told self.new }
        ensures named { AllNamed self.old → AllNamed self.new }
    {
        go_on_each(&mut self.columns, viewer);
        let Some(number) = self.first_open() else {
            return Next::Ends;
        };
        let Some(rounds) = self.rounds.checked_sub(1) else {
            return Next::RoundsUsedUp(number);
        };
        self.rounds = rounds;
        Next::Asks
    }

    /// Takes the device's answer, which has an error.
    fn take_error(&mut self, answer: &Pdu<'_>) -> Answered
        requires { ¬ IsNoError answer.now }
        ensures { (viewer : Viewer) → IsAnswered (seen_by viewer) answer.now self.old self.new result }
    {
        let failure = failure_of(self.columns.as_slice(), answer);
        let Some(number) = ended_walk(self.columns.as_slice(), failure) else {
            return Answered::Failed(failure);
        };
        self.columns[number].end();
        Answered::Ended(number)
    }

    /// Takes the device's answer. If its bindings don't answer what was asked, or it has an error, that is returned and
    /// nothing changes, but that noSuchName ends a walk. The error is out of memory, and nothing changes.
    ///
    /// It takes memory for what the bindings say, and for a list of them that it gives back.
    pub fn take(
        &mut self,
        alloc: Global,
        viewer: &Viewer<'_>,
        answer: &Pdu<'_>,
    ) -> Result<Answered, AllocError>
        ensures answered { IfOk result
            (λ answered. IsAnswered (seen_by viewer.now) answer.now self.old self.new answered) }
        ensures err { OnErr result (self.new ≡ self.old) }
        ensures requests { requests self.new ≡ requests self.old }
        ensures stand { IfOk result (λ answered. (told : List Variable)
            → Tells self.old answer.now answered told
            → AllStand (seen_by viewer.now) told self.old → AllStand (seen_by viewer.now) told self.new) }
        ensures named { AllNamed self.old → AllNamed self.new }
    {
        if !is_no_error(answer) {
            return Ok(self.take_error(answer));
        }
        if let Some(fault) = fault_of(self.columns.as_slice(), answer) {
            return Ok(Answered::Unfit(fault));
        }
        let given = given_by(alloc, answer)?;
        take_each(&mut self.columns, viewer, given);
        Ok(Answered::Taken)
    }

    /// Returns what the Response holds, a binding for each of the request, if all is there. The error is out of
    /// memory.
    pub fn bindings(&self, alloc: Global) -> Result<Vec<Binding<'_>>, AllocError>
        requires { IsWhole self.now }
        ensures shown { IfOk result (λ v. AllZip IsShown self.now.columns.items v.items) }
        ensures outwards { (viewer : Viewer) (told : List Variable) → AllStand (seen_by viewer) told self.now
            → IfOk result (λ v. AllZip (Shows (seen_by viewer) told) self.now.columns.items v.items) }
    {
        let mut bindings = Vec::with_capacity(alloc, self.columns.len())?;
        for column in &self.columns {
            let Some(binding) = column.binding() else {
                unreachable!();
            };
            bindings.push(binding)?;
        }
        Ok(bindings)
    }
}
