//! One binding of a request.

ghost use Rattle.std.specs.Prelude.{◌≡◌, ◌↔◌, ℕ, List, IsTrue, IfOk, IfSome, MatchOption, Contains};
ghost use Rattle.snmp_ber.specs.Oid.{IsObjectId};
ghost use Rattle.snmp_msg.specs.Variables.{Variable, bound_variable, variable_of};
ghost use Rattle.snmp_responder.specs.Code.{seen_by};
ghost use Rattle.snmp_walk.specs.Bindings.{FitsPlace, Misfits, given_says};
ghost use Rattle.snmp_walk.specs.Column.{Asks, IsAsked, IsOpen, IsShownBy, MayAsk, MayShow, Stands};
ghost use Rattle.snmp_walk.specs.Steps.{Begins, GoesOn, GoesOnFrom, Takes, asking};
ghost use Rattle.snmp_walk.specs.ObjectIds.{IsNamed};

use crate::given::GivenVariable;
use crate::kept_name::KeptName;
use crate::misfit::{Misfit, is_end, misfit_of};
use crate::operation::ReadOperation;
use crate::place::place_after;
use snmp_ber::Oid;
use snmp_msg::{Binding, VariableBinding};
use snmp_responder::{Viewer, end_of_mib_view, no_such_object};
use std::alloc::{AllocError, Global};
use std::mem;

/// What is asked of a device for a binding.
#[derive(Drop)]
pub struct Ask {
    /// The name that the column is at.
    pub from: KeptName,
    /// The name that is asked. It has room for 128 arcs, so that a column goes on without memory.
    pub name: Oid,
}

/// How far a column has come.
#[derive(Drop)]
pub enum Progress {
    /// The device is to be asked: for this name, or in a walk for what comes after it.
    Wanting(KeptName),
    /// The device was asked, and didn't answer yet.
    Asked(Ask),
    /// The device gave this, and the message may see it.
    Given(GivenVariable),
    /// The message may not see the name of a GetRequest, and the device isn't asked.
    Hidden,
    /// The walk is at its end.
    Ended,
}

/// One binding of a request, and what the device told for it so far.
#[derive(Drop)]
pub struct Column {
    operation: ReadOperation,
    first: KeptName,
    progress: Progress,
}

/// Returns how a column begins. The error is out of memory.
fn first_progress(
    alloc: Global,
    viewer: &Viewer<'_>,
    operation: ReadOperation,
    name: &Oid,
) -> Result<Progress, AllocError>
    ensures { IfOk result (Begins (seen_by viewer.now) operation name.now) }
{
    match operation {
        ReadOperation::Get => {
            if viewer.sees(name) {
                Ok(Progress::Wanting(KeptName::of(alloc, name)?))
            } else {
                Ok(Progress::Hidden)
            }
        }
        ReadOperation::GetNext => Ok(Progress::Wanting(KeptName::of(alloc, name)?)),
    }
}

/// Returns the name for which a column asks that wants this name, or what comes after it. None: the walk is at its end.
/// It takes no memory.
pub(crate) fn place_of(
    viewer: &Viewer<'_>,
    operation: ReadOperation,
    from: &KeptName,
) -> Option<Oid>
    ensures { GoesOnFrom (seen_by viewer.now) operation from.now (asking from.now result) }
{
    match operation {
        ReadOperation::Get => Some(from.oid()),
        ReadOperation::GetNext => place_after(viewer, &from.oid()),
    }
}

/// Returns how a column goes on that wants something, and asks for this name.
pub(crate) fn asked_at(wanting: Progress, place: Option<Oid>) -> Progress
    ensures { (from : List ℕ) → wanting ≡ Progress.Wanting from → result ≡ asking from place }
{
    match (wanting, place) {
        (Progress::Wanting(from), Some(name)) => Progress::Asked(Ask { from, name }),
        _ => Progress::Ended,
    }
}

/// Returns what a walk is after the device gave this.
fn walk_after(viewer: &Viewer<'_>, given: GivenVariable) -> Progress
    ensures { Takes (seen_by viewer.now) ReadOperation.GetNext (given_says given) result }
{
    if is_end(given.tag) {
        return Progress::Ended;
    }
    if viewer.sees(&given.name.oid()) {
        return Progress::Given(given);
    }
    Progress::Wanting(given.name)
}

/// Returns what a column is after the device gave this.
fn progress_after(viewer: &Viewer<'_>, operation: ReadOperation, given: GivenVariable) -> Progress
    ensures { Takes (seen_by viewer.now) operation (given_says given) result }
{
    match operation {
        ReadOperation::Get => Progress::Given(given),
        ReadOperation::GetNext => walk_after(viewer, given),
    }
}

impl Column {
    /// Returns the column of a binding with this name. The device is to be asked, but not for a GetRequest of a name
    /// that the message may not see. The error is out of memory.
    pub fn new(
        alloc: Global,
        viewer: &Viewer<'_>,
        operation: ReadOperation,
        name: &Oid,
    ) -> Result<Column, AllocError>
        ensures operation { IfOk result (λ c. c.operation ≡ operation) }
        ensures first { IfOk result (λ c. c.first ≡ name.now) }
        ensures begins { IfOk result (λ c. Begins (seen_by viewer.now) operation name.now c.progress) }
        ensures stands { IfOk result (λ c. (told : List Variable) → Stands (seen_by viewer.now) told c) }
    {
        let first = KeptName::of(alloc, name)?;
        let progress = first_progress(alloc, viewer, operation, name)?;
        Ok(Column {
            operation,
            first,
            progress,
        })
    }

    /// Returns the operation of the request.
    pub fn operation(&self) -> ReadOperation
        ensures { result ≡ self.now.operation }
    {
        self.operation
    }

    /// Returns true if the device is still to be asked, or to answer.
    pub fn is_open(&self) -> bool
        ensures { IsTrue result ↔ IsOpen self.now.progress }
    {
        matches!(&self.progress, Progress::Wanting(_) | Progress::Asked(_))
    }

    /// Returns true if the device was asked, and is still to answer.
    pub fn is_asked(&self) -> bool
        ensures { IsTrue result ↔ IsAsked self.now.progress }
    {
        matches!(&self.progress, Progress::Asked(_))
    }

    /// Goes on, if the device is to be asked: it is asked for the name of a GetRequest, and in a walk for what comes
    /// after the place just before the next name that the message may see. The walk is at its end if there is none. A
    /// column for which the device isn't to be asked stays as it is. It takes no memory.
    pub fn go_on(&mut self, viewer: &Viewer<'_>)
        ensures operation { self.new.operation ≡ self.old.operation }
        ensures first { self.new.first ≡ self.old.first }
        ensures goes_on { GoesOn (seen_by viewer.now) self.old.operation self.old.progress self.new.progress }
        ensures stands { (told : List Variable) → Stands (seen_by viewer.now) told self.old
            → Stands (seen_by viewer.now) told self.new }
    {
        let Progress::Wanting(from) = &self.progress else {
            return;
        };
        let place = place_of(viewer, self.operation, from);
        let wanting = mem::replace(&mut self.progress, Progress::Ended);
        self.progress = asked_at(wanting, place);
    }

    /// Returns the name that the device is asked for, if it is asked.
    pub fn asked_name(&self) -> Option<&Oid>
        ensures asks { MatchOption result ((name : List ℕ) → ¬ Asks self.now.progress name)
            (λ name. Asks self.now.progress name.now) }
        ensures inwards { (viewer : Viewer) (told : List Variable) → Stands (seen_by viewer) told self.now
            → IfSome result (λ name. MayAsk (seen_by viewer) told self.now.operation self.now.first name.now) }
        ensures named { IsNamed self.now.progress → IfSome result (λ name. IsObjectId name.now) }
    {
        match &self.progress {
            Progress::Asked(ask) => Some(&ask.name),
            _ => None,
        }
    }

    /// Returns why the binding doesn't answer what was asked, if it doesn't. The device was asked.
    pub fn misfit(&self, binding: &VariableBinding<'_>) -> Option<Misfit>
        requires { IsAsked self.now.progress }
        ensures fits { (asked : List ℕ) → Asks self.now.progress asked
            → MatchOption result
            (FitsPlace self.now.operation asked (bound_variable binding.now))
            (λ misfit. Misfits self.now.operation asked (bound_variable binding.now) misfit) }
    {
        let Progress::Asked(ask) = &self.progress else {
            unreachable!();
        };
        misfit_of(self.operation, &ask.name, binding)
    }

    /// Takes what the device gave, which answers what was asked. A GetRequest has its binding then. A walk has it if
    /// the message may see it. It is at its end at endOfMibView, and is to go on from any other name. It takes no
    /// memory.
    pub fn take(&mut self, viewer: &Viewer<'_>, given: GivenVariable)
        requires { (asked : List ℕ) × Asks self.old.progress asked
            × FitsPlace self.old.operation asked (given_says given) }
        ensures operation { self.new.operation ≡ self.old.operation }
        ensures first { self.new.first ≡ self.old.first }
        ensures takes { Takes (seen_by viewer.now) self.old.operation (given_says given) self.new.progress }
        ensures stands { (told : List Variable) → Contains told (given_says given)
            → Stands (seen_by viewer.now) told self.old → Stands (seen_by viewer.now) told self.new }
    {
        self.progress = progress_after(viewer, self.operation, given);
    }

    /// Ends a walk for which the device was asked, which said that there is no next variable.
    pub(crate) fn end(&mut self)
        ensures operation { self.new.operation ≡ self.old.operation }
        ensures first { self.new.first ≡ self.old.first }
        ensures ends { self.new.progress ≡ Progress.Ended }
    {
        self.progress = Progress::Ended;
    }

    /// Returns what the Response holds for the binding, if nothing is left to be asked or answered for it: what the
    /// device gave, noSuchObject where the message may not see the name of a GetRequest, or the name of the request
    /// with endOfMibView.
    pub fn binding(&self) -> Option<Binding<'_>>
        ensures whole { MatchOption result (IsOpen self.now.progress)
            (λ _. ¬ IsOpen self.now.progress) }
        ensures shown { IfSome result (λ binding. IsShownBy self.now.first self.now.progress (variable_of binding)) }
        ensures outwards { (viewer : Viewer) (told : List Variable) → Stands (seen_by viewer) told self.now
            → IfSome result (λ binding. MayShow (seen_by viewer) told self.now.operation self.now.first
            (variable_of binding)) }
    {
        match &self.progress {
            Progress::Wanting(_) | Progress::Asked(_) => None,
            Progress::Given(given) => Some(given.binding()),
            Progress::Hidden => Some(no_such_object(&self.first.oid())),
            Progress::Ended => Some(end_of_mib_view(&self.first.oid())),
        }
    }
}
