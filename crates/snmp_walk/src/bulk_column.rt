//! One binding of a GetBulkRequest.

ghost use Rattle.std.specs.Prelude.{◌≡◌, ◌↔◌, ◌+◌, ◌<◌, ℕ, List, length, IsTrue, IfOk, IfSome, MatchOption};
ghost use Rattle.std.specs.Prelude.{OnOk};
ghost use Rattle.snmp_ber.specs.Oid.{IsObjectId};
ghost use Rattle.snmp_msg.specs.Variables.{Variable, bound_variable, variable_of};
ghost use Rattle.snmp_responder.specs.Code.{seen_by};
ghost use Rattle.snmp_walk.specs.Column.{Asks, IsAsked, MayAsk, MayShow};
ghost use Rattle.snmp_walk.specs.BulkColumn.{BulkStands, IsAt, IsNew, IsUnknownAt, Wants, bulk_request, given_in};
ghost use Rattle.snmp_walk.specs.BulkColumn.{name_before, octets_in, shown};
ghost use Rattle.snmp_walk.specs.Front.{IsOverAt};
ghost use Rattle.snmp_walk.specs.ObjectIds.{IsNamed};
ghost use Rattle.snmp_walk.specs.BulkSteps.{BulkGoesOn, ColumnReads, ColumnRefuses, ColumnWaits, FitsIn, Grows};
ghost use Rattle.snmp_walk.specs.BulkSteps.{IsBegun, IsMarked, IsUnread};
ghost use Rattle.snmp_walk.specs.BulkSteps.{IsForgotten, IsSettled, IsTurn, MisfitsIn, ReadsValue, Waits, asked_after};

use crate::column::{Ask, Progress, asked_at, place_of};
use crate::given::{GivenVariable, copy};
use crate::kept_name::KeptName;
use crate::misfit::{Misfit, is_end, misfit_of};
use crate::operation::ReadOperation;
use snmp_ber::Oid;
use snmp_msg::{Binding, VariableBinding};
use snmp_responder::{Viewer, end_of_mib_view};
use std::alloc::{AllocError, Global};
use std::mem;

/// One binding of a GetBulkRequest, and what the device told for it so far: a non-repeater wants one variable, a
/// repeater up to max-repetitions.
#[derive(Drop)]
pub struct BulkColumn {
    first: KeptName,
    most: usize,
    got: Vec<GivenVariable>,
    progress: Progress,
    /// While an answer is read: how many variables there were before.
    had: usize,
    /// While an answer is read for which it was asked: how far it has come by that.
    reading: Option<Progress>,
}

/// Returns what a walk is that asks for what comes after this name. The error is out of memory.
fn asked_from(alloc: Global, name: &Oid) -> Result<Progress, AllocError>
    ensures { IfOk result (λ progress. progress ≡ asked_after name.now) }
{
    Ok(Progress::Asked(Ask {
        from: KeptName::of(alloc, name)?,
        name: copy(name),
    }))
}

/// Returns why the binding doesn't fit where a walk is in an answer, if it doesn't.
fn misfit_in(walk: &Progress, binding: &VariableBinding<'_>) -> Option<Misfit>
    ensures { MatchOption result (FitsIn walk.now (bound_variable binding.now))
        (MisfitsIn walk.now (bound_variable binding.now)) }
{
    if let Progress::Asked(ask) = walk {
        return misfit_of(ReadOperation::GetNext, &ask.name, binding);
    }
    if is_end(binding.tag) {
        return None;
    }
    Some(Misfit::AfterEnd)
}

/// Returns what a walk is that isn't asked after all.
fn waiting(progress: Progress) -> Progress
    ensures { Waits progress result }
{
    match progress {
        Progress::Asked(ask) => Progress::Wanting(ask.from),
        other => other,
    }
}

impl BulkColumn {
    /// Returns the column of a binding with this name, of which up to `most` variables are wanted. The error is out of
    /// memory.
    pub fn new(alloc: Global, name: &Oid, most: usize) -> Result<BulkColumn, AllocError>
        ensures request { IfOk result (λ c. bulk_request c ≡ (name.now, most)) }
        ensures is_new { IfOk result IsNew }
        ensures stands { IfOk result
            (λ c. (viewer : Viewer) (told : List Variable) → BulkStands (seen_by viewer) told c) }
        ensures named { IsObjectId name.now → IfOk result (λ c. IsNamed c.progress) }
    {
        let first = KeptName::of(alloc, name)?;
        let from = first.copy(alloc)?;
        Ok(BulkColumn {
            first,
            most,
            got: Vec::new(alloc),
            progress: Progress::Wanting(from),
            had: 0,
            reading: None,
        })
    }

    /// Returns how many variables the device gave that the message may see.
    pub(crate) fn count(&self) -> usize
        ensures { result ≡ length self.now.got.items }
    {
        self.got.len()
    }

    /// Returns what is left of so many octets without the values and arcs of names that the device gave. None: it gave
    /// more.
    pub(crate) fn left_after(&self, left: usize) -> Option<usize>
        ensures { MatchOption result (left < octets_in (given_in self.now))
            (λ rest. rest + octets_in (given_in self.now) ≡ left) }
    {
        let mut left = left;
        for given in &self.got {
            left = left.checked_sub(given.octets())?;
        }
        Some(left)
    }

    /// Returns true if more variables are wanted, and the walk isn't at its end.
    pub fn wants(&self) -> bool
        ensures { IsTrue result ↔ Wants self.now }
    {
        let is_open = matches!(&self.progress, Progress::Wanting(_) | Progress::Asked(_));
        is_open && self.got.len() < self.most
    }

    /// Returns true if the device was asked, and is still to answer.
    pub fn is_asked(&self) -> bool
        ensures { IsTrue result ↔ IsAsked self.now.progress }
    {
        matches!(&self.progress, Progress::Asked(_))
    }

    /// Goes on, if more variables are wanted: the device is asked for what comes after the place just before the next
    /// name that the message may see. The walk is at its end if there is none. It takes no memory.
    pub fn go_on(&mut self, viewer: &Viewer<'_>)
        ensures goes_on { BulkGoesOn (seen_by viewer.now) self.old self.new }
        ensures stands { (told : List Variable) → BulkStands (seen_by viewer.now) told self.old
            → BulkStands (seen_by viewer.now) told self.new }
    {
        if self.got.len() >= self.most {
            return;
        }
        let Progress::Wanting(from) = &self.progress else {
            return;
        };
        let place = place_of(viewer, ReadOperation::GetNext, from);
        let wanting = mem::replace(&mut self.progress, Progress::Ended);
        self.progress = asked_at(wanting, place);
    }

    /// Asks the device later, if it was asked.
    pub(crate) fn wait(&mut self)
        ensures { ColumnWaits self.old self.new }
    {
        self.progress = waiting(mem::replace(&mut self.progress, Progress::Ended));
    }

    /// Ends the walk.
    pub(crate) fn end(&mut self)
        ensures request { bulk_request self.new ≡ bulk_request self.old }
        ensures given { self.new.got.items ≡ self.old.got.items }
        ensures ends { self.new.progress ≡ Progress.Ended }
    {
        self.progress = Progress::Ended;
    }

    /// Returns the name that the device is asked for, if it is asked.
    pub fn asked_name(&self) -> Option<&Oid>
        ensures asks { MatchOption result ((name : List ℕ) → ¬ Asks self.now.progress name)
            (λ name. Asks self.now.progress name.now) }
        ensures inwards { (viewer : Viewer) (told : List Variable) → BulkStands (seen_by viewer) told self.now
            → IfSome result (λ name. MayAsk (seen_by viewer) told ReadOperation.GetNext (shown self.now) name.now) }
        ensures named { IsNamed self.now.progress → IfSome result (λ name. IsObjectId name.now) }
    {
        match &self.progress {
            Progress::Asked(ask) => Some(&ask.name),
            _ => None,
        }
    }

    /// Notes how many variables there are before an answer is read.
    pub(crate) fn mark(&mut self)
        ensures { IsMarked self.old self.new }
    {
        self.had = self.got.len();
        self.reading = None;
    }

    /// Begins to read an answer, if the device was asked. The error is out of memory.
    pub(crate) fn begin(&mut self, alloc: Global) -> Result<(), AllocError>
        requires { IsUnread self.old }
        ensures grows { Grows self.old self.new }
        ensures begun { OnOk result (IsBegun self.old self.new) }
    {
        let Progress::Asked(ask) = &self.progress else {
            return Ok(());
        };
        self.reading = Some(Progress::Asked(Ask {
            from: ask.from.copy(alloc)?,
            name: copy(&ask.name),
        }));
        Ok(())
    }

    /// Reads a value, which fits. The error is out of memory.
    fn read_value(
        &mut self,
        alloc: Global,
        viewer: &Viewer<'_>,
        binding: &VariableBinding<'_>,
    ) -> Result<(), AllocError>
        ensures grows { Grows self.old self.new }
        ensures reads { OnOk result (ReadsValue (seen_by viewer.now) self.old (bound_variable binding.now) self.new) }
    {
        let name = binding.name.oid();
        let after = asked_from(alloc, &name)?;
        if viewer.sees(&name) {
            self.got.push(GivenVariable::of(alloc, binding)?)?;
        }
        self.reading = Some(after);
        Ok(())
    }

    /// Reads what the answer has for the column next, or returns why it doesn't fit. The error is out of memory.
    pub(crate) fn read(
        &mut self,
        alloc: Global,
        viewer: &Viewer<'_>,
        binding: &VariableBinding<'_>,
    ) -> Result<Option<Misfit>, AllocError>
        requires { IsTurn self.old }
        ensures grows { Grows self.old self.new }
        ensures reads { IfOk result (λ found. MatchOption found
            (ColumnReads (seen_by viewer.now) self.old (bound_variable binding.now) self.new)
            (ColumnRefuses self.old (bound_variable binding.now))) }
    {
        let Some(reading) = &self.reading else {
            unreachable!();
        };
        if let Some(misfit) = misfit_in(reading, binding) {
            return Ok(Some(misfit));
        }
        if is_end(binding.tag) {
            self.reading = Some(Progress::Ended);
            return Ok(None);
        }
        self.read_value(alloc, viewer, binding)?;
        Ok(None)
    }

    /// Settles what was read of an answer.
    pub(crate) fn settle(&mut self)
        ensures { IsSettled self.old self.new }
    {
        let Some(progress) = mem::replace(&mut self.reading, None) else {
            return;
        };
        self.progress = waiting(progress);
    }

    /// Forgets what was read of an answer.
    pub(crate) fn forget(&mut self)
        ensures { IsForgotten self.old self.new }
    {
        self.got.truncate(self.had);
        self.reading = None;
    }

    /// Returns the last name that the message knows of.
    fn last_shown(&self) -> &KeptName
        ensures { result.now ≡ shown self.now }
    {
        match self.got.last() {
            Some(given) => &given.name,
            None => &self.first,
        }
    }

    /// Returns true if the walk is at its end, and gave no more variables than there are repetitions before this one.
    pub(crate) fn is_over(&self, repetition: usize) -> bool
        ensures { IsTrue result ↔ IsOverAt repetition self.now }
    {
        matches!(&self.progress, Progress::Ended) && self.got.len() <= repetition
    }

    /// Returns true if it is known what the Response holds for the column in the repetition of this number.
    pub(crate) fn is_known(&self, repetition: usize) -> bool
        ensures { IsTrue result ↔ (¬ IsUnknownAt self.now repetition) }
    {
        matches!(&self.progress, Progress::Ended) || self.got.len() > repetition
    }

    /// Returns what the Response holds for the column in the repetition of this number, which counts from 0: the
    /// variable that the device gave, or the last name with endOfMibView where the walk is at its end before.
    pub fn binding(&self, repetition: usize) -> Option<Binding<'_>>
        ensures is_at { MatchOption result (IsUnknownAt self.now repetition)
            (λ binding. IsAt self.now repetition (variable_of binding)) }
        ensures outwards { (viewer : Viewer) (told : List Variable) → BulkStands (seen_by viewer) told self.now
            → IfSome result (λ binding. MayShow (seen_by viewer) told ReadOperation.GetNext
            (name_before self.now repetition) (variable_of binding)) }
    {
        if let Some(given) = self.got.get(repetition) {
            return Some(given.binding());
        }
        match &self.progress {
            Progress::Ended => Some(end_of_mib_view(&self.last_shown().oid())),
            _ => None,
        }
    }
}
