//! One dialogue with a device for a GetBulkRequest.

ghost use Rattle.std.specs.Prelude.{◌≡◌, ◌↔◌, ◌<◌, ◌⊎◌, List, All, map, IfOk, IsTrue, MatchOption};
ghost use Rattle.std.specs.List.{AllZip};
ghost use Rattle.snmp_msg.specs.Variables.{Variable, variable_of, variables_of};
ghost use Rattle.snmp_responder.specs.Code.{seen_by};
ghost use Rattle.snmp_walk.specs.BulkDialogue.{BulkAllGoOn, BulkAllStand, HasFront, HasGathered, HasRepetition};
ghost use Rattle.snmp_walk.specs.BulkDialogue.{IsBulkFor, IsBulkNext, IsChosen, IsCountOf, IsFirstWanting, IsMostOf};
ghost use Rattle.snmp_walk.specs.BulkDialogue.{NoneWants};
ghost use Rattle.snmp_walk.specs.BulkDialogue.{SameLimits, bulk_requests, gathered_in};
ghost use Rattle.snmp_walk.specs.BulkColumn.{IsNew};
ghost use Rattle.snmp_walk.specs.BulkSteps.{ColumnWaits};
ghost use Rattle.snmp_walk.specs.Front.{IsFront, IsShownOf};
ghost use Rattle.snmp_walk.specs.ObjectIds.{BulkAllNamed};

use crate::answer::AnswerFault;
use crate::bulk_ask::{BulkAsk, ask_of, choose, fewest};
use crate::bulk_column::BulkColumn;
use crate::counting::binding_count;
use crate::front::front_of;
use snmp_msg::{Binding, Pdu};
use snmp_responder::Viewer;
use std::alloc::{AllocError, Global};

/// What a dialogue for a GetBulkRequest keeps to.
#[derive(Clone, Copy, Debug, PartialEq, Eq)]
pub struct BulkLimits {
    /// How often the device may be asked.
    pub rounds: u32,
    /// How many repetitions the device is asked for at most. 0 is as 1.
    pub repetitions: usize,
    /// How many names the device is asked for at once at most. 0 is as 1.
    pub at_once: usize,
    /// With more than so many octets of values and arcs of names the dialogue ends.
    pub gathered: usize,
}

/// What becomes of a dialogue for a GetBulkRequest next.
#[derive(Clone, Copy, Debug, PartialEq, Eq)]
pub enum BulkNext {
    /// The device is to be asked for the name that each column asks, in this way.
    Asks(BulkAsk),
    /// The Response holds the front: all is there, or enough.
    Ends,
    /// The device was asked as often as it may be, and the column of this number, counted from 0, is the first one that
    /// wants more. The Response has genErr, and the index of that binding.
    RoundsUsedUp(usize),
}

/// What an answer of the device was to a dialogue for a GetBulkRequest.
#[derive(Clone, Copy, Debug, PartialEq, Eq)]
pub enum BulkAnswered {
    /// Its bindings answer what was asked, and each column has its own.
    Taken,
    /// Its bindings don't answer what was asked. The Response has genErr.
    Unfit(AnswerFault),
    /// The device can't answer so much: tooBig, or no bindings at all. It is to be asked for less.
    Less,
    /// It can't answer even for one name. The Response holds the front.
    Front,
    /// It can't answer even for one name, and there is no front. The Response has tooBig.
    TooBig,
    /// It says of the column of this number, counted from 0, that there is no next variable: noSuchName, as of a device
    /// of version-1. That column is at its end. For the others the device is to be asked again.
    Ended(usize),
    /// It has another error: the Response has genErr. The number is that of the column to which the error-index
    /// belongs, counted from 0. None: it is of no binding that was asked.
    Failed(Option<usize>),
}

/// One dialogue with a device for a GetBulkRequest: a column for each of its bindings, and how the device is asked.
#[derive(Drop)]
pub struct BulkDialogue {
    pub(crate) columns: Vec<BulkColumn>,
    pub(crate) non_repeaters: usize,
    pub(crate) max_repetitions: usize,
    pub(crate) rounds: u32,
    pub(crate) repetitions: usize,
    pub(crate) at_once: usize,
    pub(crate) gathered: usize,
    pub(crate) ask: BulkAsk,
}

/// Returns the value of non-repeaters or max-repetitions, which counts as 0 below 0 (RFC 3416, section 4.2.3).
fn count_of(value: i32) -> usize
    ensures { IsCountOf value result }
{
    let Ok(count) = usize::try_from(value) else {
        return 0;
    };
    count
}

/// Returns how many variables the column of this number wants.
fn most_of(number: usize, non_repeaters: usize, max_repetitions: usize) -> usize
    ensures { IsMostOf number non_repeaters max_repetitions result }
{
    if number < non_repeaters {
        1
    } else {
        max_repetitions
    }
}

/// Goes on with each column that wants more.
fn go_on_each(columns: &mut Vec<BulkColumn>, viewer: &Viewer<'_>)
    ensures { BulkAllGoOn (seen_by viewer.now) columns.old.items columns.new.items }
{
    for column in columns.iter_mut() {
        column.go_on(viewer);
    }
}

/// Asks the device later for each column.
pub(crate) fn wait_each(columns: &mut Vec<BulkColumn>)
    ensures { AllZip ColumnWaits columns.old.items columns.new.items }
{
    for column in columns.iter_mut() {
        column.wait();
    }
}

/// Returns the number of the first column that wants more.
fn first_wanting(columns: &[BulkColumn]) -> Option<usize>
    ensures { MatchOption result (NoneWants columns.now) (IsFirstWanting columns.now) }
{
    for (number, column) in columns.iter().enumerate() {
        if column.wants() {
            return Some(number);
        }
    }
    None
}

/// Returns true if the first repetition is known, and the non-repeaters.
fn has_repetition(columns: &[BulkColumn]) -> bool
    ensures { IsTrue result ↔ HasRepetition columns.now }
{
    for column in columns {
        if !column.is_known(0) {
            return false;
        }
    }
    true
}

/// Returns true if the first binding is known.
pub(crate) fn has_front(columns: &[BulkColumn]) -> bool
    ensures { IsTrue result ↔ HasFront columns.now }
{
    !columns.is_empty() && columns[0].is_known(0)
}

/// Returns true if the device gave more than so many octets of values and arcs of names that the message may see.
fn is_over(columns: &[BulkColumn], most: usize) -> bool
    ensures { IsTrue result ↔ (most < gathered_in columns.now) }
{
    let mut left = most;
    for column in columns {
        let Some(rest) = column.left_after(left) else {
            return true;
        };
        left = rest;
    }
    false
}

/// Returns true if there is more than is kept, and a binding for the Response.
fn has_gathered(columns: &[BulkColumn], most: usize) -> bool
    ensures { IsTrue result ↔ HasGathered most columns.now }
{
    is_over(columns, most) && has_front(columns)
}

impl BulkDialogue {
    /// Returns the dialogue for a GetBulkRequest. The error is out of memory.
    pub fn new(
        alloc: Global,
        request: &Pdu<'_>,
        limits: &BulkLimits,
    ) -> Result<BulkDialogue, AllocError>
        ensures is_for { IfOk result (λ d. IsBulkFor request.now.second request.now.third
            (variables_of request.now.list.now) limits.now d) }
        ensures begin { IfOk result (λ d. All IsNew d.columns.items) }
        ensures stand { IfOk result
            (λ d. (viewer : Viewer) (told : List Variable) → BulkAllStand (seen_by viewer) told d) }
        ensures named { IfOk result BulkAllNamed }
    {
        let non_repeaters = count_of(request.second);
        let max_repetitions = count_of(request.third);
        let mut columns = Vec::with_capacity(alloc, binding_count(request))?;
        for binding in request.variable_bindings() {
            let most = most_of(columns.len(), non_repeaters, max_repetitions);
            columns.push(BulkColumn::new(alloc, &binding.name.oid(), most)?)?;
        }
        Ok(BulkDialogue {
            columns,
            non_repeaters,
            max_repetitions,
            rounds: limits.rounds,
            repetitions: limits.repetitions,
            at_once: limits.at_once,
            gathered: limits.gathered,
            ask: BulkAsk::GetNext,
        })
    }

    /// Returns the columns, in the order of the bindings. Each has the name that the device is asked for it.
    pub fn columns(&self) -> &[BulkColumn]
        ensures { result.now ≡ self.now.columns.items }
    {
        self.columns.as_slice()
    }

    /// Returns true if the Response can hold the non-repeaters and one whole repetition.
    pub fn has_repetition(&self) -> bool
        ensures { IsTrue result ↔ HasRepetition self.now.columns.items }
    {
        has_repetition(self.columns.as_slice())
    }

    /// Chooses which columns the device is asked for, and how.
    fn choose(&mut self) -> BulkAsk
        ensures limits { SameLimits self.old self.new }
        ensures rounds { self.new.rounds ≡ self.old.rounds }
        ensures chosen { IsChosen self.old self.old.columns.items self.new result }
    {
        let single = self.non_repeaters.min(self.columns.len());
        let fewest = fewest(&self.columns[single..]).unwrap_or(0);
        let room = self.at_once.max(1);
        choose(&mut self.columns, self.non_repeaters, fewest, room);
        let wanted = self.max_repetitions.saturating_sub(fewest);
        let due = self.repetitions.min(wanted);
        self.ask = ask_of(&self.columns, self.non_repeaters, due);
        self.ask
    }

    /// Goes on with each column that wants more. Then the dialogue ends if all is there, or enough; or else the device
    /// is asked, if it may be asked once more. It takes no memory.
    ///
    /// Asked are the non-repeaters that want their variable, and of the repeaters that want more those that have the
    /// fewest, as many as the device is asked for at once.
    pub fn go_on(&mut self, viewer: &Viewer<'_>) -> BulkNext
        ensures next { IsBulkNext (seen_by viewer.now) self.old self.new result }
        ensures requests { bulk_requests self.new ≡ bulk_requests self.old }
        ensures stand { (told : List Variable) → BulkAllStand (seen_by viewer.now) told self.old
            → BulkAllStand (seen_by viewer.now) told self.new }
        ensures named { BulkAllNamed self.old → BulkAllNamed self.new }
    {
        go_on_each(&mut self.columns, viewer);
        let Some(number) = first_wanting(self.columns.as_slice()) else {
            return BulkNext::Ends;
        };
        if has_gathered(self.columns.as_slice(), self.gathered) {
            return BulkNext::Ends;
        }
        let Some(rounds) = self.rounds.checked_sub(1) else {
            return self.last_next(number);
        };
        self.rounds = rounds;
        BulkNext::Asks(self.choose())
    }

    /// Returns what becomes of a dialogue that may not ask again, and of which this column wants more.
    fn last_next(&self, number: usize) -> BulkNext
        ensures { ((result ≡ BulkNext.Ends) × HasRepetition self.now.columns.items)
            ⊎ ((result ≡ BulkNext.RoundsUsedUp number) × ¬ HasRepetition self.now.columns.items) }
    {
        if has_repetition(self.columns.as_slice()) {
            return BulkNext::Ends;
        }
        BulkNext::RoundsUsedUp(number)
    }

    /// Returns what the Response holds if the dialogue ends now: the non-repeaters, and then the repetitions, up to one
    /// in which all are endOfMibView, or to the first binding that isn't known. The error is out of memory.
    pub fn front(&self, alloc: Global) -> Result<Vec<Binding<'_>>, AllocError>
        ensures front { IfOk result (λ front. IsFront self.now.non_repeaters self.now.max_repetitions
            self.now.columns.items (map variable_of front.items)) }
        ensures outwards { (viewer : Viewer) (told : List Variable) → BulkAllStand (seen_by viewer) told self.now
            → IfOk result (λ front. All (IsShownOf (seen_by viewer) told self.now.columns.items)
            (map variable_of front.items)) }
    {
        let columns = self.columns.as_slice();
        front_of(alloc, columns, self.non_repeaters, self.max_repetitions)
    }
}
