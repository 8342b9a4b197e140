//! How a device is asked for the columns of a GetBulkRequest.

ghost use Rattle.std.specs.Prelude.{◌≡◌, ◌↔◌, ◌⊎◌, ◌≤◌, IsTrue, MatchOption};
ghost use Rattle.snmp_walk.specs.BulkAsk.{Chooses, IsAskOf, IsDue, IsFewest, NoneAsked, StaysOrWaits, asked_of};

use crate::bulk_column::BulkColumn;

/// By which request a device is asked for the columns of a GetBulkRequest.
#[derive(Clone, Copy, Debug, PartialEq, Eq)]
pub enum BulkAsk {
    /// By a GetNextRequest for the name that each column asks.
    GetNext,
    /// By a GetBulkRequest for these names, with so many non-repeaters, and this number of max-repetitions, which is
    /// greater than 1.
    GetBulk(usize, usize),
}

/// Returns the lesser one of both, if there are two.
fn lesser(fewest: Option<usize>, count: usize) -> usize
    ensures { MatchOption fewest (result ≡ count)
        (λ few. (result ≤ few) × (result ≤ count) × ((result ≡ few) ⊎ (result ≡ count))) }
{
    match fewest {
        Some(few) => few.min(count),
        None => count,
    }
}

/// Returns the fewest variables that one of these columns has which was asked. None: no column was asked.
pub(crate) fn fewest(columns: &[BulkColumn]) -> Option<usize>
    ensures { MatchOption result (NoneAsked columns.now) (IsFewest columns.now) }
{
    let mut fewest = None;
    for column in columns {
        if column.is_asked() {
            fewest = Some(lesser(fewest, column.count()));
        }
    }
    fewest
}

/// Returns how many of these columns were asked.
pub(crate) fn count_asked(columns: &[BulkColumn]) -> usize
    ensures { result ≡ asked_of columns.now }
{
    let mut count = 0;
    for column in columns {
        if column.is_asked() {
            count += 1;
        }
    }
    count
}

/// Returns true if the device is to be asked for the column of this number, where the repeaters that are behind have
/// `fewest` variables.
fn is_due(column: &BulkColumn, number: usize, non_repeaters: usize, fewest: usize) -> bool
    ensures { IsTrue result ↔ IsDue non_repeaters fewest number column.now }
{
    column.is_asked() && (number < non_repeaters || column.count() == fewest)
}

/// Lets the column wait, if it isn't due or there is no room. Returns the room that is left.
fn stay_or_wait(column: &mut BulkColumn, is_due: bool, room: usize) -> usize
    ensures { StaysOrWaits is_due room column.old column.new result }
{
    if is_due && room > 0 {
        return room - 1;
    }
    column.wait();
    room
}

/// Lets the columns wait that aren't due, and those that are due behind so many of them.
pub(crate) fn choose(
    columns: &mut Vec<BulkColumn>,
    non_repeaters: usize,
    fewest: usize,
    room: usize,
)
    ensures { Chooses non_repeaters fewest 0 room columns.old.items columns.new.items }
{
    let mut left = room;
    for number in 0..columns.len() {
        let due = is_due(&columns[number], number, non_repeaters, fewest);
        left = stay_or_wait(&mut columns[number], due, left);
    }
}

/// Returns by which request the device is asked, where so many repetitions are due.
pub(crate) fn ask_of(columns: &[BulkColumn], non_repeaters: usize, due: usize) -> BulkAsk
    ensures { IsAskOf non_repeaters due columns.now result }
{
    let single = non_repeaters.min(columns.len());
    if due <= 1 || count_asked(&columns[single..]) == 0 {
        return BulkAsk::GetNext;
    }
    BulkAsk::GetBulk(count_asked(&columns[..single]), due)
}
