//! The rows of a view that are longer than the beginning of a name and agree with it, found by halving.
ghost use Rattle.std.specs.Prelude.{◌≡◌, ◌<◌, ◌≤◌, length, take, get_or, true, false, IfSome, MatchOption};
ghost use Rattle.std.specs.List.Sorted.{IsPartitionedBy, IsPartitionPoint};
ghost use Rattle.vacm_core.specs.Allowed.{family_order};
ghost use Rattle.vacm_core.specs.RowOrder.{AreFalling};
ghost use Rattle.vacm_core.specs.View.{AreExact, IsPast, NoneUnder, is_before};
ghost use Rattle.vacm_core.specs.Wildcard.{is_before_alike, is_upto, wildcard_order};
ghost use Rattle.vacm_core.specs.declared.rows.FamilyRow.{FamilyRow as Family};

use crate::rows::FamilyRow;
use crate::wildcard::{WildcardRow, compared_order, is_upto};
use std::cmp::Ordering;

/// Returns true if the row is longer than `size` arcs, or as long and its first arcs are greater than the beginning.
fn is_before(row: &FamilyRow, size: usize, beginning: &[u32]) -> bool
    ensures { result ≡ is_before size beginning.now row.now }
{
    let arcs = row.subtree.as_slice();
    let front = &arcs[..arcs.len().min(beginning.len())];
    size.cmp(&arcs.len()).then(beginning.cmp(front)).is_lt()
}

/// Counts the rows that are longer than `size` arcs, or as long and whose first arcs are greater than the beginning.
fn count_before(rows: &[FamilyRow], size: usize, beginning: &[u32]) -> usize
    requires { IsPartitionedBy (is_before size beginning.now) rows.now }
    ensures point { IsPartitionPoint (λ row. is_before size beginning.now row ≡ true)
        (λ row. is_before size beginning.now row ≡ false) rows.now result }
    ensures within { result ≤ length rows.now }
{
    rows.partition_point(|row| is_before(row, size, beginning))
}

/// Returns how many arcs the rows have that are to be looked at after this one, or None if this one begins so. Those
/// of this length come after it if its first arcs are greater than the beginning.
fn size_past(row: &FamilyRow, beginning: &[u32]) -> Option<usize>
    requires { length beginning.now < length row.now.subtree }
    ensures { MatchOption result (take (length beginning.now) row.now.subtree ≡ beginning.now)
        (λ size. IsPast size beginning.now row.now) }
{
    let arcs = row.subtree.as_slice();
    match arcs[..beginning.len()].cmp(beginning) {
        Ordering::Equal => None,
        Ordering::Greater => Some(arcs.len()),
        Ordering::Less => Some(arcs.len() - 1),
    }
}

/// Returns the place of the next row, from this place on, that is longer than the beginning and agrees with it. The
/// rows compare all of their arcs. So those of one length that agree are consecutive.
pub(crate) fn next_under(rows: &[FamilyRow], beginning: &[u32], place: usize) -> usize
    requires falling { AreFalling family_order rows.now }
    requires exact { AreExact rows.now }
    requires within { place ≤ length rows.now }
    ensures from_on { place ≤ result }
    ensures within { result ≤ length rows.now }
    ensures none { NoneUnder rows.now beginning.now place result }
{
    let mut at = place;
    while at < rows.len() {
        let row = &rows[at];
        if row.subtree.as_slice().len() <= beginning.len() {
            return rows.len();
        }
        let Some(size) = size_past(row, beginning) else {
            return at;
        };
        at = count_before(rows, size, beginning);
    }
    at
}

/// Returns true if the row is of a greater length or mask than the first one, or of its length and mask and its first
/// arcs are greater than the beginning, of those that the mask compares.
fn is_before_alike(row: &WildcardRow, first: &WildcardRow, beginning: &[u32]) -> bool
    ensures { result ≡ is_before_alike first.now beginning.now row.now }
{
    let arcs = row.row().subtree.as_slice();
    let front = &arcs[..arcs.len().min(beginning.len())];
    let by_arcs = compared_order(&first.row().mask, beginning, front);
    first.shape_order(row).then(by_arcs).is_lt()
}

/// Counts the rows that come before those of the first one's length and mask that agree with the beginning.
fn count_before_alike(rows: &[WildcardRow], first: &WildcardRow, beginning: &[u32]) -> usize
    requires { IsPartitionedBy (is_before_alike first.now beginning.now) rows.now }
    ensures point { IsPartitionPoint (λ row. is_before_alike first.now beginning.now row ≡ true)
        (λ row. is_before_alike first.now beginning.now row ≡ false) rows.now result }
    ensures within { result ≤ length rows.now }
{
    rows.partition_point(|row| is_before_alike(row, first, beginning))
}

/// Counts the rows that come before those that are less than the first one by their length and mask.
fn count_upto(rows: &[WildcardRow], first: &WildcardRow) -> usize
    requires { IsPartitionedBy (is_upto first.now) rows.now }
    ensures point { IsPartitionPoint (λ row. is_upto first.now row ≡ true)
        (λ row. is_upto first.now row ≡ false) rows.now result }
    ensures within { result ≤ length rows.now }
{
    rows.partition_point(|row| is_upto(first, row))
}

/// Returns the next place at which a row may agree with the beginning, or None if the row at this one does.
fn past_wildcard(rows: &[WildcardRow], beginning: &[u32], at: usize) -> Option<usize>
    requires falling { AreFalling wildcard_order rows.now }
    requires within { at < length rows.now }
    requires longer { (d : Family) → length beginning.now < length (get_or rows.now at d).subtree }
    ensures { IfSome result (λ next. (at < next) × (next ≤ length rows.now)
        × NoneUnder rows.now beginning.now at next) }
{
    let first = &rows[at];
    let front = &first.row().subtree.as_slice()[..beginning.len()];
    match compared_order(&first.row().mask, front, beginning) {
        Ordering::Equal => None,
        Ordering::Greater => Some(count_before_alike(rows, first, beginning)),
        Ordering::Less => Some(count_upto(rows, first)),
    }
}

/// Returns the place of the next row with a wildcard, from this place on, that is longer than the beginning and agrees
/// with it. Those of one length and mask that agree are consecutive.
pub(crate) fn next_wildcard(rows: &[WildcardRow], beginning: &[u32], place: usize) -> usize
    requires falling { AreFalling wildcard_order rows.now }
    requires within { place ≤ length rows.now }
    ensures from_on { place ≤ result }
    ensures within { result ≤ length rows.now }
    ensures none { NoneUnder rows.now beginning.now place result }
{
    let mut at = place;
    while at < rows.len() {
        if rows[at].length() <= beginning.len() {
            return rows.len();
        }
        let Some(next) = past_wildcard(rows, beginning, at) else {
            return at;
        };
        at = next;
    }
    at
}
