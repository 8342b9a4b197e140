//! Whether some name that begins with some arcs is in a view.
ghost use Rattle.std.specs.Prelude.{◌≡◌, ◌↔◌, ℕ, ◌<◌, ◌≤◌, length, get_or, IsTrue};
ghost use Rattle.snmp_ber.specs.Oid.{AreArcs};
ghost use Rattle.vacm_core.specs.View.{Agrees, IsExact, IsUnder};
ghost use Rattle.vacm_core.specs.declared.rows.FamilyRow.{FamilyRow as Family};
ghost use Rattle.vacm_next.specs.Opening.{Covers, Exceeds, IncludesLonger, IsExceeded, Opens};

use vacm_core::{FamilyRow, ViewRows};

/// Returns true if the subtree of the row and the beginning have the same arcs, where both have one and the mask
/// compares it.
pub(crate) fn agrees(row: &FamilyRow, beginning: &[u32]) -> bool
    ensures { IsTrue result ↔ Agrees beginning.now row.now }
{
    let arcs = row.subtree.as_slice();
    let shared = arcs.len().min(beginning.len());
    for k in 0..shared {
        if arcs[k] != beginning[k] && row.mask.compares(k) {
            return false;
        }
    }
    true
}

/// Returns true if the row has each name that the other row has, among those whose first arcs both agree with.
/// There are `depth` such arcs.
fn covers(row: &FamilyRow, other: &FamilyRow, depth: usize) -> bool
    ensures { IsTrue result ↔ Covers depth row.now other.now }
{
    let (arcs, others) = (row.subtree.as_slice(), other.subtree.as_slice());
    if arcs.len() != others.len() {
        return false;
    }
    for k in depth..arcs.len() {
        if row.mask.compares(k) && !(other.mask.compares(k) && arcs[k] == others[k]) {
            return false;
        }
    }
    true
}

/// Returns true if the other row is better, and has each name that begins so and that the row has.
fn exceeds(beginning: &[u32], row: &FamilyRow, other: &FamilyRow) -> bool
    ensures { IsTrue result ↔ Exceeds beginning.now row.now other.now }
{
    row.order(other).is_lt() && covers(other, row, beginning.len()) && agrees(other, beginning)
}

/// Returns the first place of rows that may exceed the row at this place. Of rows that compare each arc none exceeds
/// another.
fn rivals_from(rows: &ViewRows<'_>, place: usize) -> usize
    ensures within { result ≤ length rows.now }
    ensures exact { (k : ℕ) (d e : Family) → k < result
        → IsExact (get_or rows.now k d) × IsExact (get_or rows.now place e) }
{
    let exact = rows.count_exact();
    if place < exact { exact } else { 0 }
}

/// Returns true if a better row decides on all names that begin so and that the row has. Rows before `first` don't.
fn is_exceeded(rows: &ViewRows<'_>, beginning: &[u32], row: &FamilyRow, first: usize) -> bool
    requires under { IsUnder beginning.now row.now }
    requires within { first ≤ length rows.now }
    requires exact { (k : ℕ) (d : Family) → k < first → IsExact (get_or rows.now k d) × IsExact row.now }
    ensures { IsTrue result ↔ IsExceeded rows.now beginning.now row.now }
{
    let mut place = rows.next_under(beginning, first);
    while place < rows.count() {
        if exceeds(beginning, row, rows.row(place)) {
            return true;
        }
        place = rows.next_under(beginning, place + 1);
    }
    false
}

/// Returns true if the row includes longer names that begin so, and no better row decides on all of them. Rows before
/// `first` don't.
fn includes_longer(rows: &ViewRows<'_>, beginning: &[u32], row: &FamilyRow, first: usize) -> bool
    requires within { first ≤ length rows.now }
    requires exact { (k : ℕ) (d : Family) → k < first → IsExact (get_or rows.now k d) × IsExact row.now }
    ensures longer { IsTrue result ↔ IncludesLonger rows.now beginning.now row.now }
    ensures arcs { AreArcs row.now.subtree }
{
    beginning.len() < row.subtree.as_slice().len()
        && row.include
        && agrees(row, beginning)
        && !is_exceeded(rows, beginning, row, first)
}

/// Returns true if some name that begins with these arcs is in the view: the beginning itself, or a longer name.
///
/// A longer one is in the view if and only if a row includes names that begin so, and no better row decides on all
/// of them. The rows that agree with the beginning are found by halving. It takes no memory.
pub fn opens(rows: &ViewRows<'_>, beginning: &[u32]) -> bool
    requires some { 1 ≤ length beginning.now }
    requires most { length beginning.now ≤ 128 }
    ensures { IsTrue result ↔ Opens rows.now beginning.now }
{
    if rows.includes(beginning) {
        return true;
    }
    let mut place = rows.next_under(beginning, 0);
    while place < rows.count() {
        if includes_longer(rows, beginning, rows.row(place), rivals_from(rows, place)) {
            return true;
        }
        place = rows.next_under(beginning, place + 1);
    }
    false
}
