//! Family rows with a wildcard, grouped by length and mask.
ghost use Rattle.std.specs.Prelude.{◌≡◌, ◌<◌, ◌≤◌, length, take, true, false};
ghost use Rattle.std.specs.Ordering.{nat_cmp};
ghost use Rattle.std.specs.List.Sorted.{IsPartitionedBy, IsPartitionPoint};
ghost use Rattle.std.specs.Cmp.Lexicographic.{slice_cmp};
ghost use Rattle.vacm_core.specs.Laws.{wildcard_order-total};
ghost use Rattle.vacm_core.specs.Place.{family_name};
ghost use Rattle.vacm_core.specs.RowOrder.{AreFalling};
ghost use Rattle.vacm_core.specs.Wildcard.{compared_arcs, shape_order, wildcard_order, is_upto, comes_first};
ghost use Rattle.vacm_core.specs.Wildcard.{AreAlike, IsDecider};

use crate::front::count_front;
use crate::named_row::NamedRow;
use crate::rows::FamilyRow;
use crate::view::has_arcs;
use crate::{Mask, Name};
use std::cmp::Ordering;
use std::marker::Model;

/// A family row with a wildcard. Rows of a view are ordered by the length of the subtree, then by the mask, then
/// by the arcs that the mask compares.
#[derive(Drop)]
pub(crate) struct WildcardRow {
    row: FamilyRow,
}

impl Model for WildcardRow {
    ghost use Rattle.vacm_core.specs.declared.rows.FamilyRow.{FamilyRow};

    ghost Value = { FamilyRow };

    ghost view = { λ w. w.row };
}

/// Compares the arcs that the mask compares.
pub(crate) fn compared_order(mask: &Mask, first: &[u32], second: &[u32]) -> Ordering
    ensures { result ≡ slice_cmp nat_cmp (compared_arcs mask.now first.now)
        (compared_arcs mask.now second.now) }
{
    let shared = first.len().min(second.len());
    for k in 0..shared {
        if mask.compares(k) && first[k] != second[k] {
            return first[k].cmp(&second[k]);
        }
    }
    first.len().cmp(&second.len())
}

impl WildcardRow {
    /// Wraps the row.
    pub(crate) fn of(row: FamilyRow) -> WildcardRow
        ensures { result ≡ row }
    {
        WildcardRow { row }
    }

    /// Returns the row.
    pub(crate) fn row(&self) -> &FamilyRow
        ensures { result.now ≡ self.now }
    {
        &self.row
    }

    /// Returns how many arcs the subtree has.
    pub(crate) fn length(&self) -> usize
        ensures { result ≡ length self.now.subtree }
    {
        self.row.subtree.as_slice().len()
    }

    /// Compares the lengths of the subtrees, then the masks.
    pub(crate) fn shape_order(&self, other: &WildcardRow) -> Ordering
        ensures { result ≡ shape_order self.now other.now }
    {
        let (first, second) = (self.row.mask.as_slice(), other.row.mask.as_slice());
        self.length().cmp(&other.length()).then(first.cmp(second))
    }
}

impl NamedRow for WildcardRow {
    ghost name_of = { family_name };

    ghost rank = { wildcard_order };

    ghost rank_total = { wildcard_order-total };

    fn name(&self) -> &Name {
        &self.row.view
    }

    fn ranking(&self, other: &WildcardRow) -> Ordering {
        let by_shape = self.shape_order(other);
        if by_shape.is_ne() {
            return by_shape;
        }
        let (first, second) = (self.row.subtree.as_slice(), other.row.subtree.as_slice());
        compared_order(&self.row.mask, first, second).then(first.cmp(second))
    }

    fn copy(&self) -> Self {
        WildcardRow {
            row: self.row.copy(),
        }
    }
}

/// Returns false if the row comes after all rows with the first row's length and mask.
pub(crate) fn is_upto(first: &WildcardRow, row: &WildcardRow) -> bool
    ensures { result ≡ is_upto first.now row.now }
{
    first.shape_order(row).is_le()
}

/// Counts the rows at the beginning that have the first row's length and mask.
pub(crate) fn count_alike(rows: &[WildcardRow]) -> usize
    requires falling { AreFalling wildcard_order rows.now }
    requires some { 0 < length rows.now }
    ensures some { 0 < result }
    ensures within { result ≤ length rows.now }
    ensures alike { AreAlike (take result rows.now) }
{
    let first = &rows[0];
    count_front(rows, |row| is_upto(first, row))
}

/// Returns true if the row comes before those that have the variable: of the arcs that the mask compares, the
/// row's are greater than those of the beginning of the variable.
fn comes_first(first: &WildcardRow, row: &WildcardRow, beginning: &[u32]) -> bool
    ensures { result ≡ comes_first first.now.mask beginning.now row.now }
{
    compared_order(&first.row.mask, beginning, row.row.subtree.as_slice()).is_lt()
}

/// Counts the rows that come before those that have the variable.
fn count_first(rows: &[WildcardRow], first: &WildcardRow, beginning: &[u32]) -> usize
    requires { IsPartitionedBy (comes_first first.now.mask beginning.now) rows.now }
    ensures { IsPartitionPoint (λ row. comes_first first.now.mask beginning.now row ≡ true)
        (λ row. comes_first first.now.mask beginning.now row ≡ false) rows.now result }
{
    rows.partition_point(|row| comes_first(first, row, beginning))
}

/// Returns the row that decides on the variable, among rows of one length and one mask. The rows that have the
/// variable are consecutive, and the first of them decides. A binary search finds it.
pub(crate) fn best_of_alike<'a>(rows: &'a [WildcardRow], variable: &[u32]) -> Option<&'a FamilyRow>
    requires falling { AreFalling wildcard_order rows.now }
    requires alike { AreAlike rows.now }
    ensures { IsDecider variable.now rows.now result }
{
    let first = rows.first()?;
    let arcs = first.length();
    if variable.len() < arcs {
        return None;
    }
    let beginning = &variable[..arcs];
    let place = count_first(rows, first, beginning);
    let row = rows.get(place)?.row();
    if has_arcs(row, variable) {
        Some(row)
    } else {
        None
    }
}
