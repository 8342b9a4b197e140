//! The rows of one view, and the one of them that decides on a variable.
ghost use Rattle.std.specs.Prelude.{◌≡◌, ◌≢◌, ◌⊎◌, [], ◌++◌, ℕ, ◌<◌, ◌≤◌, ◌↔◌, length, IsTrue};
ghost use Rattle.std.specs.Prelude.{List, MatchBool, MatchResult, slice_index, get_or};
ghost use Rattle.std.specs.declared.cmp.Ordering.TheVariants.{Less, Greater};
ghost use Rattle.vacm_core.specs.RowOrder.{AreFalling};
ghost use Rattle.vacm_core.specs.Place.{arcs_order};
ghost use Rattle.vacm_core.specs.View.{AreExact, HasArcs, AnswersView};
ghost use Rattle.vacm_core.specs.declared.rows.FamilyRow.{FamilyRow as Family};
ghost use Rattle.vacm_core.specs.Steps.{DecidesView};
ghost use Rattle.vacm_core.specs.Wildcard.{wildcard_order, IsDecider};
ghost use Rattle.vacm_core.specs.Allowed.{family_order, mask_bit};

use crate::rows::{FamilyRow, arcs_order};
use crate::table::OrderedTable;
use crate::wildcard::{WildcardRow, best_of_alike, count_alike};
use crate::{Access, Mask};

/// The arcs that the mask compares are equal.
fn agrees(subtree: &[u32], mask: &Mask, variable: &[u32]) -> bool
    requires { length subtree.now ≤ length variable.now }
    ensures { IsTrue result
        ↔ ((k : ℕ) → k < length subtree.now → mask_bit mask.now k ≡ 1
        → slice_index subtree.now k ≡ slice_index variable.now k) }
{
    for (k, arc) in subtree.iter().enumerate() {
        if mask.compares(k) && *arc != variable[k] {
            return false;
        }
    }
    true
}

/// The row's subtree has the variable.
pub(crate) fn has_arcs(row: &FamilyRow, variable: &[u32]) -> bool
    ensures { IsTrue result ↔ HasArcs variable.now row.now }
{
    row.subtree.as_slice().len() <= variable.len()
        && agrees(row.subtree.as_slice(), &row.mask, variable)
}

/// Where the row of this subtree is, or else the first row after it, found by halving.
fn place_of(rows: &[FamilyRow], subtree: &[u32]) -> Result<usize, usize>
    requires { AreFalling family_order rows.now }
    ensures { MatchResult result
        (λ place. (place < length rows.now)
        × ((d : Family) → (get_or rows.now place d).subtree ≡ subtree.now))
        (λ place. (k : ℕ) (d : Family) → k < length rows.now
        → (k < place → arcs_order subtree.now (get_or rows.now k d).subtree ≡ Less)
        × (place ≤ k → arcs_order subtree.now (get_or rows.now k d).subtree ≡ Greater)) }
{
    rows.binary_search_by(|row| arcs_order(subtree, row.subtree.as_slice()))
}

/// One more than the arcs of the rows from this place on, or 0 where there is none.
fn arcs_from(rows: &[FamilyRow], place: usize) -> usize
    requires { AreFalling family_order rows.now }
    ensures { (k : ℕ) (d : Family) → place ≤ k → k < length rows.now
        → length (get_or rows.now k d).subtree < result }
{
    match rows.get(place) {
        Some(row) => row.subtree.as_slice().len() + 1,
        None => 0,
    }
}

/// Of rows whose masks compare each arc, the one whose subtree is the longest beginning of the variable. Only
/// those beginnings are looked up that are as long as a row.
fn best_of_exact<'a>(rows: &'a [FamilyRow], variable: &[u32]) -> Option<&'a FamilyRow>
    requires falling { AreFalling family_order rows.now }
    requires exact { AreExact rows.now }
    ensures { IsDecider variable.now rows.now result }
{
    let mut left = arcs_from(rows, 0).min(variable.len() + 1);
    while left > 0 {
        left -= 1;
        match place_of(rows, &variable[..left]) {
            Ok(place) => return Some(&rows[place]),
            Err(place) => left = left.min(arcs_from(rows, place)),
        }
    }
    None
}

/// Returns the better of two rows: the first decides among some rows, the second among others.
fn better<'a>(first: Option<&'a FamilyRow>, second: Option<&'a FamilyRow>) -> Option<&'a FamilyRow>
    ensures { (variable : List ℕ) (rows others : List Family) → IsDecider variable rows first.entry
        → IsDecider variable others second.entry → IsDecider variable (rows ++ others) result }
{
    let Some(one) = first else {
        return second;
    };
    let Some(other) = second else {
        return Some(one);
    };
    if one.order(other).is_lt() {
        Some(other)
    } else {
        Some(one)
    }
}

/// Returns true if no row of the rest can be better: there is none, or each is shorter than the row that was found.
fn is_decided(found: Option<&FamilyRow>, rest: &[WildcardRow]) -> bool
    requires { AreFalling wildcard_order rest.now }
    ensures { MatchBool result ((variable : List ℕ) (rows : List Family)
        → IsDecider variable rows found.entry
        → IsDecider variable (rows ++ rest.now) found.entry) (0 < length rest.now) }
{
    let Some(next) = rest.first() else {
        return true;
    };
    match found {
        Some(row) => next.length() < row.subtree.as_slice().len(),
        None => false,
    }
}

/// Returns the row that decides on the variable. The other rows are searched by length and mask, from the longest
/// down. The search ends when all that is left is shorter than the best row so far.
pub(crate) fn deciding_row<'a>(
    exact: &'a [FamilyRow],
    others: &'a [WildcardRow],
    variable: &[u32],
) -> Option<&'a FamilyRow>
    requires exact_falling { AreFalling family_order exact.now }
    requires others_falling { AreFalling wildcard_order others.now }
    requires are_exact { AreExact exact.now }
    ensures { IsDecider variable.now (exact.now ++ others.now) result }
{
    let mut found = best_of_exact(exact, variable);
    let mut rest = others;
    while !is_decided(found, rest) {
        let (alike, shorter) = rest.split_at(count_alike(rest));
        found = better(found, best_of_alike(alike, variable));
        rest = shorter;
    }
    found
}

/// The view has a name, and a row of either kind.
fn has_view(exact: &[FamilyRow], others: &[WildcardRow], view: &[u8]) -> bool
    ensures { IsTrue result ↔ ((view.now ≢ [])
        × ((0 < length exact.now) ⊎ (0 < length others.now))) }
{
    !view.is_empty() && !(exact.is_empty() && others.is_empty())
}

/// What a view says of a variable, and the row that decides.
#[derive(Clone, Copy)]
pub(crate) struct ViewAnswer<'a> {
    pub(crate) answer: Access,
    pub(crate) row: Option<&'a FamilyRow>,
}

/// What the view of this name says of the variable.
pub(crate) fn ask_view<'a>(
    exact: &'a OrderedTable<FamilyRow>,
    others: &'a OrderedTable<WildcardRow>,
    view: &[u8],
    variable: &[u32],
) -> ViewAnswer<'a>
    requires { AreExact exact.now }
    ensures answer { AnswersView (exact.now ++ others.now) view.now variable.now result.answer }
    ensures row { DecidesView (exact.now ++ others.now) view.now variable.now result.row }
{
    let exact = exact.rows_of(view);
    let others = others.rows_of(view);
    if !has_view(exact, others, view) {
        return ViewAnswer {
            answer: Access::NoSuchView,
            row: None,
        };
    }
    let Some(row) = deciding_row(exact, others, variable) else {
        return ViewAnswer {
            answer: Access::NotInView,
            row: None,
        };
    };
    ViewAnswer {
        answer: row.answer(),
        row: Some(row),
    }
}
