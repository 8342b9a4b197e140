//! The rows of a view, from the least up, and those of them that decide.

ghost use Rattle.std.specs.Prelude.{◌≡◌, ◌≢◌, IfOk, OnOk, MatchBool, MatchOption, Contains};
ghost use Rattle.std.specs.List.Sorted.{IsSorted, IsPermutation};
ghost use Rattle.vacm_core.specs.declared.rows.FamilyRow.{FamilyRow as ARow};
ghost use Rattle.vacm_core.specs.Allowed.{family_order as spec_order};
ghost use Rattle.vacm_core.specs.View.{AreExact};
ghost use Rattle.snmpsec_access.specs.Seen.{rows_of};
ghost use Rattle.snmpsec_access.specs.Rising.{AreRising, AreLeft, AreKept, IsNext, rows_at, saying};

use std::alloc::{AllocError, Global};
use vacm_core::{FamilyRow, arcs_order};

/// Each mask compares each arc.
fn are_exact(rows: &[&FamilyRow]) -> bool
    ensures { MatchBool result (AreExact (rows_at rows.now)) (¬ AreExact (rows_at rows.now)) }
{
    for row in rows {
        if !row.is_exact() {
            return false;
        }
    }
    true
}

/// The rows of the view.
fn view_rows<'a>(
    alloc: Global,
    rows: &'a [FamilyRow],
    view: &[u8],
) -> Result<Vec<&'a FamilyRow>, AllocError>
    ensures { IfOk result (λ picked. rows_at picked.items ≡ rows_of rows.now view.now) }
{
    let mut picked = Vec::new(alloc);
    for row in rows {
        if row.view.as_slice() == view {
            picked.push(row)?;
        }
    }
    Ok(picked)
}

/// Puts the rows in their order, the least first.
fn sort_rising(rows: &mut Vec<&FamilyRow>) -> Result<(), AllocError>
    ensures moved { IsPermutation (rows_at rows.old.items) (rows_at rows.new.items) }
    ensures rising { OnOk result (IsSorted spec_order (rows_at rows.new.items)) }
{
    rows.sort_by(|a, b| a.order(b))
}

/// The rows of the view, from the least up.
pub(crate) fn rising_rows<'a>(
    alloc: Global,
    rows: &'a [FamilyRow],
    view: &[u8],
) -> Result<Vec<&'a FamilyRow>, AllocError>
    ensures { IfOk result (λ picked. AreRising rows.now view.now (rows_at picked.items)) }
{
    let mut picked = view_rows(alloc, rows, view)?;
    sort_rising(&mut picked)?;
    Ok(picked)
}

/// Returns the row with this subtree. A binary search finds it.
fn row_at<'a>(rows: &[&'a FamilyRow], subtree: &[u32]) -> Option<&'a FamilyRow>
    requires { IsSorted spec_order (rows_at rows.now) }
    ensures { MatchOption result ((row : ARow) → Contains (rows_at rows.now) row
        → row.subtree ≢ subtree.now)
        (λ row. Contains (rows_at rows.now) row.now × (row.now.subtree ≡ subtree.now)) }
{
    let found = rows.binary_search_by(|row| arcs_order(row.subtree.as_slice(), subtree));
    match found {
        Ok(place) => Some(rows[place]),
        Err(_) => None,
    }
}

/// Returns what the last row says whose subtree begins the variable. It is the longest, so the beginnings of the
/// variable are looked up from the longest down.
fn says(rows: &[&FamilyRow], variable: &[u32]) -> bool
    requires exact { AreExact (rows_at rows.now) }
    requires rising { IsSorted spec_order (rows_at rows.now) }
    requires one_each { (x y : ARow) → Contains (rows_at rows.now) x → Contains (rows_at rows.now) y
        → x.subtree ≡ y.subtree → x ≡ y }
    ensures { result ≡ saying (rows_at rows.now) variable.now }
{
    let mut left = variable.len() + 1;
    while left > 0 {
        left -= 1;
        if let Some(row) = row_at(rows, &variable[..left]) {
            return row.include;
        }
    }
    false
}

/// Keeps the row, where it says something that those before it don't.
fn keep_needed<'a>(kept: &mut Vec<&'a FamilyRow>, row: &'a FamilyRow) -> Result<(), AllocError>
    requires exact { AreExact (rows_at kept.old.items) }
    requires rising { IsSorted spec_order (rows_at kept.old.items) }
    requires one_each { (x y : ARow) → Contains (rows_at kept.old.items) x
        → Contains (rows_at kept.old.items) y
        → x.subtree ≡ y.subtree → x ≡ y }
    ensures { OnOk result (IsNext (rows_at kept.old.items) row.now (rows_at kept.new.items)) }
{
    if says(kept, row.subtree.as_slice()) == row.include {
        return Ok(());
    }
    kept.push(row)?;
    Ok(())
}

/// Those of the rows that change an answer, where none has a wildcard.
fn needed_of_exact<'a>(
    alloc: Global,
    rows: &[&'a FamilyRow],
) -> Result<Vec<&'a FamilyRow>, AllocError>
    requires exact { AreExact (rows_at rows.now) }
    requires rising { IsSorted spec_order (rows_at rows.now) }
    requires one_each { (x y : ARow) → Contains (rows_at rows.now) x → Contains (rows_at rows.now) y
        → x.subtree ≡ y.subtree → x ≡ y }
    ensures { IfOk result (λ kept. AreLeft (rows_at rows.now) (rows_at kept.items)) }
{
    let mut kept = Vec::new(alloc);
    for row in rows {
        keep_needed(&mut kept, row)?;
    }
    Ok(kept)
}

/// The rows whose lines are printed: those that are needed, or all of them where one has a wildcard.
pub(crate) fn needed_rows<'a>(
    alloc: Global,
    rows: Vec<&'a FamilyRow>,
) -> Result<Vec<&'a FamilyRow>, AllocError>
    requires rising { IsSorted spec_order (rows_at rows.items) }
    requires one_each { (x y : ARow) → Contains (rows_at rows.items) x
        → Contains (rows_at rows.items) y
        → x.subtree ≡ y.subtree → x ≡ y }
    ensures { IfOk result (λ kept. AreKept (rows_at rows.entry.items) (rows_at kept.items)) }
{
    if !are_exact(&rows) {
        return Ok(rows);
    }
    needed_of_exact(alloc, &rows)
}
