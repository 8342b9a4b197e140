//! What decides on every variable, for a question of a name.

ghost use Rattle.std.specs.Prelude.{◌≡◌, ◌≢◌, [], IfOk, Contains};
ghost use Rattle.vacm_core.specs.declared.rows.FamilyRow.{FamilyRow as ARow};
ghost use Rattle.vacm_core.specs.Tables.{tables_of, HaveSameRows};
ghost use Rattle.vacm_core.specs.Distinct.{HasOneRowEach};
ghost use Rattle.std.specs.List.{list_any};
ghost use Rattle.snmpsec_access.specs.Seen.{IsDecision, includes};
ghost use Rattle.snmpsec_access.specs.Rising.{IsOfView, asker_of, decision_of};

use crate::subtrees::{needed_rows, rising_rows};
use std::alloc::{AllocError, Global};
use vacm_core::{Access, Asking, FamilyRow, Rows, Vacm};

/// What decides on every variable, for a question of a name.
#[derive(Drop)]
pub enum Deciding<'a> {
    /// Each variable gets this answer, and no view is looked at.
    Refusal(Access),
    /// The last of these rows that fits a variable decides on it: one that includes says accessAllowed, and one that
    /// doesn't says notInView (RFC 3415, section 3). If none fits, notInView is the answer.
    Rows(Vec<&'a FamilyRow>),
}

/// One of the rows includes what fits it.
fn any_row_includes(rows: &[&FamilyRow]) -> bool
    ensures { result ≡ list_any (λ row. row.now.include) rows.now }
{
    rows.iter().any(|row| row.include)
}

impl Deciding<'_> {
    /// A row includes what fits it.
    pub fn includes(&self) -> bool
        ensures { result ≡ includes (decision_of self.now) }
    {
        match self {
            Deciding::Refusal(_) => false,
            Deciding::Rows(rows) => any_row_includes(rows),
        }
    }
}

/// The answer for a view.
fn deciding_of_view<'a>(
    alloc: Global,
    rows: &'a [FamilyRow],
    view: &[u8],
) -> Result<Deciding<'a>, AllocError>
    requires named { view.now ≢ [] }
    requires one_each { (x y : ARow) → Contains rows.now x → Contains rows.now y → x.view ≡ y.view
        → x.subtree ≡ y.subtree → x ≡ y }
    ensures { IfOk result (λ deciding. IsOfView rows.now view.now (decision_of deciding)) }
{
    let rising = rising_rows(alloc, rows, view)?;
    if rising.is_empty() {
        return Ok(Deciding::Refusal(Access::NoSuchView));
    }
    let needed = needed_rows(alloc, rising)?;
    Ok(Deciding::Rows(needed))
}

/// The answer to a question: the first answer that applies, or the rows of its view that decide. The
/// variable isn't looked at.
pub(crate) fn deciding_of<'a>(
    alloc: Global,
    access: &Vacm,
    rows: &'a Rows,
    asking: &Asking<'_>,
) -> Result<Deciding<'a>, AllocError>
    requires one_each { HasOneRowEach (tables_of rows.now) }
    requires same_rows { HaveSameRows (tables_of rows.now) access.now }
    ensures { IfOk result (λ deciding. IsDecision (tables_of rows.now)
        (asker_of asking.now) (decision_of deciding)) }
{
    match access.view_of(asking) {
        Ok(view) => deciding_of_view(alloc, &rows.families, view.as_slice()),
        Err(answer) => Ok(Deciding::Refusal(answer)),
    }
}
