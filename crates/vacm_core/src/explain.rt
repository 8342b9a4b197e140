//! Where the rows that decide stand.
ghost use Rattle.std.specs.Prelude.{◌≡◌, true, Some, Contains, slice_get};
ghost use Rattle.vacm_core.specs.declared.rows.FamilyRow.{FamilyRow as Family};
ghost use Rattle.vacm_core.specs.Tables.{tables_of};
ghost use Rattle.vacm_core.specs.Distinct.{HasOneRowEach};
ghost use Rattle.vacm_core.specs.Steps.{DecidesFamily, DecidesView, DecidesAccess, DecidesGroup, DecidesContext};
ghost use Rattle.vacm_core.specs.Steps.{TellsFamily, TellsView, TellsAccess, TellsGroup, TellsContext, requester_of};

use crate::Name;
use crate::ask::Deciding;
use crate::row::TableRow;
use crate::rows::{FamilyRow, Rows};
use crate::steps::{AccessStep, Asking, ContextStep, GroupStep, ViewStep};

/// The position of the first row with the index of this one, which is among them.
fn position_of<R: TableRow>(rows: &[R], row: &R) -> usize
    requires { Contains rows.now row.now }
    ensures { (found : R) × (slice_get rows.now result ≡ Some found)
        × (R.is_same found row.now ≡ true) }
{
    for (position, other) in rows.iter().enumerate() {
        if other.has_index_of(row) {
            return position;
        }
    }
    unreachable!()
}

/// The position of the family row.
fn family_position(
    rows: &[FamilyRow],
    view: &[u8],
    variable: &[u32],
    family: Option<&FamilyRow>,
) -> Option<usize>
    requires one_each { (x y : Family) → Contains rows.now x → Contains rows.now y → x.view ≡ y.view
        → x.subtree ≡ y.subtree → x ≡ y }
    requires decides { DecidesFamily rows.now view.now variable.now family }
    ensures { TellsFamily rows.now view.now variable.now result }
{
    let row = family?;
    Some(position_of(rows, row))
}

/// The view of this name, where it is one.
fn view_step(
    rows: &[FamilyRow],
    name: &Name,
    variable: &[u32],
    family: Option<&FamilyRow>,
) -> Option<ViewStep>
    requires one_each { (x y : Family) → Contains rows.now x → Contains rows.now y → x.view ≡ y.view
        → x.subtree ≡ y.subtree → x ≡ y }
    requires decides { DecidesView rows.now name.now variable.now family }
    ensures { TellsView rows.now name.now variable.now result }
{
    let view = name.as_slice();
    if view.is_empty() {
        return None;
    }
    Some(ViewStep {
        name: name.copy(),
        family: family_position(rows, view, variable, family),
    })
}

/// The access row of the group, and what comes after it.
fn access_step(
    rows: &Rows,
    group: &Name,
    asking: &Asking<'_>,
    decided: &Deciding<'_>,
) -> Option<AccessStep>
    requires one_each { HasOneRowEach (tables_of rows.now) }
    requires decides { DecidesAccess (tables_of rows.now)
        (requester_of asking.now) asking.now.view asking.now.variable.now group.now decided.now }
    ensures { TellsAccess (tables_of rows.now)
        (requester_of asking.now) asking.now.view asking.now.variable.now group.now result }
{
    let row = decided.access?;
    let name = row.view(asking.view);
    Some(AccessStep {
        position: position_of(&rows.access, row),
        view: view_step(&rows.families, name, asking.variable, decided.family),
    })
}

/// The group, and what comes after it.
fn group_step(rows: &Rows, asking: &Asking<'_>, decided: &Deciding<'_>) -> Option<GroupStep>
    requires one_each { HasOneRowEach (tables_of rows.now) }
    requires decides { DecidesGroup (tables_of rows.now)
        (requester_of asking.now) asking.now.view asking.now.variable.now decided.now }
    ensures { TellsGroup (tables_of rows.now)
        (requester_of asking.now) asking.now.view asking.now.variable.now result }
{
    let row = decided.group?;
    Some(GroupStep {
        position: position_of(&rows.groups, row),
        name: row.group.copy(),
        access: access_step(rows, &row.group, asking, decided),
    })
}

/// The context, and what comes after it.
pub(crate) fn context_step(
    rows: &Rows,
    asking: &Asking<'_>,
    decided: &Deciding<'_>,
) -> Option<ContextStep>
    requires one_each { HasOneRowEach (tables_of rows.now) }
    requires decides { DecidesContext (tables_of rows.now)
        (requester_of asking.now) asking.now.view asking.now.variable.now decided.now }
    ensures { TellsContext (tables_of rows.now)
        (requester_of asking.now) asking.now.view asking.now.variable.now result }
{
    let row = decided.context?;
    Some(ContextStep {
        position: position_of(&rows.contexts, row),
        group: group_step(rows, asking, decided),
    })
}
