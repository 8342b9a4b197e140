//! What decides on a question over the four tables.
ghost use Rattle.std.specs.Prelude.{◌≡◌, ◌++◌, MatchOption, Contains};
ghost use Rattle.vacm_core.specs.Tables.{four_tables};
ghost use Rattle.vacm_core.specs.View.{AreExact};
ghost use Rattle.vacm_core.specs.Allowed.{Allowed, HasContext, IsGroupRow, IsBestOf, NoneFits, FitsMessage};
ghost use Rattle.vacm_core.specs.Allowed.{access_order};
ghost use Rattle.vacm_core.specs.Steps.{HasNoGroup, DecidesContext, requester_of};

use crate::Access;
use crate::rows::{AccessRow, ContextRow, FamilyRow, GroupRow};
use crate::steps::Asking;
use crate::table::OrderedTable;
use crate::view::ask_view;
use crate::wildcard::WildcardRow;
use snmp_ber::Level;

/// The row of the context of this name.
pub(crate) fn context_row<'a>(
    rows: &'a OrderedTable<ContextRow>,
    context: &[u8],
) -> Option<&'a ContextRow>
    ensures { MatchOption result (¬ HasContext rows.now context.now)
        (λ row. Contains rows.now row.now × (row.now.name ≡ context.now)) }
{
    rows.rows_of(context).first()
}

/// The row that has the security name's group under the model.
fn group_of<'a>(rows: &'a OrderedTable<GroupRow>, model: u32, name: &[u8]) -> Option<&'a GroupRow>
    ensures { MatchOption result (HasNoGroup rows.now model name.now)
        (λ row. Contains rows.now row.now × IsGroupRow model name.now row.now) }
{
    let run = rows.rows_of(name);
    for row in run {
        if row.model == model {
            return Some(row);
        }
    }
    None
}

/// The best of the group's rows that match: they stand from the best down.
fn best_row<'a>(
    rows: &'a OrderedTable<AccessRow>,
    group: &[u8],
    model: u32,
    level: Level,
    context: &[u8],
) -> Option<&'a AccessRow>
    ensures { MatchOption result (NoneFits rows.now (FitsMessage group.now model level context.now))
        (λ row. IsBestOf rows.now (FitsMessage group.now model level context.now)
        access_order row.now) }
{
    let run = rows.rows_of(group);
    for row in run {
        if row.fits_message(model, level, context) {
            return Some(row);
        }
    }
    None
}

/// What decides on a question: its answer, and each row, as far as it comes.
#[derive(Clone, Copy)]
pub(crate) struct Deciding<'a> {
    pub(crate) answer: Access,
    pub(crate) context: Option<&'a ContextRow>,
    pub(crate) group: Option<&'a GroupRow>,
    pub(crate) access: Option<&'a AccessRow>,
    pub(crate) family: Option<&'a FamilyRow>,
}

/// What decides over the tables.
pub(crate) fn decide_over<'a>(
    contexts: &'a OrderedTable<ContextRow>,
    groups: &'a OrderedTable<GroupRow>,
    access: &'a OrderedTable<AccessRow>,
    exact: &'a OrderedTable<FamilyRow>,
    others: &'a OrderedTable<WildcardRow>,
    asking: &Asking<'_>,
) -> Deciding<'a>
    requires { AreExact exact.now }
    ensures answer { Allowed (four_tables contexts.now groups.now access.now
        (exact.now ++ others.now))
        (requester_of asking.now) asking.now.view asking.now.variable.now result.answer }
    ensures rows { DecidesContext (four_tables contexts.now groups.now access.now
        (exact.now ++ others.now))
        (requester_of asking.now) asking.now.view asking.now.variable.now result }
{
    let mut found = Deciding {
        answer: Access::NoSuchContext,
        context: None,
        group: None,
        access: None,
        family: None,
    };
    let Some(context) = context_row(contexts, asking.context) else {
        return found;
    };
    found.context = Some(context);
    found.answer = Access::NoGroupName;
    let Some(group) = group_of(groups, asking.model, asking.name) else {
        return found;
    };
    found.group = Some(group);
    found.answer = Access::NoAccessEntry;
    let group = group.group.as_slice();
    let Some(row) = best_row(access, group, asking.model, asking.level, asking.context) else {
        return found;
    };
    found.access = Some(row);
    let view = row.view(asking.view).as_slice();
    let viewed = ask_view(exact, others, view, asking.variable);
    found.answer = viewed.answer;
    found.family = viewed.row;
    found
}
