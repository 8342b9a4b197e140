//! Who may see a variable, or some name at or below it.

ghost use Rattle.std.specs.Prelude.{◌≡◌, ◌∷◌, [], map, OnOk, IfOk, MatchBool};
ghost use Rattle.vacm_core.specs.Allowed.{Allowed};
ghost use Rattle.vacm_core.specs.Tables.{tables_of};
ghost use Rattle.vacm_core.specs.declared.access.Access.TheVariants.{AccessAllowed};
ghost use Rattle.snmpsec_access.specs.Askers.{asker, of_group, of_view};
ghost use Rattle.snmpsec_access.specs.Extent.{SeesWanted, SeesBelow};
ghost use Rattle.snmpsec_access.specs.declared.extent.Extent.TheVariants.{Below};
ghost use Rattle.snmpsec_access.specs.UserPlaces.{AreFirstPlaces};
ghost use Rattle.snmpsec_access.specs.WhoSees.{AreSeeing, IsWanted, IsReady, SeesIt, GoesOn, asker_of};

use crate::extent::{Extent, sees_below};
use crate::users::{first_places, has_user_at};
use snmp_ber::{Level, Oid};
use snmp_message::USER_BASED;
use std::alloc::{AllocError, Global};
use std::collections::BTreeMap;
use usm_users::UserRow;
use vacm_core::laws::order_is_free;
use vacm_core::{Access, Asking, ContextRow, GroupRow, Rows, Vacm, ViewType};

/// What is asked for, in which configuration, and whether only its users are wanted.
#[derive(Clone, Copy)]
pub struct WhoSeesQuery<'a> {
    /// The tables of the rows.
    pub access: &'a Vacm,
    pub rows: &'a Rows,
    pub users: &'a [UserRow],
    /// Whether only names are wanted that are users' and support the level.
    pub only_users: bool,
    /// Whether the variable is asked for, or names at or below it.
    pub extent: Extent,
    pub variable: &'a Oid,
}

/// Who asks, for which view and in which context.
#[derive(Clone, Copy)]
pub struct AllowedAsker<'a> {
    pub model: u32,
    pub name: &'a [u8],
    pub level: Level,
    pub view: ViewType,
    pub context: &'a [u8],
}

/// The name of the group row is wanted at this level.
fn is_wanted(
    wanted: &WhoSeesQuery<'_>,
    places: &BTreeMap<&[u8], usize>,
    group: &GroupRow,
    level: Level,
) -> bool
    requires { AreFirstPlaces wanted.now.users.now places.now }
    ensures { let is_wanted = IsWanted wanted.now.only_users wanted.now.users.now
        group.now.model group.now.name level
        in MatchBool result is_wanted (¬ is_wanted) }
{
    if !wanted.only_users {
        return true;
    }
    group.model == USER_BASED && has_user_at(wanted.users, places, group.name.as_slice(), level)
}

/// The question is answered accessAllowed.
fn is_allowed(
    wanted: &WhoSeesQuery<'_>,
    view: ViewType,
    group: &GroupRow,
    level: Level,
    context: &ContextRow,
) -> bool
    requires { IsReady wanted.now }
    ensures { let allowed = Allowed (tables_of wanted.now.rows.now)
        (asker view group.now level context.now).message view
        wanted.now.variable.now AccessAllowed in
        MatchBool result allowed (¬ allowed) }
{
    let answer = wanted.access.is_access_allowed(
        group.model,
        group.name.as_slice(),
        level,
        view,
        context.name.as_slice(),
        wanted.variable,
    );
    matches!(answer, Access::AccessAllowed)
}

/// Some name at or below the variable is answered accessAllowed.
fn is_allowed_below(
    wanted: &WhoSeesQuery<'_>,
    view: ViewType,
    group: &GroupRow,
    level: Level,
    context: &ContextRow,
) -> bool
    requires ready { IsReady wanted.now }
    requires below { wanted.now.extent ≡ Below }
    ensures { let below = SeesBelow (tables_of wanted.now.rows.now)
        (asker view group.now level context.now).message view wanted.now.variable.now
        in MatchBool result below (¬ below) }
{
    order_is_free();
    let asking = Asking {
        model: group.model,
        name: group.name.as_slice(),
        level,
        context: context.name.as_slice(),
        view,
        variable: wanted.variable.as_slice(),
    };
    sees_below(wanted.access, &asking)
}

/// What is asked for is answered accessAllowed.
fn sees_wanted(
    wanted: &WhoSeesQuery<'_>,
    view: ViewType,
    group: &GroupRow,
    level: Level,
    context: &ContextRow,
) -> bool
    requires { IsReady wanted.now }
    ensures { let seen = SeesWanted (tables_of wanted.now.rows.now) wanted.now.extent
        (asker view group.now level context.now).message view wanted.now.variable.now
        in MatchBool result seen (¬ seen) }
{
    match wanted.extent {
        Extent::Variable => is_allowed(wanted, view, group, level, context),
        Extent::Below => is_allowed_below(wanted, view, group, level, context),
    }
}

/// Appends who asks, where what is asked for is answered accessAllowed.
fn put_allowed<'a>(
    out: &mut Vec<AllowedAsker<'a>>,
    wanted: &WhoSeesQuery<'a>,
    view: ViewType,
    group: &'a GroupRow,
    level: Level,
    context: &'a ContextRow,
) -> Result<(), AllocError>
    requires ready { IsReady wanted.now }
    requires wanted { IsWanted wanted.now.only_users wanted.now.users.now
        group.now.model group.now.name level }
    ensures { OnOk result
        (GoesOn (SeesIt wanted.now) (asker view group.now level context.now ∷ [])
        (map asker_of out.old.items) (map asker_of out.new.items)) }
{
    if !sees_wanted(wanted, view, group, level, context) {
        return Ok(());
    }
    out.push(AllowedAsker {
        model: group.model,
        name: group.name.as_slice(),
        level,
        view,
        context: context.name.as_slice(),
    })?;
    Ok(())
}

/// Appends those of the contexts.
fn put_level<'a>(
    out: &mut Vec<AllowedAsker<'a>>,
    wanted: &WhoSeesQuery<'a>,
    places: &BTreeMap<&[u8], usize>,
    view: ViewType,
    group: &'a GroupRow,
    level: Level,
) -> Result<(), AllocError>
    requires ready { IsReady wanted.now }
    requires places { AreFirstPlaces wanted.now.users.now places.now }
    ensures { OnOk result
        (GoesOn (SeesIt wanted.now)
        (map (asker view group.now level) wanted.now.rows.now.contexts.items)
        (map asker_of out.old.items) (map asker_of out.new.items)) }
{
    if !is_wanted(wanted, places, group, level) {
        return Ok(());
    }
    for context in &wanted.rows.contexts {
        put_allowed(out, wanted, view, group, level, context)?;
    }
    Ok(())
}

/// Appends those of the levels.
fn put_group<'a>(
    out: &mut Vec<AllowedAsker<'a>>,
    wanted: &WhoSeesQuery<'a>,
    places: &BTreeMap<&[u8], usize>,
    view: ViewType,
    group: &'a GroupRow,
) -> Result<(), AllocError>
    requires ready { IsReady wanted.now }
    requires places { AreFirstPlaces wanted.now.users.now places.now }
    ensures { OnOk result
        (GoesOn (SeesIt wanted.now)
        (of_group wanted.now.rows.now.contexts.items view group.now)
        (map asker_of out.old.items) (map asker_of out.new.items)) }
{
    put_level(out, wanted, places, view, group, Level::NoAuthNoPriv)?;
    put_level(out, wanted, places, view, group, Level::AuthNoPriv)?;
    put_level(out, wanted, places, view, group, Level::AuthPriv)
}

/// Appends those of the group rows.
fn put_view<'a>(
    out: &mut Vec<AllowedAsker<'a>>,
    wanted: &WhoSeesQuery<'a>,
    places: &BTreeMap<&[u8], usize>,
    view: ViewType,
) -> Result<(), AllocError>
    requires ready { IsReady wanted.now }
    requires places { AreFirstPlaces wanted.now.users.now places.now }
    ensures { OnOk result
        (GoesOn (SeesIt wanted.now) (of_view (tables_of wanted.now.rows.now) view)
        (map asker_of out.old.items) (map asker_of out.new.items)) }
{
    for group in &wanted.rows.groups {
        put_group(out, wanted, places, view, group)?;
    }
    Ok(())
}

/// Who may see the variable, or some name at or below it, as it is asked: who asks each question of it that is
/// answered accessAllowed, by the view, then the group row, then the level, then the context row, rows by their
/// positions.
///
/// No others are asked for than the names that group rows have, in the contexts that there are, since each other
/// question is answered noGroupName or noSuchContext. For v views, g group rows and c contexts 3vgc questions
/// are asked. Each looks its name up among the users' once. The error is out of memory.
pub fn who_sees<'a>(
    alloc: Global,
    wanted: &WhoSeesQuery<'a>,
    views: &[ViewType],
) -> Result<Vec<AllowedAsker<'a>>, AllocError>
    requires { IsReady wanted.now }
    ensures { IfOk result
        (λ seeing. AreSeeing (tables_of wanted.now.rows.now) views.now
        wanted.now.only_users wanted.now.users.now wanted.now.extent
        wanted.now.variable.now (map asker_of seeing.items)) }
{
    let places = first_places(alloc, wanted.users)?;
    let mut out = Vec::new(alloc);
    for view in views {
        put_view(&mut out, wanted, &places, *view)?;
    }
    Ok(out)
}
