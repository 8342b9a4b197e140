//! The hints of a configuration, row by row.

ghost use Rattle.std.specs.Prelude.{◌≡◌, ◌++◌, IfOk, OnOk};
ghost use Rattle.vacm_core.specs.Allowed.{view_name};
ghost use Rattle.vacm_core.specs.Tables.{tables_of};
ghost use Rattle.snmpsec_access.specs.Hints.{all_told, if_so, is_write_without_auth, user_hints, group_hints};
ghost use Rattle.snmpsec_access.specs.Hints.{view_hint, view_hints, access_hints, family_hints, of_each, hints_of};
ghost use Rattle.snmpsec_access.specs.Known.{IsKnown, users_of, rows_of};

use crate::hint::{Hint, Oddity};
use crate::known::Known;
use snmp_ber::Level;
use snmp_message::USER_BASED;
use snmpsec_config::ConfigRows;
use std::alloc::{AllocError, Global};
use usm_users::UserRow;
use vacm_core::{AccessRow, FamilyRow, GroupRow, Name, ViewType};

/// Adds the hint, where it is one.
fn put_if<'a>(
    hints: &mut Vec<Hint<'a>>,
    is_odd: bool,
    what: Oddity,
    position: usize,
    name: &'a [u8],
) -> Result<(), AllocError>
    ensures { OnOk result (all_told hints.new.items
        ≡ all_told hints.old.items ++ if_so is_odd what position name.now) }
{
    if is_odd {
        hints.push(Hint {
            what,
            position,
            name,
        })?;
    }
    Ok(())
}

/// Adds the hints of a user.
fn put_user<'a>(
    hints: &mut Vec<Hint<'a>>,
    known: &Known<'a>,
    position: usize,
    row: &'a UserRow,
) -> Result<(), AllocError>
    requires { IsKnown known.now }
    ensures { OnOk result
        (all_told hints.new.items
        ≡ all_told hints.old.items ++ user_hints (rows_of known.now) (position, row.now)) }
{
    let name = row.name.as_slice();
    let is_odd = !known.grouped.has(name);
    put_if(hints, is_odd, Oddity::UserWithoutGroup, position, name)
}

/// Adds the hints of a group row.
fn put_group<'a>(
    hints: &mut Vec<Hint<'a>>,
    known: &Known<'a>,
    position: usize,
    row: &'a GroupRow,
) -> Result<(), AllocError>
    requires { IsKnown known.now }
    ensures { OnOk result
        (all_told hints.new.items
        ≡ all_told hints.old.items ++ group_hints (users_of known.now)
        (rows_of known.now) (position, row.now)) }
{
    let (group, name) = (row.group.as_slice(), row.name.as_slice());
    let is_idle = !known.with_access.has(group);
    put_if(hints, is_idle, Oddity::GroupWithoutAccess, position, group)?;
    let is_nobody = row.model == USER_BASED && !known.users.has(name);
    put_if(hints, is_nobody, Oddity::NameWithoutUser, position, name)
}

/// The name of one of a row's views.
fn view_of(row: &AccessRow, view: ViewType) -> &Name
    ensures { result.now ≡ view_name view row.now }
{
    match view {
        ViewType::Read => &row.read,
        ViewType::Write => &row.write,
        ViewType::Notify => &row.notify,
    }
}

/// Adds the hint on one of an access row's views.
fn put_view<'a>(
    hints: &mut Vec<Hint<'a>>,
    known: &Known<'a>,
    view: ViewType,
    position: usize,
    row: &'a AccessRow,
) -> Result<(), AllocError>
    requires { IsKnown known.now }
    ensures { OnOk result
        (all_told hints.new.items
        ≡ all_told hints.old.items ++ view_hint (rows_of known.now) view (position, row.now)) }
{
    let name = view_of(row, view).as_slice();
    let is_odd = !name.is_empty() && !known.with_family.has(name);
    put_if(
        hints,
        is_odd,
        Oddity::ViewWithoutFamily(view),
        position,
        name,
    )
}

/// Adds the hints on an access row's views.
fn put_views<'a>(
    hints: &mut Vec<Hint<'a>>,
    known: &Known<'a>,
    position: usize,
    row: &'a AccessRow,
) -> Result<(), AllocError>
    requires { IsKnown known.now }
    ensures { OnOk result
        (all_told hints.new.items
        ≡ all_told hints.old.items ++ view_hints (rows_of known.now) (position, row.now)) }
{
    put_view(hints, known, ViewType::Read, position, row)?;
    put_view(hints, known, ViewType::Write, position, row)?;
    put_view(hints, known, ViewType::Notify, position, row)
}

/// Whether the row lets a message write that nobody has authenticated.
fn writes_without_auth(row: &AccessRow) -> bool
    ensures { result ≡ is_write_without_auth row.now }
{
    row.level == Level::NoAuthNoPriv && !row.write.as_slice().is_empty()
}

/// Adds the hints of an access row.
fn put_access<'a>(
    hints: &mut Vec<Hint<'a>>,
    known: &Known<'a>,
    position: usize,
    row: &'a AccessRow,
) -> Result<(), AllocError>
    requires { IsKnown known.now }
    ensures { OnOk result
        (all_told hints.new.items
        ≡ all_told hints.old.items ++ access_hints (rows_of known.now) (position, row.now)) }
{
    let (group, write) = (row.group.as_slice(), row.write.as_slice());
    let is_nobody = !known.groups.has(group);
    put_if(hints, is_nobody, Oddity::GroupWithoutName, position, group)?;
    put_views(hints, known, position, row)?;
    let is_open = writes_without_auth(row);
    put_if(hints, is_open, Oddity::WriteWithoutAuth, position, write)
}

/// Adds the hints of a family row.
fn put_family<'a>(
    hints: &mut Vec<Hint<'a>>,
    known: &Known<'a>,
    position: usize,
    row: &'a FamilyRow,
) -> Result<(), AllocError>
    requires { IsKnown known.now }
    ensures { OnOk result
        (all_told hints.new.items
        ≡ all_told hints.old.items ++ family_hints (rows_of known.now) (position, row.now)) }
{
    let view = row.view.as_slice();
    let is_odd = !known.named.has(view);
    put_if(hints, is_odd, Oddity::ViewWithoutAccess, position, view)
}

/// Adds the hints of the users.
fn put_users<'a>(hints: &mut Vec<Hint<'a>>, known: &Known<'a>) -> Result<(), AllocError>
    requires { IsKnown known.now }
    ensures { OnOk result
        (all_told hints.new.items
        ≡ all_told hints.old.items ++ of_each (user_hints (rows_of known.now))
        (users_of known.now)) }
{
    for (position, row) in known.rows.users.iter().enumerate() {
        put_user(hints, known, position, row)?;
    }
    Ok(())
}

/// Adds the hints of the group rows.
fn put_groups<'a>(hints: &mut Vec<Hint<'a>>, known: &Known<'a>) -> Result<(), AllocError>
    requires { IsKnown known.now }
    ensures { OnOk result
        (all_told hints.new.items
        ≡ all_told hints.old.items
        ++ of_each (group_hints (users_of known.now) (rows_of known.now)) (rows_of known.now).groups) }
{
    for (position, row) in known.rows.access.groups.iter().enumerate() {
        put_group(hints, known, position, row)?;
    }
    Ok(())
}

/// Adds the hints of the access rows.
fn put_accesses<'a>(hints: &mut Vec<Hint<'a>>, known: &Known<'a>) -> Result<(), AllocError>
    requires { IsKnown known.now }
    ensures { OnOk result
        (all_told hints.new.items
        ≡ all_told hints.old.items ++ of_each (access_hints (rows_of known.now))
        (rows_of known.now).access) }
{
    for (position, row) in known.rows.access.access.iter().enumerate() {
        put_access(hints, known, position, row)?;
    }
    Ok(())
}

/// Adds the hints of the family rows.
fn put_families<'a>(hints: &mut Vec<Hint<'a>>, known: &Known<'a>) -> Result<(), AllocError>
    requires { IsKnown known.now }
    ensures { OnOk result
        (all_told hints.new.items
        ≡ all_told hints.old.items ++ of_each (family_hints (rows_of known.now))
        (rows_of known.now).families) }
{
    for (position, row) in known.rows.access.families.iter().enumerate() {
        put_family(hints, known, position, row)?;
    }
    Ok(())
}

/// What isn't a fault in the rows and is probably a mistake: the tables in their order, the rows of each from 0, and of
/// one row in the order of `Oddity`. Each name is looked up once. The error is out of memory.
pub fn hints<'a>(alloc: Global, rows: &'a ConfigRows) -> Result<Vec<Hint<'a>>, AllocError>
    ensures { IfOk result (λ made. all_told made.items
        ≡ hints_of rows.now.users.items (tables_of rows.now.access)) }
{
    let known = Known::of(alloc, rows)?;
    let mut hints = Vec::new(alloc);
    put_users(&mut hints, &known)?;
    put_groups(&mut hints, &known)?;
    put_accesses(&mut hints, &known)?;
    put_families(&mut hints, &known)?;
    Ok(hints)
}
