//! The users of a configuration, by their rows.

ghost use Rattle.std.specs.Prelude.{◌≡◌, map, find, MatchBool, IfOk};
ghost use Rattle.std.specs.Option.{option_copied};
ghost use Rattle.usm_users.specs.Rows.{has_name, user_of};
ghost use Rattle.usm_users.specs.Users as spec;
ghost use Rattle.usm_users.specs.Users.{HasUserAt};
ghost use Rattle.snmpsec_access.specs.UserPlaces.{AreFirstPlaces};

use snmp_ber::Level;
use std::alloc::{AllocError, Global};
use std::collections::BTreeMap;
use usm_users::UserRow;

/// The row has the passwords that the level needs.
fn supports(row: &UserRow, level: Level) -> bool
    ensures { result ≡ spec.supports (user_of row.now) level }
{
    match level {
        Level::NoAuthNoPriv => true,
        Level::AuthNoPriv => row.auth.is_some(),
        Level::AuthPriv => row.auth.is_some() && row.privacy.is_some(),
    }
}

/// Where the first row of each name is.
///
/// The error is out of memory.
pub(crate) fn first_places<'a>(
    alloc: Global,
    users: &'a [UserRow],
) -> Result<BTreeMap<&'a [u8], usize>, AllocError>
    ensures { IfOk result (AreFirstPlaces users.now) }
{
    let mut places = BTreeMap::new(alloc);
    let mut at = users.len();
    'rows: while at > 0 {
        at -= 1;
        places.insert(users[at].name.as_slice(), at)?;
    }
    Ok(places)
}

/// The first row of this name.
fn row_of<'a>(
    users: &'a [UserRow],
    places: &BTreeMap<&[u8], usize>,
    name: &[u8],
) -> Option<&'a UserRow>
    requires { AreFirstPlaces users.now places.now }
    ensures { option_copied result ≡ find (has_name name.now) users.now }
{
    match places.get(name) {
        Some(place) => users.get(*place),
        None => None,
    }
}

/// There is a user of this name that supports the level.
pub(crate) fn has_user_at(
    users: &[UserRow],
    places: &BTreeMap<&[u8], usize>,
    name: &[u8],
    level: Level,
) -> bool
    requires { AreFirstPlaces users.now places.now }
    ensures { MatchBool result (HasUserAt (map user_of users.now) name.now level)
        (¬ HasUserAt (map user_of users.now) name.now level) }
{
    match row_of(users, places, name) {
        Some(row) => supports(row, level),
        None => false,
    }
}
