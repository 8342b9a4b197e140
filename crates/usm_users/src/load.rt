//! Rows of users, and the users that they make.

ghost use Rattle.std.specs.Prelude.{◌≡◌, ◌≤◌, false, List, map, length, IfOk, IfErr, OnOk, MatchOption};
ghost use Rattle.std.specs.List.{list_any};
ghost use Rattle.usm_users.specs.declared.load.UserRow.{UserRow as ARow};
ghost use Rattle.usm_users.specs.Rows as spec;
ghost use Rattle.usm_users.specs.Rows.{is_bad_user, has_short_password, has_name, AreSound, IsFirstFault, IsTold};
ghost use Rattle.usm_users.specs.Index.{IsIndex};

use crate::credentials::Credentials;
use crate::user::{User, UserName};
use crate::user_table::UserTable;
use std::alloc::{AllocError, Global};
use std::collections::HashMap;
use thiserror::Error;
use usm_keys::{Auth, Key, MIN_PASSWORD, password_key};

/// The most octets of a user's name (RFC 3414, section 2.4).
const MAX_NAME: usize = 32;

/// A user: a name of 1 to 32 octets, and passwords of at least 8. A user with a privacy password has one for
/// authentication too, and both keys are made with the hash that is given beside that.
#[derive(Drop)]
pub struct UserRow {
    pub name: Vec<u8>,
    pub auth: Option<(Auth, Vec<u8>)>,
    pub privacy: Option<Vec<u8>>,
}

/// Why rows of users aren't loaded. Places of rows count from 0.
#[derive(Clone, Copy, Debug, PartialEq, Eq, Drop, Error)]
pub enum UserFault {
    /// 1: an earlier row has the name.
    #[error("row {position} has the name of an earlier one")]
    DuplicateUser { position: usize },
    /// 2: a password has fewer than 8 octets.
    #[error("row {position} has a password of fewer than 8 octets")]
    ShortPassword { position: usize },
    /// 3: the name is empty or has more than 32 octets, or there is a privacy password and none for authentication.
    #[error("row {position} has a name or passwords that no user can have")]
    BadUser { position: usize },
    #[error("out of memory")]
    OutOfMemory,
}

fn is_bad(row: &UserRow) -> bool
    ensures { result ≡ is_bad_user row.now }
{
    row.name.is_empty()
        || row.name.len() > MAX_NAME
        || (row.privacy.is_some() && row.auth.is_none())
}

fn has_short(row: &UserRow) -> bool
    ensures { result ≡ has_short_password row.now }
{
    let short_auth = match &row.auth {
        Some((_, password)) => password.len() < MIN_PASSWORD,
        None => false,
    };
    let short_privacy = match &row.privacy {
        Some(password) => password.len() < MIN_PASSWORD,
        None => false,
    };
    short_auth || short_privacy
}

fn is_named(rows: &[UserRow], name: &[u8]) -> bool
    ensures { result ≡ list_any (has_name name.now) rows.now }
{
    rows.iter().any(|row| row.name.as_slice() == name)
}

/// What is wrong with the row at this place, given whether an earlier row has its name.
#[tactic(auto, unfolding(crate::specs::Rows::row_fault))]
fn row_fault(position: usize, row: &UserRow, is_twice: bool) -> Option<UserFault>
    ensures { (earlier : List ARow) → is_twice ≡ list_any (has_name row.now.name.items) earlier
        → result ≡ spec.row_fault earlier position row.now }
{
    if is_bad(row) {
        Some(UserFault::BadUser { position })
    } else if has_short(row) {
        Some(UserFault::ShortPassword { position })
    } else if is_twice {
        Some(UserFault::DuplicateUser { position })
    } else {
        None
    }
}

/// What is wrong with the first row at fault.
fn first_fault(rows: &[UserRow]) -> Option<UserFault>
    ensures { MatchOption result (AreSound rows.now) (IsFirstFault rows.now) }
{
    for (position, row) in rows.iter().enumerate() {
        let is_twice = is_named(&rows[..position], &row.name);
        if let Some(fault) = row_fault(position, row, is_twice) {
            return Some(fault);
        }
    }
    None
}

/// The key of a password that is long enough.
fn key_of(auth: Auth, password: &[u8]) -> Key
    requires { 8 ≤ length password.now }
    ensures { result ≡ spec.key_of auth password.now }
{
    let Ok(key) = password_key(auth, password) else {
        unreachable!();
    };
    key
}

/// The user that a row says.
fn user_of(row: &UserRow) -> User
    requires good { is_bad_user row.now ≡ false }
    requires long { has_short_password row.now ≡ false }
    ensures { result ≡ spec.user_of row.now }
{
    let Some(name) = UserName::of(&row.name) else {
        unreachable!();
    };
    let credentials = match (&row.auth, &row.privacy) {
        (Some((auth, own)), Some(other)) => Credentials::Private {
            auth: key_of(*auth, own),
            privacy: key_of(*auth, other),
        },
        (Some((auth, own)), None) => Credentials::Auth(key_of(*auth, own)),
        (None, _) => Credentials::None,
    };
    User { name, credentials }
}

/// Where each name of the rows is, or what is wrong with the first row at fault.
pub fn places_of(alloc: Global, rows: &[UserRow]) -> Result<HashMap<UserName, usize>, UserFault>
    ensures sound { OnOk result (AreSound rows.now) }
    ensures places { IfOk result (λ places. IsIndex (map spec.user_of rows.now) places.entries) }
    ensures told { IfErr result (IsTold rows.now) }
{
    let mut places = HashMap::new(alloc);
    for position in 0..rows.len() {
        let row = &rows[position];
        let is_twice = is_known(&places, &row.name);
        if let Some(fault) = row_fault(position, row, is_twice) {
            return Err(fault);
        }
        let Some(name) = UserName::of(&row.name) else {
            unreachable!();
        };
        let Ok(_) = places.insert(name, position) else {
            return Err(fault_without_memory(rows));
        };
    }
    Ok(places)
}

/// Whether a name is somewhere.
fn is_known(places: &HashMap<UserName, usize>, name: &[u8]) -> bool
    ensures { (rows : List ARow) → IsIndex (map spec.user_of rows) places.now.entries
        → result ≡ list_any (has_name name.now) rows }
{
    match UserName::of(name) {
        Some(name) => places.contains_key(&name),
        None => false,
    }
}

/// What is wrong with the first row at fault, or else that there is no memory. It takes none, and time by the square of
/// the rows.
fn fault_without_memory(rows: &[UserRow]) -> UserFault
    ensures { IsTold rows.now result }
{
    match first_fault(rows) {
        Some(fault) => fault,
        None => UserFault::OutOfMemory,
    }
}

/// The users that the rows say, with the places of their names, or what is wrong with the first row at fault.
pub fn table_of(alloc: Global, rows: &[UserRow]) -> Result<UserTable, UserFault>
    ensures sound { OnOk result (AreSound rows.now) }
    ensures users { IfOk result (λ table. table ≡ map spec.user_of rows.now) }
    ensures told { IfErr result (IsTold rows.now) }
{
    let places = places_of(alloc, rows)?;
    match users_of(alloc, rows) {
        Ok(users) => Ok(UserTable::of(users, places)),
        Err(_) => Err(UserFault::OutOfMemory),
    }
}

/// The users that the rows say, in memory that is asked for once.
fn users_of(alloc: Global, rows: &[UserRow]) -> Result<Vec<User>, AllocError>
    requires { AreSound rows.now }
    ensures { IfOk result (λ users. users.items ≡ map spec.user_of rows.now) }
{
    let mut users = Vec::with_capacity(alloc, rows.len())?;
    for row in rows {
        users.push(user_of(row))?;
    }
    Ok(users)
}
