//! Users in their order, and where each name is.

ghost use Rattle.std.specs.Prelude.{◌≡◌, IfOk};
ghost use Rattle.std.specs.Option.{option_copied};
ghost use Rattle.usm_users.specs.Users.{user_named as user_of_name};
ghost use Rattle.usm_users.specs.Index.{IsIndex};

use crate::user::{User, UserName};
use std::alloc::{AllocError, Global};
use std::collections::HashMap;
use std::marker::Model;

/// Users in their order. A user is found by its name at the place that is kept of it, whatever their number.
#[derive(Drop)]
pub struct UserTable {
    users: Vec<User>,
    places: HashMap<UserName, usize>,
}

impl Model for UserTable {
    ghost use Rattle.std.specs.Prelude.{List};
    ghost use Rattle.usm_users.specs.User.{User};
    ghost use Rattle.usm_users.specs.Index.{IsIndex};

    ghost Value = { List User };

    ghost view = { λ t. t.users.items };

    ghost invariant = { λ t. IsIndex t.users.items t.places.entries };
}

impl UserTable {
    /// The users, of which the places are known.
    pub fn of(users: Vec<User>, places: HashMap<UserName, usize>) -> UserTable
        requires { IsIndex users.items places.entries }
        ensures { result ≡ users.items }
    {
        UserTable { users, places }
    }

    /// The same users.
    pub fn try_clone(&self, alloc: Global) -> Result<UserTable, AllocError>
        ensures { IfOk result (λ table. table ≡ self.now) }
    {
        let mut users = Vec::with_capacity(alloc, self.users.len())?;
        for user in &self.users {
            users.push(user.copy())?;
        }
        Ok(UserTable {
            users,
            places: self.places.clone()?,
        })
    }

    /// The user of this name.
    pub fn user_named(&self, name: &[u8]) -> Option<&User>
        ensures { option_copied result ≡ user_of_name self.now name.now }
    {
        let places = &self.places;
        let place = *places.get(&UserName::of(name)?)?;
        Some(&self.users[place])
    }
}
