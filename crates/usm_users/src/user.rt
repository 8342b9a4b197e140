//! A user.

ghost use Rattle.std.specs.Prelude.{◌≡◌, ◌≤◌, ◌↔◌, ⊤, length, IsSome, IfSome};
ghost use Rattle.std.specs.Option.{option_copied};
ghost use Rattle.usm_users.specs.Users.{supports};

use crate::credentials::Credentials;
use arrayvec::ArrayVec;
use snmp_ber::Level;
use std::alloc::AllocError;
use std::marker::Model;
use usm_keys::Key;

/// A name of at most 32 octets.
#[derive(PartialEq, Eq, Hash, Drop)]
pub struct UserName {
    octets: ArrayVec<u8, 32>,
}

impl Model for UserName {
    ghost use Rattle.std.specs.Prelude.{ℕ, List};

    ghost Value = { List ℕ };

    ghost view = { λ name. name.octets.items };

    ghost inverse = { λ octets. record { octets = record { items = octets } } };
}

impl UserName {
    /// The name of these octets, or None above 32.
    pub fn of(octets: &[u8]) -> Option<UserName>
        ensures fits { IsSome result ↔ (length octets.now ≤ 32) }
        ensures name { IfSome result (λ name. name ≡ octets.now) }
    {
        let mut held = ArrayVec::new();
        held.try_extend_from_slice(octets).ok()?;
        Some(UserName { octets: held })
    }

    pub fn as_slice(&self) -> &[u8]
        ensures octets { result.now ≡ self.now }
        ensures fits { length self.now ≤ 32 }
    {
        self.octets.as_slice()
    }

    /// The same name. It takes no memory.
    fn copy(&self) -> UserName
        ensures { result ≡ self.now }
    {
        let mut octets = ArrayVec::new();
        let _ = octets.try_extend_from_slice(self.as_slice());
        UserName { octets }
    }
}

/// A clone is equal to its source and takes no memory.
impl Clone for UserName {
    ghost is_clone = { λ name other. other ≡ name };

    ghost is_infallible = { λ _. ⊤ };

    fn clone(&self) -> Result<UserName, AllocError> {
        Ok(UserName {
            octets: self.octets.clone()?,
        })
    }
}

/// A user, with the keys of its passwords, not yet localised.
#[derive(Drop)]
pub struct User {
    pub name: UserName,
    pub credentials: Credentials,
}

impl Model for User {
    ghost use Rattle.usm_users.specs.User.{User as AUser};
    ghost use Rattle.usm_users.specs.Credentials.{auth_of, privacy_of};

    ghost Value = { AUser };

    ghost view = { λ user. record {
      name = user.name;
      auth = auth_of user.credentials;
      privacy = privacy_of user.credentials;
    } };
}

impl User {
    /// The key for authentication, where the user has one.
    pub fn auth(&self) -> Option<&Key>
        ensures { option_copied result ≡ self.now.auth }
    {
        self.credentials.auth()
    }

    /// The key for privacy, where the user has one.
    pub fn privacy(&self) -> Option<&Key>
        ensures { option_copied result ≡ self.now.privacy }
    {
        self.credentials.privacy()
    }

    /// The user has the keys that the level needs.
    pub fn supports(&self, level: Level) -> bool
        ensures { result ≡ supports self.now level }
    {
        match (level, &self.credentials) {
            (Level::NoAuthNoPriv, _) => true,
            (_, Credentials::None) => false,
            (Level::AuthNoPriv, _) => true,
            (Level::AuthPriv, Credentials::Auth(_)) => false,
            (Level::AuthPriv, Credentials::Private { .. }) => true,
        }
    }

    /// The same user. It takes no memory.
    pub fn copy(&self) -> User
        ensures { result ≡ self.now }
    {
        User {
            name: self.name.copy(),
            credentials: self.credentials.copy(),
        }
    }
}
