//! A key and its protocol.
ghost use Rattle.std.specs.Prelude.{◌≡◌, ◌≤◌, ◌↔◌, IfSome, IsSome, length};

use crate::auth::Auth;
use crate::hash::octets_of;
use arrayvec::ArrayVec;
use std::marker::Model;

/// A key of at most 32 octets, with the protocol that it serves.
#[derive(Drop)]
pub struct Key {
    auth: Auth,
    octets: ArrayVec<u8, 32>,
}

impl Model for Key {
    ghost use Rattle.std.specs.Prelude.{◌≤◌, length};
    ghost use Rattle.usm_keys.specs.AuthKey.{AuthKey};

    ghost Value = { AuthKey };

    ghost view = { λ key. record { auth = key.auth; octets = key.octets.items } };

    ghost invariant = { λ key. length key.octets.items ≤ 32 };
}

impl Key {
    /// A key of these octets, or `None` above 32.
    pub fn of(auth: Auth, octets: &[u8]) -> Option<Key>
        ensures fits { IsSome result ↔ (length octets.now ≤ 32) }
        ensures key { IfSome result (λ key. key ≡ record { auth = auth; octets = octets.now }) }
    {
        let mut held = ArrayVec::new();
        held.try_extend_from_slice(octets).ok()?;
        Some(Key::holding(auth, held))
    }

    // The key that holds these octets.
    pub(crate) fn holding(auth: Auth, octets: ArrayVec<u8, 32>) -> Key
        ensures { result ≡ record { auth = auth; octets = octets.items } }
    {
        Key { auth, octets }
    }

    /// An equal key. It takes no memory.
    pub fn copy(&self) -> Key
        ensures { result ≡ self.now }
    {
        Key::holding(self.auth, octets_of(self.as_slice()))
    }

    /// The key's octets, at most 32.
    pub fn as_slice(&self) -> &[u8]
        ensures octets { result.now ≡ self.now.octets }
        ensures fits { length result.now ≤ 32 }
    {
        self.octets.as_slice()
    }

    /// The protocol that the key serves.
    pub fn auth(&self) -> Auth
        ensures { result ≡ self.now.auth }
    {
        self.auth
    }
}
