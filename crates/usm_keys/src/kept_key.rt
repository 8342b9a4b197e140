//! A key that is kept for several messages.
ghost use Rattle.std.specs.Prelude.{◌≡◌, ◌≤◌, ◌++◌, length, replicate};
ghost use Rattle.usm_keys.specs.Protocols.{mac, mac_octets};

use crate::key::Key;
use crate::message_mac::mac;
use crate::pads::Pads;
use arrayvec::ArrayVec;
use std::marker::Model;

/// A key that is kept for several messages. One that authenticates them keeps its two padded blocks hashed
/// too (RFC 2104, section 4), so that each code takes two blocks of the hash fewer.
#[derive(Drop)]
pub struct KeptKey {
    key: Key,
    pads: Option<Pads>,
}

impl Model for KeptKey {
    ghost use Rattle.std.specs.Prelude.{IfSome};
    ghost use Rattle.usm_keys.specs.AuthKey.{AuthKey};
    ghost use Rattle.usm_keys.specs.Pads.{ArePads};

    ghost Value = { AuthKey };

    ghost view = { λ kept. kept.key };

    ghost invariant = { λ kept. IfSome kept.pads (ArePads kept.key.auth kept.key.octets) };
}

impl KeptKey {
    /// The key, without hashed blocks.
    pub fn of(key: Key) -> KeptKey
        ensures { result ≡ key }
    {
        KeptKey { key, pads: None }
    }

    /// The key, with its padded blocks hashed. It takes no memory.
    pub fn with_pads(key: Key) -> KeptKey
        ensures { result ≡ key }
    {
        let pads = Pads::of(key.auth(), key.as_slice());
        KeptKey {
            key,
            pads: Some(pads),
        }
    }

    /// The key.
    pub fn key(&self) -> &Key
        ensures { result.now ≡ self.now }
    {
        &self.key
    }

    /// What the function `mac` gives under the key.
    pub fn mac(&self, front: &[u8], zeros: usize, back: &[u8]) -> ArrayVec<u8, 32>
        requires { zeros ≤ 24 }
        ensures code { result.items
            ≡ mac self.now.auth self.now.octets (front.now ++ replicate zeros 0 ++ back.now) }
        ensures size { length result.items ≡ mac_octets self.now.auth }
    {
        match &self.pads {
            Some(pads) => {
                let mut code = pads.hmac(front, zeros, back);
                code.truncate(self.key.auth().mac_octets());
                code
            }
            None => mac(&self.key, front, zeros, back),
        }
    }
}
