//! The code of a message.
ghost use Rattle.std.specs.Prelude.{◌≡◌, ◌≤◌, ◌++◌, length, replicate};
ghost use Rattle.usm_keys.specs.Macs.{hmac};
ghost use Rattle.usm_keys.specs.Protocols.{block_octets, hash_of, key_octets, mac, mac_octets};

use crate::auth::Auth;
use crate::key::Key;
use crate::pads::Pads;
use arrayvec::ArrayVec;

/// The message authentication code, under the key and its protocol, of `front`, `zeros` zero octets and
/// `back`, joined (RFC 3414, sections 6.3.1 and 7.3.1; RFC 7860, section 4.2.1). The zeros stand for the code's own
/// place in the message: at most 24. What comes has the protocol's own number of octets, `Auth::mac_octets`.
pub fn mac(key: &Key, front: &[u8], zeros: usize, back: &[u8]) -> ArrayVec<u8, 32>
    requires { zeros ≤ 24 }
    ensures code { result.items
        ≡ mac key.now.auth key.now.octets (front.now ++ replicate zeros 0 ++ back.now) }
    ensures size { length result.items ≡ mac_octets key.now.auth }
{
    let auth = key.auth();
    let mut code = hmac(auth, key.as_slice(), front, zeros, back);
    code.truncate(auth.mac_octets());
    code
}

// The HMAC of `front`, `zeros` zero octets and `back`, joined, with no copy of them.
pub fn hmac(auth: Auth, key: &[u8], front: &[u8], zeros: usize, back: &[u8]) -> ArrayVec<u8, 32>
    requires key_fits { length key.now ≤ 32 }
    requires zeros_fit { zeros ≤ 24 }
    ensures code { result.items
        ≡ hmac (hash_of auth) (block_octets auth) key.now
        (front.now ++ replicate zeros 0 ++ back.now) }
    ensures size { length result.items ≡ key_octets auth }
{
    Pads::of(auth, key).hmac(front, zeros, back)
}
