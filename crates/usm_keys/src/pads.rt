//! The first block of each of the two hashes of a code, which is the key's alone.
ghost use Rattle.std.specs.Prelude.{◌≡◌, ◌≤◌, ◌++◌, List, ℕ, length, replicate};
ghost use Rattle.usm_keys.specs.declared.auth.Auth.{Auth as AuthOf};
ghost use Rattle.usm_keys.specs.Macs.{hmac, padded, xor_each};
ghost use Rattle.usm_keys.specs.Pads.{ArePads};
ghost use Rattle.usm_keys.specs.Protocols.{block_octets, hash_of};

use crate::auth::Auth;
use crate::hash::AuthHash;
use arrayvec::ArrayVec;
use md5::Md5;
use sha1::Sha1;
use sha2::Sha256;

/// The most zero octets instead of a message's code.
const MAX_ZEROS: usize = 24;

static ZEROS: [u8; MAX_ZEROS] = [0; MAX_ZEROS];

/// What the padded key's octets are xored with before the inner and the outer hash (RFC 2104, section 2).
const INNER_PAD: u8 = 0x36;

const OUTER_PAD: u8 = 0x5C;

// The hashers of both hashes of a code (RFC 2104, section 2), each fed its padded block of the key.
#[derive(Drop)]
pub struct HashedPads<H: AuthHash> {
    inner: H,
    outer: H,
}

impl<H: AuthHash> HashedPads<H> {
    // Those of these blocks.
    fn of(inner: &[u8], outer: &[u8]) -> HashedPads<H>
        ensures inner { H.holds result.inner inner.now }
        ensures outer { H.holds result.outer outer.now }
    {
        let mut pads = HashedPads {
            inner: H::start(),
            outer: H::start(),
        };
        pads.inner.feed(inner);
        pads.outer.feed(outer);
        pads
    }

    // The hash of what the outer one was fed and the hash of what the inner one was fed and the slices, joined.
    fn hash(&self, a: &[u8], b: &[u8], c: &[u8]) -> ArrayVec<u8, 32>
        ensures { (i o : List ℕ) → H.holds self.now.inner i → H.holds self.now.outer o
            → result.items ≡ H.hash (o ++ H.hash (i ++ a.now ++ b.now ++ c.now)) }
    {
        let mut inner = self.inner.copy();
        inner.feed(a);
        inner.feed(b);
        inner.feed(c);
        let digest = inner.finish();
        let mut outer = self.outer.copy();
        outer.feed(digest.as_slice());
        outer.finish()
    }
}

// Those of a key's protocol.
#[derive(Drop)]
pub enum Pads {
    Md5(HashedPads<Md5>),
    Sha1(HashedPads<Sha1>),
    Sha256(HashedPads<Sha256>),
}

impl Pads {
    // Those of a key of these octets.
    pub fn of(auth: Auth, key: &[u8]) -> Pads
        requires { length key.now ≤ 32 }
        ensures { ArePads auth key.now result }
    {
        let block = padded_key(key);
        let inner = xor_pad(block, INNER_PAD);
        let outer = xor_pad(block, OUTER_PAD);
        match auth {
            Auth::Md5 => Pads::Md5(HashedPads::of(&inner, &outer)),
            Auth::Sha1 => Pads::Sha1(HashedPads::of(&inner, &outer)),
            Auth::Sha256 => Pads::Sha256(HashedPads::of(&inner, &outer)),
        }
    }

    // The HMAC of `front`, `zeros` zero octets and `back`, joined, with no copy of them.
    pub fn hmac(&self, front: &[u8], zeros: usize, back: &[u8]) -> ArrayVec<u8, 32>
        requires { zeros ≤ 24 }
        ensures { (auth : AuthOf) (key : List ℕ) → ArePads auth key self.now
            → result.items ≡ hmac (hash_of auth) (block_octets auth) key
            (front.now ++ replicate zeros 0 ++ back.now) }
    {
        let zeros = &ZEROS[..zeros];
        match self {
            Pads::Md5(pads) => pads.hash(front, zeros, back),
            Pads::Sha1(pads) => pads.hash(front, zeros, back),
            Pads::Sha256(pads) => pads.hash(front, zeros, back),
        }
    }
}

// The key with zeros after it, to a block of 64 octets.
fn padded_key(key: &[u8]) -> [u8; 64]
    requires { length key.now ≤ 64 }
    ensures { result ≡ padded 64 key.now }
{
    let mut block = [0; 64];
    block[..key.len()].copy_from_slice(key);
    block
}

// Each octet of the block xor the pad.
fn xor_pad(mut block: [u8; 64], pad: u8) -> [u8; 64]
    ensures { result ≡ xor_each pad block }
{
    for octet in block.iter_mut() {
        *octet ^= pad;
    }
    block
}
