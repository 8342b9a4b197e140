//! The hash of a text repeated again and again.
ghost use Rattle.std.specs.Prelude.{◌≡◌, ◌*◌, ◌/◌, ◌<◌, length};
ghost use Rattle.usm_keys.specs.Keys.{cycle};

use crate::hash::AuthHash;
use arrayvec::ArrayVec;

/// The most octets that are put together to be fed at a time.
const PIECE: usize = 1024;

// The hash of the first `total` octets of the seed repeated. A short seed is put together to larger
// pieces first, so that most blocks are hashed where they lie.
pub fn hash_cycle<H: AuthHash>(seed: &[u8], total: usize) -> ArrayVec<u8, 32>
    requires { 0 < length seed.now }
    ensures { result.items ≡ H.hash (cycle seed.now total) }
{
    let piece = whole_seeds(seed);
    if piece.is_empty() {
        hash_repeated::<H>(seed, total)
    } else {
        hash_repeated::<H>(piece.as_slice(), total)
    }
}

// As many whole seeds as fit into a piece.
fn whole_seeds(seed: &[u8]) -> ArrayVec<u8, PIECE>
    requires { 0 < length seed.now }
    ensures { result.items ≡ cycle seed.now (1024 / length seed.now * length seed.now) }
{
    let mut piece = ArrayVec::new();
    'seeds: for _ in 0..PIECE / seed.len() {
        piece.try_extend_from_slice(seed).unwrap();
    }
    piece
}

// The hash of the first `total` octets of the piece repeated, fed as it is.
fn hash_repeated<H: AuthHash>(piece: &[u8], total: usize) -> ArrayVec<u8, 32>
    requires { 0 < length piece.now }
    ensures { result.items ≡ H.hash (cycle piece.now total) }
{
    let mut hasher = H::start();
    'rounds: for _ in 0..total / piece.len() {
        hasher.feed(piece);
    }
    hasher.feed(&piece[..total % piece.len()]);
    hasher.finish()
}
