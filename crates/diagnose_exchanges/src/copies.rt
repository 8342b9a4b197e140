//! Datagrams that were seen before, by their digests.

ghost use Rattle.std.specs.Prelude.{◌≡◌, ◌≤◌, ◌↔◌, ◌++◌, [], nat_eq, IfOk, IfNone, IfSome, IsTrue, OnErr};
ghost use Rattle.std.specs.VecDeque.{deque_len};
ghost use Rattle.diagnose_exchanges.specs.Copies.{LetsGo, Notes, copies_limit};
ghost use Rattle.std.specs.HashMap.{IsEmpty, IsUnchanged, get};
ghost use Rattle.std.specs.Cmp.Lexicographic.{pointwise};
ghost use Rattle.md5.specs.Md5.{md5};

use md5::{Digest, Md5};
use std::alloc::{AllocError, Global};
use std::collections::{HashMap, VecDeque};

/// Of how many datagrams the digests are kept.
pub const COPIES_LIMIT: usize = 1_048_576;

/// The digest of octets that come in two pieces. It tells datagrams apart, and protects nothing.
pub fn digest_of(first: &[u8], second: &[u8]) -> [u8; 16]
    ensures { result ≡ md5 (first.now ++ second.now) }
{
    let mut digest = Md5::new();
    digest.update(first);
    digest.update(second);
    digest.finalize()
}

/// Keeps no more digests than the limit: the oldest goes if there are more.
fn let_oldest_go<V: Drop>(kept: &mut HashMap<[u8; 16], V>, order: &mut VecDeque<[u8; 16]>)
    ensures { LetsGo (pointwise nat_eq) order.old.items order.new.items kept.old kept.new }
{
    if order.len() <= COPIES_LIMIT {
        return;
    }
    let Some(oldest) = order.pop_front() else {
        return;
    };
    kept.remove(&oldest);
}

/// The digests of the last datagrams, each with what is kept of the first datagram that has it.
#[derive(Drop)]
pub struct Copies<V: Copy + Drop> {
    kept: HashMap<[u8; 16], V>,
    order: VecDeque<[u8; 16]>,
}

impl<V: Copy + Drop> Copies<V> {
    /// No datagram was seen. This takes no memory.
    pub fn new(alloc: Global) -> Copies<V>
        ensures order { result.order.items ≡ [] }
        ensures kept { IsEmpty result.kept }
    {
        Copies {
            kept: HashMap::new(alloc),
            order: VecDeque::new(alloc),
        }
    }

    /// What is kept of the first datagram with this digest, or None. Then this is kept of it, and the oldest digest
    /// goes if there are over 1,048,576. The error is out of memory, and then all is as before.
    pub fn note(&mut self, digest: [u8; 16], value: V) -> Result<Option<V>, AllocError>
        ensures found { IfOk result (λ found. found ≡ get (pointwise nat_eq) self.old.kept digest) }
        ensures seen { IfOk result (λ found. IfSome found
            (λ _. (self.new.order.items ≡ self.old.order.items)
            × IsUnchanged self.old.kept self.new.kept)) }
        ensures noted { IfOk result (λ found. IfNone found
            (Notes (pointwise nat_eq) self.old.order.items self.new.order.items self.old.kept
            self.new.kept digest value)) }
        ensures err { OnErr result ((self.new.order.items ≡ self.old.order.items)
            × IsUnchanged self.old.kept self.new.kept) }
    {
        if let Some(found) = self.kept.get(&digest) {
            return Ok(Some(*found));
        }
        self.order.reserve(1)?;
        self.kept.insert(digest, value)?;
        self.order.push_back_reserved(digest);
        let_oldest_go(&mut self.kept, &mut self.order);
        Ok(None)
    }

    /// No further digest is kept unless the oldest goes.
    pub fn is_full(&self) -> bool
        ensures { IsTrue result ↔ (copies_limit ≤ deque_len self.now.order) }
    {
        self.order.len() >= COPIES_LIMIT
    }
}
