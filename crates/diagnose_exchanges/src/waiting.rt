//! Requests that wait for their answers.

ghost use Rattle.std.specs.Prelude.{◌≡◌, IfOk, OnErr, OnOk, Some, None};
ghost use Rattle.std.specs.HashMap.{IsEmpty, IsUnchanged, Updates, get};

use std::alloc::{AllocError, Global};
use std::collections::HashMap;
use std::hash::Hash;

/// Requests that wait for their answers, each by its number, under what an answer is known by.
#[derive(Drop)]
pub struct Waiting<K: Eq + Hash + Drop> {
    numbers: HashMap<K, u64>,
}

impl<K: Eq + Hash + Drop> Waiting<K> {
    /// No request waits. This takes no memory.
    pub fn new(alloc: Global) -> Waiting<K>
        ensures { IsEmpty result.numbers }
    {
        Waiting {
            numbers: HashMap::new(alloc),
        }
    }

    /// The request with this number waits. One that asked the same waits no longer: its number is given back. On an
    /// error, which is out of memory, all is as before.
    pub fn ask(&mut self, asked: K, number: u64) -> Result<Option<u64>, AllocError>
        ensures old { IfOk result (λ old. old ≡ get K.eq self.old.numbers asked) }
        ensures waits { OnOk result (Updates K.eq self.old.numbers self.new.numbers asked
            (Some number)) }
        ensures err { OnErr result (IsUnchanged self.old.numbers self.new.numbers) }
    {
        Ok(self.numbers.insert(asked, number)?)
    }

    /// The number of the request that waits for an answer with these, which then waits no longer.
    pub fn answer(&mut self, asked: &K) -> Option<u64>
        ensures found { result ≡ get K.eq self.old.numbers asked.now }
        ensures answered { Updates K.eq self.old.numbers self.new.numbers asked.now None }
    {
        self.numbers.remove(asked)
    }

    /// The number of the request that waits for an answer with these.
    pub fn waits(&self, asked: &K) -> Option<u64>
        ensures { result ≡ get K.eq self.now.numbers asked.now }
    {
        self.numbers.get(asked).copied()
    }
}
