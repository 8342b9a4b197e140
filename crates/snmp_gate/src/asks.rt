//! What a device is asked at once, by request-id.

ghost use Rattle.std.specs.Prelude.{◌≡◌, ◌↔◌, ◌<◌, ◌≤◌, ◌++◌, ◌∷◌, [], length, Contains};
ghost use Rattle.std.specs.Prelude.{IfOk, IsTrue, MatchOption, OnErr};
ghost use Rattle.snmp_gate.specs.Asks.{Ends, IsAskAt, IsNextFree, Waits, ask_of, id_after};

use std::alloc::{AllocError, Global};

/// How many request-ids there are for asks: 0 to 2147483647 (RFC 3416, section 3).
pub const REQUEST_IDS: u32 = 0x8000_0000;

/// What a device is asked, and didn't answer yet.
#[derive(Clone, Copy, Debug, PartialEq, Eq)]
pub struct DeviceAsk {
    /// request-id of the message to the device, at most 2147483647.
    pub id: u32,
    /// The number of the request for which it is asked.
    pub request: u64,
}

/// What a device is asked at once: each ask has a request-id of its own.
#[derive(Drop)]
pub struct DeviceAsks {
    asks: Vec<DeviceAsk>,
    at_once: u16,
}

/// Returns the place of the ask with this request-id.
fn place_of(asks: &[DeviceAsk], id: u32) -> Option<usize>
    ensures { MatchOption result (¬ Waits asks.now id) (IsAskAt asks.now id) }
{
    for (place, ask) in asks.iter().enumerate() {
        if ask.id == id {
            return Some(place);
        }
    }
    None
}

/// Returns true if one of the asks has this request-id.
fn is_asked(asks: &[DeviceAsk], id: u32) -> bool
    ensures { IsTrue result ↔ Waits asks.now id }
{
    matches!(place_of(asks, id), Some(_))
}

/// Returns the request-id after this one. After 2147483647 comes 0.
fn next_id(id: u32) -> u32
    requires { id < REQUEST_IDS }
    ensures { result ≡ id_after id 1 }
{
    (id + 1) % REQUEST_IDS
}

/// Returns the first request-id with which nothing is asked: this one, or one after it.
fn free_id(asks: &[DeviceAsk], id: u32) -> u32
    requires id { id < REQUEST_IDS }
    requires few { length asks.now < REQUEST_IDS }
    ensures free { IsNextFree asks.now id result }
    ensures small { result < REQUEST_IDS }
{
    let mut free = id;
    for _ask in asks {
        if !is_asked(asks, free) {
            return free;
        }
        free = next_id(free);
    }
    free
}

impl DeviceAsks {
    /// Returns what a device is asked that may be asked so much at once: nothing yet. This takes no memory.
    pub fn new(alloc: Global, at_once: u16) -> DeviceAsks
        ensures asks { result.asks.items ≡ [] }
        ensures at_once { result.at_once ≡ at_once }
    {
        DeviceAsks {
            asks: Vec::new(alloc),
            at_once,
        }
    }

    /// Returns true if the device is asked as much as it may be asked at once.
    pub fn is_full(&self) -> bool
        ensures full { IsTrue result ↔ (self.now.at_once ≤ length self.now.asks.items) }
        ensures few { (IsTrue result → ⊥) → length self.now.asks.items < REQUEST_IDS }
    {
        self.asks.len() >= usize::from(self.at_once)
    }

    /// Returns the first request-id with which the device isn't asked: this one, or one after it.
    pub(crate) fn free_id(&self, id: u32) -> u32
        requires id { id < REQUEST_IDS }
        requires room { length self.now.asks.items < self.now.at_once }
        ensures free { IsNextFree self.now.asks.items id result }
        ensures small { result < REQUEST_IDS }
    {
        let _at_once = self.at_once;
        free_id(&self.asks, id)
    }

    /// The device is asked for the request with this number. The ask has the request-id `id`, or the next one after it
    /// with which nothing is asked; that is returned. The device isn't full.
    ///
    /// The error is out of memory, and then all is as before.
    pub fn ask(&mut self, id: u32, request: u64) -> Result<u32, AllocError>
        requires id { id < REQUEST_IDS }
        requires room { length self.old.asks.items < self.old.at_once }
        ensures ok { IfOk result (λ free. IsNextFree self.old.asks.items id free
            × (self.new.asks.items ≡ self.old.asks.items ++ ask_of free request ∷ [])) }
        ensures small { IfOk result (λ free. free < REQUEST_IDS) }
        ensures at_once { self.new.at_once ≡ self.old.at_once }
        ensures err { OnErr result (self.new.asks.items ≡ self.old.asks.items) }
    {
        let _at_once = self.at_once;
        let free = free_id(&self.asks, id);
        self.asks.push(DeviceAsk { id: free, request })?;
        Ok(free)
    }

    /// Returns the number of the request for which the device is asked with this request-id.
    pub fn request(&self, id: u32) -> Option<u64>
        ensures { MatchOption result (¬ Waits self.now.asks.items id)
            (λ request. Contains self.now.asks.items (ask_of id request)) }
    {
        match place_of(&self.asks, id) {
            Some(place) => Some(self.asks[place].request),
            None => None,
        }
    }

    /// What the device is asked with this request-id is answered, or given up. Returns the number of the request for
    /// which it was asked. None: the device isn't asked with this request-id, and all is as before.
    pub fn end(&mut self, id: u32) -> Option<u64>
        ensures ended { MatchOption result ((¬ Waits self.old.asks.items id)
            × (self.new.asks.items ≡ self.old.asks.items))
            (λ request. Ends self.old.asks.items (ask_of id request) self.new.asks.items) }
        ensures at_once { self.new.at_once ≡ self.old.at_once }
    {
        match place_of(&self.asks, id) {
            Some(place) => Some(self.asks.remove(place).request),
            None => None,
        }
    }
}
