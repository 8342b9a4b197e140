//! Requests that wait, and the messages that ask them.

ghost use Rattle.std.specs.Prelude.{◌≡◌, ◌↔◌, ◌+◌, ◌-◌, ◌^◌, ◌<◌, ◌≤◌, ◌++◌, ◌∷◌, [], length, map, min};
ghost use Rattle.std.specs.Prelude.{IfOk, IsTrue, OnErr, OnOk};
ghost use Rattle.snmp_gate.specs.Groups.{IsAnswered, IsJoined, IsWorked, begun, group_of, groups_of};

use std::alloc::{AllocError, Global};
use std::mem;

/// A request that waits, and the messages that ask it and weren't answered, in the order in which they came.
#[derive(Drop)]
pub struct WaitingRequest<M: Drop, W: Drop> {
    /// Its number: how many requests began before it.
    pub number: u64,
    /// The first of the messages.
    pub first: M,
    /// The others, by which the client asked the same again.
    pub others: Vec<M>,
    /// What becomes of it.
    pub work: W,
}

/// What becomes of a message that asks again what waits.
#[derive(Clone, Copy, Debug, PartialEq, Eq)]
pub enum Joined {
    /// It has joined the request, and is answered with it.
    Joined,
    /// As many messages as may ask it: this one isn't answered.
    NoRoom,
}

/// The requests that wait, in the order in which they began.
#[derive(Drop)]
pub struct WaitingRequests<M: Drop, W: Drop> {
    pub(crate) list: Vec<WaitingRequest<M, W>>,
    next: u64,
    most: usize,
    most_messages: usize,
}

impl<M: Drop, W: Drop> WaitingRequests<M, W> {
    /// Returns the requests of a gateway to which no message came. At most `most` wait at once, and for each at most
    /// `most_messages` messages, but one in any case. This takes no memory.
    pub fn new(alloc: Global, most: usize, most_messages: usize) -> WaitingRequests<M, W>
        ensures list { result.list.items ≡ [] }
        ensures next { result.next ≡ 0 }
        ensures most { result.most ≡ most }
        ensures most_messages { result.most_messages ≡ most_messages }
    {
        WaitingRequests {
            list: Vec::new(alloc),
            next: 0,
            most,
            most_messages,
        }
    }

    /// Returns true if as many requests wait as may wait at once.
    pub fn is_full(&self) -> bool
        ensures { IsTrue result ↔ (self.now.most ≤ length self.now.list.items) }
    {
        self.list.len() >= self.most
    }

    /// Returns the number of the request that begins next.
    pub fn next_number(&self) -> u64
        ensures { result ≡ self.now.next }
    {
        self.next
    }

    /// Returns the requests, in the order in which they began.
    pub fn requests(&self) -> &[WaitingRequest<M, W>]
        ensures { result.now ≡ self.now.list.items }
    {
        self.list.as_slice()
    }

    /// A message begins a request, whose number is returned. There is room for it. Numbers end at 18446744073709551615,
    /// which then comes again.
    ///
    /// The error is out of memory, and then all is as before.
    pub fn begin(&mut self, alloc: Global, message: M, work: W) -> Result<u64, AllocError>
        requires { length self.old.list.items < self.old.most }
        ensures ok { OnOk result (groups_of self.new.list.items
            ≡ groups_of self.old.list.items ++ begun self.old.next message work ∷ []) }
        ensures number { IfOk result (λ number. number ≡ self.old.next) }
        ensures next { OnOk result (self.new.next ≡ min (self.old.next + 1) (2 ^ 64 - 1)) }
        ensures err { OnErr result ((self.new.list.items ≡ self.old.list.items) × (self.new.next ≡ self.old.next)) }
        ensures most { self.new.most ≡ self.old.most }
        ensures most_messages { self.new.most_messages ≡ self.old.most_messages }
    {
        let number = self.next;
        self.list.push(WaitingRequest {
            number,
            first: message,
            others: Vec::new(alloc),
            work,
        })?;
        self.next = number.saturating_add(1);
        Ok(number)
    }

    /// A message asks the request at this place again.
    ///
    /// The error is out of memory, and then all is as before.
    pub fn join(&mut self, place: usize, message: M) -> Result<Joined, AllocError>
        requires { place < length self.old.list.items }
        ensures joined { IfOk result (λ joined. IsJoined self.old.most_messages (groups_of self.old.list.items)
            place message (groups_of self.new.list.items) joined) }
        ensures err { OnErr result (groups_of self.new.list.items ≡ groups_of self.old.list.items) }
        ensures next { self.new.next ≡ self.old.next }
        ensures most { self.new.most ≡ self.old.most }
        ensures most_messages { self.new.most_messages ≡ self.old.most_messages }
    {
        let most = self.most_messages;
        let request = &mut self.list[place];
        if request.others.len() >= most.saturating_sub(1) {
            return Ok(Joined::NoRoom);
        }
        request.others.push(message)?;
        Ok(Joined::Joined)
    }

    /// Something becomes of the request at this place. What it was before is returned.
    pub fn work(&mut self, place: usize, work: W) -> W
        requires { place < length self.old.list.items }
        ensures worked { IsWorked (groups_of self.old.list.items) place result work (groups_of self.new.list.items) }
        ensures next { self.new.next ≡ self.old.next }
        ensures most { self.new.most ≡ self.old.most }
        ensures most_messages { self.new.most_messages ≡ self.old.most_messages }
    {
        mem::replace(&mut self.list[place].work, work)
    }

    /// The first message of the request at this place is answered, and is returned. The request is gone if no other
    /// message asks it.
    pub fn answer(&mut self, place: usize) -> M
        requires { place < length self.old.list.items }
        ensures answered { IsAnswered (groups_of self.old.list.items) place result (groups_of self.new.list.items) }
        ensures next { self.new.next ≡ self.old.next }
        ensures most { self.new.most ≡ self.old.most }
        ensures most_messages { self.new.most_messages ≡ self.old.most_messages }
    {
        if self.list[place].others.is_empty() {
            return self.list.remove(place).first;
        }
        let request = &mut self.list[place];
        let next = request.others.remove(0);
        mem::replace(&mut request.first, next)
    }
}
