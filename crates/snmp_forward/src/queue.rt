//! Notifications that wait to be sent, in the order in which they came.

ghost use Rattle.std.specs.Prelude.{◌≡◌, ◌≢◌, ◌↔◌, ◌+◌, ◌<◌, ◌++◌, ◌∷◌, [], length, IfOk, IsTrue, OnErr, OnOk};
ghost use Rattle.std.specs.Prelude.{option_copied, slice_get};
ghost use Rattle.snmp_forward.specs.Queue.{IsFull, after_first, waiting, waitings_of};

use std::alloc::{AllocError, Global};

/// How many notifications wait at most, if nothing else is chosen.
pub const WAITING_LIMIT: usize = 1_024;

/// A notification that waits to be sent to its receivers.
#[derive(Drop)]
pub struct WaitingNotification {
    /// How many notifications waited before it.
    pub number: u64,
    /// The number of the device from which it came, counted from 0.
    pub device: usize,
    /// The device's datagram.
    pub datagram: Vec<u8>,
    /// The number of the receiver to which it is sent next, counted from 0.
    pub receiver: usize,
    /// The numbers of those to which it is sent after that.
    pub others: Vec<usize>,
}

/// The notifications that wait, in the order in which they came.
#[derive(Drop)]
pub struct WaitingNotifications {
    pub(crate) list: Vec<WaitingNotification>,
    next: u64,
    most: usize,
}

impl WaitingNotifications {
    /// Returns that no notification waits. At most `most` wait at once. This takes no memory.
    pub fn new(alloc: Global, most: usize) -> WaitingNotifications
        ensures list { result.list.items ≡ [] }
        ensures next { result.next ≡ 0 }
        ensures most { result.most ≡ most }
    {
        WaitingNotifications {
            list: Vec::new(alloc),
            next: 0,
            most,
        }
    }

    /// Returns true if as many wait as may, or 18446744073709551615 have waited, so that there is no number left.
    pub fn is_full(&self) -> bool
        ensures { IsTrue result ↔ IsFull self.now }
    {
        self.list.len() >= self.most || self.next == u64::MAX
    }

    /// Returns the notifications that wait, in the order in which they came.
    pub fn list(&self) -> &[WaitingNotification]
        ensures { result.now ≡ self.now.list.items }
    {
        self.list.as_slice()
    }

    /// A notification of this device waits to be sent to these receivers. Its number is returned. There is room for it.
    ///
    /// The error is out of memory, and then all is as before.
    pub fn add(
        &mut self,
        device: usize,
        datagram: Vec<u8>,
        mut receivers: Vec<usize>,
    ) -> Result<u64, AllocError>
        requires room { ¬ IsFull self.old }
        requires some { receivers.items ≢ [] }
        ensures ok { OnOk result (waitings_of self.new.list.items ≡ waitings_of self.old.list.items
            ++ waiting self.old.next device datagram.items receivers.items ∷ []) }
        ensures number { IfOk result (λ number. number ≡ self.old.next) }
        ensures next { OnOk result (self.new.next ≡ self.old.next + 1) }
        ensures err { OnErr result ((self.new.list.items ≡ self.old.list.items) × (self.new.next ≡ self.old.next)) }
        ensures most { self.new.most ≡ self.old.most }
    {
        let number = self.next;
        let receiver = receivers.remove(0);
        self.list.push(WaitingNotification {
            number,
            device,
            datagram,
            receiver,
            others: receivers,
        })?;
        self.next = number + 1;
        Ok(number)
    }

    /// The first notification is dealt with for the receiver to which it was to be sent next. It waits no longer if
    /// that was the last one.
    pub fn advance(&mut self)
        requires { 0 < length self.old.list.items }
        ensures list { waitings_of self.new.list.items ≡ after_first (waitings_of self.old.list.items) }
        ensures next { self.new.next ≡ self.old.next }
        ensures most { self.new.most ≡ self.old.most }
    {
        if self.list[0].others.is_empty() {
            self.list.remove(0);
            return;
        }
        let first = &mut self.list[0];
        first.receiver = first.others.remove(0);
    }
}
