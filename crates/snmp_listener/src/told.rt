//! Notifications that were told, so that none is reported twice.

ghost use Rattle.std.specs.Prelude.{◌≡◌, [], ◌+◌, ◌<◌, ◌↔◌, IsTrue, OnOk};
ghost use Rattle.std.specs.Vec.{vec_capacity, vec_len};
ghost use Rattle.sha2.specs.Sha256.{sha256};
ghost use Rattle.snmp_listener.specs.Told.{HasDigest, IsNoted, lasting, lasts, may_come, sender_of, told_now};
ghost use Rattle.snmp_incoming.specs.Answers.{given_of};

use engine_clock::{EngineId, Pair};
use sha2::{Digest as _, Sha256};
use snmp_ber::Level;
use snmp_incoming::{Kept, Taken};
use snmp_manager::Manager;
use std::alloc::{AllocError, Global};

/// For how many seconds a notification is remembered whose sender has no clock here. That is longer than an Inform can
/// be in the time window: 150 seconds before the listener's time and 150 seconds after it (RFC 3414, section 3.2, step
/// 7).
pub const REMEMBERED: u64 = 301;

/// By how many seconds a Trap can be behind its sender's time (RFC 3414, section 3.2, step 7).
const WINDOW: u32 = 150;

/// Who sent a Trap that has authentication, and the pair that was held of it once the Trap was accepted.
#[derive(Debug, Drop)]
pub struct ToldSender {
    pub engine: EngineId,
    pub pair: Pair,
}

/// A notification that was told.
#[derive(Debug, Drop)]
pub struct ToldNotification {
    /// The SHA-256 digest of its datagram.
    pub digest: [u8; 32],
    /// The moment at which it came, in seconds.
    pub came: u64,
    /// Its sender, if it is a Trap that has authentication.
    pub sender: Option<ToldSender>,
}

/// What a notification is, by its datagram.
#[derive(Clone, Copy, Debug, PartialEq, Eq)]
pub(crate) enum ToldNote {
    /// It wasn't told before, and is remembered now.
    New,
    /// It was told before.
    Copy,
    /// It wasn't told before, and as many others are remembered as may be.
    NoRoom,
}

/// Returns the SHA-256 digest of a datagram, by which a notification is known.
pub(crate) fn digest_of(datagram: &[u8]) -> [u8; 32]
    ensures { result ≡ sha256 datagram.now }
{
    Sha256::digest(datagram)
}

/// Returns true if a Trap can be accepted yet that was accepted when `then` was held of its sender, of which `held` is
/// held now.
fn may_come(then: Pair, held: Pair) -> bool
    ensures { result ≡ may_come then held }
{
    held.boots < then.boots || held.boots == then.boots && held.time <= then.time + WINDOW
}

/// Returns the sender of a notification that a manager accepted, with the pair that is held of it, if the notification
/// has authentication.
fn sender_of(manager: &Manager, taken: &Taken<'_>) -> Option<ToldSender>
    ensures { result ≡ sender_of (given_of taken.now) manager.now.clocks }
{
    if taken.level == Level::NoAuthNoPriv {
        return None;
    }
    let pair = manager.pair(&taken.engine)?;
    Some(ToldSender {
        engine: taken.engine.copy(),
        pair,
    })
}

/// Returns the same of a notification that was kept.
pub(crate) fn sender_of_kept(manager: &Manager, kept: &Kept) -> Option<ToldSender>
    ensures { result ≡ sender_of kept.now manager.now.clocks }
{
    let taken = kept.taken();
    sender_of(manager, &taken)
}

impl ToldNotification {
    /// Returns true if the notification is remembered at this moment.
    fn lasts(&self, now: u64, manager: &Manager) -> bool
        ensures { result ≡ lasts now manager.now.clocks self.now }
    {
        let Some(sender) = &self.sender else {
            return now.saturating_sub(self.came) <= REMEMBERED;
        };
        let Some(held) = manager.pair(&sender.engine) else {
            return true;
        };
        may_come(sender.pair, held)
    }
}

/// Returns true if one of the notifications has this digest.
fn has_digest(told: &[ToldNotification], digest: &[u8; 32]) -> bool
    ensures { IsTrue result ↔ HasDigest digest.now told.now }
{
    told.iter().any(|one| one.digest == *digest)
}

/// Notifications that were told and that can be accepted again, a number of them at most.
#[derive(Drop)]
pub struct ToldNotifications {
    list: Vec<ToldNotification>,
}

impl ToldNotifications {
    /// Returns the memory of a listener that told nothing. This takes no memory.
    pub(crate) fn new(alloc: Global) -> ToldNotifications
        ensures { result.list.items ≡ [] }
    {
        ToldNotifications {
            list: Vec::new(alloc),
        }
    }

    /// Makes room for one more. The error is out of memory.
    pub(crate) fn reserve(&mut self) -> Result<(), AllocError>
        ensures same { self.new.list.items ≡ self.old.list.items }
        ensures room { OnOk result (vec_len self.new.list < vec_capacity self.new.list) }
    {
        self.list.reserve(1)
    }

    /// Forgets the notifications that can't be accepted any more.
    fn forget(&mut self, now: u64, manager: &Manager)
        ensures list { self.new.list.items ≡ lasting now manager.now.clocks self.old.list.items }
        ensures room { vec_len self.old.list < vec_capacity self.old.list
            → vec_len self.new.list < vec_capacity self.new.list }
    {
        self.list.retain(|one| one.lasts(now, manager));
    }

    /// A notification that is to be told comes now. Those that can't be accepted any more are forgotten. It is
    /// remembered unless it was told before, or as many others are remembered as may be.
    pub(crate) fn note(
        &mut self,
        now: u64,
        manager: &Manager,
        digest: [u8; 32],
        sender: Option<ToldSender>,
        most: usize,
    ) -> ToldNote
        requires { vec_len self.old.list < vec_capacity self.old.list }
        ensures { IsNoted now manager.now.clocks most (told_now now digest sender) self.old.list.items
            self.new.list.items result }
    {
        self.forget(now, manager);
        if has_digest(&self.list, &digest) {
            return ToldNote::Copy;
        }
        if self.list.len() >= most {
            return ToldNote::NoRoom;
        }
        self.list.push_reserved(ToldNotification {
            digest,
            came: now,
            sender,
        });
        ToldNote::New
    }
}
