//! Managers that take the same datagrams in different orders.

ghost use Rattle.std.specs.Prelude.{◌∷◌, [], IsTrue};
ghost use Rattle.snmp_manager.specs.Views.{BeginAlike, HoldSamePairs};
ghost use Rattle.snmp_manager.specs.Runs.{HasTaken};

use snmp_manager::{Manager, same_authentic_same_pairs, takes_are_joined};
use snmp_message::Refusal;

/// Takes a datagram at the moment `now`, in seconds. False if memory ran out, and then nothing was taken.
pub fn take_one(manager: &mut Manager, now: u64, datagram: &[u8]) -> bool
    ensures { IsTrue result → HasTaken manager.old ((now, datagram.now) ∷ []) manager.new }
{
    takes_are_joined();
    let Err(fault) = manager.take(now, datagram) else {
        return true;
    };
    if fault.is_memory() {
        return false;
    }
    true
}

/// Takes a datagram at the moment `now`, in seconds. True if its code is wrong (RFC 3414, section 3.2, step 6).
/// Then the manager holds the same pair of each engine as before.
pub fn take_wrong_digest(manager: &mut Manager, now: u64, datagram: &[u8]) -> bool
    ensures { IsTrue result → HoldSamePairs manager.old manager.new }
{
    let Err(refused) = manager.take(now, datagram) else {
        return false;
    };
    match refused.refusal {
        Refusal::WrongDigest => true,
        _ => false,
    }
}

/// The headline at its smallest: two managers that begin alike take two datagrams, each in its own order and at its own
/// moments, and one of them takes a datagram twice. Then they hold the same pair of each engine. False if memory
/// ran out.
pub fn take_all_the_same(
    one: &mut Manager,
    other: &mut Manager,
    now: u64,
    later: u64,
    first: &[u8],
    second: &[u8],
) -> bool
    requires alike { BeginAlike one.old other.old }
    ensures { IsTrue result → HoldSamePairs one.new other.new }
{
    takes_are_joined();
    same_authentic_same_pairs();
    if !take_one(one, now, first) {
        return false;
    }
    if !take_one(one, later, second) {
        return false;
    }
    if !take_one(other, later, second) {
        return false;
    }
    if !take_one(other, now, first) {
        return false;
    }
    if !take_one(other, now, second) {
        return false;
    }
    true
}
