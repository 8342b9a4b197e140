//! Managers' handles that take the same datagrams in different orders.

ghost use Rattle.std.specs.Prelude.{◌≡◌, ◌∷◌, [], IfSome, IsTrue, ℕ, List};
ghost use Rattle.engine_clock.specs.Pairs.{BootsAndTime};
ghost use Rattle.usm_core.specs.Authentic.{Authentic};
ghost use Rattle.snmp_manager.specs.Known.{HaveSameAuthentic, octets_of};
ghost use Rattle.snmp_manager.specs.Runs.{HasTaken, moments_of};
ghost use Rattle.snmp_manager.specs.Views.{BeginAlike, HoldSamePairs};

use engine_clock::Pair;
use engine_clock::laws::a_listing_has_one_map;
use snmp_handles::{CallFault, ManagerHandle};
use snmp_manager::{same_authentic_same_pairs, taken_holds_the_latest, takes_are_joined};
use snmp_message::Refusal;
use snmpsec_config::one_configuration;
use std::alloc::Global;

/// Hands a datagram to the handle at the moment `now`, in seconds. False if memory ran out, and then nothing was taken.
/// A datagram that isn't authentic changes no pair, whatever is answered.
pub fn hand_one(manager: &mut ManagerHandle, now: u64, datagram: &[u8]) -> bool
    ensures taken { IsTrue result
        → HasTaken manager.old.manager ((now, datagram.now) ∷ []) manager.new.manager }
    ensures unauthentic { ((engine : List ℕ) (pair : BootsAndTime)
        → ¬ Authentic manager.old.manager.users datagram.now engine pair)
        → HoldSamePairs manager.old.manager manager.new.manager }
{
    takes_are_joined();
    same_authentic_same_pairs();
    let Err(fault) = manager.take(now, datagram) else {
        return true;
    };
    if fault == CallFault::Refused(Refusal::OutOfMemory) {
        return false;
    }
    true
}

/// Hands a datagram to the handle. True if its code is wrong (RFC 3414, section 3.2, step 6). Then the manager holds
/// the same pair of each engine as before.
pub fn hand_wrong_digest(manager: &mut ManagerHandle, now: u64, datagram: &[u8]) -> bool
    ensures { IsTrue result → HoldSamePairs manager.old.manager manager.new.manager }
{
    match manager.take(now, datagram) {
        Err(CallFault::Refused(Refusal::WrongDigest)) => true,
        _ => false,
    }
}

/// Hands all datagrams to the handle, each at its moment. False if memory ran out.
pub fn hand_all(manager: &mut ManagerHandle, datagrams: &[(u64, Vec<u8>)]) -> bool
    ensures { IsTrue result
        → HasTaken manager.old.manager (moments_of datagrams.now) manager.new.manager }
{
    takes_are_joined();
    for (now, datagram) in datagrams {
        if !hand_one(manager, *now, datagram) {
            return false;
        }
    }
    true
}

/// Hands datagrams to two handles whose managers begin alike. If the same authentic ones come to both, in any order,
/// at any moments, with any repeats and with anything else between them, the managers hold the same pair of each
/// engine. False if memory ran out.
pub fn hand_to_both(
    one: &mut ManagerHandle,
    other: &mut ManagerHandle,
    datagrams: &[(u64, Vec<u8>)],
    others: &[(u64, Vec<u8>)],
) -> bool
    requires alike { BeginAlike one.old.manager other.old.manager }
    ensures users { IsTrue result → one.new.manager.users ≡ one.old.manager.users }
    ensures pairs { IsTrue result
        → HaveSameAuthentic one.old.manager.users (octets_of (moments_of datagrams.now))
        (octets_of (moments_of others.now))
        → HoldSamePairs one.new.manager other.new.manager }
{
    same_authentic_same_pairs();
    taken_holds_the_latest();
    if !hand_all(one, datagrams) {
        return false;
    }
    hand_all(other, others)
}

/// Makes two handles of one configuration and one text of saved clocks. Their managers begin alike. None if a text is
/// refused, or memory ran out.
pub fn begin_both(
    alloc: Global,
    config: &[u8],
    clocks: &[u8],
    now: u64,
) -> Option<(ManagerHandle, ManagerHandle)>
    ensures { IfSome result (λ both. BeginAlike both.0.manager both.1.manager) }
{
    one_configuration();
    a_listing_has_one_map();
    let Ok(one) = ManagerHandle::of(alloc, config, clocks, now) else {
        return None;
    };
    let Ok(other) = ManagerHandle::of(alloc, config, clocks, now) else {
        return None;
    };
    Some((one, other))
}

/// Asks both handles for the pair that is held of an engine. If their managers hold the same pair of each engine, the
/// answers are the same.
pub fn ask_both(
    one: &ManagerHandle,
    other: &ManagerHandle,
    engine: &[u8],
) -> (Result<Pair, CallFault>, Result<Pair, CallFault>)
    ensures { HoldSamePairs one.now.manager other.now.manager → result.0 ≡ result.1 }
{
    (one.pair(engine), other.pair(engine))
}

/// The headline, from the texts on: two handles of one configuration and one text of saved clocks take datagrams, each
/// its own. If the same authentic ones are among them, both answer the same pair for each engine. None if a text is
/// refused, or memory ran out.
pub fn begin_and_take(
    alloc: Global,
    config: &[u8],
    clocks: &[u8],
    now: u64,
    datagrams: &[(u64, Vec<u8>)],
    others: &[(u64, Vec<u8>)],
) -> Option<(ManagerHandle, ManagerHandle)>
    ensures { IfSome result (λ both.
        HaveSameAuthentic both.0.manager.users (octets_of (moments_of datagrams.now))
        (octets_of (moments_of others.now))
        → HoldSamePairs both.0.manager both.1.manager) }
{
    let Some((mut one, mut other)) = begin_both(alloc, config, clocks, now) else {
        return None;
    };
    if hand_to_both(&mut one, &mut other, datagrams, others) {
        return Some((one, other));
    }
    None
}
