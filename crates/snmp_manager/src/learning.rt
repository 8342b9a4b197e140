//! What a manager learns of a message that passed its digest (RFC 3414, section 3.2, step 7).

ghost use Rattle.std.specs.Prelude.{◌≡◌, ◌↔◌, true, IsOk, IsSome, IsTrue, OnErr, OnOk};
ghost use Rattle.engine_clock.specs.Marks.{Marks, mark_at};
ghost use Rattle.usm_core.specs.Answers.{verified_of};
ghost use Rattle.snmp_incoming.specs.Outcome.{IsFresh, pair_in, as_manager};
ghost use Rattle.snmp_manager.specs.Learning.{LearnsChecked};

use engine_clock::{Clocks, Mark, Pair, in_window_manager};
use std::alloc::AllocError;
use usm_core::Checked;

/// The boots and the time that a message says. It takes no memory.
pub fn pair_of(checked: &Checked<'_>) -> Pair
    ensures { result ≡ pair_in (verified_of checked.now) }
{
    let Some(pair) = Pair::of(checked.security.boots, checked.security.time) else {
        unreachable!();
    };
    pair
}

/// Learns the pair of an authenticated message. A message without authentication teaches nothing. Where its
/// engine is held already, this takes no memory and succeeds.
pub fn learn(clocks: &mut Clocks, checked: &Checked<'_>, now: u64) -> Result<(), AllocError>
    ensures no_memory { (checked.now.message.header.auth ≡ true
        → IsSome (mark_at clocks.old checked.now.security.engine.now)) → IsOk result }
    ensures learned { OnOk result (LearnsChecked
        (verified_of checked.now) now clocks.old clocks.new) }
    ensures err { OnErr result (clocks.new ≡ clocks.old) }
{
    if !checked.message.header.auth {
        return Ok(());
    }
    let pair = pair_of(checked);
    clocks.learn(checked.engine.copy(), pair, now)
}

/// Whether a message is in the time window once its pair is learned, which isn't done yet (RFC 3414, section
/// 3.2, step 7). One without authentication has no window.
pub fn is_fresh_once_learned(clocks: &Clocks, checked: &Checked<'_>, now: u64) -> bool
    ensures { (learned : Marks) → LearnsChecked (verified_of checked.now) now clocks.now learned
        → (IsTrue result ↔ (checked.now.message.header.auth ≡ true
        → IsFresh (as_manager learned) now (verified_of checked.now))) }
{
    if !checked.message.header.auth {
        return true;
    }
    let pair = pair_of(checked);
    let held = Mark { pair, seen: now }.joined_to(clocks.mark(&checked.engine));
    in_window_manager(held.pair, held.notion(now), pair)
}
