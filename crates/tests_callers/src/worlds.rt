//! Managers that share saved clocks.

ghost use Rattle.std.specs.Prelude.{◌≡◌, ℕ, IfSome, Some, slice_get};
ghost use Rattle.snmp_manager.specs.Views.{Held};
ghost use Rattle.snmp_manager.specs.Knowledge.{SameKnowledge};
ghost use Rattle.tests_callers.specs.Begun.{known_to};

use engine_clock::Clocks;
use snmp_manager::{Event, World, equal_knowledge_equal_marks};
use std::alloc::Global;
use usm_core::Users;

/// Makes a manager of each of these clocks, all with the same users, and lets the events happen: datagrams that they
/// take, files that they save, absorb, or go on from. Two managers to which the same knowledge came hold equal
/// marks at the end, whatever the order and however often it came. None if an event names what isn't there, or memory
/// ran out.
pub fn run_replicas(
    alloc: Global,
    users: &Users,
    clocks: &[Clocks],
    events: &[Event],
) -> Option<World>
    ensures { IfSome result (λ world. (i j : ℕ) (a b : Held)
        → slice_get world.managers i ≡ Some a → slice_get world.managers j ≡ Some b
        → SameKnowledge (known_to users.now.users clocks.now events.now i)
        (known_to users.now.users clocks.now events.now j)
        → a.clocks ≡ b.clocks) }
{
    equal_knowledge_equal_marks();
    let Ok(mut world) = World::new(alloc, users, clocks) else {
        return None;
    };
    let Ok(()) = world.run(events) else {
        return None;
    };
    Some(world)
}
