//! What a request is sent with.

ghost use Rattle.std.specs.Prelude.{◌≡◌, Some};
ghost use Rattle.engine_clock.specs.Marks.{mark_at};
ghost use Rattle.engine_clock.specs.Marks.{SeenPair};
ghost use Rattle.engine_clock.specs.Pairs.{IsPair};
ghost use Rattle.snmp_outgoing.specs.Requests.{written_pair, no_pair};

use engine_clock::{Clocks, EngineId, Pair};
use snmp_ber::Level;

/// Boots and time where nothing is known.
pub(crate) fn no_pair() -> Pair
    ensures { result ≡ no_pair }
{
    Pair { boots: 0, time: 0 }
}

/// Boots and time of a request to the engine at the moment `now`: at levels with authentication the held
/// boots and the notion of the time.
pub(crate) fn written_pair(clocks: &Clocks, engine: &EngineId, level: Level, now: u64) -> Pair
    ensures pair { result ≡ written_pair level (mark_at clocks.now engine.now) now }
    ensures is_pair { (mark : SeenPair) → mark_at clocks.now engine.now ≡ Some mark
        → IsPair mark.pair }
{
    let Some(held) = clocks.mark(engine) else {
        return no_pair();
    };
    let boots = held.pair.boots;
    if level == Level::NoAuthNoPriv {
        return no_pair();
    }
    Pair {
        boots,
        time: held.notion(now),
    }
}
