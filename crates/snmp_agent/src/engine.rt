//! An authoritative engine's identifier and its clock.

ghost use Rattle.std.specs.Prelude.{◌≤◌};
ghost use Rattle.engine_clock.specs.Pairs.{pair_max};

use engine_clock::{EngineId, Pair};

/// An authoritative engine (RFC 3414, section 2.2). Moments are in seconds from one beginning, which the caller keeps.
#[derive(Drop)]
pub(crate) struct Engine {
    pub(crate) id: EngineId,
    /// snmpEngineBoots, at most 2147483647.
    pub(crate) boots: u32,
    /// The moment at which it started.
    pub(crate) started: u64,
    pub ghost boots_fit: { boots ≤ pair_max },
}

impl Engine {
    ghost use Rattle.std.specs.Prelude.{◌≡◌, ◌<◌, ◌-◌, MatchOption};
    ghost use Rattle.engine_clock.specs.Pairs.{IsPair};
    ghost use Rattle.snmp_incoming.specs.Outcome.{own_pair};

    /// Its boots and its time, the seconds since it started, which are 0 where `now` is earlier; or None
    /// where the time would be above 2147483647.
    pub(crate) fn pair(&self, now: u64) -> Option<Pair>
        ensures { MatchOption result (pair_max < now - self.now.started)
            (λ pair. (now - self.now.started ≤ pair_max)
            × (pair ≡ own_pair self.now.boots self.now.started now)
            × IsPair pair) }
    {
        let time = now.saturating_sub(self.started);
        if time > u64::from(Pair::MAX) {
            return None;
        }
        Some(Pair {
            boots: self.boots,
            time: time as u32,
        })
    }
}
