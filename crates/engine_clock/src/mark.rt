//! What is held of one engine.
ghost use Rattle.std.specs.Prelude.{◌≡◌, Option};
ghost use Rattle.std.specs.Ordering.{ord_max, as_partial_cmp};
ghost use Rattle.std.specs.Cmp.{partial_order_from_own_ties, partial_order_from_total};
ghost use Rattle.std.specs.Cmp.Rules.{comparing};
ghost use Rattle.std.proofs.Common.{rules};
ghost use Rattle.engine_clock.specs.JoinLaws.{IsJoin-max};
ghost use Rattle.engine_clock.specs.Marks.{mark_cmp, mark_cmp_total, mark_cmp_exact, joined_to};
ghost use Rattle.engine_clock.specs.Windows.{notion_at};

use crate::{Join, Pair};
use std::cmp::Ordering;
use std::marker::Model;

/// The pair of an engine, and the moment in seconds at which it was seen. Marks are in the order of their pairs, and at
/// equal pairs the earlier moment is above.
#[derive(Clone, Copy, Debug, PartialEq, Eq)]
pub struct Mark {
    pub pair: Pair,
    pub seen: u64,
}

impl Model for Mark {
    ghost use Rattle.std.specs.Prelude.{◌<◌, ◌^◌};
    ghost use Rattle.engine_clock.specs.Marks.{SeenPair};

    ghost Value = { SeenPair };

    ghost view = { λ m. record { pair = m.pair; seen = m.seen } };

    ghost invariant = { λ m. m.seen < 2 ^ 64 };

    ghost inverse = { λ m. record { pair = m.pair; seen = m.seen } };
}

impl Ord for Mark {
    ghost cmp = { mark_cmp };

    ghost total = { mark_cmp_total };

    ghost matches_partial_cmp = { Prim.search (comparing, rules) };

    ghost matches_eq = { Prim.search (comparing, rules) };

    fn cmp(&self, other: &Mark) -> Ordering {
        self.pair.cmp(&other.pair).then(other.seen.cmp(&self.seen))
    }
}

impl PartialOrd for Mark {
    ghost partial_cmp = { as_partial_cmp mark_cmp };

    ghost laws = { partial_order_from_own_ties (partial_order_from_total mark_cmp_total)
        (Prim.search (comparing, rules)) };

    fn partial_cmp(&self, other: &Mark) -> Option<Ordering> {
        Some(self.cmp(other))
    }
}

/// The join of two marks is the greater.
impl Join for Mark {
    ghost joined = { ord_max mark_cmp };

    ghost laws_of_join = { IsJoin-max mark_cmp_total mark_cmp_exact };

    fn join(self, other: Mark) -> Mark {
        self.max(other)
    }
}

impl Mark {
    /// What is held of an engine once this mark has come in, where `held` was held before: the greater of the two.
    pub fn joined_to(self, held: Option<Mark>) -> Mark
        ensures { result ≡ joined_to held self }
    {
        match held {
            Some(held) => held.join(self),
            None => self,
        }
    }

    /// The engine's time at the moment `now`, as far as the mark tells: its time, and the seconds since it
    /// was seen, at most 2147483647.
    pub fn notion(&self, now: u64) -> u32
        ensures { result ≡ notion_at now self.now }
    {
        let passed = now.saturating_sub(self.seen);
        let notion = u64::from(self.pair.time).saturating_add(passed);
        notion.min(u64::from(Pair::MAX)) as u32
    }
}
