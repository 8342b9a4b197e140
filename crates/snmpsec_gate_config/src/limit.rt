//! The least, the greatest and the default of each limit.

ghost use Rattle.std.specs.Prelude.{◌≡◌};
ghost use Rattle.snmpsec_gate_config.specs.Limits.{limit_of};

use crate::table::LimitKey;

/// A number that is from `least` to `most`, or `default` where it isn't written.
#[derive(Clone, Copy, Debug, PartialEq, Eq)]
pub struct Limit {
    pub least: u32,
    pub most: u32,
    pub default: u32,
}

/// Returns a limit of these numbers.
const fn bounds(least: u32, most: u32, default: u32) -> Limit
    ensures least { result.least ≡ least }
    ensures most { result.most ≡ most }
    ensures default { result.default ≡ default }
{
    Limit {
        least,
        most,
        default,
    }
}

impl LimitKey {
    /// Returns its limit. Times are in milliseconds, sizes in octets.
    pub fn limit(self) -> Limit
        ensures { result ≡ limit_of self }
    {
        match self {
            LimitKey::Waiting => bounds(1, 65_535, 1024),
            LimitKey::Rounds => bounds(1, 65_535, 64),
            LimitKey::Again => bounds(1, 60_000, 1000),
            LimitKey::Tries => bounds(1, 100, 3),
            LimitKey::Last => bounds(1, 60_000, 5000),
            LimitKey::Gather => bounds(0, 60_000, 500),
            LimitKey::WaitingPerDevice => bounds(1, 65_535, 256),
            LimitKey::Repetitions => bounds(1, 65_535, 32),
            LimitKey::MaxSize => bounds(484, 65_507, 65_507),
            LimitKey::AtOnce => bounds(1, 1024, 32),
        }
    }
}
