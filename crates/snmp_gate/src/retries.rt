//! How long a request waits for its device.

ghost use Rattle.std.specs.Prelude.{◌≡◌, ◌*◌, ◌-◌, ◌^◌, min};

/// How long a request waits for its device, and how often the device is asked the same. Times are in milliseconds.
/// RFC 3413, section 4.1.2, has such numbers for targets: snmpTargetAddrTimeout and snmpTargetAddrRetryCount.
#[derive(Clone, Copy, Debug, PartialEq, Eq)]
pub struct Retries {
    /// How long a device has for its answer before it is asked again.
    pub again: u64,
    /// How often a device is asked the same at most. It is asked once where this is 0.
    pub tries: u32,
    /// How long after it came a request is asked, or asked again, at most.
    pub last: u64,
}

impl Retries {
    /// Returns the same for a Set, which is asked once and never again: its device has as long for the answer as it has
    /// for all tries of another request, up to 18446744073709551615 milliseconds.
    pub fn for_set(self) -> Retries
        ensures again { result.again ≡ min (self.again * self.tries) (2 ^ 64 - 1) }
        ensures tries { result.tries ≡ 1 }
        ensures last { result.last ≡ self.last }
    {
        Retries {
            again: self.again.saturating_mul(u64::from(self.tries)),
            tries: 1,
            last: self.last,
        }
    }
}
