//! The counters of refused messages.

ghost use Rattle.std.specs.Prelude.{◌≡◌, ◌≤◌, IfSome};
ghost use Rattle.snmp_agent.specs.RefusalCounters.{counter_of, counted};

use snmp_msg::Refusal;

/// The number of the counter that counts this refusal, 1 to 6 (usmStats, RFC 3414, section 5).
pub(crate) fn counter_of(why: Refusal) -> Option<u8>
    ensures value { result ≡ counter_of why }
    ensures range { IfSome result (λ n. (1 ≤ n) × (n ≤ 6)) }
{
    match why {
        Refusal::UnsupportedLevel => Some(1),
        Refusal::NotInWindow => Some(2),
        Refusal::UnknownUser => Some(3),
        Refusal::UnknownEngine => Some(4),
        Refusal::WrongDigest => Some(5),
        Refusal::DecryptionError => Some(6),
        _ => None,
    }
}

/// The counters after a refusal. Each is of 32 bits, and goes from its greatest value to 0.
pub(crate) fn count_refusal(counters: [u32; 6], why: Refusal) -> [u32; 6]
    ensures { result ≡ counted counters (counter_of why) }
{
    let mut counters = counters;
    if let Some(n) = counter_of(why) {
        let at = usize::from(n) - 1;
        counters[at] = counters[at].wrapping_add(1);
    }
    counters
}
