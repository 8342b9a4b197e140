//! Numbers in decimal.

ghost use Rattle.std.specs.Prelude.{◌≡◌, ◌≢◌, ℕ, ◌<◌, ◌^◌, ◌⊎◌, length, decimal, slice_index, IfSome, Some, MatchBool};
ghost use Rattle.snmp_ber.specs.Decimal.{IsDecimal};

/// The number whose decimal this is, where it is at most `most`, or None where the text isn't such a number's.
///
/// A decimal has digits alone, at least one, and no zero leads but in `0` itself.
pub fn read_decimal(text: &[u8], most: u64) -> Option<u64>
    ensures found { IfSome result (λ n. IsDecimal most n text.now) }
    ensures all { (n : ℕ) → IsDecimal most n text.now → result ≡ Some n }
{
    let number = read_digits(text)?;
    if number <= most { Some(number) } else { None }
}

/// The number of 64 bits whose decimal this is.
fn read_digits(text: &[u8]) -> Option<u64>
    ensures found { IfSome result (λ n. text.now ≡ decimal n) }
    ensures all { (n : ℕ) → n < 2 ^ 64 → text.now ≡ decimal n → result ≡ Some n }
{
    if begins_wrongly(text) {
        return None;
    }
    let Ok(digits) = str::from_utf8(text) else {
        return None;
    };
    digits.parse().ok()
}

/// There is a plus sign in front, or a zero that leads.
fn begins_wrongly(text: &[u8]) -> bool
    ensures { MatchBool result
        ((slice_index text.now 0 ≡ 43) ⊎ ((slice_index text.now 0 ≡ 48) × (1 < length text.now)))
        ((slice_index text.now 0 ≢ 43) × (slice_index text.now 0 ≡ 48 → length text.now ≡ 1)) }
{
    !text.is_empty() && (text[0] == b'+' || text[0] == b'0' && text.len() > 1)
}
