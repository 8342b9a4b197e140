//! Texts that are cut at an octet.
ghost use Rattle.std.specs.Prelude.{◌≡◌, ◌≢◌, ℕ, ◌<◌, ◌≤◌, length, slice_index, IfSome, IfNone};
ghost use Rattle.snmp_ber.specs.Splits.{IsSplit, Lacks};

/// What is before the first such octet, and what is after it.
pub fn split_once(text: &[u8], octet: u8) -> Option<(&[u8], &[u8])>
    ensures found { IfSome result (λ r. IsSplit octet text.now r.0.now r.1.now) }
    ensures none { IfNone result (Lacks octet text.now) }
{
    let at = find(text, octet);
    if at < text.len() {
        Some((&text[..at], &text[at + 1..]))
    } else {
        None
    }
}

/// The place of the first such octet, or else the length.
pub fn find(text: &[u8], octet: u8) -> usize
    ensures within { result ≤ length text.now }
    ensures before { (k : ℕ) → k < result → slice_index text.now k ≢ octet }
    ensures found { result < length text.now → slice_index text.now result ≡ octet }
{
    for (i, x) in text.iter().enumerate() {
        if *x == octet {
            return i;
        }
    }
    text.len()
}
