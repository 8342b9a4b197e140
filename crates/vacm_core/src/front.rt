//! Counts the items at the beginning of a slice that pass a test.
ghost use Rattle.std.specs.Prelude.{◌≡◌, ◌<◌, ◌≤◌, length, true, false, Bool};
ghost use Rattle.std.specs.Fn.{ComputesKey};
ghost use Rattle.std.specs.List.Sorted.{IsPartitionedBy, IsPartitionPoint};

/// How many times further each probe goes.
const STRIDE: usize = 8;

/// Counts the items before the first that fails the test. No item after that one may pass it. The search
/// begins near the first item, since the count is mostly small.
pub(crate) fn count_front<T, P: Fn(&T) -> bool>(items: &[T], passes: P) -> usize
    requires { P.IsAlwaysCallable passes }
    ensures bound { result ≤ length items.now }
    ensures parted { (p : T → Bool) → ComputesKey P.FnMut p passes → IsPartitionedBy p items.now
        → IsPartitionPoint (λ y. p y ≡ true) (λ y. p y ≡ false) items.now result }
{
    let mut near = 1;
    while near < items.len() && passes(&items[near]) {
        near = near.saturating_mul(STRIDE);
    }
    let near = near.min(items.len());
    items[..near].partition_point(passes)
}
