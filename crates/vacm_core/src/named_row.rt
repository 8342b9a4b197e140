//! Rows that stand by name.
ghost use Rattle.std.specs.Prelude.{◌≡◌, ℕ, List};
ghost use Rattle.std.specs.Cmp.{IsTotalOrder};
ghost use Rattle.std.specs.declared.cmp.Ordering.{Ordering as Order};

use crate::Name;
use std::cmp::Ordering;

/// A row of a table: the name that it stands by, and which of two rows of one name is the better.
pub trait NamedRow: Drop {
    ghost name_of: { Self → List ℕ };

    ghost rank: { Self → Self → Order };

    /// The name that the rows of its table stand by.
    fn name(&self) -> &Name
        ensures { result.now ≡ name_of self.now };

    /// Which of two rows of one name is the better.
    fn ranking(&self, other: &Self) -> Ordering
        ensures { result ≡ rank self.now other.now };

    /// The same row. It takes no memory.
    fn copy(&self) -> Self
        ensures { result ≡ self.now };

    ghost rank_total: { IsTotalOrder rank };
}
