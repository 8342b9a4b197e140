//! The family rows of one view, and whether they have a variable.
ghost use Rattle.std.specs.Prelude.{◌≡◌, ◌++◌, ◌↔◌, ◌^◌, ℕ, ◌<◌, ◌≤◌, length, get_or, IsTrue};
ghost use Rattle.vacm_core.specs.Allowed.{family_order};
ghost use Rattle.vacm_core.specs.RowOrder.{AreFalling};
ghost use Rattle.vacm_core.specs.View.{AreExact, AreDistinct, Includes, IsExact, NoneUnder};
ghost use Rattle.vacm_core.specs.Wildcard.{wildcard_order};
ghost use Rattle.vacm_core.specs.declared.rows.FamilyRow.{FamilyRow as Family};

use crate::rows::FamilyRow;
use crate::under::{next_under, next_wildcard};
use crate::view::deciding_row;
use crate::wildcard::WildcardRow;
use std::marker::Model;

/// The family rows of one view: those whose masks compare each arc, and then the others, each from the best down.
/// No two of them have the same subtree, and there are fewer than 2^32.
#[derive(Drop)]
pub struct ViewRows<'a> {
    exact: &'a [FamilyRow],
    others: &'a [WildcardRow],
}

impl<'a> Model for ViewRows<'a> {
    ghost use Rattle.std.specs.Prelude.{List, ◌++◌, ◌^◌, ◌<◌, length};
    ghost use Rattle.vacm_core.specs.declared.rows.FamilyRow.{FamilyRow};
    ghost use Rattle.vacm_core.specs.Allowed.{family_order};
    ghost use Rattle.vacm_core.specs.RowOrder.{AreFalling};
    ghost use Rattle.vacm_core.specs.View.{AreExact, AreDistinct};
    ghost use Rattle.vacm_core.specs.Wildcard.{wildcard_order};

    ghost Value = { List FamilyRow };

    ghost view = { λ r. r.exact.now ++ r.others.now };

    ghost invariant = { λ r. AreFalling family_order r.exact.now × AreFalling wildcard_order r.others.now
        × AreExact r.exact.now × AreDistinct (r.exact.now ++ r.others.now)
        × (length (r.exact.now ++ r.others.now) < 2 ^ 32) };
}

impl<'a> ViewRows<'a> {
    /// Wraps the rows of a view.
    pub(crate) fn of(exact: &'a [FamilyRow], others: &'a [WildcardRow]) -> ViewRows<'a>
        requires exact_falling { AreFalling family_order exact.now }
        requires others_falling { AreFalling wildcard_order others.now }
        requires exact { AreExact exact.now }
        requires distinct { AreDistinct (exact.now ++ others.now) }
        requires few { length (exact.now ++ others.now) < 2 ^ 32 }
        ensures { result ≡ exact.now ++ others.now }
    {
        ViewRows { exact, others }
    }

    /// Returns how many rows there are.
    pub fn count(&self) -> usize
        ensures count { result ≡ length self.now }
        ensures few { length self.now < 2 ^ 32 }
    {
        let (exact, others) = (self.exact.len(), self.others.len());
        exact + others
    }

    /// Returns the row at this place, counted from 0.
    pub fn row(&self, place: usize) -> &'a FamilyRow
        requires { place < length self.now }
        ensures { (d : Family) → result.now ≡ get_or self.now place d }
    {
        match self.exact.get(place) {
            Some(row) => row,
            None => self.others[place - self.exact.len()].row(),
        }
    }

    /// Returns how many rows, from the first place on, compare each of their arcs.
    pub fn count_exact(&self) -> usize
        ensures exact { (k : ℕ) (d : Family) → k < result → IsExact (get_or self.now k d) }
        ensures within { result ≤ length self.now }
    {
        self.exact.len()
    }

    /// Returns the next place, from this one on, at which a row is longer than the beginning of a name and agrees
    /// with it, or the number of rows if there is none. Rows are found by halving, by length and mask.
    pub fn next_under(&self, beginning: &[u32], place: usize) -> usize
        requires { place ≤ length self.now }
        ensures from_on { place ≤ result }
        ensures within { result ≤ length self.now }
        ensures none { NoneUnder self.now beginning.now place result }
    {
        let exact = self.exact.len();
        let next = next_under(self.exact, beginning, place.min(exact));
        if next < exact {
            return next;
        }
        exact + next_wildcard(self.others, beginning, place.max(exact) - exact)
    }

    /// Returns true if the view has the variable: of the rows whose subtrees have it, the best includes it (RFC
    /// 3415, section 4, vacmViewTreeFamilyTable). It takes no memory.
    pub fn includes(&self, variable: &[u32]) -> bool
        ensures { IsTrue result ↔ Includes self.now variable.now }
    {
        match deciding_row(self.exact, self.others, variable) {
            Some(row) => row.include,
            None => false,
        }
    }
}
