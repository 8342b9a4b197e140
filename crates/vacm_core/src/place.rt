//! Rows that stand by name, the rows of a name from the best down.
ghost use Rattle.std.specs.Prelude.{◌≡◌, ◌<◌, ◌≤◌, length, nat_lt, true, false, IfOk, OnOk};
ghost use Rattle.std.specs.List.Sorted.{IsPermutation, IsPartitionedBy, IsPartitionPoint};
ghost use Rattle.vacm_core.specs.RowOrder.{place_order, side_of, AreInPlace};

use crate::front::count_front;
use crate::named_row::NamedRow;
use std::alloc::{AllocError, Global};
use std::cmp::Ordering;

/// The order in which rows stand.
fn place<R: NamedRow>(a: &R, b: &R) -> Ordering
    ensures { result ≡ place_order R.name_of R.rank a.now b.now }
{
    let (first, second) = (a.name().as_slice(), b.name().as_slice());
    first.cmp(second).then(b.ranking(a))
}

/// The row comes before those of the name, or is one.
fn is_upto<R: NamedRow>(row: &R, wanted: &[u8]) -> bool
    ensures { result ≡ nat_lt (side_of R.name_of wanted.now row.now) 2 }
{
    row.name().as_slice().cmp(wanted).is_le()
}

/// How many of the rows are not past the name.
pub(crate) fn count_upto<R: NamedRow>(rows: &[R], wanted: &[u8]) -> usize
    requires { IsPartitionedBy (λ row. nat_lt (side_of R.name_of wanted.now row) 2) rows.now }
    ensures bound { result ≤ length rows.now }
    ensures parted { IsPartitionPoint (λ row. nat_lt (side_of R.name_of wanted.now row) 2 ≡ true)
        (λ row. nat_lt (side_of R.name_of wanted.now row) 2 ≡ false) rows.now result }
{
    count_front(rows, |row| is_upto(row, wanted))
}

/// The same rows.
pub(crate) fn copies<R: NamedRow>(alloc: Global, rows: &[R]) -> Result<Vec<R>, AllocError>
    ensures { IfOk result (λ made. made.items ≡ rows.now) }
{
    let mut made = Vec::new(alloc);
    for row in rows {
        made.push(row.copy())?;
    }
    Ok(made)
}

/// The rows in their places.
pub(crate) fn sort<R: NamedRow>(rows: &mut Vec<R>) -> Result<(), AllocError>
    ensures same { IsPermutation rows.old.items rows.new.items }
    ensures in_place { OnOk result (AreInPlace R.name_of R.rank rows.new.items) }
{
    rows.sort_by(|a, b| place(a, b))
}
