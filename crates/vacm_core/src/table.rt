//! A table whose rows stand by name, and where the rows of each name are.
ghost use Rattle.std.specs.Prelude.{◌≡◌, ◌≢◌, ℕ, ◌<◌, ◌≤◌, ◌-◌, length, get_or, slice_range, MatchBool, MatchOption};
ghost use Rattle.std.specs.Prelude.{IfOk};
ghost use Rattle.std.specs.List.Sorted.{IsPermutation};
ghost use Rattle.vacm_core.specs.RowOrder.{AreInPlace, AreRuns, IsRunOf};

use crate::Name;
use crate::named_row::NamedRow;
use crate::place::{copies, count_upto, sort};
use std::alloc::{AllocError, Global};
use std::collections::HashMap;
use std::marker::Model;

/// Where the rows of one name stand: from the place of the first up to the place behind the last.
#[derive(Clone, Copy)]
pub(crate) struct Run {
    first: usize,
    end: usize,
}

/// Rows by name, those of a name from the best down. They are found through their run, whatever their number.
#[derive(Drop)]
pub struct OrderedTable<R: NamedRow> {
    rows: Vec<R>,
    runs: HashMap<Name, Run>,
}

impl<R: NamedRow> Model for OrderedTable<R> {
    ghost use Rattle.std.specs.Prelude.{List, length};
    ghost use Rattle.vacm_core.specs.RowOrder.{AreRuns};

    ghost Value = { List R };

    ghost view = { λ t. t.rows.items };

    ghost invariant = { λ t. AreRuns R.name_of R.rank t.rows.items
        (length t.rows.items) t.runs.entries };
}

/// Whether the row at the place is the first of its name.
fn is_first<R: NamedRow>(rows: &[R], place: usize) -> bool
    requires in_place { AreInPlace R.name_of R.rank rows.now }
    requires within { place < length rows.now }
    ensures { MatchBool result
        ((k : ℕ) (d : R) → k < place → R.name_of (get_or rows.now k d)
        ≢ R.name_of (get_or rows.now place d))
        ((0 < place) × ((d : R) → R.name_of (get_or rows.now (place - 1) d)
        ≡ R.name_of (get_or rows.now place d))) }
{
    place == 0 || rows[place - 1].name() != rows[place].name()
}

/// The run of the rows that have the name of this one, the first that has it.
fn run_at<R: NamedRow>(rows: &[R], first: usize) -> Run
    requires in_place { AreInPlace R.name_of R.rank rows.now }
    requires within { first < length rows.now }
    requires first { (k : ℕ) (d : R) → k < first
        → R.name_of (get_or rows.now k d) ≢ R.name_of (get_or rows.now first d) }
    ensures within { (result.first ≤ result.end) × (result.end ≤ length rows.now) }
    ensures run { (d : R)
        → IsRunOf R.name_of R.rank (R.name_of (get_or rows.now first d)) rows.now
        (slice_range rows.now result.first result.end) }
{
    let wanted = rows[first].name().as_slice();
    let count = count_upto(&rows[first..], wanted);
    Run {
        first,
        end: first + count,
    }
}

/// The run of each name.
fn runs_of<R: NamedRow>(alloc: Global, rows: &[R]) -> Result<HashMap<Name, Run>, AllocError>
    requires { AreInPlace R.name_of R.rank rows.now }
    ensures { IfOk result (λ runs. AreRuns R.name_of R.rank rows.now
        (length rows.now) runs.entries) }
{
    let mut runs = HashMap::new(alloc);
    for place in 0..rows.len() {
        if is_first(rows, place) {
            runs.insert(rows[place].name().copy(), run_at(rows, place))?;
        }
    }
    Ok(runs)
}

impl<R: NamedRow> OrderedTable<R> {
    /// Copies of the rows.
    pub fn of(alloc: Global, rows: &[R]) -> Result<OrderedTable<R>, AllocError>
        ensures { IfOk result (λ table. IsPermutation rows.now table) }
    {
        OrderedTable::made_of(alloc, copies(alloc, rows)?)
    }

    /// These rows.
    pub fn made_of(alloc: Global, mut rows: Vec<R>) -> Result<OrderedTable<R>, AllocError>
        ensures { IfOk result (λ table. IsPermutation rows.items table) }
    {
        sort(&mut rows)?;
        let runs = runs_of(alloc, &rows)?;
        Ok(OrderedTable { rows, runs })
    }

    /// The run of this name.
    fn run_of(&self, wanted: &[u8]) -> Option<Run>
        ensures { MatchOption result
            ((k : ℕ) (d : R) → k < length self.now → R.name_of (get_or self.now k d) ≢ wanted.now)
            (λ run. (run.first ≤ run.end) × (run.end ≤ length self.now)
            × IsRunOf R.name_of R.rank wanted.now self.now
            (slice_range self.now run.first run.end)) }
    {
        let runs = &self.runs;
        let name = Name::of(wanted)?;
        Some(*runs.get(&name)?)
    }

    /// The rows of this name, from the best down.
    pub fn rows_of(&self, wanted: &[u8]) -> &[R]
        ensures run { IsRunOf R.name_of R.rank wanted.now self.now result.now }
        ensures short { length result.now ≤ length self.now }
    {
        let rows = &self.rows;
        let Some(run) = self.run_of(wanted) else {
            return &[];
        };
        &rows[run.first..run.end]
    }
}
