//! The least arc with which a name in a view goes on.
ghost use Rattle.std.specs.Prelude.{◌≡◌, ◌↔◌, ◌⊎◌, [], ◌∷◌, ◌++◌, ℕ, ◌<◌, ◌≤◌, length, Some};
ghost use Rattle.std.specs.Prelude.{IsTrue, IfSome, MatchOption};
ghost use Rattle.vacm_next.specs.Opening.{ComparesNext, IsAtRow, IsLeastArc, IsLowerThan, OpensAt};

use crate::opening::{agrees, opens};
use arrayvec::ArrayVec;
use vacm_core::{FamilyRow, ViewRows};

/// How many arcs are tried one after another. A look at a row takes a twentieth of the time of trying two arcs at it.
const STEPS: u32 = 16;

/// Returns the arc that the row compares with the one after the beginning, if it agrees with the beginning.
fn next_arc(row: &FamilyRow, beginning: &[u32]) -> Option<u32>
    ensures { MatchOption result
        ((arc : ℕ) → ¬ ComparesNext beginning.now row.now arc)
        (λ arc. ComparesNext beginning.now row.now arc) }
{
    let depth = beginning.len();
    let arc = *row.subtree.as_slice().get(depth)?;
    if row.mask.compares(depth) && agrees(row, beginning) {
        Some(arc)
    } else {
        None
    }
}

/// Returns the lesser of two arcs: the least one so far, if there is one, and the one after the beginning that the
/// row compares, if there is one from `low` on.
fn nearer(least: Option<u32>, row: &FamilyRow, beginning: &[u32], low: u32) -> Option<u32>
    ensures under { (arc : ℕ) → IsLowerThan arc result → IsLowerThan arc least }
    ensures row { (arc : ℕ) → low ≤ arc → IsLowerThan arc result → ¬ ComparesNext beginning.now row.now arc }
    ensures from_on { IfSome least (λ arc. low ≤ arc) → IfSome result (λ arc. low ≤ arc) }
{
    let Some(arc) = next_arc(row, beginning) else {
        return least;
    };
    if arc < low {
        return least;
    }
    match least {
        Some(other) if other <= arc => least,
        _ => Some(arc),
    }
}

/// Returns the next arc at which names may be in the view if there are none at this one: the arc after it if a row
/// compares it, or else the least greater one that a row compares.
fn arc_after(rows: &ViewRows<'_>, beginning: &[u32], arc: u32) -> Option<u32>
    ensures { MatchOption result
        ((other : ℕ) → arc < other → OpensAt rows.now beginning.now other
        → OpensAt rows.now beginning.now arc)
        (λ next. (arc < next) × ((other : ℕ) → arc < other → other < next
        → OpensAt rows.now beginning.now other → OpensAt rows.now beginning.now arc)) }
{
    let mut least = None;
    let mut place = rows.next_under(beginning, 0);
    while place < rows.count() {
        least = nearer(least, rows.row(place), beginning, arc);
        place = rows.next_under(beginning, place + 1);
    }
    match least {
        Some(other) if other > arc => Some(other),
        Some(_) => arc.checked_add(1),
        None => None,
    }
}

/// Returns these arcs and one more.
pub(crate) fn with_arc(beginning: &[u32], arc: u32) -> ArrayVec<u32, 128>
    requires { length beginning.now < 128 }
    ensures { result.items ≡ beginning.now ++ arc ∷ [] }
{
    let mut arcs = ArrayVec::new();
    let _ = arcs.try_extend_from_slice(beginning);
    arcs.push(arc);
    arcs
}

/// Returns true if some name in the view goes on with the arc after the beginning.
fn opens_at(rows: &ViewRows<'_>, beginning: &[u32], arc: u32) -> bool
    requires { length beginning.now < 128 }
    ensures { IsTrue result ↔ OpensAt rows.now beginning.now arc }
{
    opens(rows, with_arc(beginning, arc).as_slice())
}

/// Returns the lesser of the least arc so far, if there is one, and this arc, if a name in the view goes on with it.
fn lesser_open(rows: &ViewRows<'_>, beginning: &[u32], least: Option<u32>, arc: u32) -> Option<u32>
    requires { length beginning.now < 128 }
    ensures under { (other : ℕ) → IsLowerThan other result → IsLowerThan other least }
    ensures arc { IsLowerThan arc result → ¬ OpensAt rows.now beginning.now arc }
    ensures one { IfSome result
        (λ other. (least ≡ Some other) ⊎ ((other ≡ arc) × OpensAt rows.now beginning.now arc)) }
{
    if let Some(other) = least {
        if other <= arc {
            return least;
        }
    }
    if opens_at(rows, beginning, arc) {
        Some(arc)
    } else {
        least
    }
}

/// Returns the lesser of the least arc so far, if there is one, and the one after the beginning that the row compares,
/// or the one behind that, if it is from `low` on and a name in the view goes on with it.
fn lesser_at_row(
    rows: &ViewRows<'_>,
    beginning: &[u32],
    least: Option<u32>,
    row: &FamilyRow,
    low: u32,
) -> Option<u32>
    requires { length beginning.now < 128 }
    ensures under { (other : ℕ) → IsLowerThan other result → IsLowerThan other least }
    ensures row { (arc : ℕ) → low ≤ arc → IsLowerThan arc result → IsAtRow beginning.now row.now low arc
        → ¬ OpensAt rows.now beginning.now arc }
    ensures one { IfSome result
        (λ arc. (least ≡ Some arc) ⊎ ((low ≤ arc) × OpensAt rows.now beginning.now arc)) }
{
    let Some(arc) = next_arc(row, beginning) else {
        return least;
    };
    if arc < low {
        return least;
    }
    let least = lesser_open(rows, beginning, least, arc);
    match arc.checked_add(1) {
        Some(behind) => lesser_open(rows, beginning, least, behind),
        None => least,
    }
}

/// Returns the least arc, from `low` on, with which a name in the view goes on after the beginning. Each row is looked
/// at once: such an arc is `low`, or a row compares it, or a row compares the one before it.
fn least_at_rows(rows: &ViewRows<'_>, beginning: &[u32], low: u32) -> Option<u32>
    requires { length beginning.now < 128 }
    ensures { MatchOption result
        ((arc : ℕ) → low ≤ arc → ¬ OpensAt rows.now beginning.now arc)
        (λ arc. IsLeastArc rows.now beginning.now low arc) }
{
    let mut least = lesser_open(rows, beginning, None, low);
    let mut place = rows.next_under(beginning, 0);
    while place < rows.count() {
        least = lesser_at_row(rows, beginning, least, rows.row(place), low);
        place = rows.next_under(beginning, place + 1);
    }
    least
}

/// Returns the least arc, from `low` on, with which a name in the view goes on after the beginning.
///
/// The arcs behind the first ones are tried one after another, which takes a look at the rows for each. After so many
/// of them all are tried at one look.
pub(crate) fn least_arc(rows: &ViewRows<'_>, beginning: &[u32], low: u32) -> Option<u32>
    requires { length beginning.now < 128 }
    ensures { MatchOption result
        ((arc : ℕ) → low ≤ arc → ¬ OpensAt rows.now beginning.now arc)
        (λ arc. IsLeastArc rows.now beginning.now low arc) }
{
    let mut arc = low;
    let mut steps = 0;
    while !opens_at(rows, beginning, arc) {
        if steps >= STEPS {
            return least_at_rows(rows, beginning, arc);
        }
        steps += 1;
        arc = arc_after(rows, beginning, arc)?;
    }
    Some(arc)
}
