//! The least name in a view from some name on.
ghost use Rattle.std.specs.Prelude.{◌≡◌, ◌≤◌, length, MatchOption};
ghost use Rattle.snmp_ber.specs.Oid.{AreArcs};
ghost use Rattle.vacm_core.specs.View.{Includes};
ghost use Rattle.vacm_next.specs.Next.{IsLeastFrom, NoneFrom};
ghost use Rattle.vacm_next.specs.Opening.{Opens};

use crate::arc::{least_arc, with_arc};
use crate::opening::opens;
use arrayvec::ArrayVec;
use snmp_ber::Oid;
use vacm_core::ViewRows;

/// Returns the least name in the view that begins with these arcs: there is one.
fn least_name(rows: &ViewRows<'_>, beginning: ArrayVec<u32, 128>) -> Oid
    requires some { 1 ≤ length beginning.items }
    requires opens { Opens rows.now beginning.items }
    ensures { IsLeastFrom (Includes rows.now) beginning.items result }
{
    let mut arcs = beginning;
    while !rows.includes(arcs.as_slice()) {
        let Some(arc) = least_arc(rows, arcs.as_slice(), 0) else {
            unreachable!();
        };
        arcs.push(arc);
    }
    match Oid::of(arcs.as_slice()) {
        Some(name) => name,
        None => unreachable!(),
    }
}

/// Returns a copy of the arcs.
pub(crate) fn copy_of(arcs: &[u32]) -> ArrayVec<u32, 128>
    requires { length arcs.now ≤ 128 }
    ensures { result.items ≡ arcs.now }
{
    let mut copy = ArrayVec::new();
    let _ = copy.try_extend_from_slice(arcs);
    copy
}

/// Returns the least name in the view at or after this one.
pub(crate) fn name_from(rows: &ViewRows<'_>, from: &[u32]) -> Option<Oid>
    requires { AreArcs from.now }
    ensures { MatchOption result (NoneFrom (Includes rows.now) from.now)
        (λ name. IsLeastFrom (Includes rows.now) from.now name) }
{
    if opens(rows, from) {
        return Some(least_name(rows, copy_of(from)));
    }
    let mut left = from.len();
    while left > 0 {
        left -= 1;
        let beginning = &from[..left];
        let Some(low) = from[left].checked_add(1) else {
            continue;
        };
        if let Some(arc) = least_arc(rows, beginning, low) {
            return Some(least_name(rows, with_arc(beginning, arc)));
        }
    }
    None
}
