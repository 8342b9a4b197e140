//! The name from which a walk asks.
ghost use Rattle.std.specs.Prelude.{◌≡◌, ◌↔◌, ◌⊎◌, IsTrue, IfSome, MatchOption};
ghost use Rattle.snmp_ber.specs.Oid.{AreArcs, IsObjectId};
ghost use Rattle.vacm_core.specs.Allowed as spec;
ghost use Rattle.vacm_core.specs.Steps.{requester_of};
ghost use Rattle.vacm_next.specs.Next.{IsBefore, IsUpto, Sees};
ghost use Rattle.vacm_next.specs.Walk.{ComesAfter, IsLeastOf, IsSeenAfter, IsSeenFrom, NoneOf};
ghost use Rattle.vacm_next.specs.Walk.{PassesNothing, WalksFrom};
ghost use Rattle.vacm_next.specs.Walk as walk;

use crate::arc::with_arc;
use crate::name::copy_of;
use crate::next::next_seen;
use arrayvec::ArrayVec;
use snmp_ber::{Level, MAX_INTEGER32, Oid};
use vacm_core::{Asking, Vacm, ViewType};

/// Returns the least name after this one, or None if there is none.
fn name_after(name: &[u32]) -> Option<ArrayVec<u32, 128>>
    requires { AreArcs name.now }
    ensures { MatchOption result (NoneOf (ComesAfter name.now))
        (λ next. IsLeastOf (ComesAfter name.now) next.items) }
{
    if name.len() < 128 {
        return Some(with_arc(name, 0));
    }
    let mut left = name.len();
    while left > 0 {
        left -= 1;
        if let Some(arc) = name[left].checked_add(1) {
            return Some(with_arc(&name[..left], arc));
        }
    }
    None
}

/// Returns the later one of two names.
fn later<'a>(first: &'a [u32], second: &'a [u32]) -> &'a [u32]
    ensures { ((result.now ≡ first.now) × IsUpto second.now first.now)
        ⊎ ((result.now ≡ second.now) × IsBefore first.now second.now) }
{
    if first.cmp(second).is_lt() {
        second
    } else {
        first
    }
}

/// Returns the least name at or after this one that can be spelled and that such messages may see.
///
/// Names with one first arc that can be spelled are consecutive. So each first arc is looked at once.
fn next_spelled(vacm: &Vacm, asking: &Asking<'_>, from: &[u32]) -> Option<Oid>
    requires { AreArcs from.now }
    ensures { let seen = Sees vacm.now (requester_of asking.now) asking.now.view in
        MatchOption result (NoneOf (IsSeenFrom seen from.now))
        (λ next. IsLeastOf (IsSeenFrom seen from.now) next) }
{
    for first in 0..3 {
        let beginning = [first, 0];
        let Some(next) = next_seen(vacm, asking, later(from, &beginning)) else {
            return None;
        };
        if next.is_object_id() {
            return Some(next);
        }
    }
    None
}

/// Returns the place just before a name.
fn place_before(name: &Oid) -> ArrayVec<u32, 128>
    ensures { result.items ≡ walk.place_before name.now }
{
    let arcs = name.as_slice();
    let end = arcs.len() - 1;
    let mut place = copy_of(&arcs[..end]);
    let Some(less) = arcs[end].checked_sub(1) else {
        return place;
    };
    place.push(less);
    if !place.is_full() {
        // the greatest arc of a device that has arcs of 31 bits
        place.push(MAX_INTEGER32);
    }
    place
}

/// Returns true if the place can be spelled and comes after the name.
fn is_behind(place: &Oid, name: &Oid) -> bool
    ensures { IsTrue result ↔ (IsObjectId place.now × IsBefore name.now place.now) }
{
    place.is_object_id() && name.cmp(place).is_lt()
}

/// Returns the place before the next name, if it can be spelled and comes after the name that the walk has. Or else
/// it returns that name.
fn place_between(after: &Oid, next: &Oid) -> Oid
    ensures { walk.IsPlace after.now next.now result }
{
    match Oid::of(place_before(next).as_slice()) {
        Some(place) if is_behind(&place, after) => place,
        _ => copy(after),
    }
}

/// Returns the same name. It takes no memory.
fn copy(name: &Oid) -> Oid
    ensures { result ≡ name.now }
{
    let Ok(name) = name.clone() else {
        unreachable!();
    };
    name
}

/// Returns the name from which a walk asks a device for what comes after `after`, so that no name is passed over
/// that such messages may see, and hidden ones are: a place at or after `after`, just before the next name that they
/// may see (RFC 3416, sections 4.2.2 and 4.2.3). It takes no memory.
///
/// Only names that an OBJECT IDENTIFIER can spell count. None: such messages may see none of them after `after`.
pub fn walk_from(
    vacm: &Vacm,
    model: u32,
    name: &[u8],
    level: Level,
    view: ViewType,
    context: &[u8],
    after: &Oid,
) -> Option<Oid>
    ensures place { let requester : spec.Requester = record {
      model = model;
      name = name.now;
      level = level;
      context = context.now;
    } in
        let seen = Sees vacm.now requester view in
        MatchOption result (NoneOf (IsSeenAfter seen after.now))
        (λ place. WalksFrom seen after.now place) }
    ensures passes_nothing { let requester : spec.Requester = record {
      model = model;
      name = name.now;
      level = level;
      context = context.now;
    } in
        IfSome result (λ place. PassesNothing (Sees vacm.now requester view) after.now place) }
{
    let asking = Asking {
        model,
        name,
        level,
        context,
        view,
        variable: after.as_slice(),
    };
    let Some(from) = name_after(after.as_slice()) else {
        return None;
    };
    match next_spelled(vacm, &asking, from.as_slice()) {
        Some(next) => Some(place_between(after, &next)),
        None => None,
    }
}
