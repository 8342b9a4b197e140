//! From where a walk asks.

ghost use Rattle.std.specs.Prelude.{MatchOption};
ghost use Rattle.vacm_next.specs.Walk.{IsSeenAfter, NoneOf, WalksFrom};
ghost use Rattle.snmp_responder.specs.Code.{seen_by};

use snmp_ber::Oid;
use snmp_responder::Viewer;
use vacm_core::ViewType;
use vacm_next::walk_from;

/// Returns the name from which a walk asks the device for what comes after `after`: the place just before the next name
/// that the message may see. None: it may see none after it.
#[tactic(auto, unfolding(snmp_responder::specs::Code::seen_by))]
pub(crate) fn place_after(viewer: &Viewer<'_>, after: &Oid) -> Option<Oid>
    ensures { MatchOption result (NoneOf (IsSeenAfter (seen_by viewer.now) after.now))
        (λ place. WalksFrom (seen_by viewer.now) after.now place) }
{
    walk_from(
        viewer.vacm,
        viewer.model,
        viewer.name,
        viewer.level,
        ViewType::Read,
        viewer.context,
        after,
    )
}
