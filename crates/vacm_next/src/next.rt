//! The next name that a message may see.
ghost use Rattle.std.specs.Prelude.{◌≡◌, MatchOption};
ghost use Rattle.snmp_ber.specs.Oid.{AreArcs};
ghost use Rattle.vacm_core.specs.Allowed as spec;
ghost use Rattle.vacm_core.specs.Steps.{requester_of};
ghost use Rattle.vacm_next.specs.Next.{IsLeastFrom, NoneFrom, Sees};

use crate::name::name_from;
use snmp_ber::{Level, Oid};
use vacm_core::laws::{one_view, order_is_free};
use vacm_core::{Asking, Vacm, ViewType};

/// Returns the least name at or after this one that such messages may see. `asking.variable` isn't looked at.
pub(crate) fn next_seen(vacm: &Vacm, asking: &Asking<'_>, from: &[u32]) -> Option<Oid>
    requires { AreArcs from.now }
    ensures { MatchOption result
        (NoneFrom (Sees vacm.now (requester_of asking.now) asking.now.view) from.now)
        (λ next. IsLeastFrom (Sees vacm.now (requester_of asking.now) asking.now.view) from.now next) }
{
    one_view();
    order_is_free();
    match vacm.view_of(asking) {
        Ok(view) => name_from(&vacm.rows_of_view(view.as_slice()), from),
        Err(_) => None,
    }
}

/// Returns the least name, at or after this one, that such messages may see: the one for which `is_access_allowed`
/// answers `AccessAllowed`. It takes no memory.
///
/// Names are all those of 1 to 128 arcs below 2^32, in lexicographic order (RFC 3416, section 4.2.2), whether or not
/// there is a variable. The message has this security model, security name and level, and asks in the context of
/// this name. None: it may see no name from there on.
pub fn next_in_view(
    vacm: &Vacm,
    model: u32,
    name: &[u8],
    level: Level,
    view: ViewType,
    context: &[u8],
    from: &Oid,
) -> Option<Oid>
    ensures { let requester : spec.Requester = record {
      model = model;
      name = name.now;
      level = level;
      context = context.now;
    } in
        MatchOption result (NoneFrom (Sees vacm.now requester view) from.now)
        (λ next. IsLeastFrom (Sees vacm.now requester view) from.now next) }
{
    let from = from.as_slice();
    let asking = Asking {
        model,
        name,
        level,
        context,
        view,
        variable: from,
    };
    next_seen(vacm, &asking, from)
}
