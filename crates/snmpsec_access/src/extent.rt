//! Whether some name at or below one may be seen.

ghost use Rattle.std.specs.Prelude.{MatchBool};
ghost use Rattle.snmp_ber.specs.Oid.{AreArcs};
ghost use Rattle.vacm_core.specs.Steps.{requester_of};
ghost use Rattle.snmpsec_access.specs.Extent.{SeesBelow};

use vacm_core::laws::{one_view, order_is_free};
use vacm_core::{Asking, Vacm};
use vacm_next::opens;

/// What is asked of a name.
#[derive(Clone, Copy)]
pub enum Extent {
    /// Who may see its variable.
    Variable,
    /// Who may see some name at or below it: itself, or a longer one that begins with its arcs.
    Below,
}

/// Some name that begins with the arcs of the variable is answered accessAllowed. It takes no memory.
pub(crate) fn sees_below(access: &Vacm, asking: &Asking<'_>) -> bool
    requires { AreArcs asking.now.variable.now }
    ensures { let below = SeesBelow access.now (requester_of asking.now) asking.now.view
        asking.now.variable.now in MatchBool result below (¬ below) }
{
    one_view();
    order_is_free();
    match access.view_of(asking) {
        Ok(view) => opens(&access.rows_of_view(view.as_slice()), asking.variable),
        Err(_) => false,
    }
}
