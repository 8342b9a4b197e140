//! Agents whose rows were loaded in different orders.

ghost use Rattle.std.specs.Prelude.{◌≡◌, IfSome};
ghost use Rattle.vacm_core.specs.Tables.{HaveSameRows};
ghost use Rattle.vacm_core.specs.Tables.{tables_of};

use snmp_ber::{Level, Oid};
use std::alloc::Global;
use vacm_core::laws::order_is_free;
use vacm_core::{Access, Rows, Vacm, ViewType};

/// Who asks for access, and for which view (RFC 3415, section 3).
#[derive(Clone, Copy)]
pub struct Question<'a> {
    pub model: u32,
    pub name: &'a [u8],
    pub level: Level,
    pub view: ViewType,
    pub context: &'a [u8],
}

/// Loads the same rows in two orders, and asks for the same access of both. The answers are the same. None if a row is
/// refused, or memory ran out.
pub fn same_answer(
    alloc: Global,
    one: &Rows,
    other: &Rows,
    asked: &Question<'_>,
    variable: &Oid,
) -> Option<(Access, Access)>
    requires same { HaveSameRows (tables_of one.now) (tables_of other.now) }
    ensures { IfSome result (λ answers. answers.0 ≡ answers.1) }
{
    order_is_free();
    let Ok(first) = Vacm::load(alloc, one) else {
        return None;
    };
    let Ok(second) = Vacm::load(alloc, other) else {
        return None;
    };
    let Question {
        model,
        name,
        level,
        view,
        context,
    } = *asked;
    let answer = first.is_access_allowed(model, name, level, view, context, variable);
    let again = second.is_access_allowed(model, name, level, view, context, variable);
    Some((answer, again))
}
