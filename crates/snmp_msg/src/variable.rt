//! Variable bindings whose names lie where they were read (RFC 3416, section 3).

ghost use Rattle.std.specs.Prelude.{◌≡◌, ◌<◌, ◌≤◌, length, slice_range, option_map, IfOk};
ghost use Rattle.std.specs.Result.{result_ok};
ghost use Rattle.std.specs.Iterator.{YieldsFirstBy, item_count};
ghost use Rattle.snmp_msg.specs.Variables.{binding_in, variables_of, bound_variable, variables_left};

use crate::binding::read_places;
use snmp_ber::{BerFault, ObjectName};

/// What a VarBind says, with its name in the octets that it was read from. It is of 40 octets, and no arcs are read.
#[derive(Drop)]
pub struct VariableBinding<'a> {
    /// The name of the variable.
    pub name: ObjectName<'a>,
    /// The tag of its value. Its low five bits are not all ones.
    pub tag: u8,
    /// The content of its value.
    pub content: &'a [u8],
}

/// What the VarBind at this place says, and the place after it.
fn read_variable(
    bytes: &[u8],
    at: usize,
    end: usize,
) -> Result<(VariableBinding<'_>, usize), BerFault>
    requires start { at ≤ end }
    requires within { end ≤ length bytes.now }
    ensures value { option_map (λ x. (bound_variable x.0, slice_range bytes.now x.1 end))
        (result_ok result)
        ≡ binding_in (slice_range bytes.now at end) }
    ensures ordered { IfOk result (λ x. (at < x.1) × (x.1 ≤ end)) }
{
    let places = read_places(bytes, at, end)?;
    let binding = VariableBinding {
        name: ObjectName::of_content(places.name.content),
        tag: places.value.tag,
        content: places.value.content,
    };
    Ok((binding, places.end))
}

/// The bindings of a list that are still to come, from left to right, with their names in the list's octets.
/// It ends at the first octets that are no binding.
#[derive(Clone, Copy, Debug)]
pub struct VariableBindings<'a> {
    rest: &'a [u8],
}

impl<'a> VariableBindings<'a> {
    /// The bindings in the content of variable-bindings.
    pub(crate) fn of(list: &'a [u8]) -> VariableBindings<'a>
        ensures { variables_left result ≡ variables_of list.now }
    {
        VariableBindings { rest: list }
    }
}

impl<'a> Iterator for VariableBindings<'a> {
    type Item = VariableBinding<'a>;

    ghost next_gives = { YieldsFirstBy bound_variable variables_left };

    ghost remaining = { item_count variables_left };

    fn next(&mut self) -> Option<VariableBinding<'a>> {
        let Ok((binding, after)) = read_variable(self.rest, 0, self.rest.len()) else {
            return None;
        };
        self.rest = &self.rest[after..];
        Some(binding)
    }
}
