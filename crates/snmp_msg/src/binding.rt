//! Variable bindings (RFC 3416, section 3).

ghost use Rattle.std.specs.Prelude.{◌≡◌, ℕ, List, [], ◌<◌, ◌≤◌, ◌++◌, length, slice_range, option_map, is_some, true};
ghost use Rattle.std.specs.Prelude.{IfOk, OnOk, OnErr};
ghost use Rattle.std.specs.Result.{result_ok};
ghost use Rattle.std.specs.Iterator.{YieldsFirstBy, item_count};
ghost use Rattle.snmp_ber.specs.Oid.{identifier_in};
ghost use Rattle.snmp_ber.specs.Element.{StandsAt};
ghost use Rattle.snmp_msg.specs.Variables.{Variable, IsBinding, IsReadBinding, variable_with, binding_in};
ghost use Rattle.snmp_msg.specs.Variables.{variables_of, after_variables, variable_of, bindings_left};

use crate::variable::VariableBindings;
use snmp_ber::{BerFault, Oid, Tlv, is_oid, read_tlv};
use snmp_message::{OBJECT_IDENTIFIER, SEQUENCE, read_element};

/// What a VarBind says, with the arcs of its name. `VariableBinding` says the same, and lends the name.
#[derive(Debug, PartialEq, Eq, Drop)]
pub struct Binding<'a> {
    /// The name of the variable.
    pub name: Oid,
    /// The tag of its value. Its low five bits are not all ones.
    pub tag: u8,
    /// The content of its value.
    pub content: &'a [u8],
}

/// A VarBind with the places of its parts, in the octets that it was read from.
#[derive(Clone, Copy, Debug, PartialEq, Eq)]
pub struct VarBind<'a> {
    /// The element of its name. `read_oid` gives the name of its content.
    pub name: Tlv<'a>,
    /// The element of its value.
    pub value: Tlv<'a>,
    /// The place after it.
    pub end: usize,
}

/// The VarBind at this place, as it is read.
#[tactic(auto, unfolding(crate::specs::Variables::binding_in))]
pub(crate) fn read_places(bytes: &[u8], at: usize, end: usize) -> Result<VarBind<'_>, BerFault>
    requires start { at ≤ end }
    requires within { end ≤ length bytes.now }
    ensures after { option_map (λ b. slice_range bytes.now b.end end) (result_ok result)
        ≡ option_map (λ x. x.1) (binding_in (slice_range bytes.now at end)) }
    ensures says { IfOk result
        (λ b. option_map (variable_with b (slice_range bytes.now b.end end))
        (identifier_in b.name.content.now)
        ≡ binding_in (slice_range bytes.now at end)) }
    ensures named { IfOk result (λ b. is_some (identifier_in b.name.content.now) ≡ true) }
    ensures name { IfOk result (λ b. b.name.content.now
        ≡ slice_range bytes.now b.name.body b.name.end) }
    ensures value { IfOk result
        (λ b. StandsAt bytes.now b.value.start b.value.body b.value.end
        b.value.tag b.value.content.now) }
    ensures ordered { IfOk result (λ b. (at < b.end) × (b.value.end ≡ b.end) × (b.end ≤ end)) }
{
    let whole = read_element(bytes, at, end, SEQUENCE)?;
    let name = read_element(bytes, whole.body, whole.end, OBJECT_IDENTIFIER)?;
    if !is_oid(name.content) {
        return Err(BerFault { at: name.start });
    }
    let value = read_tlv(bytes, name.end, whole.end)?;
    if value.end < whole.end {
        return Err(BerFault { at: value.end });
    }
    Ok(VarBind {
        name,
        value,
        end: whole.end,
    })
}

/// The VarBind that begins at the place `at` and ends at the place `end` or before it (RFC 3416, section 3).
///
/// It is an error that no VarBind begins there. No memory is taken, and no identifier is built.
pub fn read_binding(bytes: &[u8], at: usize, end: usize) -> Result<VarBind<'_>, BerFault>
    requires start { at ≤ end }
    requires within { end ≤ length bytes.now }
    ensures found { IfOk result
        (λ b. IsReadBinding (slice_range bytes.now at end) (slice_range bytes.now b.end end) b) }
    ensures none { OnErr result
        ((v : Variable) (text rest : List ℕ) → IsBinding text v
        → slice_range bytes.now at end ≡ text ++ rest → ⊥) }
    ensures name { IfOk result (λ b. b.name.content.now
        ≡ slice_range bytes.now b.name.body b.name.end) }
    ensures value { IfOk result
        (λ b. StandsAt bytes.now b.value.start b.value.body b.value.end
        b.value.tag b.value.content.now) }
    ensures ordered { IfOk result (λ b. (at < b.end) × (b.value.end ≡ b.end) × (b.end ≤ end)) }
{
    let binding = read_places(bytes, at, end)?;
    Ok(binding)
}

/// Reads the octets between two places, which must be VarBinds one after another.
pub(crate) fn check_bindings(bytes: &[u8], at: usize, end: usize) -> Result<(), BerFault>
    requires start { at ≤ end }
    requires within { end ≤ length bytes.now }
    ensures ok { OnOk result (after_variables (slice_range bytes.now at end) ≡ []) }
    ensures err { OnErr result (0 < length (after_variables (slice_range bytes.now at end))) }
{
    let mut place = at;
    while place < end {
        let binding = read_places(bytes, place, end)?;
        place = binding.end;
    }
    Ok(())
}

/// The bindings of a list that are still to come, from left to right, each with the arcs of its name. It ends
/// at the first octets that are no binding.
#[derive(Clone, Copy, Debug)]
pub struct Bindings<'a> {
    variables: VariableBindings<'a>,
}

impl<'a> Bindings<'a> {
    /// The bindings in the content of variable-bindings.
    pub(crate) fn of(list: &'a [u8]) -> Bindings<'a>
        ensures { bindings_left result ≡ variables_of list.now }
    {
        Bindings {
            variables: VariableBindings::of(list),
        }
    }
}

impl<'a> Iterator for Bindings<'a> {
    type Item = Binding<'a>;

    ghost next_gives = { YieldsFirstBy variable_of bindings_left };

    ghost remaining = { item_count bindings_left };

    fn next(&mut self) -> Option<Binding<'a>> {
        let Some(binding) = self.variables.next() else {
            return None;
        };
        Some(Binding {
            name: binding.name.oid(),
            tag: binding.tag,
            content: binding.content,
        })
    }
}
