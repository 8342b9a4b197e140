//! Lists of bindings, measured and written in the shortest spelling (RFC 3416, section 3).

ghost use Rattle.std.specs.Prelude.{◌≡◌, [], ◌*◌, ◌<◌, ◌≤◌, ◌++◌, All, length, map, IfSome, IfNone, OnOk};
ghost use Rattle.snmp_ber.specs.Element.{IsTag};
ghost use Rattle.snmp_ber.specs.Oid.{identifier};
ghost use Rattle.snmp_ber.specs.Spelling.{element};
ghost use Rattle.snmp_msg.specs.Variables.{Variable, CanBeWritten, VariableFits, AllFit, variables_of};
ghost use Rattle.snmp_msg.specs.Variables.{after_variables, variable_of, bound_variable, variable_content};
ghost use Rattle.snmp_msg.specs.Variables.{variable_text, variables_text};

use crate::binding::Binding;
use crate::variable::{VariableBinding, VariableBindings};
use snmp_ber::{oid_len, put_head, put_oid, put_tlv};
use snmp_message::{LARGEST, OBJECT_IDENTIFIER, SEQUENCE, element_len};
use std::alloc::AllocError;

/// A binding in a form that can be written: a `Binding`, or a `VariableBinding`.
pub trait Spelled {
    /// What it says.
    ghost says: { Self → Variable };

    /// It can be written.
    ghost fits: { Self → Type 0 };

    /// The tag of its value.
    fn tag(&self) -> u8
        ensures { result ≡ (says self.now).tag };

    /// The content of its value.
    fn content(&self) -> &[u8]
        ensures { result.now ≡ (says self.now).content };

    /// How many octets its name's OBJECT IDENTIFIER is written in.
    fn name_len(&self) -> usize
        requires { fits self.now }
        ensures size { result ≡ length (element 6 (identifier (says self.now).name)) }
        ensures most { result ≤ 641 }
        ensures fit { VariableFits (says self.now) };

    /// Appends its name's OBJECT IDENTIFIER.
    fn put_name(&self, out: &mut Vec<u8>) -> Result<(), AllocError>
        requires { fits self.now }
        ensures ok { OnOk result (out.new.items
            ≡ out.old.items ++ element 6 (identifier (says self.now).name)) };
}

impl<'a> Spelled for Binding<'a> {
    ghost says = { variable_of };

    ghost fits = { λ b. CanBeWritten (variable_of b) };

    fn tag(&self) -> u8 {
        self.tag
    }

    fn content(&self) -> &[u8] {
        self.content
    }

    fn name_len(&self) -> usize {
        let _arcs = self.name.as_slice();
        oid_len(&self.name)
    }

    fn put_name(&self, out: &mut Vec<u8>) -> Result<(), AllocError> {
        put_oid(out, &self.name)
    }
}

impl<'a> Spelled for VariableBinding<'a> {
    ghost says = { bound_variable };

    ghost fits = { λ b. IsTag b.tag };

    fn tag(&self) -> u8 {
        self.tag
    }

    fn content(&self) -> &[u8] {
        self.content
    }

    fn name_len(&self) -> usize {
        element_len(self.name.content().len())
    }

    fn put_name(&self, out: &mut Vec<u8>) -> Result<(), AllocError> {
        put_tlv(out, OBJECT_IDENTIFIER, self.name.content())
    }
}

/// How many octets the content of a VarBind is written in. The content of its value can stand in a datagram.
#[tactic(auto, unfolding(crate::specs::Variables::variable_content))]
fn binding_content_len<B: Spelled>(binding: &B) -> usize
    requires fits { B.fits binding.now }
    requires short { length (B.says binding.now).content ≤ LARGEST }
    ensures size { result ≡ length (variable_content (B.says binding.now)) }
    ensures most { result ≤ 2 * LARGEST }
    ensures fit { VariableFits (B.says binding.now) }
{
    binding.name_len() + element_len(binding.content().len())
}

/// How many octets a VarBind is written in (RFC 3416, section 3), or None where they are more than a datagram
/// can have, 65,507.
#[tactic(auto, unfolding(crate::specs::Variables::variable_text))]
pub fn binding_len<B: Spelled>(binding: &B) -> Option<usize>
    requires { B.fits binding.now }
    ensures some { IfSome result (λ size. size ≡ length (variable_text (B.says binding.now))) }
    ensures most { IfSome result (λ size. size ≤ LARGEST) }
    ensures none { IfNone result (LARGEST < length (variable_text (B.says binding.now))) }
    ensures fit { IfSome result (λ _. VariableFits (B.says binding.now)) }
{
    if binding.content().len() > LARGEST {
        return None;
    }
    let size = element_len(binding_content_len(binding));
    if size > LARGEST {
        return None;
    }
    Some(size)
}

/// Appends a VarBind, in the shortest spelling. The content of its value can stand in a datagram.
#[tactic(auto, unfolding(crate::specs::Variables::variable_text, crate::specs::Variables::variable_content))]
fn put_binding<B: Spelled>(out: &mut Vec<u8>, binding: &B) -> Result<(), AllocError>
    requires fits { B.fits binding.now }
    requires short { length (B.says binding.now).content ≤ LARGEST }
    ensures ok { OnOk result (out.new.items ≡ out.old.items ++ variable_text (B.says binding.now)) }
{
    put_head(out, SEQUENCE, binding_content_len(binding))?;
    binding.put_name(out)?;
    put_tlv(out, binding.tag(), binding.content())
}

/// How many octets the content of a list of these bindings is written in (RFC 3416, section 3), or None where
/// they are more than a datagram can have, 65,507.
pub fn bindings_len<B: Spelled>(bindings: &[B]) -> Option<usize>
    requires { All (λ b. B.fits b) bindings.now }
    ensures some { IfSome result (λ size. size
        ≡ length (variables_text (map B.says bindings.now))) }
    ensures most { IfSome result (λ size. size ≤ LARGEST) }
    ensures none { IfNone result (LARGEST < length (variables_text (map B.says bindings.now))) }
    ensures fit { IfSome result (λ _. AllFit (map B.says bindings.now)) }
{
    let mut size = 0;
    for binding in bindings {
        size += binding_len(binding)?;
        if size > LARGEST {
            return None;
        }
    }
    Some(size)
}

/// Appends the bindings, in the shortest spelling. That can stand in a datagram.
pub(crate) fn put_bindings<B: Spelled>(out: &mut Vec<u8>, bindings: &[B]) -> Result<(), AllocError>
    requires fit { All (λ b. B.fits b) bindings.now }
    requires short { length (variables_text (map B.says bindings.now)) ≤ LARGEST }
    ensures ok { OnOk result (out.new.items
        ≡ out.old.items ++ variables_text (map B.says bindings.now)) }
{
    for binding in bindings {
        put_binding(out, binding)?;
    }
    Ok(())
}

/// How many octets the bindings of a list are written in, or None where they are more than a datagram can have.
pub(crate) fn list_len(list: &[u8]) -> Option<usize>
    requires { after_variables list.now ≡ [] }
    ensures some { IfSome result (λ size. size ≡ length (variables_text (variables_of list.now))) }
    ensures most { IfSome result (λ size. size ≤ LARGEST) }
    ensures none { IfNone result (LARGEST < length (variables_text (variables_of list.now))) }
{
    let mut size = 0;
    for binding in VariableBindings::of(list) {
        size += binding_len(&binding)?;
        if size > LARGEST {
            return None;
        }
    }
    Some(size)
}

/// Appends the bindings of a list, in the shortest spelling. That can stand in a datagram.
pub(crate) fn put_list(out: &mut Vec<u8>, list: &[u8]) -> Result<(), AllocError>
    requires all { after_variables list.now ≡ [] }
    requires short { length (variables_text (variables_of list.now)) ≤ LARGEST }
    ensures ok { OnOk result (out.new.items
        ≡ out.old.items ++ variables_text (variables_of list.now)) }
{
    for binding in VariableBindings::of(list) {
        put_binding(out, &binding)?;
    }
    Ok(())
}
