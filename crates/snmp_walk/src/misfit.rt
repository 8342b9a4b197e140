//! Why a device's binding doesn't answer what was asked.

ghost use Rattle.std.specs.Prelude.{◌≡◌, ◌↔◌, Some, IsTrue, MatchOption};
ghost use Rattle.snmp_msg.specs.Values.{syntax_of};
ghost use Rattle.snmp_msg.specs.Variables.{bound_variable};
ghost use Rattle.snmp_walk.specs.Bindings.{FitsPlace, IsReply, IsValue, Misfits};

use crate::operation::ReadOperation;
use snmp_ber::Oid;
use snmp_msg::{Syntax, VariableBinding, value_is};

/// Why a device's binding doesn't answer what was asked of it: the first of these that applies.
#[derive(Clone, Copy, Debug, PartialEq, Eq)]
pub enum Misfit {
    /// To a GetRequest: another name than the one asked.
    OtherName,
    /// To a walk: a name that isn't after the one asked.
    NotAfter,
    /// No value, or one that isn't spelled as its tag has it; to a walk also noSuchObject and noSuchInstance.
    NotValue,
    /// To a GetBulkRequest: a value behind endOfMibView in its column.
    AfterEnd,
}

/// Returns true if the tag is endOfMibView's.
pub(crate) fn is_end(tag: u8) -> bool
    ensures { IsTrue result ↔ (syntax_of tag ≡ Some Syntax.EndOfMibView) }
{
    matches!(Syntax::of(tag), Some(Syntax::EndOfMibView))
}

/// Returns true if the tag is noSuchObject's.
fn is_no_object(tag: u8) -> bool
    ensures { IsTrue result ↔ (syntax_of tag ≡ Some Syntax.NoSuchObject) }
{
    matches!(Syntax::of(tag), Some(Syntax::NoSuchObject))
}

/// Returns true if the tag is noSuchInstance's.
fn is_no_instance(tag: u8) -> bool
    ensures { IsTrue result ↔ (syntax_of tag ≡ Some Syntax.NoSuchInstance) }
{
    matches!(Syntax::of(tag), Some(Syntax::NoSuchInstance))
}

/// Returns true if the binding has a value, or noSuchObject or noSuchInstance.
fn is_reply(binding: &VariableBinding<'_>) -> bool
    ensures { IsTrue result ↔ IsReply (bound_variable binding.now) }
{
    !is_end(binding.tag) && value_is(binding.tag, binding.content)
}

/// Returns true if the binding has a value.
fn is_value(binding: &VariableBinding<'_>) -> bool
    ensures { IsTrue result ↔ IsValue (bound_variable binding.now) }
{
    !is_no_object(binding.tag) && !is_no_instance(binding.tag) && is_reply(binding)
}

/// Returns why the binding doesn't answer a GetRequest for this name, if it doesn't.
fn misfit_of_get(asked: &Oid, binding: &VariableBinding<'_>) -> Option<Misfit>
    ensures { MatchOption result (FitsPlace ReadOperation.Get asked.now (bound_variable binding.now))
        (λ misfit. Misfits ReadOperation.Get asked.now (bound_variable binding.now) misfit) }
{
    let name = binding.name.oid();
    if name != *asked {
        return Some(Misfit::OtherName);
    }
    if !is_reply(binding) {
        return Some(Misfit::NotValue);
    }
    None
}

/// Returns why the binding doesn't answer a GetNextRequest for this name, if it doesn't.
fn misfit_of_walk(asked: &Oid, binding: &VariableBinding<'_>) -> Option<Misfit>
    ensures { MatchOption result
        (FitsPlace ReadOperation.GetNext asked.now (bound_variable binding.now))
        (λ misfit. Misfits ReadOperation.GetNext asked.now (bound_variable binding.now) misfit) }
{
    if is_end(binding.tag) {
        return None;
    }
    if !asked.cmp(&binding.name.oid()).is_lt() {
        return Some(Misfit::NotAfter);
    }
    if !is_value(binding) {
        return Some(Misfit::NotValue);
    }
    None
}

/// Returns why the binding doesn't answer a request for this name, if it doesn't.
pub(crate) fn misfit_of(
    operation: ReadOperation,
    asked: &Oid,
    binding: &VariableBinding<'_>,
) -> Option<Misfit>
    ensures { MatchOption result (FitsPlace operation asked.now (bound_variable binding.now))
        (λ misfit. Misfits operation asked.now (bound_variable binding.now) misfit) }
{
    match operation {
        ReadOperation::Get => misfit_of_get(asked, binding),
        ReadOperation::GetNext => misfit_of_walk(asked, binding),
    }
}
