//! Reads of a PDU what is printed of it.

ghost use Rattle.std.specs.Prelude.{◌↔◌, [], ◌∷◌, IfOk, IsTrue, string_bytes};
ghost use Rattle.snmp_msg.specs.Pdu.{pdu_of};
ghost use Rattle.snmp_msg.specs.Variables.{variable_of, variables_of};
ghost use Rattle.diagnose_text.specs.Facts.{AreFirst, ArePduNames, HasError, IsCounterText, IsNameRead, IsReport};
ghost use Rattle.diagnose_text.specs.Facts.{IsSaid, IsVariableRead};

use crate::facts::{PduNames, Says};
use crate::values::{Value, value_of};
use snmp_ber::read_unsigned;
use snmp_msg::{Binding, Pdu, PduType};
use snmpsec_causes::counter_named;
use std::alloc::{AllocError, Global};

/// How many variables of a PDU are printed.
const VARIABLES: usize = 8;

/// The type and the names of a PDU.
pub(crate) fn names_of(alloc: Global, pdu: &Pdu<'_>) -> Result<PduNames, AllocError>
    ensures { IfOk result (ArePduNames (pdu_of pdu.now)) }
{
    let (names, more) = first_names(alloc, pdu)?;
    Ok(PduNames {
        kind: PduType::of(pdu.tag),
        names,
        more,
    })
}

/// The first names of a PDU, and how many more there are.
fn first_names(alloc: Global, pdu: &Pdu<'_>) -> Result<(Vec<String>, usize), AllocError>
    ensures { IfOk result (λ told. AreFirst IsNameRead (variables_of pdu.now.list.now) told.0.items told.1) }
{
    let mut names = Vec::new(alloc);
    let mut more = 0usize;
    for binding in pdu.bindings() {
        if names.len() < VARIABLES {
            let name = name_of(alloc, &binding)?;
            names.push(name)?;
        } else {
            more = more.saturating_add(1);
        }
    }
    Ok((names, more))
}

/// The name of a variable, in decimals with dots between.
fn name_of(alloc: Global, binding: &Binding<'_>) -> Result<String, AllocError>
    ensures { IfOk result (IsNameRead (variable_of binding.now)) }
{
    let name = &binding.name;
    format!(in alloc; "{name}")
}

/// What the answer with this PDU says.
pub(crate) fn says_of(alloc: Global, pdu: &Pdu<'_>) -> Result<Says, AllocError>
    ensures { IfOk result (IsSaid (pdu_of pdu.now)) }
{
    if pdu.tag == PduType::Report.tag() {
        return report_of(alloc, pdu);
    }
    if has_error(pdu) {
        return Ok(Says::Error(pdu.second, pdu.third));
    }
    let (values, more) = first_values(alloc, pdu)?;
    Ok(Says::Values(values, more))
}

/// It is a Response whose error-status isn't noError.
fn has_error(pdu: &Pdu<'_>) -> bool
    ensures { IsTrue result ↔ HasError (pdu_of pdu.now) }
{
    pdu.tag == PduType::Response.tag() && pdu.second != 0
}

/// The first variables of a PDU with their values, and how many more there are.
fn first_values(alloc: Global, pdu: &Pdu<'_>) -> Result<(Vec<(String, Value)>, usize), AllocError>
    ensures { IfOk result
        (λ told. AreFirst IsVariableRead (variables_of pdu.now.list.now) told.0.items told.1) }
{
    let mut values = Vec::new(alloc);
    let mut more = 0usize;
    for binding in pdu.bindings() {
        if values.len() < VARIABLES {
            let value = variable_read(alloc, &binding)?;
            values.push(value)?;
        } else {
            more = more.saturating_add(1);
        }
    }
    Ok((values, more))
}

/// The name and the value of a variable.
fn variable_read(alloc: Global, binding: &Binding<'_>) -> Result<(String, Value), AllocError>
    ensures { IfOk result (IsVariableRead (variable_of binding.now)) }
{
    let name = name_of(alloc, binding)?;
    let value = value_of(alloc, binding.tag, binding.content)?;
    Ok((name, value))
}

/// The counter that a Report tells.
pub(crate) fn report_of(alloc: Global, pdu: &Pdu<'_>) -> Result<Says, AllocError>
    ensures { IfOk result (IsReport (variables_of pdu.now.list.now)) }
{
    match pdu.bindings().next() {
        Some(binding) => counter_of(alloc, &binding),
        None => Ok(Says::Report(String::from_str(alloc, "no counter")?, None)),
    }
}

/// The counter that the first variable of a Report is, with its value.
fn counter_of(alloc: Global, binding: &Binding<'_>) -> Result<Says, AllocError>
    ensures { IfOk result (IsReport (variable_of binding.now ∷ [])) }
{
    let name = name_of(alloc, binding)?;
    let counter = counter_text(alloc, &name)?;
    Ok(Says::Report(counter, read_unsigned(binding.content)))
}

/// The name of a counter, or its identifier if it has none.
fn counter_text(alloc: Global, identifier: &str) -> Result<String, AllocError>
    ensures { IfOk result (λ text. IsCounterText identifier.now (string_bytes text)) }
{
    match counter_named(identifier) {
        Some(name) => String::from_str(alloc, name),
        None => String::from_str(alloc, identifier),
    }
}
