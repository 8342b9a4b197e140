//! Names after the lines that `show` and `open` print.

ghost use Rattle.std.specs.Prelude.{[], IfOk, string_bytes};
ghost use Rattle.snmpsec_output.specs.Lines.{IsUnnamed};

use crate::counters::counter_name;
use snmp_ber::split_once;
use snmp_msg::{Binding, Pdu, PduType};
use snmpsec_access::quoted_text;
use std::alloc::{AllocError, Global};

/// What follows a line that has this name: ` # NAME` if names are asked for, and else nothing. An empty name,
/// and one with a line feed, are left out.
fn note(alloc: Global, names: bool, name: &str) -> Result<String, AllocError>
    ensures { IfOk result (λ note. IsUnnamed names [] (string_bytes note)) }
{
    if !names || name.is_empty() {
        return Ok(String::new(alloc));
    }
    let None = split_once(name.as_bytes(), b'\n') else {
        return Ok(String::new(alloc));
    };
    format!(in alloc; " # {name}")
}

/// The note after a line of octets: these as text between quotes, if they are UTF-8.
pub(crate) fn octets_note(alloc: Global, names: bool, octets: &[u8]) -> Result<String, AllocError>
    ensures { IfOk result (λ note. IsUnnamed names [] (string_bytes note)) }
{
    if !names || octets.is_empty() {
        return note(alloc, names, "");
    }
    let text = text_if_utf8(alloc, octets)?;
    note(alloc, names, &text)
}

/// The octets as a TOML basic string, or an empty text if they aren't UTF-8.
fn text_if_utf8(alloc: Global, octets: &[u8]) -> Result<String, AllocError> {
    match std::str::from_utf8(octets) {
        Ok(_) => quoted_text(alloc, octets),
        Err(_) => Ok(String::new(alloc)),
    }
}

/// The note after the line of a PDU: its type (RFC 3416, section 3).
pub(crate) fn pdu_note(alloc: Global, names: bool, pdu: &Pdu<'_>) -> Result<String, AllocError>
    ensures { IfOk result (λ note. IsUnnamed names [] (string_bytes note)) }
{
    match PduType::of(pdu.tag) {
        Some(pdu_type) => note(alloc, names, pdu_name(pdu_type)),
        None => note(alloc, names, ""),
    }
}

/// The note after the line of a variable binding: the counter that a report tells with its value.
pub(crate) fn binding_note(
    alloc: Global,
    names: bool,
    binding: &Binding<'_>,
) -> Result<String, AllocError>
    ensures { IfOk result (λ note. IsUnnamed names [] (string_bytes note)) }
{
    if !names {
        return note(alloc, names, "");
    }
    let name = counter_name(alloc, binding)?;
    note(alloc, names, &name)
}

/// The name of a type of PDUs (RFC 3416, section 3).
fn pdu_name(pdu_type: PduType) -> &'static str {
    match pdu_type {
        PduType::GetRequest => "GetRequest",
        PduType::GetNextRequest => "GetNextRequest",
        PduType::Response => "Response",
        PduType::SetRequest => "SetRequest",
        PduType::GetBulkRequest => "GetBulkRequest",
        PduType::InformRequest => "InformRequest",
        PduType::SNMPv2Trap => "SNMPv2-Trap",
        PduType::Report => "Report",
    }
}
