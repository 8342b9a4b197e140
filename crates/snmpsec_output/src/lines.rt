//! The fields of a message, a line each.

ghost use Rattle.std.specs.Prelude.{◌≡◌, ◌++◌, IfOk, string_bytes};
ghost use Rattle.std.specs.List.{flat_map};
ghost use Rattle.snmp_message.specs.Security.{fields_of};
ghost use Rattle.snmp_msg.specs.Variables.{variable_of, variables_of};
ghost use Rattle.snmp_msg.specs.Pdu.{pdu_of};
ghost use Rattle.snmpsec_output.specs.Lines as spec;
ghost use Rattle.snmpsec_output.specs.Lines.{octets_text, flag_text, flags_line, header_lines, security_lines};
ghost use Rattle.snmpsec_output.specs.Lines.{IsUnnamed, binding_line, pdu_line};

use crate::names::{binding_note, octets_note, pdu_note};
use snmp_msg::{Binding, Header, Pdu, Scoped, Security};
use std::alloc::{AllocError, Global};

/// Octets in lower-case hex, or `-` where there is none.
fn octets_text(alloc: Global, octets: &[u8]) -> Result<String, AllocError>
    ensures { IfOk result (λ text. string_bytes text ≡ octets_text octets.now) }
{
    if octets.is_empty() {
        return String::from_str(alloc, "-");
    }
    Ok(hex::encode(alloc, octets)?)
}

/// A line with a name and octets in lower-case hex, or `-` where there is none.
pub(crate) fn octets_line(alloc: Global, name: &str, octets: &[u8]) -> Result<String, AllocError>
    ensures { IfOk result (λ text. string_bytes text ≡ spec.octets_line name.now octets.now) }
{
    let octets = octets_text(alloc, octets)?;
    format!(in alloc; "{name} {octets}\n")
}

/// A line with a name and octets that may be text, with the text as a note if names are asked for.
pub(crate) fn text_line(
    alloc: Global,
    names: bool,
    name: &str,
    octets: &[u8],
) -> Result<String, AllocError>
    ensures { IfOk result (λ text. IsUnnamed names (spec.octets_line name.now octets.now)
        (string_bytes text)) }
{
    let digits = octets_text(alloc, octets)?;
    let note = octets_note(alloc, names, octets)?;
    format!(in alloc; "{name} {digits}{note}\n")
}

/// The word, where the flag is set.
fn flag_text(is_set: bool, word: &str) -> &str
    ensures { result.now ≡ flag_text is_set word.now }
{
    if is_set { word } else { "" }
}

/// The names of the flags that are set, or `-`.
fn flags_line(alloc: Global, header: &Header) -> Result<String, AllocError>
    ensures { IfOk result (λ text. string_bytes text ≡ flags_line header.now) }
{
    let auth = flag_text(header.auth, " auth");
    let privacy = flag_text(header.privacy, " priv");
    let reportable = flag_text(header.reportable, " reportable");
    let has_none = !header.auth && !header.privacy && !header.reportable;
    let none = flag_text(has_none, " -");
    format!(in alloc; "flags{auth}{privacy}{reportable}{none}\n")
}

/// The fields of msgGlobalData (RFC 3412, section 6) that are printed.
fn header_lines(alloc: Global, header: &Header) -> Result<String, AllocError>
    ensures { IfOk result (λ text. string_bytes text ≡ header_lines header.now) }
{
    let flags = flags_line(alloc, header)?;
    let (id, max_size) = (header.id, header.max_size);
    format!(in alloc; "id {id}\nmax-size {max_size}\n{flags}")
}

/// The fields of msgSecurityParameters (RFC 3414, section 2.4), with names if they are asked for.
fn security_lines(alloc: Global, names: bool, security: &Security<'_>) -> Result<String, AllocError>
    ensures { IfOk result
        (λ text. IsUnnamed names (security_lines (fields_of security.now)) (string_bytes text)) }
{
    let engine = octets_line(alloc, "engine", security.engine)?;
    let (boots, time) = (security.boots, security.time);
    let user = text_line(alloc, names, "user", security.user)?;
    let auth = octets_line(alloc, "auth", security.auth)?;
    let privacy = octets_line(alloc, "privacy", security.salt)?;
    format!(in alloc; "{engine}boots {boots}\ntime {time}\n{user}{auth}{privacy}")
}

/// The lines of msgGlobalData and msgSecurityParameters: `id`, `max-size`, `flags`, `engine`, `boots`,
/// `time`, `user`, `auth` and `privacy`, with names after them if these are asked for. `AllocError` if memory
/// runs out.
pub(crate) fn message_lines(
    alloc: Global,
    names: bool,
    header: &Header,
    security: &Security<'_>,
) -> Result<String, AllocError>
    ensures { IfOk result
        (λ text. IsUnnamed names (spec.message_lines header.now (fields_of security.now))
        (string_bytes text)) }
{
    let header = header_lines(alloc, header)?;
    let security = security_lines(alloc, names, security)?;
    format!(in alloc; "{header}{security}")
}

/// A variable binding: its name, and the tag and the content of its value.
fn binding_line(alloc: Global, names: bool, binding: &Binding<'_>) -> Result<String, AllocError>
    ensures { IfOk result (λ text. IsUnnamed names (binding_line (variable_of binding.now))
        (string_bytes text)) }
{
    let name = &binding.name;
    let tag = hex::encode(alloc, [binding.tag].as_slice())?;
    let content = octets_text(alloc, binding.content)?;
    let note = binding_note(alloc, names, binding)?;
    format!(in alloc; "binding {name} {tag} {content}{note}\n")
}

/// The tag of a PDU, and its three numbers.
fn pdu_line(alloc: Global, names: bool, pdu: &Pdu<'_>) -> Result<String, AllocError>
    ensures { IfOk result (λ text. IsUnnamed names (pdu_line (pdu_of pdu.now)) (string_bytes text)) }
{
    let tag = hex::encode(alloc, [pdu.tag].as_slice())?;
    let (id, second, third) = (pdu.id, pdu.second, pdu.third);
    let note = pdu_note(alloc, names, pdu)?;
    format!(in alloc; "pdu {tag} {id} {second} {third}{note}\n")
}

/// The line of a PDU, and its bindings, a line each.
pub(crate) fn pdu_lines(alloc: Global, names: bool, pdu: &Pdu<'_>) -> Result<String, AllocError>
    ensures { IfOk result
        (λ text. IsUnnamed names (pdu_line (pdu_of pdu.now) ++ flat_map binding_line
        (variables_of pdu.now.list.now))
        (string_bytes text)) }
{
    let mut text = pdu_line(alloc, names, pdu)?;
    for binding in pdu.bindings() {
        let line = binding_line(alloc, names, &binding)?;
        text.push_str(&line)?;
    }
    Ok(text)
}

/// The lines of a ScopedPDU (RFC 3412, section 6.8) and of the PDU in it: `context-engine`, `context`, `pdu`,
/// and `binding` for each variable binding, with names after them if these are asked for. `AllocError` if memory
/// runs out.
pub(crate) fn scoped_lines(
    alloc: Global,
    names: bool,
    scoped: &Scoped<'_>,
    pdu: &Pdu<'_>,
) -> Result<String, AllocError>
    ensures { IfOk result
        (λ text. IsUnnamed names (spec.scoped_lines scoped.now.engine.now scoped.now.name.now
        (pdu_of pdu.now))
        (string_bytes text)) }
{
    let engine = octets_line(alloc, "context-engine", scoped.engine)?;
    let name = text_line(alloc, names, "context", scoped.name)?;
    let pdu = pdu_lines(alloc, names, pdu)?;
    format!(in alloc; "{engine}{name}{pdu}")
}
