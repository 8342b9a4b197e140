//! Variable bindings, with their names as arcs and in octets.

ghost use Rattle.std.specs.Prelude.{◌≡◌, All, length, IfOk};
ghost use Rattle.snmp_ber.specs.Element.{IsTag};
ghost use Rattle.snmp_msg.specs.Variables.{CanBeWritten, variable_of};

use snmp_msg::{Refusal, RefusedAt, *};
use std::alloc::{AllocError, Global};
use std::test::Fail;

/// A GetRequest for sysDescr.0, whose user is `ann`.
const GET_REQUEST: [u8; 99] = [
    0x30, 0x61, 0x02, 0x01, 0x03, 0x30, 0x0E, 0x02, 0x01, 0x02, 0x02, 0x03, 0x00, 0xFF, 0xE3, 0x04,
    0x01, 0x04, 0x02, 0x01, 0x03, 0x04, 0x1F, 0x30, 0x1D, 0x04, 0x0C, 0x00, 0x00, 0x00, 0x00, 0x00,
    0x00, 0x00, 0x00, 0x00, 0x00, 0x00, 0x02, 0x02, 0x01, 0x00, 0x02, 0x01, 0x00, 0x04, 0x03, 0x61,
    0x6E, 0x6E, 0x04, 0x00, 0x04, 0x00, 0x30, 0x2B, 0x04, 0x0C, 0x00, 0x00, 0x00, 0x00, 0x00, 0x00,
    0x00, 0x00, 0x00, 0x00, 0x00, 0x02, 0x04, 0x00, 0xA0, 0x19, 0x02, 0x01, 0x02, 0x02, 0x01, 0x00,
    0x02, 0x01, 0x00, 0x30, 0x0E, 0x30, 0x0C, 0x06, 0x08, 0x2B, 0x06, 0x01, 0x02, 0x01, 0x01, 0x01,
    0x00, 0x05, 0x00,
];

/// The request, of which a proof knows the length alone.
fn get_request() -> &'static [u8]
    ensures { length result.now ≡ 99 }
{
    &GET_REQUEST
}

/// The bindings of a PDU, as they come.
fn collected<'a>(alloc: Global, pdu: &Pdu<'a>) -> Result<Vec<Binding<'a>>, AllocError>
    ensures { IfOk result (λ v. All (λ b. CanBeWritten (variable_of b)) v.items) }
{
    let mut bindings = Vec::new(alloc);
    for binding in pdu.bindings() {
        if binding.tag & 0x1f == 0x1f || !binding.name.is_object_id() {
            continue;
        }
        bindings.push(binding)?;
    }
    Ok(bindings)
}

#[test]
fn a_refused_growth_writes_no_binding(rt: HostRuntime) -> Result<(), Fail> {
    let pdu = read_pdu(get_request(), 72, 99).ok().ok_or("a PDU")?;
    let bindings = match collected(rt.alloc(), &pdu) {
        Ok(bindings) => bindings,
        Err(_) => collected(rt.alloc(), &pdu)?,
    };
    let written = match write_pdu(rt.alloc(), 0xA0, 2, 0, 0, &bindings) {
        Err(refused) if refused.is_memory() => write_pdu(rt.alloc(), 0xA0, 2, 0, 0, &bindings)?,
        other => other?,
    };
    assert_eq!(rt; written.as_slice(), &get_request()[72..]);
    Ok(())
}

/// The bindings of a PDU, as they come.
fn collected_in_octets<'a>(
    alloc: Global,
    pdu: &Pdu<'a>,
) -> Result<Vec<VariableBinding<'a>>, AllocError>
    ensures { IfOk result (λ v. All (λ b. IsTag b.tag) v.items) }
{
    let mut bindings = Vec::new(alloc);
    for binding in pdu.variable_bindings() {
        if binding.tag & 0x1f != 0x1f {
            bindings.push(binding)?;
        }
    }
    Ok(bindings)
}

#[test]
fn a_refused_growth_writes_no_binding_in_octets(rt: HostRuntime) -> Result<(), Fail> {
    let pdu = read_pdu(get_request(), 72, 99).ok().ok_or("a PDU")?;
    let bindings = match collected_in_octets(rt.alloc(), &pdu) {
        Ok(bindings) => bindings,
        Err(_) => collected_in_octets(rt.alloc(), &pdu)?,
    };
    let written = match write_pdu_of(rt.alloc(), 0xA0, 2, 0, 0, &bindings) {
        Err(refused) if refused.is_memory() => write_pdu_of(rt.alloc(), 0xA0, 2, 0, 0, &bindings)?,
        other => other?,
    };
    assert_eq!(rt; written.as_slice(), &get_request()[72..]);
    Ok(())
}
