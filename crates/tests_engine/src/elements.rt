//! Elements, identifiers and messages.

ghost use Rattle.std.specs.Prelude.{◌≤◌, length};

use snmp_ber::*;
use snmp_msg::{Refusal, RefusedAt, canonical};
use std::alloc::AllocError;
use std::process::Abort;
use std::test::Fail;

/// Appends an element, and leaves what there was where memory is wanting.
fn append(
    rt: &impl Abort,
    out: &mut Vec<u8>,
    before: &[u8],
    content: &[u8],
) -> Result<(), AllocError>
    requires { length content.now ≤ 100 }
{
    if put_tlv(out, 0x04, content).is_err() {
        assert!(rt; out.as_slice() == before);
        put_tlv(out, 0x04, content)?;
    }
    Ok(())
}

/// A number is appended, or nothing.
fn assert_number(rt: &impl Abort, out: &mut Vec<u8>) -> Result<(), AllocError> {
    if put_int(out, 1).is_err() {
        assert!(rt; out.is_empty());
        put_int(out, 1)?;
    }
    assert!(rt; out.as_slice() == [0x02, 0x01, 0x01].as_slice());
    Ok(())
}

/// A head is appended, or nothing.
fn assert_head(rt: &impl Abort, out: &mut Vec<u8>) -> Result<(), AllocError> {
    if put_head(out, 0x30, 1).is_err() {
        assert!(rt; out.is_empty());
        put_head(out, 0x30, 1)?;
    }
    assert!(rt; out.as_slice() == [0x30, 0x01].as_slice());
    Ok(())
}

#[test]
fn a_refused_growth_appends_no_element(rt: HostRuntime) -> Result<(), AllocError> {
    let mut out = Vec::new(rt.alloc());
    append(&rt, &mut out, b"", b"ab")?;
    append(&rt, &mut out, &[0x04, 0x02, 0x61, 0x62], &[0x61; 100])?;
    assert!(rt; out.len() == 106);
    let mut number = Vec::new(rt.alloc());
    assert_number(&rt, &mut number)?;
    let mut head = Vec::new(rt.alloc());
    assert_head(&rt, &mut head)
}

#[test]
fn a_refused_growth_appends_no_identifier(rt: HostRuntime) -> Result<(), Fail> {
    let oid = Oid::from_text("1.3.6.1").ok_or("an identifier")?;
    assert!(rt; oid.is_object_id());
    let mut out = Vec::new(rt.alloc());
    if put_oid(&mut out, &oid).is_err() {
        assert_eq!(rt; out.len(), 0);
        put_oid(&mut out, &oid)?;
    }
    assert_eq!(rt; out.as_slice(), [0x06, 0x03, 0x2B, 0x06, 0x01].as_slice());
    Ok(())
}

/// The request that a manager discovers an engine with (RFC 3414, section 4).
const DISCOVERY: [u8; 58] = [
    0x30, 0x38, 0x02, 0x01, 0x03, 0x30, 0x0E, 0x02, 0x01, 0x01, 0x02, 0x03, 0x00, 0xFF, 0xE3, 0x04,
    0x01, 0x04, 0x02, 0x01, 0x03, 0x04, 0x10, 0x30, 0x0E, 0x04, 0x00, 0x02, 0x01, 0x00, 0x02, 0x01,
    0x00, 0x04, 0x00, 0x04, 0x00, 0x04, 0x00, 0x30, 0x11, 0x04, 0x00, 0x04, 0x00, 0xA0, 0x0B, 0x02,
    0x01, 0x01, 0x02, 0x01, 0x00, 0x02, 0x01, 0x00, 0x30, 0x00,
];

#[test]
fn a_refused_growth_gives_no_other_spelling(rt: HostRuntime) -> Result<(), Fail> {
    let spelled = match canonical(rt.alloc(), &DISCOVERY) {
        Err(refused) if refused.is_memory() => canonical(rt.alloc(), &DISCOVERY)?,
        other => other?,
    };
    assert_eq!(rt; spelled.as_slice(), DISCOVERY.as_slice());
    Ok(())
}
