//! `snmp_msg`: a PDU is read, with the names of its variables as they lie.
use snmp_msg::{PduType, read_pdu};
use std::test::Fail;

/// A GetRequest of sysName.0.
static REQUEST: &[u8] =
    b"\xa0\x19\x02\x01\x07\x02\x01\x00\x02\x01\x00\x30\x0e\x30\x0c\x06\x08\x2b\x06\x01\x02\x01\x01\x05\x00\x05\x00";

#[test]
fn a_request_is_read(rt: HostRuntime) -> Result<(), Fail> {
    let pdu = read_pdu(REQUEST, 0, REQUEST.len())?;
    assert_eq!(rt; (pdu.tag, pdu.id), (PduType::GetRequest.tag(), 7));
    let variable = pdu.bindings().next().ok_or("a binding")?;
    assert_eq!(rt;
        variable.name.as_slice(),
        [1, 3, 6, 1, 2, 1, 1, 5, 0].as_slice()
    );
    Ok(())
}
