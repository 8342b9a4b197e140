//! `snmp_message`: a discovery request is read layer by layer.
use snmp_message::{read_message, read_security};
use std::test::Fail;

/// The request that a manager discovers an engine with (RFC 3414, section 4).
static DISCOVERY: &[u8] =
    b"\x30\x38\x02\x01\x03\x30\x0e\x02\x01\x01\x02\x03\x00\xff\xe3\x04\x01\x04\x02\x01\
\x03\x04\x10\x30\x0e\x04\x00\x02\x01\x00\x02\x01\x00\x04\x00\x04\x00\x04\x00\x30\x11\x04\x00\x04\x00\xa0\x0b\
\x02\x01\x01\x02\x01\x00\x02\x01\x00\x30\x00";

#[test]
fn a_discovery_request_is_read(rt: HostRuntime) -> Result<(), Fail> {
    let message = read_message(DISCOVERY)?;
    assert_eq!(rt; (message.header.id, message.header.max_size), (1, 65507));
    let security = read_security(DISCOVERY, &message)?;
    assert_eq!(rt; (security.boots, security.user.len()), (0, 0));
    Ok(())
}
