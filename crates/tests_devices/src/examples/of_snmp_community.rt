//! `snmp_community`: a request of SNMPv2c is read, and written again.
use snmp_community::{
    Version, read_community_message, read_community_pdu, write_community_message,
};
use snmp_msg::PduType;
use std::test::Fail;

/// A GetRequest of sysName.0, with the community "public".
static REQUEST: &[u8] = b"\x30\x26\x02\x01\x01\x04\x06public\
\xa0\x19\x02\x01\x07\x02\x01\x00\x02\x01\x00\x30\x0e\x30\x0c\x06\x08\x2b\x06\x01\x02\x01\x01\x05\x00\x05\x00";

#[test]
fn a_request_with_a_community_is_read(rt: HostRuntime) -> Result<(), Fail> {
    let message = read_community_message(REQUEST)?;
    assert_eq!(rt; (message.version, message.pdu_at), (Version::Version2c, 13));
    assert_eq!(rt; message.community, b"public".as_slice());
    let pdu = read_community_pdu(REQUEST, &message)?;
    assert_eq!(rt; (pdu.tag, pdu.id), (PduType::GetRequest.tag(), 7));
    let again = write_community_message(
        rt.alloc(),
        message.version,
        message.community,
        message.pdu,
    )?;
    assert_eq!(rt; again.as_slice(), REQUEST);
    Ok(())
}
