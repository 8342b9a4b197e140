//! `snmp_gate`: a device is asked for a Set, and answers it.
use snmp_gate::{read_device_answer, write_set_ask};
use snmp_msg::read_pdu;
use std::test::Fail;

/// A SetRequest of a manager: sysName.0 is to be "router".
static REQUEST: &[u8] = b"\xa3\x1f\x02\x01\x07\x02\x01\x00\x02\x01\x00\x30\x14\
\x30\x12\x06\x08\x2b\x06\x01\x02\x01\x01\x05\x00\x04\x06router";

/// What the device is asked, with the community "write" and request-id 99.
static ASK: &[u8] = b"\x30\x2b\x02\x01\x01\x04\x05write\
\xa3\x1f\x02\x01\x63\x02\x01\x00\x02\x01\x00\x30\x14\
\x30\x12\x06\x08\x2b\x06\x01\x02\x01\x01\x05\x00\x04\x06router";

/// What it answers: noError.
static ANSWER: &[u8] = b"\x30\x2b\x02\x01\x01\x04\x05write\
\xa2\x1f\x02\x01\x63\x02\x01\x00\x02\x01\x00\x30\x14\
\x30\x12\x06\x08\x2b\x06\x01\x02\x01\x01\x05\x00\x04\x06router";

#[test]
fn a_device_is_asked_for_a_set(rt: HostRuntime) -> Result<(), Fail> {
    let request = read_pdu(REQUEST, 0, REQUEST.len())?;
    let ask = write_set_ask(rt.alloc(), b"write", 99, &request)?;
    assert_eq!(rt; ask.as_slice(), ASK);
    let answer = read_device_answer(ANSWER).ok_or("an answer")?;
    assert_eq!(rt; answer.community, b"write".as_slice());
    assert_eq!(rt; (answer.pdu.id, answer.pdu.second), (99, 0));
    assert!(rt; read_device_answer(ASK).is_none());
    Ok(())
}
