//! `snmp_gate`: a client that asks the same again has an answer to each of its messages.
use snmp_ber::Level;
use snmp_gate::{ClientMessage, Joined, WaitingRequests};
use snmp_msg::{Pdu, PduType};
use std::test::Fail;

#[test]
fn each_message_has_its_answer(rt: HostRuntime) -> Result<(), Fail> {
    let pdu = Pdu {
        tag: PduType::GetRequest.tag(),
        id: 7,
        second: 0,
        third: 0,
        list: b"",
    };
    let first = ClientMessage {
        client: b"192.0.2.9:50112",
        user: b"ann",
        level: Level::AuthPriv,
        engine: b"\x80\x00\x1f\x88\x04gate",
        context: b"rack-1-pdu",
        pdu,
    };
    let mut second = first;
    second.pdu.id = 8;
    assert!(rt; first.asks_again(&second));
    let mut requests = WaitingRequests::new(rt.alloc(), 1024, 16);
    assert_eq!(rt; requests.begin(rt.alloc(), "first", 0)?, 0);
    assert_eq!(rt; requests.join(0, "second")?, Joined::Joined);
    assert_eq!(rt; (requests.work(0, 1), requests.is_full()), (0, false));
    assert_eq!(rt; requests.answer(0), "first");
    assert_eq!(rt; requests.requests().len(), 1);
    assert_eq!(rt; requests.answer(0), "second");
    assert_eq!(rt; requests.requests().len(), 0);
    Ok(())
}
