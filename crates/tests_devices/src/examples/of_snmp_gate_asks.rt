//! `snmp_gate`: an answer is of the request for which its device is asked with this request-id.
use snmp_gate::DeviceAsks;
use std::test::Fail;

#[test]
fn an_answer_is_of_one_request(rt: HostRuntime) -> Result<(), Fail> {
    let mut asks = DeviceAsks::new(rt.alloc(), 2);
    assert_eq!(rt; asks.ask(7, 0)?, 7);
    assert_eq!(rt; asks.ask(7, 1)?, 8);
    assert!(rt; asks.is_full());
    assert_eq!(rt; asks.end(8), Some(1));
    assert_eq!(rt; (asks.request(7), asks.end(8)), (Some(0), None));
    Ok(())
}
