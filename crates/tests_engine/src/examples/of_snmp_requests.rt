//! `snmp_requests`: a request waits for its answer, and is given up.
use engine_clock::Clocks;
use snmp_manager::Manager;
use snmp_requests::{OutstandingRequests, message_id};
use std::test::Fail;
use usm_core::Users;

#[test]
fn a_request_is_given_up_once(rt: HostRuntime) -> Result<(), Fail> {
    let users = Users::load(rt.alloc(), &[])?;
    let manager = Manager::new(rt.alloc(), users, Clocks::new(rt.alloc()));
    let mut requests = OutstandingRequests::new(rt.alloc());
    assert!(rt; !requests.is_full());
    let token = requests.next_token(7).ok_or("a token")?;
    let (_datagram, pending) = manager.discover(message_id(token))?;
    requests.add(token, pending, &[], &[])?;
    assert_eq!(rt; (token, requests.next_token(7)), (7, Some(8)));
    assert!(rt; requests.give_up(token));
    assert!(rt; !requests.give_up(token));
    Ok(())
}
