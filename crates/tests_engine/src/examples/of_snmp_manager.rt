//! `snmp_manager`: a manager discovers, and takes what comes.
use engine_clock::Clocks;
use snmp_manager::{Manager, Outcome};
use snmp_msg::{Refusal, RefusedAt};
use std::test::Fail;
use usm_core::Users;

#[test]
fn a_discovery_is_for_its_engine_alone(rt: HostRuntime) -> Result<(), Fail> {
    let users = Users::load(rt.alloc(), &[])?;
    let mut manager = Manager::new(rt.alloc(), users, Clocks::new(rt.alloc()));
    let (datagram, _pending) = manager.discover(1)?;
    let outcome = manager.take_one(1700000000, &datagram)?;
    assert_eq!(rt;
        outcome,
        Outcome::Refused(RefusedAt::plain(Refusal::UnknownEngine))
    );
    Ok(())
}
