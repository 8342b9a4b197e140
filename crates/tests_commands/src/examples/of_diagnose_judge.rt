//! `diagnose_judge`: a request without authentication and without an engine is a discovery.
use diagnose_judge::{Judged, Observer};
use engine_clock::Clocks;
use std::test::Fail;
use usm_core::Users;

const DISCOVERY: &[u8] =
    b"08\x02\x01\x030\x0e\x02\x01\x01\x02\x03\0\xff\xe3\x04\x01\x04\x02\x01\x03\
\x04\x100\x0e\x04\0\x02\x01\0\x02\x01\0\x04\0\x04\0\x04\00\x11\x04\0\x04\0\xa0\x0b\
\x02\x01\0\x02\x01\0\x02\x01\00\0";

#[test]
fn a_request_without_an_engine_is_a_discovery(rt: HostRuntime) -> Result<(), Fail> {
    let users = Users::load(rt.alloc(), &[])?;
    let mut observer = Observer::new(users, Clocks::new(rt.alloc()));
    let judged = observer.judge(7, DISCOVERY)?;
    assert!(rt; matches!(&judged, Judged::Discovery));
    Ok(())
}
