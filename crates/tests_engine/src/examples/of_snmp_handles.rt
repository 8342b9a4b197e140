//! `snmp_handles`: an agent behind a handle is made of a configuration's text.
use snmp_handles::AgentHandle;
use std::test::Fail;

#[test]
fn a_handle_is_made_of_a_text(rt: HostRuntime) -> Result<(), Fail> {
    let config = b"[[user]]\nname = 'eve'\n";
    let mut agent = AgentHandle::of(rt.alloc(), config, b"\x80\x00\x1f\x88\x04k", 1, 0)?;
    assert!(rt; agent.take(1000, b"no message").is_err());
    assert_eq!(rt; agent.counter(4)?, 0);
    Ok(())
}
