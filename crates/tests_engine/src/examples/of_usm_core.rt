//! `usm_core`: a datagram that isn't a message is refused, with the place of the fault.
use std::test::Fail;
use usm_core::{Role, Users};

#[test]
fn what_is_no_message_is_refused(rt: HostRuntime) -> Result<(), Fail> {
    let mut users = Users::load(rt.alloc(), &[])?;
    let answer = users.open_auth(Role::Manager, &[0x30, 0x05]).err();
    let answer = answer.map(|refused| (refused.name(), refused.at));
    assert_eq!(rt; answer, Some(("NotMessage", Some(0))));
    Ok(())
}
