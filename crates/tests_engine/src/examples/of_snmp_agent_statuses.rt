//! `snmp_agent`: what becomes of a variable that isn't in the view.
use snmp_agent::{Status, status_of};
use snmp_msg::PduType;
use std::test::Fail;
use vacm_core::Access;

#[test]
fn what_is_not_in_the_view_cannot_be_set(rt: HostRuntime) -> Result<(), Fail> {
    assert_eq!(rt;
        status_of(Access::NotInView, PduType::GetRequest.tag()),
        Status::NoSuchObject
    );
    assert_eq!(rt;
        status_of(Access::NotInView, PduType::SetRequest.tag()),
        Status::NoAccess
    );
    Ok(())
}
