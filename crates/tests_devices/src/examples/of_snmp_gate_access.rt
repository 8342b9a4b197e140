//! `snmp_gate`: a Set is asked of its device if the view has each of its names.
use snmp_gate::{AccessRefusal, access_refusal};
use snmp_msg::PduType;
use std::test::Fail;
use vacm_core::Access;

#[test]
fn a_set_is_asked_if_each_name_is_in_the_view(rt: HostRuntime) -> Result<(), Fail> {
    let set = PduType::SetRequest.tag();
    let answers = [Access::AccessAllowed, Access::NotInView];
    assert_eq!(rt; access_refusal(&answers[..1], set), None);
    assert_eq!(rt;
        access_refusal(&answers, set),
        Some(AccessRefusal::NoAccess(2))
    );
    assert_eq!(rt; access_refusal(&answers, PduType::GetRequest.tag()), None);
    assert_eq!(rt;
        access_refusal(&[Access::NoSuchView], set),
        Some(AccessRefusal::AuthorizationError)
    );
    Ok(())
}
