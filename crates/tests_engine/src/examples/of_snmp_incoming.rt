//! `snmp_incoming`: each refusal has one number, one name and its words.
use snmp_incoming::TakeFault;
use snmp_msg::Refusal;
use std::test::Fail;

#[test]
fn a_refusal_has_a_number_and_a_name(rt: HostRuntime) -> Result<(), Fail> {
    let fault = TakeFault::plain(Refusal::WrongDigest);
    assert_eq!(rt;
        (fault.number(), fault.name(), fault.at),
        (9, "WrongDigest", None)
    );
    Ok(())
}
