//! `snmp_outgoing`: the counter of PDUs that nothing answers.
use snmp_outgoing::Counter;
use std::test::Fail;

#[test]
fn a_counter_has_a_name(rt: HostRuntime) -> Result<(), Fail> {
    let name = Counter::UnknownPduHandlers.name();
    assert_eq!(rt; name, [1, 3, 6, 1, 6, 3, 11, 2, 1, 3, 0].as_slice());
    Ok(())
}
