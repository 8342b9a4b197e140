//! `snmp_handles`: a variable binding is read with its places, and a fault has its number.
use snmp_handles::{CallFault, code_of, read_binding_at};
use std::test::Fail;

#[test]
fn a_binding_of_a_caller_is_read(rt: HostRuntime) -> Result<(), Fail> {
    let list = b"\x30\x07\x06\x03\x2b\x06\x01\x05\x00";
    let mut arcs = [0; 128];
    let mut numbers = [0; 5];
    read_binding_at(list, 0, &mut arcs, &mut numbers)?;
    assert_eq!(rt; &arcs[..4], [1, 3, 6, 1].as_slice());
    assert_eq!(rt; numbers, [4, 5, 9, 0, 9]);
    assert_eq!(rt; code_of(Err(CallFault::ShortBuffer)), -5);
    Ok(())
}
