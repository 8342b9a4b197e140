//! `snmp_ber`: an element is read, and a number and an identifier.
use snmp_ber::{Oid, read_int, read_tlv};
use std::test::Fail;

#[test]
fn an_element_and_an_identifier_are_read(rt: HostRuntime) -> Result<(), Fail> {
    let element = read_tlv(&[0x02, 0x02, 0x01, 0x00], 0, 4)?;
    assert_eq!(rt; element.tag, 0x02);
    assert_eq!(rt; read_int(element.content), Some(256));
    let system = Oid::from_text("1.3.6.1").ok_or("arcs")?;
    assert_eq!(rt; system.as_slice(), [1, 3, 6, 1].as_slice());
    Ok(())
}
