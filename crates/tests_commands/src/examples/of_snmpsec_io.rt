//! `snmpsec_io`: a text is written whole, and read until it ends.
use snmpsec_io::{read_full, write_whole};
use std::test::Fail;

#[test]
fn what_is_written_is_read(rt: HostRuntime) -> Result<(), Fail> {
    let mut text: Vec<u8> = Vec::new(rt.alloc());
    write_whole(&mut text, b"snmp-clocks 2\n")?;
    let mut first = [0; 4];
    let mut reader = text.as_slice();
    assert_eq!(rt; read_full(&mut reader, &mut first)?, 4);
    assert_eq!(rt; first.as_slice(), b"snmp".as_slice());
    Ok(())
}
