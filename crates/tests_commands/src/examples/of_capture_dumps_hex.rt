//! `capture_dumps`: pasted hex is read in many forms.
use capture_dumps::read_hex;
use std::test::Fail;

#[test]
fn pasted_hex_is_read(rt: HostRuntime) -> Result<(), Fail> {
    let octets = read_hex(rt.alloc(), b"0x30, 0x03,\n02:01 AF\n")?;
    assert_eq!(rt; octets.as_slice(), b"\x30\x03\x02\x01\xaf".as_slice());
    Ok(())
}
