//! `capture_dumps`: a dump is read as od and hexdump print it.
use capture_dumps::read_dumps;
use std::test::Fail;

#[test]
fn a_dump_is_read(rt: HostRuntime) -> Result<(), Fail> {
    let dumps = read_dumps(rt.alloc(), b"00000000  30 03 02 01 03  |0....|\n00000005\n")?;
    assert_eq!(rt; dumps.len(), 1);
    assert_eq!(rt; dumps[0].as_slice(), b"\x30\x03\x02\x01\x03".as_slice());
    Ok(())
}
