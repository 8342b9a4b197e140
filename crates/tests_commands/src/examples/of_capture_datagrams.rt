//! `capture_datagrams`: pasted hex as a line of a log.
use capture_datagrams::forms::{ReadOptions, print_datagrams};
use capture_files::Lines;
use std::test::Fail;

#[test]
fn pasted_hex_is_a_line_of_a_log(rt: HostRuntime) -> Result<(), Fail> {
    let asked = ReadOptions {
        form: None,
        moment: 1_700_000_000,
        ports: &[161, 162],
        name: "f",
    };
    let mut file = b"30 03 02 01 03".as_slice();
    let mut log: Vec<u8> = Vec::new(rt.alloc());
    let mut notes: Vec<u8> = Vec::new(rt.alloc());
    let status = print_datagrams(
        rt.alloc(),
        asked,
        &mut Lines,
        &mut file,
        &mut log,
        &mut notes,
    )?;
    assert_eq!(rt; status, 0);
    assert_eq!(rt; log.as_slice(), b"1700000000 3003020103\n".as_slice());
    Ok(())
}
