//! `capture_files`: a file of tcpdump is recognised, and the datagram of a packet is found.
use capture_files::begins_capture;
use std::test::Fail;

#[test]
fn a_capture_is_told_from_text(rt: HostRuntime) -> Result<(), Fail> {
    assert!(rt; begins_capture(b"\xd4\xc3\xb2\xa1\x02\x00\x04\x00"));
    assert!(rt; !begins_capture(b"30 38 02 01 03"));
    Ok(())
}
