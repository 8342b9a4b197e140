//! `capture_files`: a packet that begins with its IP header has a datagram.
use capture_files::{Found, find_datagram};
use std::test::Fail;

#[test]
fn a_packet_of_raw_ip_has_a_datagram(rt: HostRuntime) -> Result<(), Fail> {
    let packet =
        b"E\0\0\x1e\0\0\0\0\x40\x11\0\0\xc0\0\x02\x01\xc0\0\x02\x02\x9c\x40\0\xa1\0\x0a\0\0hi";
    let found = Found::Datagram {
        source: 40_000,
        destination: 161,
        octets: b"hi",
    };
    assert_eq!(rt; find_datagram(101, packet, true), found);
    Ok(())
}
