//! `diagnose_exchanges`: a datagram that comes twice is a copy of the first.
use diagnose_exchanges::{Copies, digest_of};
use std::test::Fail;

#[test]
fn the_second_datagram_is_a_copy(rt: HostRuntime) -> Result<(), Fail> {
    let digest = digest_of(b"10.0.0.9:40001 > 10.0.0.5:161", b"0\x03\x02\x01\x03");
    let mut copies = Copies::new(rt.alloc());
    assert!(rt; copies.note(digest, 1)? == None);
    assert!(rt; copies.note(digest, 2)? == Some(1) && !copies.is_full());
    Ok(())
}
