//! `snmpsec_io`: a file that isn't there can't be read.
use snmpsec_io::{FileFault, read_file};
use std::test::Fail;

#[test]
fn a_file_that_is_not_there_cannot_be_read(rt: HostRuntime) -> Result<(), Fail> {
    let read = read_file(&rt, "no/such/file");
    assert_eq!(rt; read.err(), Some(FileFault::CannotRead));
    Ok(())
}
