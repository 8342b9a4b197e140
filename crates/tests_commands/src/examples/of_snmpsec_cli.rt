//! `snmpsec_cli`: a command line is read.
use snmpsec_cli::{Command, asked_by, parse};
use std::test::Fail;

#[test]
fn a_command_line_is_read(rt: HostRuntime) -> Result<(), Fail> {
    let mut words = Vec::new(rt.alloc());
    words.push("snmpsec".to_string(rt.alloc())?)?;
    words.push("version".to_string(rt.alloc())?)?;
    let matches = parse(rt.alloc(), &words)?;
    assert!(rt; matches!(asked_by(rt.alloc(), &matches)?.command, Command::Version));
    Ok(())
}
