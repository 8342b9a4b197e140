//! `snmpsec_access`: a group row whose name isn't a user is reported.
use snmpsec_access::hint_text;
use snmpsec_config::AccessConfig;
use std::alloc::{AllocError, Global};
use std::test::Fail;

/// What is probably a mistake in a configuration.
fn hints(alloc: Global, text: &[u8]) -> Result<Vec<u8>, AllocError> {
    let config = AccessConfig::read(alloc, text).map_err(|_| AllocError)?;
    hint_text(alloc, text, &config.rows)
}

#[test]
fn a_group_row_without_its_user_is_told(rt: HostRuntime) -> Result<(), Fail> {
    let text = b"[[group]]\nmodel = 3\nname = 'ann'\ngroup = 'g'\n";
    let hints = hints(rt.alloc(), text)?;
    assert!(rt; hints.starts_with(b"snmpsec: group 0, line 1: "));
    Ok(())
}
