//! `snmpsec_config`: a configuration is read, and what is wrong with another is reported.
use snmpsec_config::Config;
use std::test::Fail;

#[test]
fn a_configuration_is_read_or_refused(rt: HostRuntime) -> Result<(), Fail> {
    let config = Config::read(rt.alloc(), b"[[user]]\nname = 'eve'\n")?;
    assert_eq!(rt; config.users.cached(), 0);
    assert!(rt; Config::read(rt.alloc(), b"[[user]]\nnam = 'eve'\n").is_err());
    Ok(())
}
