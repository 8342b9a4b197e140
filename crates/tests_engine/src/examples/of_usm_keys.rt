//! `usm_keys`: the key of RFC 3414, section A.3.1.
use std::test::Fail;
use usm_keys::{Auth, localise, password_key};

#[test]
fn a_password_comes_to_a_localised_key(rt: HostRuntime) -> Result<(), Fail> {
    let key = password_key(Auth::Md5, b"maplesyrup")?;
    let localised = localise(&key, &[0, 0, 0, 0, 0, 0, 0, 0, 0, 0, 0, 2]);
    let wanted = b"\x52\x6f\x5e\xed\x9f\xcc\xe2\x6f\x89\x64\xc2\x93\x07\x87\xd8\x2b";
    assert_eq!(rt; localised.as_slice(), wanted.as_slice());
    Ok(())
}
