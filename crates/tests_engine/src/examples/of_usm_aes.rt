//! `usm_aes`: a text is sealed in its place, and opened again.
use std::test::Fail;
use usm_aes::{cfb_open, cfb_seal, expand, iv};

#[test]
fn opening_undoes_sealing(rt: HostRuntime) -> Result<(), Fail> {
    let schedule = expand(&[7; 16]);
    let mut text = *b"any length will do";
    cfb_seal(&schedule, iv(3, 100, &[0, 0, 0, 0, 0, 0, 0, 1]), &mut text);
    assert!(rt; text != *b"any length will do");
    cfb_open(&schedule, iv(3, 100, &[0, 0, 0, 0, 0, 0, 0, 1]), &mut text);
    assert_eq!(rt; text, *b"any length will do");
    Ok(())
}
