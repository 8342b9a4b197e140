//! `diagnose_text`: a capture without a datagram has nothing to report, and nothing failed in it.
use diagnose_text::{DiagnoseOptions, Diagnoser};
use engine_clock::Clocks;
use std::test::Fail;
use usm_core::Users;

#[test]
fn nothing_failed_in_an_empty_capture(rt: HostRuntime) -> Result<(), Fail> {
    let users = Users::load(rt.alloc(), &[])?;
    let options = DiagnoseOptions::all(rt.alloc());
    let mut diagnoser = Diagnoser::new(rt.alloc(), users, Clocks::new(rt.alloc()), None, options);
    let (text, failed) = diagnoser.finish()?;
    assert!(rt; text.starts_with(b"summary\n") && !failed);
    Ok(())
}
