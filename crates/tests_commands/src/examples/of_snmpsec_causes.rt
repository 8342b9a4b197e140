//! `snmpsec_causes`: a Report tells a counter, and a refusal has a cause.
use snmp_message::Refusal;
use snmpsec_causes::{cause, counter_named};
use std::test::Fail;

#[test]
fn a_report_tells_a_counter(rt: HostRuntime) -> Result<(), Fail> {
    let counter = counter_named("1.3.6.1.6.3.15.1.1.5.0");
    assert_eq!(rt; counter, Some("usmStatsWrongDigests"));
    assert!(rt; cause(Refusal::WrongDigest).starts_with("the password or the hash"));
    Ok(())
}
