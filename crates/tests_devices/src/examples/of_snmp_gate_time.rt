//! `snmp_gate`: a device that doesn't answer is asked three times, and then the request is given up.
use snmp_gate::{Due, Retries, Timer};
use std::test::Fail;

#[test]
fn a_silent_device_is_asked_three_times(rt: HostRuntime) -> Result<(), Fail> {
    let retries = Retries {
        again: 1000,
        tries: 3,
        last: 5000,
    };
    let mut timer = Timer::new(100);
    timer.ask(200);
    assert_eq!(rt; timer.due_at(&retries), 1200);
    assert_eq!(rt; timer.due(&retries, 1199), Due::Nothing);
    assert_eq!(rt; timer.due(&retries, 1200), Due::AskAgain);
    timer.ask(1200);
    timer.ask(2200);
    assert_eq!(rt; timer.due(&retries, 3200), Due::GiveUp);
    assert_eq!(rt; timer.due(&retries.for_set(), 3200), Due::Nothing);
    Ok(())
}
