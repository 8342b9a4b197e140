//! `snmp_requests`: what is sent to a device that is unknown.
use snmp_ber::Level;
use snmp_requests::{DeviceRequest, Heard, Known, NextStep, SentMessage};
use std::test::Fail;

#[test]
fn a_device_is_discovered_and_asked_for_its_time(rt: HostRuntime) -> Result<(), Fail> {
    let mut exchange = DeviceRequest::new(Level::AuthPriv, Known::Nothing);
    assert_eq!(rt; exchange.sent, Some(SentMessage::Discovery));
    let unknown_engine = Heard::Report {
        counter: 4,
        authentic: false,
    };
    assert_eq!(rt;
        exchange.hear(unknown_engine, false),
        NextStep::Send(SentMessage::TimeRequest)
    );
    let not_in_window = Heard::Report {
        counter: 2,
        authentic: true,
    };
    assert_eq!(rt;
        exchange.hear(not_in_window, true),
        NextStep::Send(SentMessage::Request)
    );
    assert_eq!(rt;
        exchange.hear(not_in_window, true),
        NextStep::Send(SentMessage::Request)
    );
    assert_eq!(rt; exchange.level(SentMessage::Request), Level::AuthPriv);
    assert_eq!(rt; exchange.hear(not_in_window, true), NextStep::Refused(2));
    Ok(())
}
