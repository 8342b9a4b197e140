//! `snmp_gate`: a device is asked for the two names that come after sysName.
use snmp_ber::Level;
use snmp_gate::write_bulk_ask;
use snmp_msg::{Pdu, PduType};
use snmp_responder::Viewer;
use snmp_walk::{BulkAsk, BulkDialogue, BulkLimits, BulkNext};
use snmpsec_config::Config;
use std::alloc::Global;
use std::test::Fail;

const TABLES: &[u8] = b"\
[[context]]\nname = ''\n\
[[group]]\nmodel = 3\nname = 'ann'\ngroup = 'readers'\n\
[[access]]\ngroup = 'readers'\nprefix = ''\nmatch = 'exact'\nmodel = 3\nlevel = 'noAuthNoPriv'\nread = 'all'\n\
[[family]]\nview = 'all'\nsubtree = '1.3'\ninclude = true\n";

/// sysName, without a value.
const ASKED: &[u8] = b"\x30\x0b\x06\x07\x2b\x06\x01\x02\x01\x01\x05\x05\x00";

const LIMITS: BulkLimits = BulkLimits {
    rounds: 64,
    repetitions: 32,
    at_once: 100,
    gathered: 262_028,
};

/// What the device is asked, with the community "public" and request-id 99, for two repetitions.
const ASK: &[u8] = b"\x30\x25\x02\x01\x01\x04\x06public\
\xa5\x18\x02\x01\x63\x02\x01\x00\x02\x01\x02\x30\x0d\
\x30\x0b\x06\x07\x2b\x06\x01\x02\x01\x01\x05\x05\x00";

/// What the dialogue for a request asks, and the datagram that asks it.
fn asked(alloc: Global, viewer: &Viewer<'_>) -> Result<(BulkNext, Vec<u8>), Fail> {
    let request = Pdu {
        tag: PduType::GetBulkRequest.tag(),
        id: 7,
        second: 0,
        third: 2,
        list: ASKED,
    };
    let mut dialogue = BulkDialogue::new(alloc, &request, &LIMITS)?;
    let next = dialogue.go_on(viewer);
    let by = BulkAsk::GetBulk(0, 2);
    let ask = write_bulk_ask(alloc, b"public", 99, by, &dialogue)?;
    Ok((next, ask))
}

/// The same for ann.
fn asked_for_ann(alloc: Global) -> Result<(BulkNext, Vec<u8>), Fail> {
    let config = Config::read(alloc, TABLES)?;
    let viewer = Viewer {
        vacm: &config.access,
        model: 3,
        name: b"ann",
        level: Level::NoAuthNoPriv,
        context: b"",
    };
    let asked = asked(alloc, &viewer);
    drop(config);
    asked
}

#[test]
fn a_device_is_asked_for_two_names(rt: HostRuntime) -> Result<(), Fail> {
    let (next, ask) = asked_for_ann(rt.alloc())?;
    assert_eq!(rt; next, BulkNext::Asks(BulkAsk::GetBulk(0, 2)));
    assert_eq!(rt; ask.as_slice(), ASK);
    Ok(())
}
