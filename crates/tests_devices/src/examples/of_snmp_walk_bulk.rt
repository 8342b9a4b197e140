//! `snmp_walk`: a dialogue for a GetBulkRequest, of which the device gives two repetitions.
use snmp_ber::Level;
use snmp_msg::{Pdu, PduType};
use snmp_responder::Viewer;
use snmp_walk::{BulkAnswered, BulkAsk, BulkDialogue, BulkLimits, BulkNext};
use snmpsec_config::Config;
use std::alloc::Global;
use std::test::Fail;

const TABLES: &[u8] = b"\
[[context]]\nname = ''\n\
[[group]]\nmodel = 3\nname = 'ann'\ngroup = 'readers'\n\
[[access]]\ngroup = 'readers'\nprefix = ''\nmatch = 'exact'\nmodel = 3\nlevel = 'noAuthNoPriv'\nread = 'all'\n\
[[family]]\nview = 'all'\nsubtree = '1.3'\ninclude = true\n";

/// The group system, and its variables sysName.0 and sysLocation.0.
const ASKED: &[u8] = b"\x30\x0a\x06\x06\x2b\x06\x01\x02\x01\x01\x05\x00";

const TOLD: &[u8] = b"\
\x30\x0d\x06\x08\x2b\x06\x01\x02\x01\x01\x05\x00\x04\x01a\
\x30\x0d\x06\x08\x2b\x06\x01\x02\x01\x01\x06\x00\x04\x01b";

const LIMITS: BulkLimits = BulkLimits {
    rounds: 64,
    repetitions: 32,
    at_once: 100,
    gathered: 262_028,
};

/// What is asked first, what the answer is, what is asked then, and how many bindings there are.
type Went = (BulkNext, BulkAnswered, BulkNext, usize);

fn went_on(alloc: Global, viewer: &Viewer<'_>, dialogue: &mut BulkDialogue) -> Result<Went, Fail> {
    let answer = Pdu {
        tag: PduType::Response.tag(),
        id: 7,
        second: 0,
        third: 0,
        list: TOLD,
    };
    let first = dialogue.go_on(viewer);
    let answered = dialogue.take(alloc, viewer, &answer)?;
    let then = dialogue.go_on(viewer);
    Ok((first, answered, then, dialogue.front(alloc)?.len()))
}

fn went(alloc: Global, viewer: &Viewer<'_>) -> Result<Went, Fail> {
    let request = Pdu {
        tag: PduType::GetBulkRequest.tag(),
        id: 7,
        second: 0,
        third: 2,
        list: ASKED,
    };
    let mut dialogue = BulkDialogue::new(alloc, &request, &LIMITS)?;
    went_on(alloc, viewer, &mut dialogue)
}

/// The dialogue for ann.
fn went_for_ann(alloc: Global) -> Result<Went, Fail> {
    let config = Config::read(alloc, TABLES)?;
    let viewer = Viewer {
        vacm: &config.access,
        model: 3,
        name: b"ann",
        level: Level::NoAuthNoPriv,
        context: b"",
    };
    let went = went(alloc, &viewer);
    drop(config);
    went
}

#[test]
fn a_device_gives_two_repetitions(rt: HostRuntime) -> Result<(), Fail> {
    let (first, answered, then, bindings) = went_for_ann(rt.alloc())?;
    assert_eq!(rt; first, BulkNext::Asks(BulkAsk::GetBulk(0, 2)));
    assert_eq!(rt; answered, BulkAnswered::Taken);
    assert_eq!(rt; (then, bindings), (BulkNext::Ends, 2));
    Ok(())
}
