//! `snmp_walk`: a dialogue in which a device is asked once.
use snmp_ber::Level;
use snmp_msg::{Pdu, PduType};
use snmp_responder::Viewer;
use snmp_walk::{Answered, Dialogue, Next, ReadOperation};
use snmpsec_config::Config;
use std::alloc::Global;
use std::test::Fail;

const TABLES: &[u8] = b"\
[[context]]\nname = ''\n\
[[group]]\nmodel = 3\nname = 'ann'\ngroup = 'readers'\n\
[[access]]\ngroup = 'readers'\nprefix = ''\nmatch = 'exact'\nmodel = 3\nlevel = 'noAuthNoPriv'\nread = 'all'\n\
[[family]]\nview = 'all'\nsubtree = '1.3'\ninclude = true\n";

/// sysName, and sysName.0 with the value "router".
const ASKED: &[u8] = b"\x30\x0b\x06\x07\x2b\x06\x01\x02\x01\x01\x05\x05\x00";

const TOLD: &[u8] = b"\x30\x12\x06\x08\x2b\x06\x01\x02\x01\x01\x05\x00\x04\x06router";

/// What is asked first, what the answer is, what is asked then, and which binding is still open.
type Went = (Next, Answered, Next, Option<usize>);

fn went_on(alloc: Global, viewer: &Viewer<'_>, dialogue: &mut Dialogue) -> Result<Went, Fail> {
    let answer = Pdu {
        tag: PduType::Response.tag(),
        id: 7,
        second: 0,
        third: 0,
        list: TOLD,
    };
    let first = dialogue.go_on(viewer);
    let answered = dialogue.take(alloc, viewer, &answer)?;
    let then = dialogue.go_on(viewer);
    Ok((first, answered, then, dialogue.first_open()))
}

fn went(alloc: Global, viewer: &Viewer<'_>) -> Result<Went, Fail> {
    let request = Pdu {
        tag: PduType::GetNextRequest.tag(),
        id: 7,
        second: 0,
        third: 0,
        list: ASKED,
    };
    let mut dialogue = Dialogue::new(alloc, viewer, ReadOperation::GetNext, &request, 2)?;
    went_on(alloc, viewer, &mut dialogue)
}

/// The dialogue for ann.
fn went_for_ann(alloc: Global) -> Result<Went, Fail> {
    let config = Config::read(alloc, TABLES)?;
    let viewer = Viewer {
        vacm: &config.access,
        model: 3,
        name: b"ann",
        level: Level::NoAuthNoPriv,
        context: b"",
    };
    let went = went(alloc, &viewer);
    drop(config);
    went
}

#[test]
fn a_device_is_asked_once(rt: HostRuntime) -> Result<(), Fail> {
    let (first, answered, then, open) = went_for_ann(rt.alloc())?;
    assert_eq!(rt; first, Next::Asks);
    assert_eq!(rt; answered, Answered::Taken);
    assert_eq!(rt; (then, open), (Next::Ends, None));
    Ok(())
}
