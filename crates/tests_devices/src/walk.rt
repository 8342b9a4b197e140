//! Dialogues with a device in which a growth is refused.

use snmp_ber::{Level, Oid};
use snmp_msg::{Pdu, PduType};
use snmp_responder::Viewer;
use snmp_walk::{
    Answered, BulkAnswered, BulkAsk, BulkDialogue, BulkLimits, BulkNext, Dialogue, Next,
    ReadOperation,
};
use snmpsec_config::Config;
use std::alloc::{AllocError, Global};
use std::process::Abort;
use std::test::Fail;

/// One may see the group system, but for sysContact.
const TABLES: &[u8] = b"\
[[context]]\nname = ''\n\
[[group]]\nmodel = 3\nname = 'ann'\ngroup = 'readers'\n\
[[access]]\ngroup = 'readers'\nprefix = ''\nmatch = 'exact'\nmodel = 3\nlevel = 'noAuthNoPriv'\nread = 'v'\n\
[[family]]\nview = 'v'\nsubtree = '1.3.6.1.2.1.1'\ninclude = true\n\
[[family]]\nview = 'v'\nsubtree = '1.3.6.1.2.1.1.4'\ninclude = false\n";

/// sysUpTime and sysLocation.
const ASKED: &[u8] = b"\
\x30\x0b\x06\x07\x2b\x06\x01\x02\x01\x01\x03\x05\x00\
\x30\x0b\x06\x07\x2b\x06\x01\x02\x01\x01\x06\x05\x00";

/// What comes next: sysUpTime.0 and sysLocation.0, and then sysContact.0 and sysServices.0.
const TOLD: &[u8] = b"\
\x30\x0d\x06\x08\x2b\x06\x01\x02\x01\x01\x03\x00\x43\x01\x07\
\x30\x0d\x06\x08\x2b\x06\x01\x02\x01\x01\x06\x00\x04\x01b\
\x30\x0d\x06\x08\x2b\x06\x01\x02\x01\x01\x04\x00\x04\x01c\
\x30\x0d\x06\x08\x2b\x06\x01\x02\x01\x01\x07\x00\x02\x01\x48";

/// How many octets of these the first two bindings have.
const FIRST_TWO: usize = 30;

const LIMITS: BulkLimits = BulkLimits {
    rounds: 64,
    repetitions: 32,
    at_once: 100,
    gathered: 262_028,
};

fn config_after_refusal(alloc: Global) -> Result<Config, Fail> {
    match Config::read(alloc, TABLES) {
        Ok(config) => Ok(config),
        Err(_) => Ok(Config::read(alloc, TABLES)?),
    }
}

/// What `ann` may see.
fn viewer_of(config: &Config) -> Viewer<'_> {
    Viewer {
        vacm: &config.access,
        model: 3,
        name: b"ann",
        level: Level::NoAuthNoPriv,
        context: b"",
    }
}

/// A PDU with these bindings.
fn pdu(kind: PduType, third: i32, list: &[u8]) -> Pdu<'_> {
    Pdu {
        tag: kind.tag(),
        id: 7,
        second: 0,
        third,
        list,
    }
}

fn begun_after_refusal(alloc: Global, request: &Pdu<'_>) -> Result<BulkDialogue, AllocError> {
    match BulkDialogue::new(alloc, request, &LIMITS) {
        Ok(dialogue) => Ok(dialogue),
        Err(_) => BulkDialogue::new(alloc, request, &LIMITS),
    }
}

/// How many bindings the front has.
fn front_after_refusal(alloc: Global, dialogue: &BulkDialogue) -> Result<usize, AllocError> {
    match dialogue.front(alloc) {
        Ok(front) => Ok(front.len()),
        Err(_) => Ok(dialogue.front(alloc)?.len()),
    }
}

/// Whether the first column asks for this name.
fn is_asked(dialogue: &BulkDialogue, name: &Oid) -> bool {
    match dialogue.columns().first() {
        Some(column) => column.asked_name() == Some(name),
        None => false,
    }
}

/// A refused answer leaves no repetition, and the name that is asked.
fn assert_asked(rt: &impl Abort, alloc: Global, dialogue: &BulkDialogue) -> Result<(), Fail> {
    let name = Oid::from_text("1.3.6.1.2.1.1.3").ok_or("arcs")?;
    assert_eq!(rt; front_after_refusal(alloc, dialogue)?, 0);
    assert!(rt; is_asked(dialogue, &name));
    Ok(())
}

fn bulk_answered_after_refusal(
    rt: &impl Abort,
    alloc: Global,
    viewer: &Viewer<'_>,
    dialogue: &mut BulkDialogue,
) -> Result<BulkAnswered, Fail> {
    let answer = pdu(PduType::Response, 0, TOLD);
    match dialogue.take(alloc, viewer, &answer) {
        Ok(answered) => Ok(answered),
        Err(_) => {
            assert_asked(rt, alloc, dialogue)?;
            Ok(dialogue.take(alloc, viewer, &answer)?)
        }
    }
}

fn assert_get_bulk(
    rt: &impl Abort,
    alloc: Global,
    viewer: &Viewer<'_>,
    dialogue: &mut BulkDialogue,
) -> Result<(), Fail> {
    assert_eq!(rt;
        dialogue.go_on(viewer),
        BulkNext::Asks(BulkAsk::GetBulk(0, 2))
    );
    let answered = bulk_answered_after_refusal(rt, alloc, viewer, dialogue)?;
    assert_eq!(rt; answered, BulkAnswered::Taken);
    assert_eq!(rt; front_after_refusal(alloc, dialogue)?, 2);
    assert_eq!(rt; dialogue.go_on(viewer), BulkNext::Asks(BulkAsk::GetNext));
    Ok(())
}

fn assert_get_bulk_seen(rt: &impl Abort, alloc: Global, viewer: &Viewer<'_>) -> Result<(), Fail> {
    let request = pdu(PduType::GetBulkRequest, 2, ASKED);
    let mut dialogue = begun_after_refusal(alloc, &request)?;
    assert_get_bulk(rt, alloc, viewer, &mut dialogue)
}

#[test]
fn a_refused_growth_leaves_a_get_bulk(rt: HostRuntime) -> Result<(), Fail> {
    let config = config_after_refusal(rt.alloc())?;
    let seen = assert_get_bulk_seen(&rt, rt.alloc(), &viewer_of(&config));
    drop(config);
    seen
}

fn dialogue_after_refusal(
    alloc: Global,
    viewer: &Viewer<'_>,
    request: &Pdu<'_>,
) -> Result<Dialogue, AllocError> {
    match Dialogue::new(alloc, viewer, ReadOperation::GetNext, request, 2) {
        Ok(dialogue) => Ok(dialogue),
        Err(_) => Dialogue::new(alloc, viewer, ReadOperation::GetNext, request, 2),
    }
}

fn answered_after_refusal(
    rt: &impl Abort,
    alloc: Global,
    viewer: &Viewer<'_>,
    dialogue: &mut Dialogue,
) -> Result<Answered, Fail> {
    let list = TOLD.get(..FIRST_TWO).ok_or("two bindings")?;
    let answer = pdu(PduType::Response, 0, list);
    match dialogue.take(alloc, viewer, &answer) {
        Ok(answered) => Ok(answered),
        Err(_) => {
            assert_eq!(rt; dialogue.first_open(), Some(0));
            Ok(dialogue.take(alloc, viewer, &answer)?)
        }
    }
}

fn assert_get_next(
    rt: &impl Abort,
    alloc: Global,
    viewer: &Viewer<'_>,
    dialogue: &mut Dialogue,
) -> Result<(), Fail> {
    assert_eq!(rt; dialogue.go_on(viewer), Next::Asks);
    let answered = answered_after_refusal(rt, alloc, viewer, dialogue)?;
    assert_eq!(rt; answered, Answered::Taken);
    assert_eq!(rt; dialogue.first_open(), None);
    Ok(())
}

fn assert_get_next_seen(rt: &impl Abort, alloc: Global, viewer: &Viewer<'_>) -> Result<(), Fail> {
    let request = pdu(PduType::GetNextRequest, 0, ASKED);
    let mut dialogue = dialogue_after_refusal(alloc, viewer, &request)?;
    assert_get_next(rt, alloc, viewer, &mut dialogue)
}

#[test]
fn a_refused_growth_leaves_a_get_next(rt: HostRuntime) -> Result<(), Fail> {
    let config = config_after_refusal(rt.alloc())?;
    let seen = assert_get_next_seen(&rt, rt.alloc(), &viewer_of(&config));
    drop(config);
    seen
}
